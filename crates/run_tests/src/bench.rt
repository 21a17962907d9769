// The plans of a platform's text with the scripts of its initiators.
ghost use Rattle.std.specs.Prelude.{IfSome};
ghost use Rattle.platform_shape.specs.Shape.{IsBlocking};
ghost use Rattle.route_plan.specs.Valid.{IsValid};

use platform_file::read_platform;
use platform_shape::{is_blocking, shape};
use route_plan::{Plan, plan};
use std::alloc::Global;
use std::process::Abort;
use traffic_script::{Script, read_script};

// The scripts with these texts. None where one is refused, or memory is.
fn scripts_of(alloc: Global, texts: &[&str]) -> Option<Vec<Script>> {
    let mut scripts = Vec::new(alloc);
    for text in texts {
        let script = read_script(alloc, text.as_bytes(), 1).ok()?;
        scripts.push(script).ok()?;
    }
    Some(scripts)
}

/// The plan of the platform with this text and the scripts with these texts, one for each initiator in
/// order. None where a text is refused, where their numbers differ, or where memory is refused.
pub(crate) fn plan_of(alloc: Global, platform: &str, scripts: &[&str]) -> Option<Plan>
    ensures { IfSome result IsValid }
{
    let scripts = scripts_of(alloc, scripts)?;
    let platform = read_platform(alloc, platform.as_bytes()).ok()?;
    let shape = shape(alloc, &platform).ok()?;
    if scripts.len() != shape.platform().initiators.as_slice().len() {
        return None;
    }
    plan(alloc, shape, scripts.as_slice()).ok()
}

/// The plan of this platform with these scripts, one for each initiator. All initiators are blocking.
pub(crate) fn blocking_plan(
    rt: &impl Abort,
    alloc: Global,
    platform: &str,
    scripts: &[&str],
) -> Plan
    ensures { IsBlocking result.platform }
{
    let plan = plan_of(alloc, platform, scripts).expect(rt, "a plan");
    assert!(rt; is_blocking(plan.platform()));
    plan
}
