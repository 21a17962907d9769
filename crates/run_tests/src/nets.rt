// Nets that were just built.
ghost use Rattle.std.specs.Prelude.{◌≡◌, ◌<◌, length};
ghost use Rattle.plat_net.specs.Objects.{frame_of};

use crate::bench::plan_of;
use crate::phase_schedules::ON_BUS;
use node_hops::Node;
use plat_build::{Opened, build, close_unused};
use plat_net::{ManyThreads, Net, TlmLaw};
use route_plan::Plan;
use router_node::RouterNode;
use shared_object::Naming;
use std::alloc::Global;
use std::marker::Brand;
use std::process::Abort;
use std::sync::Wait;
use target_node::TargetNode;
use tlm_types::Memory;

// A router of a net that was just made holds nothing, and a memory has nothing to do.
fn expect_idle<N: Naming<Plan, TlmLaw>>(rt: &impl Abort, alloc: Global, net: &Net<N, ManyThreads>)
    requires router { 0 < length N.frame.world.platform.routers }
    requires memory { 0 < length N.frame.world.platform.memories }
{
    let router = RouterNode::new(alloc, net, 0).expect(rt, "memory");
    router.finish();
    let target = TargetNode::new(alloc, net, 0).expect(rt, "memory");
    assert!(rt; !target.may_move(net));
}

// How many entries the history of a new net has, whose router and memory are idle. The call picks N.
fn entries_of_new<N: Naming<Plan, TlmLaw>, R: Wait + Abort>(
    rt: &R,
    alloc: Global,
    plan: &Plan,
    opened: Opened,
) -> Result<u64, Memory>
    requires history { (opened.table ≡ N.table) × (opened.frame ≡ N.frame) }
    requires tickets { opened.tokens ≡ N.tokens }
    requires frame { N.frame ≡ frame_of plan.now }
    requires plan { plan.now ≡ N.frame.world }
{
    assert!(rt; plan.platform().routers.as_slice().len() > 0);
    assert!(rt; plan.platform().memories.as_slice().len() > 0);
    let built = build::<N, ManyThreads>(alloc, opened, plan)?;
    expect_idle::<N>(rt, alloc, &built.net);
    Ok(close_unused(rt, alloc, built)?.len())
}

#[test]
fn history_of_a_new_net_is_empty(rt: HostRuntime) {
    let plan = plan_of(rt.alloc(), ON_BUS, &["write 0x0 aabb\n"]).expect(&rt, "a plan");
    let opened = Opened::new(rt.alloc(), &plan).expect(&rt, "a history");
    let entries = entries_of_new::<Brand, HostRuntime>(&rt, rt.alloc(), &plan, opened);
    assert!(rt; entries == Ok(0));
}
