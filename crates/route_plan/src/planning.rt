// The making of plans.
ghost use Rattle.std.specs.Prelude.{◌≡◌, length, IfErr, IfOk};
ghost use Rattle.platform_model.specs.Reading.{Fails, Gives};
ghost use Rattle.route_plan.specs.Shares.{checked_shares, shares_of, with_scripts, HavePassed};
ghost use Rattle.route_plan.specs.Valid.{planned, IsValid};

use crate::copies::copy_scripts;
use crate::plans::Plan;
use crate::routes::Routes;
use crate::shares::{Share, entries_in_all, logged_in_all, shares};
use platform_model::{Place, PlatformCode, PlatformFault};
use platform_shape::Shape;
use std::alloc::Global;
use tlm_model::Rows;
use traffic_script::Script;

/// The entries that a plan may have at most.
const MOST_ENTRIES: u64 = 1_000_000;

/// The bytes that a plan may log at most.
const MOST_LOGGED: u64 = 67_108_864;

/// The tests of what is counted: `TooManyEntries`, then `TooMuchData`.
#[tactic(auto, unfolding(crate::specs::Shares::checked_shares))]
fn check_shares(alloc: Global, shares: &[Rows<Share>]) -> Result<(), PlatformFault>
    ensures { Gives result (checked_shares shares.now) }
{
    if entries_in_all(shares) > MOST_ENTRIES {
        return Err(Place::Top.refuse(alloc, PlatformCode::TooManyEntries, "-"));
    }
    if logged_in_all(shares) > MOST_LOGGED {
        return Err(Place::Top.refuse(alloc, PlatformCode::TooMuchData, "-"));
    }
    Ok(())
}

/// What each initiator may add to each object, where it is within the limits.
fn counted_shares(
    alloc: Global,
    routes: &Routes,
    scripts: &[Script],
) -> Result<Rows<Rows<Share>>, PlatformFault>
    requires { length scripts.now ≡ length routes.now.initiators }
    ensures counted { IfOk result (λ shares. shares ≡ shares_of (with_scripts routes.now scripts.now)) }
    ensures passed { IfOk result (λ shares. HavePassed shares) }
    ensures refused { IfErr result (λ f. Fails f (checked_shares (shares_of (with_scripts routes.now scripts.now)))) }
{
    let shares = shares(alloc, routes, scripts)?;
    check_shares(alloc, shares.as_slice())?;
    Ok(shares)
}

/// The plan of a shape with the script of each initiator in order, which are copied. It is refused
/// where its scripts may add more than 1,000,000 entries to the objects (`TooManyEntries`), or else
/// log more than 67,108,864 bytes (`TooMuchData`). The only other error is want of memory.
/// Each plan that is made is valid.
pub fn plan(alloc: Global, shape: Shape, scripts: &[Script]) -> Result<Plan, PlatformFault>
    requires { length scripts.now ≡ length shape.initiators }
    ensures read { Gives result (planned (record { platform = shape; scripts = scripts.now })) }
    ensures valid { IfOk result IsValid }
    ensures platform { IfOk result (λ p. p.platform ≡ shape) }
{
    let routes = Routes::of_shape(alloc, shape)?;
    let _ = routes.platform();
    let scripts = copy_scripts(alloc, scripts)?;
    let shares = counted_shares(alloc, &routes, scripts.as_slice())?;
    Ok(Plan::of_parts(routes, scripts, shares))
}
