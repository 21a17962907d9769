// Whole runs on one thread.
ghost use Rattle.std.specs.Prelude.{IfOk};
ghost use Rattle.good_history.specs.GrantLaws.{HasNoInvalidation};
ghost use Rattle.plat_core.specs.Outcome.{IsScheduled, IsTurnOf};
ghost use Rattle.platform_shape.specs.Shape.{IsBlocking};
ghost use Rattle.run_outcome.specs.Outcome.{IsWhole};

use crate::steps::{Core, CoreStep};
use outside::Pace;
use route_plan::Plan;
use run_outcome::Outcome;
use std::alloc::Global;
use tlm_types::Memory;

/// Runs a plan of blocking initiators whose scripts don't invalidate (`can_run` tells) by a schedule:
/// each of its numbers that names an actor gives that actor a step, and the others are passed over. The
/// actors are the initiators, the routers and the memories, numbered in this order.
pub(crate) fn run_blocking_schedule(
    alloc: Global,
    plan: &Plan,
    schedule: &[u32],
) -> Result<Outcome, Memory>
    requires blocking { IsBlocking plan.now.platform }
    requires quiet { HasNoInvalidation plan.now }
    ensures { IfOk result (IsScheduled plan.now schedule.now) }
{
    let mut core = Core::new(alloc, plan)?;
    for number in schedule {
        take_number(&mut core, *number);
    }
    core.into_outcome()
}

// A step of the actor of this number, if there is one.
fn take_number(core: &mut Core<'_>, number: u32)
    ensures { IsTurnOf core.old number core.new }
{
    if number < core.actors() {
        core.step(number);
    }
}

/// Runs a plan of blocking initiators whose scripts don't invalidate (`can_run` tells) to its end: each
/// initiator in order goes on until it has finished or waits for one that is behind, and again from the
/// first one, until all have finished. The pace is told of each access and debug read that a script
/// asks for.
pub fn run_in_order<P: Pace>(alloc: Global, plan: &Plan, pace: &P) -> Result<Outcome, Memory>
    requires blocking { IsBlocking plan.now.platform }
    requires quiet { HasNoInvalidation plan.now }
    ensures { IfOk result (IsWhole plan.now) }
{
    let mut core = Core::new(alloc, plan)?;
    while !core.has_finished() {
        core.go_round(pace);
    }
    core.into_outcome()
}
