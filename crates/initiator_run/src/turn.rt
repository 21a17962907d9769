// A turn of an initiator: its moves up to and with its next entry.
ghost use Rattle.std.specs.Prelude.{◌≡◌, ◌<◌, length, false};
ghost use Rattle.time_board.specs.Rounds.{AreClose};
ghost use Rattle.initiator_run.specs.Access.{cost_next};
ghost use Rattle.initiator_run.specs.Board.{HasGoneOn, IsInRound};
ghost use Rattle.initiator_run.specs.Moves.{HasReached, IsUnderWay, Keeps};
ghost use Rattle.initiator_run.specs.Run.{Run};
ghost use Rattle.initiator_run.specs.Turns.{HasRoomAt, IsTurn};
ghost use Rattle.route_plan.specs.declared.step.Route.{Route as RouteView};
ghost use Rattle.script_engine.specs.declared.part.Transfer.{Transfer as TransferView};

use crate::run::{InitiatorRun, NextInvalidation, Stop};
use generic_payload::Payload;
use outside::Pace;
use region_object::Region;
use route_plan::Plan;
use time_board::Rounds;

/// How a turn ended.
pub enum Turn {
    /// With one more entry.
    Made,
    /// At an invalidation that has a route. Who took the turn makes it, and tells the run by
    /// `InitiatorRun::pass_invalidation`.
    Invalidates(NextInvalidation),
    /// At a sync that isn't let through before others have moved.
    Waits,
    /// At the end of the script.
    Ended,
}

/// Makes the moves of a run up to and with its next entry, which has this position, as far as the
/// rounds let it. The memory of each access that the run may come to has room for its entry and for the
/// bytes of its payload.
pub fn take_turn<P: Pace>(
    plan: &Plan,
    run: &mut InitiatorRun,
    rounds: &mut Rounds,
    regions: &mut [Region],
    position: u64,
    payload: &mut Payload,
    pace: &P,
) -> Turn
    requires way { IsUnderWay plan.now run.old }
    requires going { run.old.finished ≡ false }
    requires round { IsInRound rounds.old run.old.engine.initiator run.old }
    requires close { AreClose rounds.old }
    requires roomy { payload.old.room ≡ 4096 }
    requires room { (middle : Run) (x : TransferView) (route : RouteView) → Keeps plan.now run.old middle → HasReached plan.now middle x route → HasRoomAt regions.old route.memory (cost_next middle) }
    ensures turn { IsTurn plan.now run.old run.new rounds.new regions.old regions.new position result }
    ensures rounds { HasGoneOn run.old run.new rounds.old rounds.new }
    ensures roomy { payload.new.room ≡ 4096 }
{
    let next = match run.advance(plan, rounds, payload, pace) {
        Stop::Reached(next) => next,
        Stop::Invalidates(next) => return Turn::Invalidates(next),
        Stop::Waits => return Turn::Waits,
        Stop::Ended => return Turn::Ended,
    };
    let region = &mut regions[next.route.memory as usize];
    run.access(region, &next, position, payload);
    Turn::Made
}
