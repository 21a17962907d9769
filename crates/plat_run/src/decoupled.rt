// A turn of a blocking or direct initiator.
ghost use Rattle.std.specs.Prelude.{◌≡◌, ◌≢◌, ◌↔◌, true, false};
ghost use Rattle.initiator_run.specs.Steps.{StepsOnce};
ghost use Rattle.plat_run.specs.Turn.{is_held_back};

use crate::turn::JobTurn;
use decoupled_run::DecoupledInitiator;
use outside::Pace;
use plat_net::{Reach, Sharing, TlmLaw};
use route_plan::Plan;
use shared_object::Naming;
use std::sync::Wait;
use time_board::{Advance, Board};

/// At most one access or debug read with the grant that is asked for after it, or one other operation, and the sync that
/// is due after it. If the board doesn't let that sync through, the turn ends, and the next one begins with it. The pace
/// is told of an access or a debug read before it is made, while no lock is held.
pub(crate) fn turn<N: Naming<Plan, TlmLaw>, S: Sharing<N>, B: Reach<N, S>, P: Pace, R: Wait>(
    job: &mut DecoupledInitiator<N>,
    rt: &R,
    reach: &mut B,
    board: &Board,
    pace: &P,
) -> JobTurn
    ensures number { job.new.engine.initiator ≡ job.old.engine.initiator }
    ensures once { StepsOnce job.old.engine job.new.engine }
    ensures held { (is_held_back result ≡ true) ↔ (job.new.round ≢ job.new.syncs) }
{
    let first = sync(job, rt, board);
    if first.is_held_back() {
        return first;
    }
    job.go_on(rt, reach, pace);
    sync(job, rt, board).after(first)
}

/// A turn, unless it has finished, and whether it needs more. Once it has finished it no longer holds others back.
pub(crate) fn visit<N: Naming<Plan, TlmLaw>, S: Sharing<N>, B: Reach<N, S>, P: Pace, R: Wait>(
    job: &mut DecoupledInitiator<N>,
    rt: &R,
    reach: &mut B,
    board: &Board,
    pace: &P,
) -> bool
    ensures number { job.new.engine.initiator ≡ job.old.engine.initiator }
    ensures more { (result ≡ true) ↔ (job.new.finished ≡ false) }
{
    if job.done() {
        return false;
    }
    let _ = turn(job, rt, reach, board, pace);
    let done = job.done();
    if done {
        board.finish(rt, job.number());
    }
    !done
}

// Makes its last sync at the board, if that was not let through yet.
#[inline(always)]
fn sync<N: Naming<Plan, TlmLaw>, R: Wait>(
    job: &mut DecoupledInitiator<N>,
    rt: &R,
    board: &Board,
) -> JobTurn
    ensures engine { job.new.engine ≡ job.old.engine }
    ensures held { (is_held_back result ≡ true) ↔ (job.new.round ≢ job.new.syncs) }
{
    if !job.owes_sync() {
        return JobTurn::WentOn;
    }
    let (answer, reached) = board.advance_and_look(rt, job.number());
    let Advance::Advanced { round } = answer else {
        return JobTurn::HeldBack { reached };
    };
    job.pass_sync();
    if reached == round {
        JobTurn::Opened { round }
    } else {
        JobTurn::WentOn
    }
}
