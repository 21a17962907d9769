// The outcome of what is left.
ghost use Rattle.std.specs.Prelude.{◌≡◌};
ghost use Rattle.one_history.specs.Closing.{Numbered};
ghost use Rattle.one_history.specs.Seats.{Tell};
ghost use Rattle.plat_net.specs.Objects.{frame_of};
ghost use Rattle.route_plan.specs.Valid.{IsValid};
ghost use Rattle.run_outcome.specs.Outcome.{IsWhole};
ghost use Rattle.plat_end.specs.End.{HaveAllTold};
ghost use Rattle.plat_end.specs.Entries.{entries_read};
ghost use Rattle.plat_end.specs.Run.{IsCoreRun};

use crate::apart::Apart;
use one_history::{Closed, Sealed};
use plat_net::{PlatHistory, PlatNote, TlmLaw};
use route_plan::Plan;
use run_outcome::{MergedLog, Outcome};
use shared_object::Naming;
use tlm_model::Rows;
use tlm_types::{Content, EndOf};

/// The history of a run that has ended.
pub type PlatSealed = Sealed<Content, Plan, TlmLaw>;

/// Seals the history, and makes the outcome of what the initiators and the objects have left. The notes tell what the
/// initiators knew at the end: each has its own, or they had one in turn. It takes no memory.
pub fn seal<N: Naming<Plan, TlmLaw>>(
    history: PlatHistory,
    ends: Vec<EndOf>,
    notes: Vec<PlatNote>,
    apart: Apart,
) -> (Outcome, PlatSealed)
    requires history { (history.table ≡ N.table) × (history.frame ≡ N.frame) }
    requires frame { N.frame ≡ frame_of N.frame.world }
    requires valid { IsValid N.frame.world }
    requires left { HaveAllTold N.table N.tokens N.frame ends.items notes.items apart.logs.items apart.stores.items apart.seats.items }
    ensures whole { IsWhole N.frame.world result.0 }
    ensures core { IsCoreRun N.frame.world result.0.history.entries }
    ensures sealed { entries_read N.frame.world.platform result.1.entries ≡ result.0.history.entries }
    ensures world { (result.1.table ≡ N.table) × (result.1.world ≡ N.frame.world) }
    ensures numbered { Numbered result.1.entries }
    ensures told { Tell notes.items 0 result.1.entries }
{
    let Apart {
        logs,
        stores,
        seats,
    } = apart;
    let Closed::Done(sealed) = history.close(seats, notes) else {
        unreachable!()
    };
    let outcome = Outcome {
        history: MergedLog::of_logs(logs, sealed.len()),
        stores: Rows::from_vec(stores),
        ends: Rows::from_vec(ends),
        complete: true,
    };
    (outcome, sealed)
}
