// The move that takes a payload for the access that is next.
ghost use Rattle.std.specs.Prelude.{◌≡◌, ◌⊎◌, None};
ghost use Rattle.view_lists.specs.Lists.{Within};
ghost use Rattle.script_engine.specs.declared.part.Part.TheVariants.{Asks};
ghost use Rattle.script_engine.specs.Part.{is_fenced_kind};
ghost use Rattle.script_engine.specs.State.{next_of};
ghost use Rattle.port_moves.specs.declared.hand.Hand.TheVariants as Hands;
ghost use Rattle.port_moves.specs.declared.hand.Pumped.TheVariants as Pumps;
ghost use Rattle.fourphase_port.specs.Moves.{AddsOwn, FindsFull, MayTakeNext, Takes};
ghost use Rattle.port_moves.specs.Moved.{ends, made};
ghost use Rattle.port_moves.specs.State.{IsPort, with_note};

use cargo_net::{Taken, TlmLaw};
use plat_net::{Net, PlatNote, Sharing};
use port_moves::{Moved, PortState, Pumped, pool_place};
use route_plan::Plan;
use script_engine::Transfer;
use shared_object::Naming;
use std::sync::Wait;
use tlm_types::TxnId;

/// Takes a payload for the access that is next, at the current time, and fills it (IEEE 1666-2011, clause
/// 14.5). It is outstanding from then on. Where all slots of the pool are live, nothing changes but the
/// note, and the pump ends with `Nothing`.
pub(crate) fn take<N: Naming<Plan, TlmLaw>, S: Sharing<N>, R: Wait>(
    state: &mut PortState,
    rt: &R,
    net: &Net<N, S>,
    note: PlatNote,
    transfer: Transfer,
) -> (Moved, PlatNote)
    requires port { IsPort N.table N.tokens N.frame (with_note state.old note) }
    requires free { (state.old.hand ≡ Hands.Free) × (state.old.held ≡ None) }
    requires next { next_of state.old.port.engine ≡ Asks transfer }
    requires may { MayTakeNext state.old.port transfer }
    ensures port { IsPort N.table N.tokens N.frame (with_note state.new result.1) }
    ensures knew { Within note.knows.known result.1.knows.known }
    ensures adds { AddsOwn N.frame (with_note state.old note) (with_note state.new result.1) result.0 }
    ensures taken { (Takes N.frame (is_fenced_kind transfer.kind) (with_note state.old note) (with_note state.new result.1) × (result.0 ≡ made))
        ⊎ (FindsFull N.frame (with_note state.old note) (with_note state.new result.1) × (result.0 ≡ ends Pumps.Nothing)) }
{
    let initiator = state.initiator();
    let seq = transfer.seq;
    let txn = TxnId { initiator, seq };
    let pool = pool_place(net, initiator);
    let ticket = state.pull(net.tickets(), pool);
    match net.take(rt, initiator, note, ticket, txn, state.time()) {
        Taken::Full { ticket, note } => {
            state.put_ticket(net.tickets(), pool, ticket);
            (Moved::ends(false, Pumped::Nothing), note)
        }
        Taken::Took { baton, note } => {
            state.load(net, transfer, baton);
            (Moved::made(), note)
        }
    }
}
