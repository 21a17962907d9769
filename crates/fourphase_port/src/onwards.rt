// How a port goes on in its script.
ghost use Rattle.std.specs.Prelude.{◌≡◌, ◌⊎◌, IfNone, IfSome, length, None, Some};
ghost use Rattle.view_lists.specs.Lists.{Within};
ghost use Rattle.script_engine.specs.declared.part.Part.TheVariants.{Asks, Ends};
ghost use Rattle.script_engine.specs.declared.part.Transfer.{Transfer as TransferView};
ghost use Rattle.script_engine.specs.declared.part.TransferKind.TheVariants as kinds;
ghost use Rattle.script_engine.specs.State.{next_of};
ghost use Rattle.port_model.specs.Issues.{IsPlainKind, IsPlainPart};
ghost use Rattle.port_model.specs.Laws.{HasSettled};
ghost use Rattle.port_moves.specs.declared.hand.Hand.TheVariants as Hands;
ghost use Rattle.port_moves.specs.declared.hand.Pumped.TheVariants as Pumps;
ghost use Rattle.port_moves.specs.Moved.{ends};
ghost use Rattle.fourphase_port.specs.Moves.{AddsOwn, LooksLive, ReadsDebug};
ghost use Rattle.fourphase_port.specs.Pumps.{DoesKind, DoesNext, GoesOn, read_moved};
ghost use Rattle.port_moves.specs.State.{IsPort, with_note};

use crate::revokes::invalidate;
use crate::takes::take;
use cargo_net::TlmLaw;
use plat_net::{Carried, Net, PlatNote, Sharing};
use port_moves::{Moved, PortState, Pumped};
use route_plan::Plan;
use script_engine::{Part, Transfer, TransferKind};
use shared_object::Naming;
use std::sync::Wait;
use tlm_types::TxnId;

// The access that is next, where it is a plain one: nothing has to come back before it.
fn plain_access(part: Part) -> Option<Transfer>
    ensures plain { IfSome result (λ x. (part ≡ Asks x) × IsPlainKind x.kind) }
    ensures other { IfNone result (IsPlainPart part → ⊥) }
{
    let Part::Asks(transfer) = part else {
        return None;
    };
    match transfer.kind {
        TransferKind::Access { fenced: false, .. } => Some(transfer),
        _ => None,
    }
}

// Whether a pump may find something to do, by what the net tells of the first hop and of the pool.
pub(crate) fn may_move<N: Naming<Plan, TlmLaw>, S: Sharing<N>>(
    state: &PortState,
    net: &Net<N, S>,
) -> bool {
    let initiator = state.initiator();
    if net.may_have_response(initiator) {
        return true;
    }
    if state.holds() {
        return net.may_begin(initiator);
    }
    match plain_access(state.part()) {
        Some(_) => net.may_take(initiator),
        None => state.is_alone(),
    }
}

/// What comes once no response waits: a request that was refused is tried again; else the next plain
/// access is taken; else, once nothing is outstanding, the current time is settled, and what is next is
/// done.
pub(crate) fn go_on<N: Naming<Plan, TlmLaw>, S: Sharing<N>, R: Wait>(
    state: &mut PortState,
    rt: &R,
    net: &Net<N, S>,
    note: PlatNote,
) -> (Moved, PlatNote)
    requires port { IsPort N.table N.tokens N.frame (with_note state.old note) }
    requires free { state.old.hand ≡ Hands.Free }
    ensures port { IsPort N.table N.tokens N.frame (with_note state.new result.1) }
    ensures knew { Within note.knows.known result.1.knows.known }
    ensures adds { AddsOwn N.frame (with_note state.old note) (with_note state.new result.1) result.0 }
    ensures moved { GoesOn N.frame state.old.held (with_note state.old note) (with_note state.new result.1) result.0 }
{
    if let Some(cargo) = state.take_held() {
        return state.begin(rt, net, note, cargo, Pumped::Nothing);
    }
    let part = state.part();
    if let Some(transfer) = plain_access(part) {
        return take(state, rt, net, note, transfer);
    }
    if !state.is_alone() {
        return (Moved::ends(false, Pumped::Nothing), note);
    }
    do_next(state, rt, net, note, part)
}

// What is next but a plain access, where nothing is outstanding.
fn do_next<N: Naming<Plan, TlmLaw>, S: Sharing<N>, R: Wait>(
    state: &mut PortState,
    rt: &R,
    net: &Net<N, S>,
    note: PlatNote,
    part: Part,
) -> (Moved, PlatNote)
    requires port { IsPort N.table N.tokens N.frame (with_note state.old note) }
    requires free { (state.old.hand ≡ Hands.Free) × (state.old.held ≡ None) }
    requires next { next_of state.old.port.engine ≡ part }
    requires other { IsPlainPart part → ⊥ }
    requires alone { length state.old.port.away ≡ 0 }
    ensures port { IsPort N.table N.tokens N.frame (with_note state.new result.1) }
    ensures knew { Within note.knows.known result.1.knows.known }
    ensures adds { AddsOwn N.frame (with_note state.old note) (with_note state.new result.1) result.0 }
    ensures does { DoesNext N.frame part (with_note state.old note) (with_note state.new result.1) result.0 }
{
    match part {
        Part::Ends => finish(state, rt, net, note),
        Part::Pauses(pause) => {
            state.settle();
            state.pass(pause);
            (Moved::ends(false, Pumped::Did), note)
        }
        Part::Asks(transfer) => {
            state.settle();
            do_alone(state, rt, net, note, transfer)
        }
        Part::Invalidates {
            seq,
            address,
            length,
        } => {
            state.settle();
            invalidate(state, rt, net, note, seq, address, length)
        }
    }
}

// A transfer before which all has come back.
fn do_alone<N: Naming<Plan, TlmLaw>, S: Sharing<N>, R: Wait>(
    state: &mut PortState,
    rt: &R,
    net: &Net<N, S>,
    note: PlatNote,
    transfer: Transfer,
) -> (Moved, PlatNote)
    requires port { IsPort N.table N.tokens N.frame (with_note state.old note) }
    requires free { (state.old.hand ≡ Hands.Free) × (state.old.held ≡ None) }
    requires settled { HasSettled state.old.port }
    requires next { next_of state.old.port.engine ≡ Asks transfer }
    requires other { IsPlainKind transfer.kind → ⊥ }
    ensures port { IsPort N.table N.tokens N.frame (with_note state.new result.1) }
    ensures knew { Within note.knows.known result.1.knows.known }
    ensures adds { AddsOwn N.frame (with_note state.old note) (with_note state.new result.1) result.0 }
    ensures does { DoesKind N.frame transfer.kind (with_note state.old note) (with_note state.new result.1) result.0 }
{
    match transfer.kind {
        TransferKind::Access { .. } => take(state, rt, net, note, transfer),
        TransferKind::DebugRead => read(state, rt, net, note, transfer),
    }
}

// Makes the debug read that is next, at the current time, and goes on after it (IEEE 1666-2011, clause
// 11.3). Without a route it is noted as refused, and makes no entry.
fn read<N: Naming<Plan, TlmLaw>, S: Sharing<N>, R: Wait>(
    state: &mut PortState,
    rt: &R,
    net: &Net<N, S>,
    note: PlatNote,
    transfer: Transfer,
) -> (Moved, PlatNote)
    requires port { IsPort N.table N.tokens N.frame (with_note state.old note) }
    requires free { (state.old.hand ≡ Hands.Free) × (state.old.held ≡ None) }
    requires settled { HasSettled state.old.port }
    requires next { next_of state.old.port.engine ≡ Asks transfer }
    requires kind { transfer.kind ≡ kinds.DebugRead }
    ensures port { IsPort N.table N.tokens N.frame (with_note state.new result.1) }
    ensures knew { Within note.knows.known result.1.knows.known }
    ensures adds { AddsOwn N.frame (with_note state.old note) (with_note state.new result.1) result.0 }
    ensures read { ReadsDebug N.frame (with_note state.old note) (with_note state.new result.1) }
    ensures moved { (x : TransferView) → next_of state.old.port.engine ≡ Asks x → result.0 ≡ read_moved N.frame.world (with_note state.old note) x }
{
    let initiator = state.initiator();
    let seq = transfer.seq;
    let txn = TxnId { initiator, seq };
    let routed = net.plan().route(initiator, transfer.address).is_some();
    let mut payload = state.take_payload();
    state.fill(&mut payload);
    let Carried {
        payload,
        note,
        at: _,
    } = state.ask(rt, net, initiator, payload, note, txn);
    state.put_payload(payload);
    state.note_read(net.plan(), transfer);
    (Moved::ends(routed, Pumped::Did), note)
}

// The script has ended and nothing is outstanding: the port has finished once no slot of its pool is live.
fn finish<N: Naming<Plan, TlmLaw>, S: Sharing<N>, R: Wait>(
    state: &mut PortState,
    rt: &R,
    net: &Net<N, S>,
    note: PlatNote,
) -> (Moved, PlatNote)
    requires port { IsPort N.table N.tokens N.frame (with_note state.old note) }
    requires free { (state.old.hand ≡ Hands.Free) × (state.old.held ≡ None) }
    requires none { length state.old.port.away ≡ 0 }
    requires done { next_of state.old.port.engine ≡ Ends }
    ensures same { state.new ≡ state.old }
    ensures port { IsPort N.table N.tokens N.frame (with_note state.new result.1) }
    ensures knew { Within note.knows.known result.1.knows.known }
    ensures adds { AddsOwn N.frame (with_note state.old note) (with_note state.new result.1) result.0 }
    ensures ended { (LooksLive N.frame 0 (with_note state.old note) (with_note state.new result.1) × (result.0 ≡ ends Pumps.Finished))
        ⊎ (LooksLive N.frame 7 (with_note state.old note) (with_note state.new result.1) × (result.0 ≡ ends Pumps.Nothing)) }
{
    let (live, note) = net.live(rt, state.initiator(), note);
    if live == 0 {
        return (Moved::ends(false, Pumped::Finished), note);
    }
    (Moved::ends(false, Pumped::Nothing), note)
}
