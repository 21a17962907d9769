// What a port does where it invalidates.
ghost use Rattle.std.specs.Prelude.{◌≡◌, ◌<◌, is_some, length, None};
ghost use Rattle.view_lists.specs.Lists.{Within};
ghost use Rattle.shared_object.specs.Steps.{IsNote};
ghost use Rattle.shared_object.specs.Written.{written_at};
ghost use Rattle.token_book.specs.Purse.{IsOf, left_of};
ghost use Rattle.script_engine.specs.declared.part.Part.TheVariants.{Invalidates};
ghost use Rattle.script_engine.specs.State.{next_of};
ghost use Rattle.plat_net.specs.Calls.{HasNoPassage, route_at};
ghost use Rattle.port_model.specs.Laws.{HasSettled};
ghost use Rattle.dmi_grants.specs.Made.{IsRoomyFor, unclosed};
ghost use Rattle.port_moves.specs.declared.hand.Hand.TheVariants as Hands;
ghost use Rattle.fourphase_port.specs.Moves.{AddsOwn, InvalidatesNext};
ghost use Rattle.fourphase_port.specs.Pumps.{invalidation_moved};
ghost use Rattle.fourphase_port.specs.Revoking.{HasRevoked, MayRevoke, Revokes};
ghost use Rattle.port_moves.specs.State.{IsPort, with_note};

use cargo_net::TlmLaw;
use plat_net::{Net, PlatNote, Sharing};
use port_moves::{Moved, PortState, Pumped};
use route_plan::{Plan, Route};
use shared_object::Naming;
use std::sync::Wait;
use tlm_types::TxnId;

// The call of an invalidation of so many bytes from where a route leads, at the current time, with tickets of its wallet.
fn tell<N: Naming<Plan, TlmLaw>, S: Sharing<N>, R: Wait>(
    state: &mut PortState,
    rt: &R,
    net: &Net<N, S>,
    route: Route,
    count: u64,
    note: PlatNote,
    txn: TxnId,
) -> PlatNote
    requires memory { route.memory < length N.frame.world.platform.memories }
    requires passage { HasNoPassage N.frame.world txn }
    requires note { IsNote N.table note }
    requires wallet { IsOf N.tokens state.old.wallet }
    requires room { IsRoomyFor route.memory state.old.wallet }
    requires tickets { unclosed N.frame.world route.memory (written_at route.memory note.knows.known) < left_of state.old.wallet route.memory }
    ensures state { state.new ≡ (let wallet = state.new.wallet in record state.old { wallet = wallet }) }
    ensures note { IsNote N.table result }
    ensures knew { Within note.knows.known result.knows.known }
    ensures revoked { HasRevoked N.tokens N.frame route txn state.old.port.time count note result state.old.wallet state.new.wallet }
{
    let at = state.time();
    let last = route.offset.saturating_add(count.saturating_sub(1));
    let wallet = state.wallet_mut();
    let note = dmi_grants::invalidate(
        net,
        rt,
        route.memory,
        route.offset,
        last,
        note,
        wallet,
        txn,
        at,
    );
    state.tidy(net.tickets());
    note
}

// Where its address has a route. It answers whether it has: else nothing was done.
fn revoke<N: Naming<Plan, TlmLaw>, S: Sharing<N>, R: Wait>(
    state: &mut PortState,
    rt: &R,
    net: &Net<N, S>,
    who: u32,
    address: u64,
    count: u64,
    note: PlatNote,
    txn: TxnId,
) -> (bool, PlatNote)
    requires who { who < length N.frame.world.platform.initiators }
    requires may { MayRevoke N.tokens N.frame who txn address note state.old.wallet }
    requires note { IsNote N.table note }
    ensures state { state.new ≡ (let wallet = state.new.wallet in record state.old { wallet = wallet }) }
    ensures note { IsNote N.table result.1 }
    ensures knew { Within note.knows.known result.1.knows.known }
    ensures revoked { Revokes N.tokens N.frame who txn state.old.port.time address count note result.1 state.old.wallet state.new.wallet }
    ensures routed { result.0 ≡ is_some (route_at N.frame.world who address) }
{
    let Some(route) = net.plan().route(who, address) else {
        return (false, note);
    };
    let note = tell(state, rt, net, route, count, note, txn);
    (true, note)
}

// Makes the invalidation that is next, at the current time, and goes on after it (IEEE 1666-2011, clause
// 11.2.6). It ends with all entries of it made. Without a route there are none.
pub(crate) fn invalidate<N: Naming<Plan, TlmLaw>, S: Sharing<N>, R: Wait>(
    state: &mut PortState,
    rt: &R,
    net: &Net<N, S>,
    note: PlatNote,
    seq: u64,
    address: u64,
    count: u64,
) -> (Moved, PlatNote)
    requires port { IsPort N.table N.tokens N.frame (with_note state.old note) }
    requires free { (state.old.hand ≡ Hands.Free) × (state.old.held ≡ None) }
    requires settled { HasSettled state.old.port }
    requires next { next_of state.old.port.engine ≡ Invalidates seq address count }
    ensures port { IsPort N.table N.tokens N.frame (with_note state.new result.1) }
    ensures knew { Within note.knows.known result.1.knows.known }
    ensures adds { AddsOwn N.frame (with_note state.old note) (with_note state.new result.1) result.0 }
    ensures invalidated { InvalidatesNext N.frame address count (with_note state.old note) (with_note state.new result.1) }
    ensures moved { result.0 ≡ invalidation_moved N.frame.world (with_note state.old note) address }
{
    let initiator = state.initiator();
    let txn = TxnId { initiator, seq };
    let (routed, note) = revoke(state, rt, net, initiator, address, count, note, txn);
    state.go_past();
    (Moved::ends(routed, Pumped::Did), note)
}
