// An invalidation of a port that is stepped: it is told in one entry, and closes the grants that it ends in one each.
ghost use Rattle.std.specs.Prelude.{◌≡◌, ◌≢◌, ◌<◌, IfSome, IsTrue, None, length};
ghost use Rattle.view_lists.specs.Lists.{Within};
ghost use Rattle.one_history.specs.Lists.{StandBelow};
ghost use Rattle.shared_object.specs.Steps.{IsNote};
ghost use Rattle.node_hops.specs.Steps.{HasNew, IsAccessOf};
ghost use Rattle.dmi_grants.specs.declared.invalidation.Ending.TheVariants as Endings;
ghost use Rattle.port_moves.specs.State.{IsPort, with_note};
ghost use Rattle.port_moves.specs.declared.hand.Hand.TheVariants as Hands;
ghost use Rattle.fourphase_port.specs.Closing.{IsClosing, IsToTell};

use cargo_net::TlmLaw;
use dmi_grants::{Ending, Revocation, begin_invalidation, end_next_grant};
use plat_net::{Net, PlatNote, Sharing};
use port_moves::PortState;
use route_plan::{Plan, Route};
use script_engine::Part;
use shared_object::Naming;
use std::sync::Wait;
use tlm_types::TxnId;

/// An invalidation that is to be told: its number, where its address leads, and how many bytes it has.
pub(crate) struct Told {
    pub(crate) seq: u64,
    pub(crate) route: Route,
    pub(crate) count: u64,
}

// Whether a port works on nothing and waits for nothing.
fn is_idle(state: &PortState) -> bool
    ensures { IsTrue result → (state.now.hand ≡ Hands.Free) × (state.now.held ≡ None) × (length state.now.port.away ≡ 0) }
{
    state.is_free() && !state.holds() && state.is_alone()
}

/// The invalidation that is to be told now, if one is: it is next and has a route, and the port works on nothing and waits
/// for nothing.
pub(crate) fn to_tell<N: Naming<Plan, TlmLaw>, S: Sharing<N>>(
    state: &PortState,
    net: &Net<N, S>,
) -> Option<Told>
    requires { state.now.port.engine.initiator < length N.frame.world.platform.initiators }
    ensures { IfSome result (IsToTell N.frame.world state.now) }
{
    if !is_idle(state) {
        return None;
    }
    let Part::Invalidates {
        seq,
        address,
        length,
    } = state.part()
    else {
        return None;
    };
    let Some(route) = net.plan().route(state.initiator(), address) else {
        return None;
    };
    Some(Told {
        seq,
        route,
        count: length,
    })
}

/// Settles the time and tells the invalidation, in one entry (IEEE 1666-2011, clause 11.2.6).
pub(crate) fn tell<N: Naming<Plan, TlmLaw>, S: Sharing<N>, R: Wait>(
    state: &mut PortState,
    rt: &R,
    net: &Net<N, S>,
    note: PlatNote,
    told: Told,
) -> (Revocation, PlatNote)
    requires port { IsPort N.table N.tokens N.frame (with_note state.old note) }
    requires told { IsToTell N.frame.world state.old told }
    ensures closing { IsClosing N.table N.tokens N.frame state.new result.0 result.1 }
    ensures number { state.new.port.engine ≡ state.old.port.engine }
    ensures adds { HasNew (IsAccessOf N.frame.world state.old.port.engine.initiator) note.knows.known result.1.knows.known }
    ensures note { IsNote N.table result.1 }
    ensures knew { Within note.knows.known result.1.knows.known }
    ensures below { StandBelow result.1.knows.known result.1.knows.seen }
{
    state.settle();
    let Told { seq, route, count } = told;
    let initiator = state.initiator();
    let at = state.time();
    let last = route.offset.saturating_add(count.saturating_sub(1));
    let wallet = state.wallet_mut();
    begin_invalidation(
        net,
        rt,
        route.memory,
        route.offset,
        last,
        note,
        wallet,
        TxnId { initiator, seq },
        at,
    )
}

/// Ends the next grant of an invalidation that was told, in one entry where nobody else has. Where none is left, it has
/// returned, and the port goes on in its script.
pub(crate) fn end_next<N: Naming<Plan, TlmLaw>, S: Sharing<N>, R: Wait>(
    state: &mut PortState,
    rt: &R,
    net: &Net<N, S>,
    note: PlatNote,
    revocation: &Revocation,
) -> (Ending, PlatNote)
    requires closing { IsClosing N.table N.tokens N.frame state.old revocation.now note }
    requires note { IsNote N.table note }
    ensures more { result.0 ≢ Endings.Returned → IsClosing N.table N.tokens N.frame state.new revocation.now result.1 }
    ensures port { result.0 ≡ Endings.Returned → IsPort N.table N.tokens N.frame (with_note state.new result.1) }
    ensures number { state.new.port.engine.initiator ≡ state.old.port.engine.initiator }
    ensures adds { result.0 ≡ Endings.Closed → HasNew (IsAccessOf N.frame.world state.old.port.engine.initiator) note.knows.known result.1.knows.known }
    ensures note { IsNote N.table result.1 }
    ensures knew { Within note.knows.known result.1.knows.known }
    ensures below { StandBelow result.1.knows.known result.1.knows.seen }
{
    let wallet = state.wallet_mut();
    let (ending, note) = end_next_grant(net, rt, revocation, note, wallet);
    if let Ending::Returned = ending {
        state.tidy(net.tickets());
        state.go_past();
        return (ending, note);
    }
    (ending, note)
}
