// The next move of a port, and a pump, which makes moves up to one that ends it.
ghost use Rattle.std.specs.Prelude.{◌≡◌, false};
ghost use Rattle.view_lists.specs.Lists.{Within};
ghost use Rattle.fourphase_port.specs.Moves.{AddsOwn};
ghost use Rattle.fourphase_port.specs.Pumps.{HasFinished, IsMove, IsPump};
ghost use Rattle.port_moves.specs.State.{IsPort, with_note};
ghost use Rattle.port_moves.specs.declared.hand.Pumped.TheVariants as Pumps;

use crate::onwards::go_on;
use cargo_net::TlmLaw;
use plat_net::{Net, PlatNote, Sharing};
use port_moves::{Hand, Moved, PortState, Pumped};
use route_plan::Plan;
use shared_object::Naming;
use std::sync::Wait;

/// The next move: what it works on goes on; else it looks for a response, once in a pump; else it goes on
/// in its script.
#[inline(always)]
pub(crate) fn advance<N: Naming<Plan, TlmLaw>, S: Sharing<N>, R: Wait>(
    state: &mut PortState,
    rt: &R,
    net: &Net<N, S>,
    note: PlatNote,
    fetched: bool,
) -> (Moved, PlatNote)
    requires port { IsPort N.table N.tokens N.frame (with_note state.old note) }
    ensures port { IsPort N.table N.tokens N.frame (with_note state.new result.1) }
    ensures knew { Within note.knows.known result.1.knows.known }
    ensures adds { AddsOwn N.frame (with_note state.old note) (with_note state.new result.1) result.0 }
    ensures moved { IsMove N.frame fetched (with_note state.old note) (with_note state.new result.1) result.0 }
{
    match state.take_hand() {
        Hand::Free => {
            if fetched {
                go_on(state, rt, net, note)
            } else {
                state.fetch(rt, net, note)
            }
        }
        Hand::Taken(baton) => state.acquire(rt, net, note, baton),
        Hand::Acquired(cargo) => state.begin(rt, net, note, cargo, Pumped::Did),
        Hand::Begun { cargo, at, leg } => state.serve(rt, net, note, cargo, at, leg),
        Hand::Owed { cargo, leg, at } => state.end(rt, net, note, cargo, leg, at),
        Hand::Ended { cargo, end } => state.take_back(rt, net, note, cargo, end),
        Hand::Released { baton, ticket, end } => state.stow(rt, net, note, baton, ticket, end),
    }
}

/// Moves up to the one that ends the pump, and what it came to. The note is handed from move to move.
pub(crate) fn pump<N: Naming<Plan, TlmLaw>, S: Sharing<N>, R: Wait>(
    state: &mut PortState,
    rt: &R,
    net: &Net<N, S>,
    note: PlatNote,
) -> (Pumped, PlatNote)
    requires port { IsPort N.table N.tokens N.frame (with_note state.old note) }
    ensures port { IsPort N.table N.tokens N.frame (with_note state.new result.1) }
    ensures pumped { IsPump N.frame false (with_note state.old note) (with_note state.new result.1) result.0 }
    ensures finished { result.0 ≡ Pumps.Finished → HasFinished state.new }
    ensures number { state.new.port.engine.initiator ≡ state.old.port.engine.initiator }
{
    let mut note = note;
    let mut fetched = false;
    loop {
        let (moved, next) = advance(state, rt, net, note, fetched);
        note = next;
        if let Some(pumped) = moved.pumped {
            return (pumped, note);
        }
        fetched = true;
    }
}
