// The moves of an access that is back from the first hop.
ghost use Rattle.std.specs.Prelude.{◌≡◌, ◌⊎◌};
ghost use Rattle.node_hops.specs.Steps.{HasNew, IsByPort};
ghost use Rattle.port_moves.specs.declared.hand.Hand.TheVariants as Hands;
ghost use Rattle.port_moves.specs.declared.hand.Pumped.TheVariants as Pumps;
ghost use Rattle.port_moves.specs.Moves.{Ends, Fetches, FindsNone, Stows};
ghost use Rattle.port_moves.specs.Moved.{ends_made, made, went};
ghost use Rattle.port_moves.specs.State.{IsHandOf, IsPort, with_note};

use crate::hand::{Hand, Moved, Pumped};
use crate::places::hop_place;
use crate::state::PortState;
use cargo_model::Cargo;
use cargo_net::{FetchedResponse, TlmLaw};
use hop_object::Leg;
use payload_pool::Baton;
use plat_net::{Net, PlatNote, Sharing};
use route_plan::Plan;
use shared_object::Naming;
use std::sync::Wait;
use tlm_types::Ps;
use token_book::Ticket;

impl PortState {
    /// Fetches a response from the first hop, if one waits there. It makes no entry.
    pub fn fetch<N: Naming<Plan, TlmLaw>, S: Sharing<N>, R: Wait>(
        &mut self,
        rt: &R,
        net: &Net<N, S>,
        note: PlatNote,
    ) -> (Moved, PlatNote)
        requires port { IsPort N.table N.tokens N.frame (with_note self.old note) }
        requires free { self.old.hand ≡ Hands.Free }
        ensures port { IsPort N.table N.tokens N.frame (with_note self.new result.1) }
        ensures fetched { Fetches N.frame (with_note self.old note) (with_note self.new result.1) ⊎ FindsNone N.frame (with_note self.old note) (with_note self.new result.1) }
        ensures moved { result.0 ≡ went }
    {
        let (fetched, note) = net.fetch_response(rt, self.engine.initiator(), note);
        let Some(response) = fetched else {
            return (Moved::went(), note);
        };
        let FetchedResponse {
            leg,
            txn: _,
            at,
            cargo,
        } = response;
        self.turn_to(Hand::of_response(leg, cargo, at));
        (Moved::went(), note)
    }

    /// Makes the END_RESP that is owed, by which the access ends (IEEE 1666-2011, clause 15.2).
    pub fn end<N: Naming<Plan, TlmLaw>, S: Sharing<N>, R: Wait>(
        &mut self,
        rt: &R,
        net: &Net<N, S>,
        note: PlatNote,
        cargo: Cargo,
        leg: Leg,
        at: Ps,
    ) -> (Moved, PlatNote)
        requires port { IsPort N.table N.tokens N.frame (with_note self.old note) }
        requires free { self.old.hand ≡ Hands.Free }
        requires owed { IsHandOf N.frame N.tokens (with_note self.old note) (Hands.Owed cargo leg at) }
        ensures port { IsPort N.table N.tokens N.frame (with_note self.new result.1) }
        ensures ended { Ends N.frame cargo at (with_note self.old note) (with_note self.new result.1) }
        ensures adds { HasNew (IsByPort N.frame.world self.old.port.engine.initiator) note.knows.known result.1.knows.known }
        ensures moved { result.0 ≡ made }
    {
        let mut cargo = cargo;
        let initiator = self.engine.initiator();
        let hop = hop_place(net, initiator);
        let ticket = cargo.baton.wallet.pull(net.tickets(), hop, 0);
        let (end, note) = net.end_resp(rt, initiator, note, leg, ticket, at);
        self.turn_to(Hand::Ended { cargo, end });
        (Moved::made(), note)
    }

    /// Stows the payload of an access that is back, at the time at which it has ended. With it the pump ends.
    pub fn stow<N: Naming<Plan, TlmLaw>, S: Sharing<N>, R: Wait>(
        &mut self,
        rt: &R,
        net: &Net<N, S>,
        note: PlatNote,
        baton: Baton,
        ticket: Ticket,
        end: Ps,
    ) -> (Moved, PlatNote)
        requires port { IsPort N.table N.tokens N.frame (with_note self.old note) }
        requires free { self.old.hand ≡ Hands.Free }
        requires released { IsHandOf N.frame N.tokens (with_note self.old note) (Hands.Released baton ticket end) }
        ensures port { IsPort N.table N.tokens N.frame (with_note self.new result.1) }
        ensures stowed { Stows N.frame baton end (with_note self.old note) (with_note self.new result.1) }
        ensures adds { HasNew (IsByPort N.frame.world self.old.port.engine.initiator) note.knows.known result.1.knows.known }
        ensures moved { result.0 ≡ ends_made Pumps.Did }
    {
        let initiator = self.engine.initiator();
        let (_, note) = net.stow(rt, initiator, note, ticket, baton, end);
        (Moved::ends(true, Pumped::Did), note)
    }
}
