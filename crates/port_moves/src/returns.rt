// The move by which a port takes an access back.
ghost use Rattle.std.specs.Prelude.{◌≡◌, ◌⊎◌, true, length};
ghost use Rattle.view_lists.specs.Lists.{Within};
ghost use Rattle.token_book.specs.Purse.{HasRoomForAll, IsOf, empty_purse};
ghost use Rattle.script_engine.specs.Part.{IsRead};
ghost use Rattle.script_engine.specs.State.{is_fenced, length_of, op_of};
ghost use Rattle.node_hops.specs.Steps.{HasNew, IsByPort};
ghost use Rattle.port_moves.specs.declared.hand.Hand.TheVariants as Hands;
ghost use Rattle.port_moves.specs.Moves.{PutsStray, TakesBack};
ghost use Rattle.port_moves.specs.Moved.{made};
ghost use Rattle.port_moves.specs.Returned.{IsStruck, IsTold, MayBeTold, TakesAll, with_latest, with_told};
ghost use Rattle.port_moves.specs.State.{IsHandOf, IsPort, with_note};

use crate::hand::{Hand, Moved};
use crate::places::pool_place;
use crate::state::PortState;
use cargo_model::Cargo;
use cargo_net::TlmLaw;
use generic_payload::Payload;
use plat_net::{Net, PlatNote, Sharing};
use route_plan::Plan;
use shared_object::Naming;
use std::sync::Wait;
use tlm_types::Ps;
use token_book::{Tokens, Wallet};

impl PortState {
    /// Releases the reference of the first hop at the time at which the access has ended, puts the tickets
    /// that it didn't need into the port's wallet, and takes the access back: it isn't outstanding any more,
    /// and the engine is told the payload where it waits for it. Of a payload that was not outstanding
    /// nothing is taken but its tickets.
    pub fn take_back<N: Naming<Plan, TlmLaw>, S: Sharing<N>, R: Wait>(
        &mut self,
        rt: &R,
        net: &Net<N, S>,
        note: PlatNote,
        cargo: Cargo,
        end: Ps,
    ) -> (Moved, PlatNote)
        requires port { IsPort N.table N.tokens N.frame (with_note self.old note) }
        requires free { self.old.hand ≡ Hands.Free }
        requires ended { IsHandOf N.frame N.tokens (with_note self.old note) (Hands.Ended cargo end) }
        ensures port { IsPort N.table N.tokens N.frame (with_note self.new result.1) }
        ensures knew { Within note.knows.known result.1.knows.known }
        ensures back { TakesBack N.frame cargo end (with_note self.old note) (with_note self.new result.1) ⊎ PutsStray N.frame cargo end (with_note self.old note) (with_note self.new result.1) }
        ensures adds { HasNew (IsByPort N.frame.world self.old.port.engine.initiator) note.knows.known result.1.knows.known }
        ensures moved { result.0 ≡ made }
    {
        let Cargo { baton, hold } = cargo;
        let mut baton = baton;
        let initiator = self.engine.initiator();
        let pool = pool_place(net, initiator);
        let ticket = baton.wallet.pull(net.tickets(), pool, 0);
        let (_, note) = net.release(rt, initiator, note, ticket, hold, end);
        let last = baton.wallet.pull(net.tickets(), pool, 0);
        self.take_all(net.tickets(), &mut baton.wallet);
        self.tell(baton.txn().seq, &baton.payload, end);
        self.turn_to(Hand::Released {
            baton,
            ticket: last,
            end,
        });
        (Moved::made(), note)
    }

    // All tickets of another wallet come into the port's.
    fn take_all(&mut self, tickets: &Tokens, from: &mut Wallet)
        requires of { IsOf tickets.now self.old.wallet × IsOf tickets.now from.old }
        requires room { HasRoomForAll self.old.wallet from.old }
        ensures state { self.new ≡ (let wallet = self.new.wallet in record self.old { wallet = wallet }) }
        ensures takes { TakesAll tickets.now self.old.wallet from.old self.new.wallet }
        ensures empty { from.new ≡ empty_purse from.old.places }
    {
        self.wallet.put_all(tickets, from);
    }

    // An access has ended at this time, and its payload is back. The engine is told it, where it waits for it.
    #[tactic(auto, using(crate::proofs::Telling::told_plain, crate::proofs::Telling::told_fenced, crate::proofs::Telling::told_stray))]
    fn tell(&mut self, number: u64, payload: &Payload, end: Ps)
        requires may { MayBeTold self.old.port number payload.now.bytes }
        ensures { IsTold number end payload.now.bytes self.old self.new }
    {
        let waiting = self.waiting;
        if self.strike(number) {
            self.end_at(end);
            if waiting {
                self.told(payload);
            }
        }
    }

    // Takes a number off those that are outstanding.
    fn strike(&mut self, number: u64) -> bool
        ensures { IsStruck number result self.old self.new }
    {
        self.away.remove(number)
    }

    fn end_at(&mut self, end: Ps)
        ensures { self.new ≡ with_latest self.old end }
    {
        self.latest = self.latest.max(end);
    }

    fn told(&mut self, payload: &Payload)
        requires fenced { is_fenced (op_of self.old.port.engine) ≡ true }
        requires whole { IsRead (op_of self.old.port.engine) → length payload.now.bytes ≡ length_of (op_of self.old.port.engine) }
        ensures { self.new ≡ with_told self.old payload.now.bytes }
    {
        self.engine.told(payload);
        self.waiting = false;
    }
}
