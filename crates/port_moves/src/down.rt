// The moves of an access on its way down to the first hop.
ghost use Rattle.std.specs.Prelude.{◌≡◌, ◌⊎◌, true, None};
ghost use Rattle.node_hops.specs.Steps.{HasNew, IsByPort};
ghost use Rattle.port_moves.specs.declared.hand.Hand.TheVariants as Hands;
ghost use Rattle.port_moves.specs.Moves.{Acquires, Begins, FindsBusy};
ghost use Rattle.port_moves.specs.Moved.{after_begin, ends, made};
ghost use Rattle.port_moves.specs.State.{IsHandOf, IsPort, with_note};

use crate::hand::{Hand, Moved, Pumped};
use crate::state::PortState;
use cargo_model::Cargo;
use cargo_net::{TlmLaw, Tried};
use payload_pool::Baton;
use plat_net::{Net, PlatNote, Sharing};
use route_plan::Plan;
use shared_object::Naming;
use std::sync::Wait;

impl PortState {
    /// Acquires the first reference of an access that was taken, at the time of its Take.
    pub fn acquire<N: Naming<Plan, TlmLaw>, S: Sharing<N>, R: Wait>(
        &mut self,
        rt: &R,
        net: &Net<N, S>,
        note: PlatNote,
        baton: Baton,
    ) -> (Moved, PlatNote)
        requires port { IsPort N.table N.tokens N.frame (with_note self.old note) }
        requires free { (self.old.hand ≡ Hands.Free) × (self.old.held ≡ None) }
        requires taken { IsHandOf N.frame N.tokens (with_note self.old note) (Hands.Taken baton) }
        ensures port { IsPort N.table N.tokens N.frame (with_note self.new result.1) }
        ensures acquired { Acquires N.frame baton (with_note self.old note) (with_note self.new result.1) }
        ensures adds { HasNew (IsByPort N.frame.world self.old.port.engine.initiator) note.knows.known result.1.knows.known }
        ensures moved { result.0 ≡ made }
    {
        let initiator = self.engine.initiator();
        let (cargo, note) = net.start(rt, initiator, note, baton, self.time);
        self.turn_to(Hand::Acquired(cargo));
        (Moved::made(), note)
    }

    /// Tries BEGIN_REQ on the first hop, at the current time (IEEE 1666-2011, clause 15.2). Where it was made,
    /// the payload is gone, or its memory is still to be called, which gives the response by return. Where a
    /// request is open or no lane free, the request is held, and the pump ends with `busy`.
    pub fn begin<N: Naming<Plan, TlmLaw>, S: Sharing<N>, R: Wait>(
        &mut self,
        rt: &R,
        net: &Net<N, S>,
        note: PlatNote,
        cargo: Cargo,
        busy: Pumped,
    ) -> (Moved, PlatNote)
        requires port { IsPort N.table N.tokens N.frame (with_note self.old note) }
        requires free { (self.old.hand ≡ Hands.Free) × (self.old.held ≡ None) }
        requires ready { IsHandOf N.frame N.tokens (with_note self.old note) (Hands.Acquired cargo) }
        ensures port { IsPort N.table N.tokens N.frame (with_note self.new result.1) }
        ensures adds { result.0.entry ≡ true → HasNew (IsByPort N.frame.world self.old.port.engine.initiator) note.knows.known result.1.knows.known }
        ensures begun { (Begins N.frame cargo (with_note self.old note) (with_note self.new result.1) × (result.0 ≡ after_begin self.new.hand))
            ⊎ (FindsBusy N.frame cargo (with_note self.old note) (with_note self.new result.1) × (result.0 ≡ ends busy)) }
    {
        let initiator = self.engine.initiator();
        match net.begin_req(rt, initiator, note, cargo, self.time) {
            Tried::Left {
                answer: _,
                at: _,
                note,
            } => (Moved::ends(true, Pumped::Did), note),
            Tried::Now {
                answer: _,
                at,
                leg,
                cargo,
                note,
            } => {
                self.turn_to(Hand::Begun { cargo, at, leg });
                (Moved::made(), note)
            }
            Tried::Busy {
                holder: _,
                live: _,
                cargo,
                note,
            } => {
                self.hold(cargo);
                (Moved::ends(false, busy), note)
            }
        }
    }
}
