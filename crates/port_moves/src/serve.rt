// The access at a memory that gives the response by return.
ghost use Rattle.std.specs.Prelude.{◌≡◌};
ghost use Rattle.node_hops.specs.Steps.{HasNew, IsByPort};
ghost use Rattle.port_moves.specs.declared.hand.Hand.TheVariants as Hands;
ghost use Rattle.port_moves.specs.Moves.{Serves};
ghost use Rattle.port_moves.specs.Moved.{made};
ghost use Rattle.port_moves.specs.State.{IsHandOf, IsPort, with_note};

use crate::hand::{Hand, Moved};
use crate::state::PortState;
use cargo_model::Cargo;
use cargo_net::TlmLaw;
use hop_object::Leg;
use node_hops::memory_behind;
use plat_net::{Net, PlatNote, Sharing};
use route_plan::Plan;
use shared_object::Naming;
use std::sync::Wait;
use tlm_types::Ps;

impl PortState {
    /// Makes the access of a request whose response comes by return, at the time of its BEGIN_REQ. The
    /// response is due after the memory's latency.
    pub fn serve<N: Naming<Plan, TlmLaw>, S: Sharing<N>, R: Wait>(
        &mut self,
        rt: &R,
        net: &Net<N, S>,
        note: PlatNote,
        cargo: Cargo,
        at: Ps,
        leg: Option<Leg>,
    ) -> (Moved, PlatNote)
        requires port { IsPort N.table N.tokens N.frame (with_note self.old note) }
        requires free { self.old.hand ≡ Hands.Free }
        requires begun { IsHandOf N.frame N.tokens (with_note self.old note) (Hands.Begun cargo at leg) }
        ensures port { IsPort N.table N.tokens N.frame (with_note self.new result.1) }
        ensures served { Serves N.frame cargo at (with_note self.old note) (with_note self.new result.1) }
        ensures adds { HasNew (IsByPort N.frame.world self.old.port.engine.initiator) note.knows.known result.1.knows.known }
        ensures moved { result.0 ≡ made }
    {
        let initiator = self.engine.initiator();
        let Some((memory, latency)) = memory_behind(net, initiator) else {
            unreachable!()
        };
        let (cargo, note) = net.serve(rt, memory, note, cargo, at);
        self.turn_to(Hand::of_response(leg, cargo, at.saturating_add(latency)));
        (Moved::made(), note)
    }
}
