// A request that was fetched turns down, or back.
ghost use Rattle.std.specs.Prelude.{◌≡◌, ◌<◌, length};
ghost use Rattle.view_lists.specs.Lists.{Within};
ghost use Rattle.one_history.specs.Lists.{StandBelow};
ghost use Rattle.shared_object.specs.Steps.{IsNote};
ghost use Rattle.tlm_model.specs.declared.platform.Target.TheVariants.{Router};
ghost use Rattle.tlm_model.specs.Route.{window_hop};
ghost use Rattle.node_hops.specs.Traits.{hop_latency, is_accepting};
ghost use Rattle.router_moves.specs.Items.{IsRequest};
ghost use Rattle.router_moves.specs.Turns.{HasTurned, TurnAdds};

use crate::down::{descend, way_behind};
use crate::items::{Down, RouterRequest, RouterResponse};
use crate::up::refuse;
use plat_net::{Net, PlatNote, Sharing, TlmLaw};
use route_plan::Plan;
use shared_object::Naming;
use std::sync::Wait;
use tlm_types::Ps;

/// What a request that was fetched has come to.
#[derive(Drop)]
pub enum Turned {
    /// It may go down.
    Down(Down),
    /// The router has no window for its address, and answers it itself.
    Back(RouterResponse),
}

/// Turns a request that was fetched to the hop behind its window, as `descend` does; or, where the router has
/// no window for its address, back, as `refuse` does, without an entry.
pub fn turn<N: Naming<Plan, TlmLaw>, S: Sharing<N>, R: Wait>(
    net: &Net<N, S>,
    rt: &R,
    router: u32,
    first: u32,
    accepts: bool,
    latency: Ps,
    note: PlatNote,
    request: RouterRequest,
) -> (Turned, PlatNote)
    requires router { router < length N.frame.world.platform.routers }
    requires first { first ≡ window_hop N.frame.world.platform router 0 }
    requires mode { accepts ≡ is_accepting N.frame.world.platform (Router router) }
    requires latency { latency ≡ hop_latency N.frame.world request.hop }
    requires note { IsNote N.table note }
    requires request { IsRequest N.frame N.tokens note.knows.known router request }
    ensures note { IsNote N.table result.1 }
    ensures knew { Within note.knows.known result.1.knows.known }
    ensures below { StandBelow note.knows.known note.knows.seen → StandBelow result.1.knows.known result.1.knows.seen }
    ensures adds { TurnAdds N.frame.world request.cargo.baton.txn.initiator note.knows result.1.knows result.0 }
    ensures turned { HasTurned N.frame N.tokens router latency request note result.1 result.0 }
{
    let _ = net.plan();
    let address = request.cargo.baton.payload.address();
    match way_behind(net, router, first, address) {
        Some(way) => {
            let (down, note) = descend(net, rt, router, accepts, latency, note, request, way);
            (Turned::Down(down), note)
        }
        None => {
            let response = refuse(net, router, latency, &note, request);
            (Turned::Back(response), note)
        }
    }
}
