// Where the objects of a port stand in the history.
ghost use Rattle.std.specs.Prelude.{◌≡◌, ◌<◌};
ghost use Rattle.route_plan.specs.Valid.{hop_count};
ghost use Rattle.plat_net.specs.Net.{HasPool};
ghost use Rattle.port_moves.specs.Reach.{first_hop, own_pool};

use cargo_net::TlmLaw;
use plat_net::{Net, Sharing};
use route_plan::Plan;
use shared_object::Naming;

// The number in the history of a hop.
pub(crate) fn hop_place<N: Naming<Plan, TlmLaw>, S: Sharing<N>>(net: &Net<N, S>, hop: u32) -> u32
    requires { hop < hop_count N.frame.world.platform }
    ensures { result ≡ first_hop N.frame.world hop }
{
    let _ = net.plan();
    net.hop(hop).number()
}

/// The number in the history of an initiator's pool.
pub fn pool_place<N: Naming<Plan, TlmLaw>, S: Sharing<N>>(net: &Net<N, S>, initiator: u32) -> u32
    requires { HasPool N.frame.world.platform initiator }
    ensures { result ≡ own_pool N.frame.world initiator }
{
    let _ = net.plan();
    net.pool(initiator).number()
}
