// The memory behind a hop.
ghost use Rattle.std.specs.Prelude.{◌≡◌, ℕ, ◌<◌, IfNone, IfSome, length};
ghost use Rattle.tlm_model.specs.declared.platform.Target.TheVariants as Targets;
ghost use Rattle.platform_shape.specs.Shape.{IsShape};
ghost use Rattle.route_plan.specs.Valid.{hop_count};
ghost use Rattle.plat_net.specs.Places.{LeadsTo};
ghost use Rattle.node_hops.specs.Traits.{hop_latency};

use plat_net::{Net, Sharing, TlmLaw};
use route_plan::{Down, HopEnds, Plan};
use shared_object::Naming;
use tlm_types::Ps;

/// The memory that a hop leads to, and its latency in picoseconds. There is none where the hop leads to a router.
pub fn memory_behind<N: Naming<Plan, TlmLaw>, S: Sharing<N>>(
    net: &Net<N, S>,
    hop: u32,
) -> Option<(u32, Ps)>
    requires { hop < hop_count N.frame.world.platform }
    ensures shape { IsShape N.frame.world.platform }
    ensures there { IfSome result (λ m. m.0 < length N.frame.world.platform.memories) }
    ensures memory { IfSome result (λ m. LeadsTo N.frame.world.platform hop (Targets.Memory m.0)) }
    ensures latency { IfSome result (λ m. m.1 ≡ hop_latency N.frame.world hop) }
    ensures router { IfNone result ((r : ℕ) × LeadsTo N.frame.world.platform hop (Targets.Router r)) }
{
    let platform = net.plan().platform();
    let Some(HopEnds { up: _, down }) = net.plan().hop_ends(hop) else {
        unreachable!()
    };
    match down {
        Down::Memory(memory) => {
            let row = &platform.memories.as_slice()[memory as usize];
            Some((memory, row.traits.latency))
        }
        Down::Router(_) => None,
    }
}
