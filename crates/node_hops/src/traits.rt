// How a component takes requests.
ghost use Rattle.std.specs.Prelude.{◌≡◌, ◌<◌, ◌≤◌, length};
ghost use Rattle.tlm_model.specs.declared.platform.Target.TheVariants as Targets;
ghost use Rattle.node_hops.specs.Traits.{IsOf, accepts, is_accepting, lanes_of, latency_of};

use route_plan::Plan;
use tlm_model::Target;
use tlm_types::{Ps, ReqMode};

/// Whether a component accepts each BEGIN_REQ, so that END_REQ is a call of its own (IEEE 1666-2011, clause 15.2), its
/// latency in picoseconds, and the lanes of each hop to it.
#[derive(Clone, Copy, Debug, PartialEq, Eq)]
pub struct NodeTraits {
    pub accepts: bool,
    pub latency: Ps,
    pub lanes: u32,
}

// Whether BEGIN_REQ is accepted by this mode.
fn accepts(mode: ReqMode) -> bool
    ensures { result ≡ accepts mode }
{
    matches!(mode, ReqMode::Accept)
}

// Those of the memory with this number.
fn memory_traits(plan: &Plan, memory: u32) -> NodeTraits
    requires { memory < length plan.now.platform.memories }
    ensures accepts { result.accepts ≡ is_accepting plan.now.platform (Targets.Memory memory) }
    ensures latency { result.latency ≡ latency_of plan.now.platform (Targets.Memory memory) }
    ensures lanes { result.lanes ≡ lanes_of plan.now.platform (Targets.Memory memory) }
    ensures few { result.lanes ≤ 16 }
{
    let row = &plan.platform().memories.as_slice()[memory as usize];
    NodeTraits {
        accepts: accepts(row.reply),
        latency: row.traits.latency,
        lanes: row.lanes,
    }
}

// Those of the router with this number.
fn router_traits(plan: &Plan, router: u32) -> NodeTraits
    requires { router < length plan.now.platform.routers }
    ensures accepts { result.accepts ≡ is_accepting plan.now.platform (Targets.Router router) }
    ensures latency { result.latency ≡ latency_of plan.now.platform (Targets.Router router) }
    ensures lanes { result.lanes ≡ lanes_of plan.now.platform (Targets.Router router) }
    ensures few { result.lanes ≤ 16 }
{
    let row = &plan.platform().routers.as_slice()[router as usize];
    NodeTraits {
        accepts: accepts(row.accept),
        latency: row.latency,
        lanes: row.lanes,
    }
}

/// How a component of a plan takes requests, by its row. Each hop to it has at most 16 lanes.
pub fn traits_of(plan: &Plan, of: Target) -> NodeTraits
    requires { IsOf plan.now.platform of }
    ensures accepts { result.accepts ≡ is_accepting plan.now.platform of }
    ensures latency { result.latency ≡ latency_of plan.now.platform of }
    ensures lanes { result.lanes ≡ lanes_of plan.now.platform of }
    ensures few { result.lanes ≤ 16 }
{
    match of {
        Target::Memory(memory) => memory_traits(plan, memory),
        Target::Router(router) => router_traits(plan, router),
    }
}
