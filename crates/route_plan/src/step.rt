// Steps of walks, and where they end.
use tlm_model::Target;
use tlm_types::Ps;

/// Where an address of an initiator leads: the memory's number, the offset there in bytes, and times
/// in picoseconds: the sum of the latencies of the routers visited, and the same with the memory's.
#[derive(Clone, Copy, Debug, PartialEq, Eq)]
pub struct Route {
    pub memory: u32,
    pub offset: u64,
    pub before: Ps,
    pub latency: Ps,
}

/// A step of a walk: the hop that was passed, what it leads to, the address there, and the sum of the
/// latencies of the routers visited.
#[derive(Clone, Copy, Debug, PartialEq, Eq)]
pub struct Step {
    pub hop: u32,
    pub target: Target,
    pub address: u64,
    pub before: Ps,
}
