// The latencies of walks, also of those that lead to no memory.
ghost use Rattle.std.specs.Prelude.{◌≡◌, ◌<◌, length, slice_get};
ghost use Rattle.route_plan.specs.Latencies.{last_latency, memory_latency, router_latency};
ghost use Rattle.route_plan.specs.Routes.{bound_walk};

use crate::routes::{MOST_VISITED, Routes};
use crate::step::Step;
use tlm_model::{Platform, Target};
use tlm_types::Ps;

// The time at which a walk has gone on into the memory with this number, if it is there.
fn after_memory(platform: &Platform, memory: u32, before: Ps) -> Ps
    ensures { result ≡ memory_latency (slice_get platform.now.memories memory) before }
{
    match platform.memories.as_slice().get(memory as usize) {
        Some(row) => before.saturating_add(row.traits.latency),
        None => before,
    }
}

// The same for a router.
fn after_router(platform: &Platform, router: u32, before: Ps) -> Ps
    ensures { result ≡ router_latency (slice_get platform.now.routers router) before }
{
    match platform.routers.as_slice().get(router as usize) {
        Some(row) => before.saturating_add(row.latency),
        None => before,
    }
}

// The latency of a walk that stops where this step leads.
fn latency_there(platform: &Platform, step: Step) -> Ps
    ensures { result ≡ last_latency platform.now step }
{
    match step.target {
        Target::Memory(memory) => after_memory(platform, memory, step.before),
        Target::Router(router) => after_router(platform, router, step.before),
    }
}

impl Routes {
    /// The latency of the walk of an address of the initiator with this number: that of the routers
    /// visited, also of one that has no window for it, and of the memory.
    pub fn latency(&self, initiator: u32, address: u64) -> Ps
        requires { initiator < length self.now.initiators }
        ensures { result ≡ (bound_walk self.now initiator address).latency }
    {
        let mut step = self.first_step(initiator, address);
        for _visited in 0..MOST_VISITED {
            let Some(next) = self.next_step(step) else {
                return latency_there(self.platform(), step);
            };
            step = next;
        }
        step.before
    }
}
