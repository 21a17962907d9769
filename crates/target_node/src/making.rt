// A new memory behind hops.
ghost use Rattle.std.specs.Prelude.{◌<◌, length, IfOk};
ghost use Rattle.target_node.specs.Hops.{IsNew};

use crate::node::TargetNode;
use event_queue::EventQueue;
use node_hops::{hops_to, traits_of};
use plat_net::{Net, Sharing, TlmLaw};
use route_plan::Plan;
use shared_object::Naming;
use std::alloc::Global;
use tlm_model::Target;
use tlm_types::Memory;

impl TargetNode {
    /// The memory of a net with this number, behind the hops that lead to it. Its queue has room for all of
    /// their lanes. Its only error is want of memory.
    pub fn new<N: Naming<Plan, TlmLaw>, S: Sharing<N>>(
        alloc: Global,
        net: &Net<N, S>,
        memory: u32,
    ) -> Result<TargetNode, Memory>
        requires { memory < length N.frame.world.platform.memories }
        ensures { IfOk result (IsNew N.frame N.tokens memory) }
    {
        let plan = net.plan();
        let traits = traits_of(plan, Target::Memory(memory));
        let hops = hops_to(alloc, plan, Target::Memory(memory))?;
        let room = traits.lanes * hops.len() as u32;
        let queue = EventQueue::new(alloc, room)?;
        Ok(TargetNode {
            memory,
            hops,
            accepts: traits.accepts,
            latency: traits.latency,
            queue,
            held: None,
        })
    }
}
