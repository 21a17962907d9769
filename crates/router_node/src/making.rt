// A new router.
ghost use Rattle.std.specs.Prelude.{◌≡◌, ◌+◌, ◌^◌, ◌<◌, ◌≤◌, length, IfOk, slice_get};
ghost use Rattle.std.specs.List.{range_with_len};
ghost use Rattle.tlm_model.specs.Route.{window_hop};
ghost use Rattle.router_node.specs.Hops.{IsNew, row_windows};

use crate::node::RouterNode;
use node_hops::{hops_to, traits_of};
use plat_net::{Net, Sharing, TlmLaw};
use route_plan::Plan;
use shared_object::Naming;
use std::alloc::{AllocError, Global};
use tlm_model::Target;
use tlm_types::Memory;

// The hop of a router's first window.
fn first_window(plan: &Plan, router: u32) -> u32
    requires { router < length plan.now.platform.routers }
    ensures first { result ≡ window_hop plan.now.platform router 0 }
    ensures small { result < 2 ^ 31 }
{
    let platform = plan.platform();
    let mut hop = platform.initiators.as_slice().len() as u32;
    let earlier = &platform.routers.as_slice()[..router as usize];
    for row in earlier {
        hop += row.windows.as_slice().len() as u32;
    }
    hop
}

// How many windows a router has.
fn count_of(plan: &Plan, router: u32) -> u32
    requires { router < length plan.now.platform.routers }
    ensures count { result ≡ row_windows (slice_get plan.now.platform.routers router) }
    ensures few { result ≤ 16 }
{
    let row = &plan.platform().routers.as_slice()[router as usize];
    row.windows.as_slice().len() as u32
}

// So many hops from the first one on.
fn hops_from(alloc: Global, first: u32, count: u32) -> Result<Vec<u32>, AllocError>
    requires { first + count < 2 ^ 32 }
    ensures { IfOk result (λ hops. hops.items ≡ range_with_len first count) }
{
    let mut hops = Vec::new(alloc);
    for k in 0..count {
        hops.push(first + k)?;
    }
    Ok(hops)
}

impl RouterNode {
    /// The router of a net with this number, between the hops that lead to it and those of its windows. It has
    /// room for as many transactions as those that lead to it have lanes. Its only error is want of memory.
    pub fn new<N: Naming<Plan, TlmLaw>, S: Sharing<N>>(
        alloc: Global,
        net: &Net<N, S>,
        router: u32,
    ) -> Result<RouterNode, Memory>
        requires { router < length N.frame.world.platform.routers }
        ensures { IfOk result (IsNew N.frame N.tokens router) }
    {
        let plan = net.plan();
        let traits = traits_of(plan, Target::Router(router));
        let above = hops_to(alloc, plan, Target::Router(router))?;
        let first = first_window(plan, router);
        let count = count_of(plan, router);
        let below = hops_from(alloc, first, count)?;
        let room = traits.lanes * above.len() as u32;
        let held = Vec::with_capacity(alloc, room as usize)?;
        Ok(RouterNode {
            router,
            first,
            accepts: traits.accepts,
            latency: traits.latency,
            above,
            below,
            held,
            room,
            stray: None,
        })
    }
}
