// The hops of a plan.
ghost use Rattle.std.specs.Prelude.{◌≡◌, ◌+◌, ◌<◌, length, IfOk, OnOk, IsTrue};
ghost use Rattle.tlm_types.specs.declared.words.ObjectNo.TheVariants.{Hop as HopObject};
ghost use Rattle.tlm_model.specs.Route.{window_hop};
ghost use Rattle.platform_model.specs.Bounded.{is_there};
ghost use Rattle.route_plan.specs.Valid.{hop_count};
ghost use Rattle.plat_build.specs.Hops.{IsMadeTo, IsNextHop};
ghost use Rattle.plat_net.specs.Net.{AreHops, AreHopsTo, hop_numbers};
ghost use Rattle.plat_net.specs.Objects.{frame_of};
ghost use Rattle.plat_build.specs.Supplies.{IsSupply};

use crate::supplies::{Supplies, Supply};
use hop_object::{Hop, HopTraits};
use plat_net::{SharedHop, Sharing, TlmLaw};
use route_plan::Plan;
use shared_object::{Naming, Shared};
use std::alloc::Global;
use tlm_model::Target;
use tlm_types::{Memory, ObjectNo, RespMode};
use token_book::Tokens;

// How a hop to a component is made, whose upstream component answers BEGIN_RESP so: its lanes, and how
// BEGIN_REQ is answered, are those of the component downstream.
fn traits_to(plan: &Plan, to: Target, resp: RespMode) -> HopTraits
    requires { IsTrue (is_there plan.now.platform to) }
    ensures { IsMadeTo plan.now.platform resp to result }
{
    let platform = plan.platform();
    match to {
        Target::Router(number) => {
            let row = &platform.routers.as_slice()[number as usize];
            HopTraits {
                lanes: row.lanes,
                req: row.accept,
                resp,
            }
        }
        Target::Memory(number) => {
            let row = &platform.memories.as_slice()[number as usize];
            HopTraits {
                lanes: row.lanes,
                req: row.reply,
                resp,
            }
        }
    }
}

// Hop `number`, with room for what is planned.
fn make_hop<N: Naming<Plan, TlmLaw>, S: Sharing<N>>(
    alloc: Global,
    plan: &Plan,
    number: u32,
    to: Target,
    resp: RespMode,
    supply: Supply,
) -> Result<SharedHop<N, S>, Memory>
    requires frame { N.frame ≡ frame_of plan.now }
    requires next { IsNextHop plan.now.platform number resp to }
    requires supply { IsSupply N.table N.tokens N.frame (length plan.now.platform.memories + number) (HopObject number) supply }
    ensures { IfOk result (λ hop. hop ≡ hop_numbers plan.now.platform number) }
{
    let Supply { seat, book, second } = supply;
    let entries = plan.entries(ObjectNo::Hop(number));
    let traits = traits_to(plan, to, resp);
    let hop = Hop::new(
        alloc,
        number,
        traits.lanes,
        traits.req,
        traits.resp,
        entries,
        second,
    )?;
    Ok(Shared::new(hop, seat, book))
}

// Makes the next hop.
fn push_hop<N: Naming<Plan, TlmLaw>, S: Sharing<N>>(
    alloc: Global,
    plan: &Plan,
    tickets: &Tokens,
    to: Target,
    resp: RespMode,
    supplies: &mut Supplies<N>,
    hops: &mut Vec<SharedHop<N, S>>,
) -> Result<(), Memory>
    requires frame { N.frame ≡ frame_of plan.now }
    requires tickets { tickets.now ≡ N.tokens }
    requires next { IsNextHop plan.now.platform (length hops.old.items) resp to }
    requires supplies { supplies.old ≡ length plan.now.platform.memories + length hops.old.items }
    requires hops { AreHopsTo plan.now.platform (length hops.old.items) hops.old.items }
    ensures supplies { OnOk result (supplies.new ≡ length plan.now.platform.memories + length hops.new.items) }
    ensures count { OnOk result (length hops.new.items ≡ length hops.old.items + 1) }
    ensures hops { OnOk result (AreHopsTo plan.now.platform (length hops.new.items) hops.new.items) }
{
    let _ = plan.platform();
    let number = hops.len() as u32;
    let supply = supplies.hand_out(plan, tickets, ObjectNo::Hop(number));
    hops.push(make_hop::<N, S>(alloc, plan, number, to, resp, supply)?)?;
    Ok(())
}

// Makes the hops of the windows of a router, which accepts every response.
fn push_windows<N: Naming<Plan, TlmLaw>, S: Sharing<N>>(
    alloc: Global,
    plan: &Plan,
    tickets: &Tokens,
    router: u32,
    supplies: &mut Supplies<N>,
    hops: &mut Vec<SharedHop<N, S>>,
) -> Result<(), Memory>
    requires frame { N.frame ≡ frame_of plan.now }
    requires tickets { tickets.now ≡ N.tokens }
    requires router { router < length plan.now.platform.routers }
    requires first { length hops.old.items ≡ window_hop plan.now.platform router 0 }
    requires supplies { supplies.old ≡ length plan.now.platform.memories + length hops.old.items }
    requires hops { AreHopsTo plan.now.platform (length hops.old.items) hops.old.items }
    ensures first { OnOk result (length hops.new.items ≡ window_hop plan.now.platform (router + 1) 0) }
    ensures supplies { OnOk result (supplies.new ≡ length plan.now.platform.memories + length hops.new.items) }
    ensures hops { OnOk result (AreHopsTo plan.now.platform (length hops.new.items) hops.new.items) }
{
    for window in plan.platform().routers.as_slice()[router as usize]
        .windows
        .as_slice()
    {
        push_hop::<N, S>(
            alloc,
            plan,
            tickets,
            window.to,
            RespMode::Accept,
            supplies,
            hops,
        )?;
    }
    Ok(())
}

/// The hops of a plan, which come after the memories: the bindings of the initiators, and then the windows
/// of each router, in order. Its only error is want of memory.
pub(crate) fn make_hops<N: Naming<Plan, TlmLaw>, S: Sharing<N>>(
    alloc: Global,
    plan: &Plan,
    tickets: &Tokens,
    supplies: &mut Supplies<N>,
) -> Result<Vec<SharedHop<N, S>>, Memory>
    requires frame { N.frame ≡ frame_of plan.now }
    requires tickets { tickets.now ≡ N.tokens }
    requires next { supplies.old ≡ length plan.now.platform.memories }
    ensures hops { IfOk result (λ hops. AreHops plan.now.platform hops.items) }
    ensures next { OnOk result (supplies.new ≡ length plan.now.platform.memories + hop_count plan.now.platform) }
{
    let mut hops = Vec::new(alloc);
    for row in plan.platform().initiators.as_slice() {
        push_hop::<N, S>(
            alloc,
            plan,
            tickets,
            row.bind,
            row.response,
            supplies,
            &mut hops,
        )?;
    }
    for router in 0..plan.platform().routers.as_slice().len() {
        push_windows::<N, S>(alloc, plan, tickets, router as u32, supplies, &mut hops)?;
    }
    Ok(hops)
}
