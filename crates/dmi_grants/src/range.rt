// The addresses of an initiator that lead into a range of a memory.
ghost use Rattle.std.specs.Prelude.{◌≡◌, ◌+◌, ◌-◌, ◌<◌, ◌≤◌, length, IsTrue, Some};
ghost use Rattle.platform_model.specs.Bounded.{is_there};
ghost use Rattle.plat_net.specs.Calls.{route_at};
ghost use Rattle.dmi_grants.specs.Ranges.{AreAddressesOf, lifted, lifted_at};

use addr_router::laws::each_row_has_its_window;
use route_plan::{Plan, Route};
use tlm_model::Target;

// The same from a target on, through at most `left` components.
fn lift_from(
    plan: &Plan,
    target: Target,
    address: u64,
    first: u64,
    last: u64,
    left: u32,
) -> Option<(u64, u64)>
    requires { IsTrue (is_there plan.now.platform target) }
    ensures { result ≡ lifted left plan.now.platform target address (first, last) }
{
    if left == 0 {
        return None;
    }
    let Target::Router(router) = target else {
        return Some((first, last));
    };
    let row = &plan.platform().routers.as_slice()[router as usize];
    let windows = plan.windows(router);
    let (port, seen) = windows.decode(address)?;
    let to = row.windows.as_slice()[port as usize].to;
    let (low, high) = lift_from(plan, to, seen, first, last, left - 1)?;
    each_row_has_its_window();
    windows.translate_up(low, high, port)
}

/// The addresses that lead, on the way that this address takes, into the range from `first` to `last` of
/// the memory at its end: the range is translated up, from the last window to the first, and cut to each.
pub(crate) fn lift(plan: &Plan, who: u32, address: u64, first: u64, last: u64) -> Option<(u64, u64)>
    requires who { who < length plan.now.platform.initiators }
    ensures { result ≡ lifted_at plan.now who address (first, last) }
{
    let bind = plan.platform().initiators.as_slice()[who as usize].bind;
    lift_from(plan, bind, address, first, last, 9)
}

/// Where a grant's range lies in the addresses of an initiator: from `low` to `high`, of which `low` leads to
/// the offset `base` in the memory. All are bytes.
#[derive(Clone, Copy)]
pub(crate) struct Lifted {
    pub low: u64,
    pub high: u64,
    pub base: u64,
}

/// The range from `first` to `last` of the memory that the address leads to, as addresses of the initiator.
/// The address leads into it.
pub(crate) fn addresses(
    plan: &Plan,
    who: u32,
    address: u64,
    route: Route,
    first: u64,
    last: u64,
) -> Lifted
    requires who { who < length plan.now.platform.initiators }
    requires route { route_at plan.now who address ≡ Some route }
    requires inside { (first ≤ route.offset) × (route.offset ≤ last) }
    ensures range { lifted_at plan.now who address (first, last) ≡ Some (result.low, result.high) }
    ensures all { AreAddressesOf plan.now who route.memory first last result.low result.high result.base }
    ensures within { (result.low ≤ address) × (address ≤ result.high) }
    ensures base { result.base + (address - result.low) ≡ route.offset }
    ensures inside { (first ≤ result.base) × (result.base + (result.high - result.low) ≤ last) }
{
    let _ = plan.platform();
    let Some((low, high)) = lift(plan, who, address, first, last) else {
        unreachable!()
    };
    Lifted {
        low,
        high,
        base: route.offset - (address - low),
    }
}
