// The two ends of each hop.
ghost use Rattle.std.specs.Prelude.{◌≡◌, ◌<◌, ◌^◌, ◌++◌, length, map, IfOk, OnOk};
ghost use Rattle.std.specs.List.{enumerate_from};
ghost use Rattle.platform_model.specs.Bounded.{IsBounded};
ghost use Rattle.route_plan.specs.Routes.{binding_ends, window_ends, ends_of};

use std::alloc::{AllocError, Global};
use tlm_model::{InitiatorRow, Platform, Target, WindowRow};

/// What stands before a hop: an initiator, or a window of a router, by their numbers from 0.
#[derive(Clone, Copy, Debug, PartialEq, Eq)]
pub enum Up {
    Initiator(u32),
    Router { router: u32, window: u32 },
}

/// The two ends of a hop: what stands before it, and the router or memory that it leads to.
#[derive(Clone, Copy, Debug, PartialEq, Eq)]
pub struct HopEnds {
    pub up: Up,
    pub down: Target,
}

fn binding_ends(alloc: Global, initiators: &[InitiatorRow]) -> Result<Vec<HopEnds>, AllocError>
    requires { length initiators.now < 2 ^ 32 }
    ensures { IfOk result (λ v. v.items ≡ map binding_ends (enumerate_from 0 initiators.now)) }
{
    let mut ends = Vec::new(alloc);
    for (number, row) in initiators.iter().enumerate() {
        ends.push(HopEnds {
            up: Up::Initiator(number as u32),
            down: row.bind,
        })?;
    }
    Ok(ends)
}

/// The ends of the windows of the router with this number.
fn window_ends(
    alloc: Global,
    router: u32,
    windows: &[WindowRow],
) -> Result<Vec<HopEnds>, AllocError>
    requires { length windows.now < 2 ^ 32 }
    ensures { IfOk result (λ v. v.items ≡ map (window_ends router) (enumerate_from 0 windows.now)) }
{
    let mut ends = Vec::new(alloc);
    for (index, row) in windows.iter().enumerate() {
        let window = index as u32;
        ends.push(HopEnds {
            up: Up::Router { router, window },
            down: row.to,
        })?;
    }
    Ok(ends)
}

/// The ends of all hops of a platform: of the bindings in order, and then of the windows of each
/// router in order.
pub fn hop_ends(alloc: Global, platform: &Platform) -> Result<Vec<HopEnds>, AllocError>
    requires { IsBounded platform.now }
    ensures { IfOk result (λ v. v.items ≡ ends_of platform.now) }
{
    let mut ends = binding_ends(alloc, platform.initiators.as_slice())?;
    let routers = platform.routers.as_slice();
    for (number, row) in routers.iter().enumerate() {
        let more = window_ends(alloc, number as u32, row.windows.as_slice())?;
        ends.extend_from_slice(more.as_slice())?;
    }
    Ok(ends)
}
