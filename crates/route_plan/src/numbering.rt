// The windows of routers with their numbers.
ghost use Rattle.std.specs.Prelude.{◌≡◌, ◌+◌, ◌<◌, ◌≤◌, ◌^◌, Some, length, map, slice_get, take, sum_by, IfOk};
ghost use Rattle.std.specs.List.{enumerate_from};
ghost use Rattle.addr_router.specs.Windows.{IsValid};
ghost use Rattle.platform_model.specs.Bounded.{IsBounded};
ghost use Rattle.platform_model.specs.Windows.{windows_of, window_at};
ghost use Rattle.tlm_model.specs.Route.{window_hop};
ghost use Rattle.route_plan.specs.Routes.{numbered_windows, first_hops};

use addr_router::{Window, Windows};
use platform_model::window;
use std::alloc::{AllocError, Global};
use tlm_model::{Platform, RouterRow, WindowRow};

/// The windows of rows, each with its index as its port.
fn numbered(alloc: Global, rows: &[WindowRow]) -> Result<Vec<Window>, AllocError>
    requires { length rows.now < 2 ^ 32 }
    ensures { IfOk result (λ v. v.items ≡ map (λ w. window_at w.0 w.1) (enumerate_from 0 rows.now)) }
{
    let mut windows = Vec::new(alloc);
    for (index, row) in rows.iter().enumerate() {
        windows.push(window(row, index as u32))?;
    }
    Ok(windows)
}

/// The windows of a router. The port of a window is its index.
fn router_windows(alloc: Global, router: &RouterRow) -> Result<Windows, AllocError>
    requires few { length router.now.windows < 2 ^ 32 }
    requires valid { IsValid (windows_of router.now) }
    ensures { IfOk result (λ w. w ≡ numbered_windows router.now) }
{
    let windows = numbered(alloc, router.windows.as_slice())?;
    Ok(Windows::new(windows).unwrap())
}

/// The windows of each router.
pub fn all_windows(alloc: Global, platform: &Platform) -> Result<Vec<Windows>, AllocError>
    requires { IsBounded platform.now }
    ensures { IfOk result (λ v. v.items ≡ map numbered_windows platform.now.routers) }
{
    let mut windows = Vec::new(alloc);
    let routers = platform.routers.as_slice();
    for router in routers {
        windows.push(router_windows(alloc, router)?)?;
    }
    Ok(windows)
}

/// The number as a hop of the first window of the router with this number.
fn first_hop(platform: &Platform, router: usize) -> u32
    requires bounded { IsBounded platform.now }
    requires there { router ≤ length platform.now.routers }
    ensures { result ≡ window_hop platform.now router 0 }
{
    let mut hop = platform.initiators.as_slice().len() as u32;
    let earlier = &platform.routers.as_slice()[..router];
    for row in earlier {
        hop += row.windows.as_slice().len() as u32;
    }
    hop
}

/// The number as a hop of each router's first window.
pub fn first_hops(alloc: Global, platform: &Platform) -> Result<Vec<u32>, AllocError>
    requires { IsBounded platform.now }
    ensures { IfOk result (λ v. v.items ≡ first_hops platform.now) }
{
    let mut hops = Vec::new(alloc);
    for router in 0..platform.routers.as_slice().len() {
        hops.push(first_hop(platform, router))?;
    }
    Ok(hops)
}
