// The faults of windows.
ghost use Rattle.std.specs.Prelude.{◌≡◌, Some, IfOk, map};
ghost use Rattle.platform_file.specs.Platform.{checked_windows, refused_windows};
ghost use Rattle.platform_model.specs.Reading.{Fails};
ghost use Rattle.platform_model.specs.Windows.{window_at};

use addr_router::{Window, WindowFault, Windows};
use platform_model::{Place, PlatformCode, PlatformFault, RowKind, window};
use std::alloc::{AllocError, Global};
use tlm_model::{RouterRow, WindowRow};

/// The windows of rows for their faults, for which ports don't matter.
fn windows(alloc: Global, rows: &[WindowRow]) -> Result<Vec<Window>, AllocError>
    ensures { IfOk result (λ v. v.items ≡ map (window_at 0) rows.now) }
{
    rows.iter().map(|row| window(row, 0)).collect(alloc)
}

/// The refusal of the overlap of two windows of the router with this number.
fn refused_overlap(
    alloc: Global,
    router: usize,
    earlier: usize,
    index: usize,
) -> Result<PlatformFault, AllocError>
    ensures { IfOk result (λ f. Fails f (refused_windows router (Some (WindowFault.Overlap earlier index)))) }
{
    let key = format!(in alloc; "window[{earlier}]")?;
    let place = Place::Window { router, index };
    Ok(place.refuse(alloc, PlatformCode::Overlap, key.as_str()))
}

/// The refusal of a fault of the windows of the router with this number.
fn refused(alloc: Global, router: usize, fault: WindowFault) -> PlatformFault
    ensures { Fails result (refused_windows router (Some fault)) }
{
    match fault {
        WindowFault::Empty { row: index } => {
            Place::Window { router, index }.refuse(alloc, PlatformCode::EmptyWindow, "first")
        }
        WindowFault::PastEnd { row: index } => {
            Place::Window { router, index }.refuse(alloc, PlatformCode::PastEnd, "base")
        }
        WindowFault::Overlap { a, b } => match refused_overlap(alloc, router, a, b) {
            Ok(fault) => fault,
            Err(_) => PlatformFault::Memory,
        },
        WindowFault::Memory => PlatformFault::Memory,
    }
}

/// The test of each router's windows: the ranges of all of them, and then their overlaps.
#[derive(Drop)]
pub struct RouterWindows;

impl RowKind<RouterRow> for RouterWindows {
    type Row = ();

    ghost reads = { λ _. checked_windows };

    fn read(&self, alloc: Global, index: usize, item: &RouterRow) -> Result<(), PlatformFault> {
        let windows = windows(alloc, item.windows.as_slice())?;
        match Windows::new(windows) {
            Ok(_) => Ok(()),
            Err(fault) => return Err(refused(alloc, index, fault)),
        }
    }
}
