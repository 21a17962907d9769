// The windows of a router.
ghost use Rattle.std.specs.Prelude.{◌≡◌, ◌≢◌, ◌==◌, ◌↔◌, [], length, position, find, count_by, leb, option_copied, IfOk, IsOk};
ghost use Rattle.std.specs.Result.{result_err};
ghost use Rattle.addr_router.specs.InOrder.{IsInOrder, IsOrderOf, KeepsOrder};
ghost use Rattle.addr_router.specs.Windows.{HasOneWindow, IsValid, decoded, first_fault, is_overlapping, is_within, overlap_fault, row_fault, translated_up, window_fault};

use crate::window::{Window, WindowFault};
use std::marker::Model;

// The rows of a router are kept a second time in order where they are no more than this, as a platform's are.
const MOST_IN_ORDER: usize = 16;

// What stands behind the rows that are kept in order.
const NO_WINDOW: Window = Window {
    first: 0,
    last: 0,
    port: 0,
    base: 0,
};

/// The windows of a router. Contracts see the list of their rows. Up to 16 are kept in order of their first
/// addresses, too, and an address is looked up there.
#[derive(Drop)]
pub struct Windows {
    rows: Vec<Window>,
    in_order: [Window; MOST_IN_ORDER],
}

impl Model for Windows {
    ghost use Rattle.std.specs.Prelude.{List};
    ghost use Rattle.addr_router.specs.declared.window.Window.{Window};
    ghost use Rattle.addr_router.specs.InOrder.{KeepsOrder};
    ghost use Rattle.addr_router.specs.Windows.{IsValid};

    ghost Value = { List Window };

    ghost view = { λ w. w.rows.items };

    ghost invariant = { λ w. IsValid w.rows.items × KeepsOrder w.rows.items w.in_order };
}

impl Windows {
    /// The windows with these rows, or their first fault.
    ///
    /// Row by row comes `Empty` where `first` is past `last`, and then `PastEnd` where `last` or
    /// `base + (last - first)` is past 2^63 - 1; after all rows comes `Overlap`, with the least row `b`
    /// that overlaps an earlier one and the least such row `a`. Nothing is allocated, so `Memory` never
    /// comes.
    pub fn new(rows: Vec<Window>) -> Result<Windows, WindowFault>
        ensures ok { IfOk result (λ windows. windows ≡ rows.items) }
        ensures valid { IsOk result ↔ IsValid rows.items }
        ensures fault { result_err result ≡ window_fault rows.items }
        ensures no_memory { result ≢ Err WindowFault.Memory }
    {
        if let Some(fault) = fault_of(&rows) {
            return Err(fault);
        }
        let in_order = ordered(&rows);
        Ok(Windows { rows, in_order })
    }

    /// The rows, in order.
    pub fn rows(&self) -> &[Window]
        ensures rows { result.now ≡ self.now }
        ensures valid { IsValid self.now }
    {
        self.rows.as_slice()
    }

    /// The port that an address leads to, and the address that the target there sees for it. `None`
    /// exactly where no window has the address.
    pub fn decode(&self, address: u64) -> Option<(u32, u64)>
        ensures { result ≡ decoded self.now address }
    {
        let window = self.window_at(address)?;
        Some((window.port, address - window.first + window.base))
    }

    // The window that has the address.
    fn window_at(&self, address: u64) -> Option<&Window>
        ensures found { option_copied result ≡ find (λ w. is_within w address) self.now }
        ensures valid { IsValid self.now }
    {
        let rows = self.rows.as_slice();
        let count = rows.len();
        if count > MOST_IN_ORDER {
            return first_at(rows, address);
        }
        last_begun(&self.in_order[..count], address)
    }

    /// The addresses for which the target at this port sees the range from `first` to `last`, both
    /// included: the range is cut to the port's window and moved back. `None` exactly where the range
    /// and the window don't meet. Just one window must have this port.
    pub fn translate_up(&self, first: u64, last: u64, port: u32) -> Option<(u64, u64)>
        requires { HasOneWindow self.now port }
        ensures { result ≡ translated_up self.now first last port }
    {
        let window = window_of(&self.rows, port)?;
        window.part_up(first, last)
    }
}

fn fault_of(rows: &[Window]) -> Option<WindowFault>
    ensures { result ≡ window_fault rows.now }
{
    first_row_fault(rows).or_else(|| first_overlap(rows))
}

// The first fault of a row by itself.
fn first_row_fault(rows: &[Window]) -> Option<WindowFault>
    ensures { result ≡ first_fault row_fault [] rows.now }
{
    for (row, window) in rows.iter().enumerate() {
        if let Some(fault) = window.fault(row) {
            return Some(fault);
        }
    }
    None
}

// The overlap of the first row that overlaps an earlier one.
fn first_overlap(rows: &[Window]) -> Option<WindowFault>
    ensures { result ≡ first_fault overlap_fault [] rows.now }
{
    for (row, window) in rows.iter().enumerate() {
        if let Some(fault) = overlap(&rows[..row], window) {
            return Some(fault);
        }
    }
    None
}

// The overlap of a window with the first of the earlier ones that has an address of it.
fn overlap(earlier: &[Window], window: &Window) -> Option<WindowFault>
    ensures { result ≡ overlap_fault earlier.now window.now }
{
    let place = first_met(earlier, window)?;
    Some(WindowFault::Overlap {
        a: place,
        b: earlier.len(),
    })
}

fn first_met(earlier: &[Window], window: &Window) -> Option<usize>
    ensures { result ≡ position (λ other. is_overlapping other window.now) earlier.now }
{
    earlier.iter().position(|other| other.overlaps(window))
}

// The rows in order, where they are few enough.
fn ordered(rows: &[Window]) -> [Window; MOST_IN_ORDER]
    ensures { KeepsOrder rows.now result }
{
    let mut kept = [NO_WINDOW; MOST_IN_ORDER];
    if rows.len() <= MOST_IN_ORDER {
        put_in_order(rows, &mut kept[..rows.len()]);
    }
    kept
}

fn put_in_order(rows: &[Window], kept: &mut [Window])
    requires { length kept.old ≡ length rows.now }
    ensures order { IsOrderOf rows.now kept.new }
    ensures len { length kept.new ≡ length rows.now }
{
    kept.copy_from_slice(rows);
    kept.sort_unstable_by_key(|window| window.first);
}

fn first_at(rows: &[Window], address: u64) -> Option<&Window>
    ensures { option_copied result ≡ find (λ w. is_within w address) rows.now }
{
    rows.iter().find(|window| window.contains(address))
}

// How many of these windows begin at the address or before it. It looks at all of them, since branches that addresses
// foretell badly would cost more.
#[inline(always)]
fn begun(windows: &[Window], address: u64) -> usize
    ensures { result ≡ count_by (λ w. leb w.first address) windows.now }
{
    let mut count = 0;
    for window in windows {
        count += (window.first <= address) as usize;
    }
    count
}

// The window that has the address, of windows in order: it can only be the last one that doesn't begin past it.
fn last_begun(windows: &[Window], address: u64) -> Option<&Window>
    requires { IsInOrder windows.now }
    ensures { option_copied result ≡ find (λ w. is_within w address) windows.now }
{
    let after = begun(windows, address);
    if after == 0 {
        return None;
    }
    let window = &windows[after - 1];
    if window.contains(address) {
        Some(window)
    } else {
        None
    }
}

fn window_of(rows: &[Window], port: u32) -> Option<&Window>
    ensures { option_copied result ≡ find (λ w. w.port == port) rows.now }
{
    rows.iter().find(|window| window.port == port)
}
