// One window, and what can be wrong with windows.
ghost use Rattle.std.specs.Prelude.{◌≡◌, ◌≤◌};
ghost use Rattle.addr_router.specs.Windows.{IsProper, cut_up, fault_at, is_overlapping, is_past_end, is_within};

use thiserror::Error;

// 2^63 - 1: no window goes past it, at its router or at its target.
const GREATEST_ADDRESS: u64 = 0x7fff_ffff_ffff_ffff;

/// A window of a router: the addresses from `first` to `last`, both included, lead to the target at
/// this port, which sees `first` as `base`. Addresses count bytes.
#[derive(Clone, Copy, Debug, PartialEq, Eq)]
pub struct Window {
    pub first: u64,
    pub last: u64,
    pub port: u32,
    pub base: u64,
}

/// Why rows are not the windows of a router. Rows count from 0.
#[derive(Clone, Copy, Debug, PartialEq, Eq, Error)]
pub enum WindowFault {
    /// The row's first address is past its last.
    #[error("window {row} is empty")]
    Empty { row: usize },
    /// The row's last address, or what the target sees for it, is past 2^63 - 1.
    #[error("window {row} goes past the greatest address")]
    PastEnd { row: usize },
    /// Row `b` has an address of the earlier row `a`.
    #[error("windows {a} and {b} overlap")]
    Overlap { a: usize, b: usize },
    /// Memory was refused.
    #[error("out of memory")]
    Memory,
}

impl Window {
    pub(crate) fn contains(&self, address: u64) -> bool
        ensures { result ≡ is_within self.now address }
    {
        self.first <= address && address <= self.last
    }

    // Two windows that aren't empty have an address in common.
    pub(crate) fn overlaps(&self, other: &Window) -> bool
        ensures { result ≡ is_overlapping self.now other.now }
    {
        self.first <= other.last && other.first <= self.last
    }

    // What is wrong with this window by itself, where it stands in this row.
    pub(crate) fn fault(&self, row: usize) -> Option<WindowFault>
        ensures { result ≡ fault_at row self.now }
    {
        if self.first > self.last {
            return Some(WindowFault::Empty { row });
        }
        if self.passes_end() {
            return Some(WindowFault::PastEnd { row });
        }
        None
    }

    // The last address, or what the target sees for it, is past the greatest address.
    fn passes_end(&self) -> bool
        requires { self.now.first ≤ self.now.last }
        ensures { result ≡ is_past_end self.now }
    {
        self.last > GREATEST_ADDRESS || self.base > GREATEST_ADDRESS - (self.last - self.first)
    }

    // The addresses that the target sees from `first` to `last`, if there are any.
    pub(crate) fn part_up(&self, first: u64, last: u64) -> Option<(u64, u64)>
        requires { IsProper self.now }
        ensures { result ≡ cut_up self.now first last }
    {
        let low = first.max(self.base);
        let high = last.min(self.base + (self.last - self.first));
        if low > high {
            return None;
        }
        Some((low - self.base + self.first, high - self.base + self.first))
    }
}
