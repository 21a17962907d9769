//! The windows of a router, which is an interconnect component (IEEE 1666-2011, clause 10.4).
//!
//! - `Window` is one window: a range of addresses that leads to a port, whose target sees it from a
//!   base on.
//! - `Windows` are the windows of one router: none is empty, none goes past the greatest address, and
//!   no two overlap. Contracts see them as the list of their rows.
//! - `WindowFault` says why rows are not the windows of a router.
//! - `laws` says how the ways down and up fit together, and which rows have one window for a port.
//!
//! Promises: `Windows::new` takes just the valid rows, and refuses others with their first fault.
//! `decode` answers the port and the translated address of the one window that has the address, and
//! nothing exactly where no window has it. `translate_up` answers just the addresses that lead through
//! the port into a range that the target sees. No call can fail for want of memory.
#![tactic(auto)]

pub mod laws;
mod window;
mod windows;

pub use window::{Window, WindowFault};
pub use windows::Windows;
