//! A log whose entries have numbers: the log of a pool, with the numbers of its references, and that of a
//! hop, with its marks.
//!
//! - `NumberedLog` is a log without accesses, and the number of each entry.
//!
//! Promises: its entries and their numbers are those that were added, in order. No call but
//! `NumberedLog::with_room` can fail for want of memory.
#![tactic(auto)]

mod log;

pub use log::NumberedLog;
