//! The definitions: which histories are right for a platform with its scripts.
//!
//! - `Platform` and its rows say what a platform is, `Operation` what a script asks for, and `Ask`
//!   what of that is counted; code and definitions share them.
//! - `specs/` has the definitions that contracts cite, one file a subject: `Store` what an access
//!   does, `Route` where an address leads, `Actions` the table of operations, `Requests` what an
//!   initiator asks for, `Rounds` its syncs, `History` and `Log` the store of a history and of one
//!   memory, `Scripts` and `Kept` the points of requests, `Text` the words of numbers and bytes.
//! - `worked` has small runs, each with a history that has these points, and histories that miss one.
//!   Each is proved to be so by computing the definitions.
#![tactic(auto)]

mod ask;
pub mod laws;
mod operation;
mod platform;
mod rows;
mod trace;
pub mod worked;

pub use ask::{Ask, Asks};
pub use operation::Operation;
pub use platform::{InitiatorRow, MemoryRow, Platform, RouterRow, Style, Target, WindowRow};
pub use rows::Rows;
pub use trace::Trace;
