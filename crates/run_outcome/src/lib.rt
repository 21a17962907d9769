//! How a run ended, whoever ran it.
//!
//! - `Outcome` is the history of a run, the bytes of each memory, how each initiator ended, and whether all
//!   of them have finished.
//! - `MergedLog` makes one history of the logs of a run's objects, which stay where they are, and a
//!   `LogReader` reads it.
//!
//! Promises: the entries of a merged log are those of its logs in the order of their positions
//! (`merged` of `specs/Merge.antt`), each answered where it stands; nothing is copied. What a report may
//! take of an outcome is `IsReportable` of `specs/Outcome.antt`, and what the outcome of a whole run is,
//! `IsWhole`. The only error is want of memory.
#![tactic(auto)]

mod merge;
mod outcome;

pub use merge::{LogReader, MergedLog};
pub use outcome::Outcome;
