//! The report: the text that names a history, with how each initiator ended, what was refused to it, and the final memories.
//!
//! - `specs/Ends` says how an initiator ends, by its style: a blocking or direct one at the sum of its latencies, a four-phase
//!   one at the greatest of its current time and the ends of its accesses; and when it issued what was refused.
//! - `specs/Report` has the lines of a report, each a list of words, and `specs/Worked` the reports of runs that were made by hand.
//!
//! Nothing here runs: each function of `laws` and `worked` carries a law.
#![tactic(auto)]

pub mod laws;
pub mod worked;
