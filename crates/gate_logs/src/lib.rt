//! What a memory's log says of its gates is what a history of grants asks of it (IEEE 1666-2011, clause
//! 11.2): no code that runs.
//!
//! Promises (laws): a log whose grants and closings are those of its memory, as `region_object::Region` keeps
//! it, takes its gates in turn, each given once and closed once after it was given, and each grant in it is
//! of the whole memory and of its kind.
#![tactic(auto)]

mod laws;

pub use laws::memories_keep_gate_logs;
