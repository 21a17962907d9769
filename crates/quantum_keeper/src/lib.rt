//! The local time of an initiator that runs ahead, as the quantum keeper of IEEE 1666-2011, clause 16.2.
//!
//! - `QuantumKeeper` holds a quantum, the time of the last sync, and the local time, which is an offset
//!   from that time. All are picoseconds.
//! - `laws` says that a keeper asks for a sync where the definitions put one into a script, and what the
//!   next point is.
//! - `worked` has small walks, each proved by computing the definitions.
//!
//! Promises: a sync is needed once the current time, which is the last sync's and the offset, reaches
//! the next whole multiple of the quantum after the last sync, and always for a quantum of 0. The
//! current time, the offset and the next point stand still at the greatest `u64`. No call can fail,
//! and none is refused.
#![tactic(auto)]

mod keeper;
pub mod laws;
pub mod worked;

pub use keeper::QuantumKeeper;
