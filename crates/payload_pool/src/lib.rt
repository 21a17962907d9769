//! A pool of payloads whose references are counted: a memory manager (IEEE 1666-2011, clause 14.5).
//!
//! - `Pool` has slots, each with a payload and a wallet that are made once, by `new`.
//! - A `Baton` is a payload that was taken, with the initiator's own reference; a `Hold` is one
//!   reference more. They are tokens of the pool's book, so none counts twice.
//! - `PoolCall` is what can be asked of it, and `PoolReply` what it answers.
//!
//! Promises: a take gives the least free slot with a payload as new, and none exactly where all slots
//! are live. A slot is free again exactly where its last reference was given back, which the answer
//! tells. Each call but `Live` adds one entry, past those before it, and the slots are what the log
//! gives. `has_released` tells whether a Release stands in the log. The name of a reference that is out
//! gives its Take and its transaction. No call but `new` can fail for want of memory.
#![tactic(auto)]

mod baton;
mod call;
pub mod laws;
mod object;
mod pool;
mod release;
mod released;
mod slot;
mod take;

pub use baton::{Baton, Hold};
pub use call::{PoolCall, PoolReply};
pub use pool::{Pool, PoolMade};
