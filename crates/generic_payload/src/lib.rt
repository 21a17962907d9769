//! The generic payload of TLM-2.0 (IEEE 1666-2011, clause 14), without extensions.
//!
//! - `Payload` has the attributes of a transaction. Contracts see it as one value, the record
//!   `PayloadView`.
//! - `check` answers the status that a memory gives the payload; `write_into`, `read_from` and
//!   `fetch_into` move its bytes where the check gave OK, and `debug_from` those of a debug read.
//! - `added` is what a fetch_add stores.
//!
//! Promises: every call is exact. The check and the moves are those of the definitions for the
//! access that the payload stands for. Room for data bytes and byte enables is taken once, by
//! `with_room`: no other call can fail.
#![tactic(auto)]

mod payload;
mod stream;
mod word;

pub use payload::Payload;
pub use word::added;
