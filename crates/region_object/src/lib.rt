//! A memory of the platform: a target with blocking and debug transport and a direct memory interface
//! (IEEE 1666-2011, clauses 11.1.1, 11.2 and 11.3).
//!
//! - `Region` is a memory with its log: the entries of all that happened there, in order.
//! - `RegionCall` is what can be asked of it, with the payload that carries it, and `RegionReply` what
//!   it answers, with the payload. `Denial` says why no grant is given.
//!
//! Promises: an access, whatever its status, a debug read, a direct access, an invalidation, a grant that
//! is given and the first closing of a gate add exactly one entry, any other call none; entry and reply
//! are those that the definitions give for the log so far. The bytes and gates of a region are those of
//! its log, the bytes as many as its size, and each status and each byte that the log tells are those of
//! the memory as it was then. A grant is of the whole memory and of the kind that it allows, and takes the
//! least gate that was never given. A call for which there is room takes no memory.
#![tactic(auto)]

mod call;
mod gates;
mod laws;
mod object;
mod region;

pub use call::{Denial, RegionCall, RegionReply, payload_cost};
pub use laws::direct_accesses_are_ok;
pub use region::Region;
