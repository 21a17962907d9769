//! Blocking transport and debug transport of initiators over the net of a platform (IEEE 1666-2011,
//! clauses 11.1.1 and 11.3).
//!
//! - `b_transport` makes an access: it takes the payload along its route to a memory, and back.
//!   `b_transport_along` does so along a route that was looked up before.
//! - `transport_dbg` makes a debug read along the same route.
//!
//! Promises: an access with a route adds exactly one entry to the history, at that memory, with the
//! status and the bytes of the definitions, and its time is that of its arrival; without a route it adds
//! none and has the status ADDRESS_ERROR. The time of the initiator rises by the latency of the whole
//! walk, that of a refusing router too; a debug read takes none. The note that comes back knows the entry,
//! and the wallet has one ticket of that memory less. No lock is held but for the one call at the memory,
//! and no memory is taken.
#![tactic(auto)]

mod transport;

pub use transport::{b_transport, b_transport_along, transport_dbg};
