//! The moves of a four-phase initiator (IEEE 1666-2011, clauses 11.1.2, 14.5 and 15.2), each of at most one entry, and what
//! they work on. `fourphase_port` goes on in its script with them.
//!
//! - `PortState` is what an initiator has beside its note: where its script stands, its times, what is outstanding, what it
//!   works on, and its wallet. `new` makes it, `into_end` takes it apart.
//! - `Hand` is what it works on between two moves, and `Moved` what a move comes to. The moves of an access under way are those
//!   down to the first hop (`down`: acquire, begin), at a memory that answers at once (`serve`), and back from there (`back`:
//!   fetch, end, stow; `returns`: take_back).
//! - Of what comes next in a script it has the parts: the tickets of an access (`stock`, `wallets`) and its payload (`take`),
//!   the call of a debug read (`reads`), `settle` and `pass` (`script`).
//!
//! Promises: `IsPort` says what the end of a run needs of a port (`port_model`'s `IsUnderWay`), and what is known of
//! what it works on. Each move keeps it, is one of the moves of `specs/Moves`, and tells that its entry is the initiator's own;
//! what is no move says exactly what it changes. What a port is by one note it is by any that knows more (`laws`). No call
//! but `new` takes memory.
#![tactic(auto)]

mod away;
mod back;
mod down;
mod hand;
pub mod laws;
mod places;
mod reads;
mod returns;
mod script;
mod serve;
mod state;
mod stock;
mod take;
mod wallets;

pub use hand::{Hand, Moved, Pumped};
pub use places::pool_place;
pub use state::PortState;
