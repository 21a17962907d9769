//! A four-phase initiator (IEEE 1666-2011, clauses 11.1.2, 14.5 and 15.2) over a net.
//!
//! - `Port` is a four-phase initiator under way with its note. `pump` makes its moves up to where a pump ends, and
//!   `finish` gives up its note, its wallet and how it ended.
//! - `SteppedPort` is one that is stepped an entry at a time, with the note of who steps it (`steps`). Its moves are the same, but an
//!   invalidation is told by one step, and each grant that it ends is closed by one of the next (`closes`).
//! - `moves` makes its next move, and a pump of such moves. A move is one of those of `port_moves` for what it works on, and
//!   else it goes on in its script (`onwards`): take (`takes`), settle, pass, debug read, the look for live slots, and
//!   invalidation (`revokes`). Each makes one entry at most, but for an invalidation, which makes all of its own.
//!
//! Promises: each move keeps a port (`IsPort` of `port_moves`), and is one of the moves of its `specs/Moves` or of these.
//! A pump is a list of moves, of which the last one gives its answer (`specs/Pumps`), and ends. No move takes memory. A
//! port has all tickets of what is next (`laws`). A step's entry is one of the initiator's
//! own, past all that the note knew. A step that waits has made a pump that answers `Nothing`, and one that has finished a pump
//! that answers `Finished`. What a stepped port is by one note it is by any that knows more.
#![tactic(auto)]

mod closes;
pub mod laws;
mod moves;
mod onwards;
mod port;
mod revokes;
mod steps;
mod takes;

pub use port::Port;
pub use steps::SteppedPort;
