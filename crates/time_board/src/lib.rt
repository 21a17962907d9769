//! The board on which initiators that run ahead of one another keep together, round by round: each
//! synchronization of a quantum keeper (IEEE 1666-2011, clause 16.2) is a round.
//!
//! - `Rounds` has a member for each number below a fixed one. A member goes on to the next round, or is
//!   told who is behind, or finishes; and it tells which round all have reached. Contracts see it as the list of
//!   its members.
//! - `Board` is the same for threads, under a lock.
//! - `tlm_types::Memory` is the error of the two calls named `new`, which were refused memory.
//!
//! Promises: a member goes on exactly where no unfinished member is in a lower round, so that the
//! rounds of unfinished members differ by at most one. Who is held back is told the least member that
//! is behind. No call but `new` can fail for want of memory.
#![tactic(auto)]

mod board;
mod rounds;
mod tally;

pub use board::Board;
pub use rounds::{Advance, Member, Rounds};
