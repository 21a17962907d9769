//! A router that is stepped an entry at a time (IEEE 1666-2011, clauses 10.4, 11.1.2, 14.7 and 15.2).
//!
//! - `SteppedRouter` is such a router: `new` makes it of a `RouterNode`, and `into_node` gives that back. `step` makes what is
//!   due, or else goes through what a pump of `router_node` does, with every try and every look, up to its first entry.
//! - `Due` is what is left of a passage of which the first entry was made: END_REQ above, the access, or the Release.
//! - `laws` says that it keeps what it keeps by more entries, too. `specs/Stepped` says what that is.
//!
//! Promises: where a step tells `Made` the note that comes back knows an entry of the router, past all that was known
//! before. It tells `Waits` only after a whole going through with every look, in which nothing was moved, and never
//! `Finished`. No step takes memory. That it makes no second entry is seen in the code alone: one call that makes one.
#![tactic(auto)]

pub mod laws;
mod steps;
mod tries;

pub use steps::{Due, SteppedRouter};
