//! What memories and routers between hops have alike: the hops that lead to them, how they take requests, and that they
//! are pumped.
//!
//! - `hops_to` lists the hops that lead to a component, in order. `memory_behind` tells the memory that a hop leads to.
//! - `traits_of` tells by a component's row whether it accepts each BEGIN_REQ, so that its END_REQ is a call of its own
//!   (IEEE 1666-2011, clause 15.2), its latency in picoseconds, and its lanes. `specs/Traits` says what these are.
//! - `Node` is a memory or a router that is pumped: `keeps` is what it keeps by what is known. A pump tells `Pumped`.
//! - `OneStep` is what a step of an actor comes to, which makes one entry at most. `specs/Steps` says which entries are its own.
//! - `laws` says of each call that made an entry that this stands past all that the note had seen and is known afterwards.
//!
//! Promises: the list has just the hops that `Plan::hop_ends` tells to lead there, each once and in rising order, which
//! are no more than 288. The only error is want of memory. Each pump keeps what its node keeps.
#![tactic(auto)]

mod behind;
mod hops;
pub mod laws;
mod node;
mod traits;

pub use behind::memory_behind;
pub use hops::hops_to;
pub use node::{Node, OneStep, Pumped};
pub use traits::{NodeTraits, traits_of};
