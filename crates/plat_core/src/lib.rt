//! The one-thread cores: a platform with its scripts, whose actors move one at a time.
//!
//! - `Core` is for plans of blocking initiators whose scripts don't invalidate (`can_run` tells). It holds the initiators'
//!   runs and the memories. `step` makes one event of an actor: its moves that add no entry, up to and with its next entry.
//!   `into_outcome` ends it.
//! - `NetCore` is for all plans. It holds a net and its actors, which have one note in turn: after each step the note looks
//!   at the whole history, so what it knows is the history so far. Its `into_outcome` runs on until all initiators have
//!   finished, and cuts the history back to what the steps made.
//! - `run_schedule` steps the actors that a schedule names, by the core that the plan allows: the history of its outcome is
//!   sound, and where it is complete all of it is as the definitions say. In `run_in_order` each
//!   initiator in order goes on until it has finished or waits for one that is behind; `run_net_in_order` steps all actors of
//!   any plan in turn, to the end of the run.
//!
//! Promises of `Core`: after every step the history is sound for the plan, and has one more entry, which is the
//! actor's, or as many as before. An initiator finishes exactly where all that its script asks for is
//! settled. Each sync of an initiator begins a round (IEEE 1666-2011, clause 16.2), and it is let into that
//! round only where every other one that hasn't finished has reached the round before: a step waits exactly
//! where its initiator is held back, and an entry of round r stands after every entry whose round is at most
//! r - 2. Once all have finished, the history is good, and the stores and ends are those of the
//! definitions. The only error is want of memory, where a core or its outcome is made: its memories have room for all that
//! is planned, so no step can fail.
//!
//! Promises of `NetCore`: a step adds one entry at the end of the history, which is the actor's, or none. It tells why
//! it waits, and an initiator that has finished is done. By the entries of blocking and direct initiators so far, one of
//! these makes an access, a debug read or an invalidation only where its script has not ended and nobody holds it back,
//! waits only where somebody does, and finishes only where its script has ended and nobody does. The history of an
//! outcome is that of the steps, and it is sound and keeps the rounds: an entry of round r of a blocking or direct
//! initiator stands after each one of such an initiator whose round is at most r - 2. Where all initiators have
//! finished, the outcome is complete, its history good, and its stores and ends those of the definitions. That the run
//! on comes to its end is shown by tests alone. The only error is want of memory, before the first step and before it
//! runs on.
#![tactic(auto)]

pub mod laws;
mod net_core;
mod net_schedule;
mod plans;
mod schedule;
mod steps;

pub use net_core::NetCore;
pub use net_schedule::{run_net_in_order, run_schedule};
pub use plans::can_run;
pub use schedule::run_in_order;
pub use steps::{Core, CoreStep};
