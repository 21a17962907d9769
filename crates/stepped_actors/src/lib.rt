//! The actors of a net, stepped an entry at a time by one thread, with one note that they have in turn.
//!
//! - `SteppedActor` is an initiator, a router or a memory. `step` makes its moves up to and with its next entry.
//! - `begin_all` makes all actors of a net: the initiators, the routers and the memories, numbered in this order, and the
//!   note. `finish` gives what an initiator leaves that has finished.
//!
//! Promises: what an actor keeps by the note it keeps whatever the others do (`actors_stay`). A step makes one entry at
//! most, which is the actor's own; where it waits, it has found nothing that it could do, by every look that a run by
//! threads makes, or its last sync isn't let through. Its only error is want of memory, before the first step.
#![tactic(auto)]

mod actor;
mod begin;
mod laws;

pub use actor::SteppedActor;
pub use begin::begin_all;
pub use laws::actors_stay;
