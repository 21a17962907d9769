//! The end of a run: the net of a plan is taken apart once all jobs have ended, and its history closed.
//!
//! - `take_apart` takes the memories, hops and pools of a net apart, and the tickets that initiators have left go
//!   back into the books of their objects. `Apart` has the log and the seat of each object in order, and the bytes of
//!   each memory. It is made before the run, with room for all of them.
//! - `seal` closes the history and makes the outcome of what is left: the ends of the initiators and their notes, and the
//!   logs, bytes and seats of the objects.
//!
//! Promises: each object leaves what its log says (`net_end`), and its entries with the tickets that the wallets had
//! left are no more than planned. The history is good for the plan, each beginning of it is sound, the closed one has
//! just its entries, and the stores and ends are those of the definitions, whatever the actors did in which order. No
//! more memory is taken once room was made (`Apart::room_for`), so an end can't fail. A pool with a live slot is waited
//! for without end: once all initiators have finished there is none.
#![tactic(auto)]

mod apart;
mod parts;
mod sealing;

pub use apart::{Apart, take_apart};
pub use sealing::{PlatSealed, seal};
