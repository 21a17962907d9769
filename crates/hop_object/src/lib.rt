//! A hop: a bound pair of sockets, whose calls are those of `nb_transport_fw` and `nb_transport_bw` (IEEE
//! 1666-2011, clause 11.1.2), with the phases of the base protocol (clause 15.2).
//!
//! - `Hop` has up to 16 lanes, one for each transaction under way, and a log of the calls on it. A lane
//!   carries an item while a request or a response waits to be fetched.
//! - A `Leg` is the right to the next call of one lane. It keeps a token of the hop's own book, which
//!   names the position of the lane's BEGIN_REQ and the state of the lane.
//! - `HopCall` is what can be asked of a hop as an object of the history, and `HopReply` what it answers.
//!
//! Promises: the log is one that the model of a hop reaches, and the lanes are those of its board. A
//! BEGIN_RESP is marked exactly where it ends the request of its lane. Each call's answer, entry and time
//! are the definitions'. For each leg that is out there is one lane, of its position and its state, so
//! that no call is out of phase. `Busy` and `None` come exactly where the contracts say, and change
//! nothing. No call but `Hop::new` can fail for want of memory.
#![tactic(auto)]

mod answer;
mod begin;
mod call;
mod end;
mod fetch;
mod hop;
mod lane;
pub mod laws;
mod legs;
mod object;
mod respond;

pub use call::{Begun, HopCall, HopReply, HopTraits, Leg, Responded};
pub use hop::Hop;
pub use lane::{Lane, Side};
