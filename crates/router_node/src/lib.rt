//! A router between four-phase hops (IEEE 1666-2011, clauses 10.4, 11.1.2, 14.7 and 15.2).
//!
//! - `RouterNode` is such a router: its hops above and those of its windows, and the transactions that it
//!   holds, in order of arrival. `new` makes it by the plan of a net. `pump`, of `node_hops::Node`, is a loop's turn
//!   of it; `specs/Node` says what a router keeps and what a pump does. `finish` ends it.
//! - `Stage` is what a router holds of a transaction between pumps, and `SentUp` a response that was sent up.
//!   A step of a pump for one ends below what has ended above (`look_for_end`), or tries a response (`send`; `send_at` where
//!   it stands), or a request, with END_REQ above where it is owed (`settle`). `specs/Stages` says what each leaves. The
//!   moves that they are made of, and what these work on, are those of `router_moves`.
//! - `find_back` and `find_request` fetch from the first of several hops at which something waits. `join` gives
//!   a response from below to the transaction that it belongs to.
//! - `laws` says that what a router knows of what it holds stays known.
//!
//! Promises: END_REQ is made above after BEGIN_REQ below, and END_RESP and Release below after the end above; then
//! a transaction is forgotten. A pump goes through all that is held, in order of arrival, and fetches at most one
//! response and one request. It does so in haste first, without tries and looks that are likely to be in vain, and
//! only where nothing was moved so once more with every one. It tells `Did` exactly where it has moved a transaction,
//! and `Nothing` with a look in vain at each place where there could have been something to do. A response goes to the
//! first transaction that it is of, and is kept where there is none. No pump takes memory; `new` is refused for want
//! of memory alone.
#![tactic(auto)]

mod finds;
mod haste;
mod joins;
pub mod laws;
mod making;
mod node;
mod stage;

pub use finds::{Found, find_back, find_request};
pub use joins::join;
pub use node::{RouterNode, send_at, take_sent};
pub use router_moves::{
    Back, BegunBelow, Down, End, FromBelow, Passed, PassedOn, Rest, RouterRequest, RouterResponse,
    Sent, Turned, WayBehind, descend, end_above, end_below, fetch_down, fetch_up, has_ended_above,
    pass_on, refuse, release, send_up, serve_below, turn, turn_up, way_behind,
};
pub use stage::{SentUp, Stage, Step, look_for_end, send, serve, settle};
