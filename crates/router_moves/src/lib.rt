//! The moves of a router between four-phase hops (IEEE 1666-2011, clauses 10.4, 11.1.2, 14.7 and 15.2), each of at
//! most one entry. `router_node` holds the transactions and makes these moves for them.
//!
//! - `RouterRequest` is what was fetched from a hop above, `PassedOn` what the router keeps of a transaction that it
//!   passes on, `Down` a request that is to go down, `BegunBelow` and `Back` a response that came by return and
//!   one that is back, `RouterResponse` one that is to go up, and `Rest` what is to be made below once that has
//!   ended above. `specs/Items` says what is known of each, and `specs/Moves` what each move does.
//! - `fetch_down`, `way_behind`, `descend`, `pass_on`, `serve_below` and `end_above` are the moves of a
//!   request; `refuse`, `fetch_up`, `turn_up`, `send_up`, `has_ended_above`, `end_below` and `release`
//!   those of a response. `turn` is `descend` or `refuse`, whichever is due.
//!
//! Promises: a request goes to the hop behind its window and with the address there, after the router's
//! latency; without a window it is answered with ADDRESS_ERROR. END_REQ is made above after BEGIN_REQ
//! below. The response goes up as it came, with the reference that came with the request. END_RESP and
//! Release are made below after the end above. What is refused comes back as it was. No move takes memory.
#![tactic(auto)]

mod choice;
mod down;
mod items;
mod up;

pub use choice::{Turned, turn};
pub use down::{Passed, descend, end_above, fetch_down, pass_on, serve_below, way_behind};
pub use items::{
    Back, BegunBelow, Down, End, PassedOn, Rest, RouterRequest, RouterResponse, WayBehind,
};
pub use up::{
    FromBelow, Sent, end_below, fetch_up, has_ended_above, refuse, release, send_up, turn_up,
};
