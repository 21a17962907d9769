//! Calls of four-phase traffic on hops, memories and pools that threads share, with payloads that known
//! entries vouch for (IEEE 1666-2011, clauses 11.1.2, 14.5 and 15.2).
//!
//! - `TlmLaw` is the law of the histories of platforms, and what its world says of memories, hops and pools.
//! - `forward`, `end_req`, `backward` and `end_resp` make BEGIN_REQ, END_REQ, BEGIN_RESP and END_RESP;
//!   `begin_req` makes BEGIN_REQ alone, as an entry of its own, and `Tried` is its answer;
//!   `fetch_request` and `fetch_response` take what waits at the two ends of a hop, and `has_ended` looks
//!   whether a transaction has ended there. `Forwarded` is what BEGIN_REQ answers, `Answered` what
//!   BEGIN_RESP does.
//! - `serve` makes the access of a request at its memory; `forward` calls it where the response comes by
//!   return.
//! - `take`, `acquire`, `release` and `stow` count references, and `live` looks at them; `start` and `descend` acquire the one with
//!   which a payload goes down on its first hop, or on the next one.
//!
//! Promises: who knows what a call's `May..` record says can make it, in whatever state the object is. The
//! entry is backed and then known with its time, the answer is the object's, and what a hop carries is
//! vouched for. `Busy` gives payload, leg and tickets back and adds nothing, and so does `Full` with its
//! ticket. No call fails.
#![tactic(auto)]

mod descends;
mod ends;
mod fetches;
mod forwards;
mod law;
pub mod laws;
mod pools;
mod requests;
mod responses;
mod serves;
mod starts;
mod steps;
mod wallets;

pub use descends::{Descended, descend};
pub use ends::{end_req, end_resp};
pub use fetches::{FetchedRequest, FetchedResponse, fetch_request, fetch_response, has_ended};
pub use forwards::{Forwarded, forward};
pub use law::{LockedHop, LockedMemory, LockedPool, TlmLaw};
pub use pools::{Taken, acquire, live, release, stow, take};
pub use requests::{Tried, begin_req};
pub use responses::{Answered, backward};
pub use serves::serve;
pub use starts::start;
