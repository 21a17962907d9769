//! A memory behind four-phase hops (IEEE 1666-2011, clauses 11.1.2, 15.2 and 16.3).
//!
//! - `TargetNode` is such a memory: its hops in order, its event queue, and the response that it holds. `new` makes
//!   it by the plan of a net. `pump`, of `node_hops::Node`, is a loop's turn of it, over the moves `send`, `take_in`
//!   and `serve_first`, each of which makes one entry at most.
//! - `TargetNode::step` makes the next entry by the same moves, or waits. `laws` says that a memory keeps what it knows while
//!   others move.
//! - `MemoryRequest` is what was fetched from a hop and waits to be served, `MemoryResponse` what was served and waits to be
//!   sent. `specs/Items` says what is known of each, `specs/Node` what a memory keeps and what a pump does.
//! - `fetch`, `end`, `serve` and `respond` are the calls of which the moves consist.
//!
//! Promises: a memory knows what the access and the answer of each of its requests stand after. Requests are fetched
//! in order of hops, and served once, in the order of the event queue: the access is made at the time of BEGIN_REQ on
//! its hop, and the response is due after the memory's latency. END_REQ is made exactly where the memory's mode is
//! `accept`. A refused response is held and tried again. A pump tells `Nothing` exactly where no request waits or
//! the queue has no room, and a response is held or the queue is empty. No pump takes memory; `new` is refused for
//! want of memory alone. At the end of a run the one who pumped it hands in the note alone.
#![tactic(auto)]

mod items;
pub mod laws;
mod making;
mod moves;
mod node;
mod step;

pub use items::{FromHop, MemoryRequest, MemoryResponse};
pub use moves::{end, fetch, respond, serve};
pub use node::TargetNode;
