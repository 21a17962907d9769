//! The net of a platform: its objects, under locks or in cells, with their history and their tickets.
//!
//! - `Opened` is the history of a plan with the books of its tokens. Its objects are the memories, the
//!   hops and the pools of four-phase initiators, numbered in this order.
//! - `build` makes a `Net` of it, which threads share: the plan, the history, the tokens, and each object
//!   with its log. What it makes for the initiators, routers and memories waits in `Kept`. `style_of` tells by which style
//!   an initiator is to begin.
//! - `close_unused` ends the history of a net of which nothing was handed out.
//!
//! Promises: the history is made with what the plan counts, in the world that is the plan; each memory, hop
//! and pool is built as its rows say, and has room for all that is planned. Each initiator gets a wallet with
//! the tickets of each object that the plan counts for it, which are all that are out. So the history of a new
//! net is empty: `close_unused` says it of the history's end. `build` and `close_unused` are refused for want of
//! memory alone.
#![tactic(auto)]

mod building;
mod hops;
mod kept;
mod memories;
mod objects;
mod opened;
mod pools;
mod supplies;
mod unused;
mod wallets;

pub use building::{Built, build};
pub use kept::{Kept, Start, style_of};
pub use opened::Opened;
pub use unused::close_unused;
