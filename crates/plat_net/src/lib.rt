//! The net of a platform: its objects, under locks or in cells of one thread, with their history and their tickets,
//! and the calls at them.
//!
//! - A `Net` is what threads share of a plan: the plan, the history, the tokens, and each memory, hop and pool
//!   with its log. `Sharing` says what keeps these: locks, for `ManyThreads`, or cells, for `OneThread`. `TlmLaw` is
//!   the law of the history: it says which earlier entries back an entry of four-phase traffic, and backs every
//!   other entry.
//!   `Net::kept_by` has another way keep them, in a `NetRoom` that was made before.
//! - `Net::call_memory` makes a call at a memory, and `Net::debug` a debug read along its route. A `Reach` is a
//!   way to the memories: of a thread that shares the net, or of the only one who has it. `Net::forget_memories` has
//!   the memories' logs forget what nobody will read.
//! - The calls of four-phase traffic find hop, memory, pool, history and tokens themselves: at hops `forward`,
//!   `begin_req`, `end_req`, `backward`, `end_resp`, `fetch_request`, `fetch_response` and `has_ended`, at memories
//!   `serve`, at pools `take`, `start`, `acquire`, `release`, `stow` and `live`, and `descend` of routers.
//!
//! Promises: each call of `cargo_net` does here what it does there, and asks only for what the plan doesn't give:
//! `specs/HopCalls`, `specs/PoolCalls` and `specs/MemoryCalls` say what that is. A call of a memory adds one entry,
//! by the definitions, and takes one ticket. A plan of a good shape has no cycle (`laws`). No call of a net takes
//! memory, and no lock is held after one. All of this holds for any `Sharing`.
#![tactic(auto)]

mod calls;
mod hop_calls;
mod law;
pub mod laws;
mod net;
mod pool_calls;
mod reach;
mod sharing;

pub use calls::Carried;
pub use law::{PlatHistory, PlatNote, PlatSeat, SharedHop, SharedMemory, SharedPool, TlmLaw};
pub use net::{Net, NetParts, NetRoom};
pub use reach::Reach;
pub use sharing::{ManyThreads, OneThread, Sharing};
