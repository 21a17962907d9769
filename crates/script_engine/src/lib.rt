//! The script engine: what an initiator asks for, one step after another.
//!
//! - `Engine` walks through a `Script`. Contracts see it as a `State`: the initiator, the sequence
//!   numbers taken, the operations that are left, and the second access of a `copy` or an `add` once its
//!   first was answered.
//! - `Op` is what is next: an access, a debug read, an invalidation, a wait, a sync or a fence. `fill`
//!   makes a payload that of the next access, `told` takes the reply of one that the engine waits for,
//!   and `passed` goes on after anything else.
//! - `Part` is the part of an `Op`, which `part` gives: a `Transfer` (an access or a debug read), a `Pause`
//!   (a wait, a sync or a fence), an invalidation, or the end.
//! - `laws` says that an engine asks for the requests of its script, in their order, and for no others,
//!   whatever the history answers.
//!
//! Promises: every call is exact, by `specs/State`. What is next depends on the script and on the bytes
//! that were told, and on nothing else. Each step takes constant time, but for the bytes that it copies:
//! those of a `copy` are kept in the engine. No call can fail, and none is refused.
#![tactic(auto)]

mod buffer;
mod engine;
pub mod laws;
mod op;
mod operations;
mod part;
mod walk;

pub use engine::Engine;
pub use op::Op;
pub use part::{Part, Pause, Transfer, TransferKind};
