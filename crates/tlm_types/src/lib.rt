//! The common types of a TLM-2.0 virtual platform.
//!
//! - `Bytes` and `Text` are lists of bytes, which contracts see as lists.
//! - `Command`, `Response`, `Phase`, `TlmSync` are the words of the generic payload and of the
//!   base protocol (IEEE 1666-2011, clauses 14 and 15).
//! - `MemoryTraits` says what a memory is and allows.
//! - `Entry` is one event of a history: its `Head` says where and when, its `What` what happened.
//!   `specs/Entries` says what is read of one.
//! - `EndOf` says how an initiator ended, with the list of what was refused to it.
//! - `Memory` is the error of every call that takes memory and was refused it.
//!
//! Promises: a list made of a slice, a text or a vector is that list, `Response::value` is the
//! standard's number, `kind_of` is what a memory allows, and a `RefusedList` can't fail for want of memory
//! after it was made.
#![tactic(auto)]

mod bytes;
mod ends;
mod entry;
mod words;

pub use bytes::{Bytes, Text};
pub use ends::{EndOf, RefusedItem, RefusedList};
pub use entry::{Access, Content, Entry, Facts, Head, What};
pub use words::{
    Command, Kind, Memory, MemoryTraits, ObjectNo, Phase, Ps, ReqMode, RespMode, Response, TlmSync,
    TxnId, Way, kind_of,
};
