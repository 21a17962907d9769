//! The script reader: a text as the operations that an initiator is asked for.
//!
//! - `read_script` reads a text of at most 10,000 lines, by the grammar of `docs/FORMATS.md`, in version
//!   1 or 2: only version 2 has `fetch_add`.
//! - `Script` is what was read, which contracts see as a list of operations, repeats written out. It
//!   keeps a `Piece` for operations that are repeated, with their number of times, so its memory goes
//!   by the text's lines. Its copies, and the cursors made of them, share its pieces, so a copy takes
//!   constant time, and no memory by the script's length. They may be in different threads.
//! - `Cursor` walks through a script in constant time a step.
//! - `asks_of` is what an operation asks for: accesses, debug reads and invalidations.
//! - `ScriptFault` says why nothing was read: a line from 1 with a `ScriptCode`, or want of memory.
//! - `worked` has worked scripts, proved by computing the definition.
//!
//! Promises: what is read is `script_of` of the text, in `specs/Lines`, and so is each refusal, the
//! first in the text. The operations of a script are proper, in `specs/Proper`: at most 100,000, with
//! lengths of data of 1 to 4,096 bytes and numbers below 2^64. Reading takes time in proportion to the
//! text.
#![tactic(auto)]

mod asks;
mod builder;
mod cursor;
mod fault;
mod keyword;
mod lines;
mod numbers;
mod operations;
mod options;
mod piece;
mod place;
mod reader;
mod script;
mod statement;
mod words;
pub mod worked;

pub use asks::asks_of;
pub use cursor::Cursor;
pub use fault::{ScriptCode, ScriptFault};
pub use piece::Piece;
pub use reader::read_script;
pub use script::Script;
