//! Lines of a report, written at a place of some bytes.
//!
//! - An `AccessLine` is the line of an access without byte enables, an `EventLine` that of a call at a hop or of an
//!   entry of a pool, and a `RowLine` that of some bytes of a memory. Each is a `Piece` for a sink.
//! - A `Front` is what the line of each entry begins with. It refers to `Numbering`s, which keep a word with the digits
//!   of hundreds behind it, and a line refers to a `ShortWord` for the name of its object: what is kept is copied.
//! - `write_piece` writes a `LinePiece`, words that follow one another, `write_data` bytes as digits, and
//!   `write_bytes` bytes as they are.
//!
//! Promises: each call writes just the text of the definitions (`access_text`, `event_text`, `row_text`, `piece_text`),
//! leaves what stands before its place as it was (`Adds`), and answers the place behind what it wrote. There
//! has to be room: what a line tells, and `PIECE_MAX` bytes for other pieces. No call takes memory or fails.
#![tactic(auto)]

mod access;
mod call;
mod event;
mod front;
mod numbering;
mod pieces;
mod row;

pub use access::AccessLine;
pub use event::EventLine;
pub use front::Front;
pub use numbering::{Numbering, ShortWord};
pub use pieces::{LinePiece, PIECE_MAX, write_bytes, write_data, write_piece};
pub use row::RowLine;
