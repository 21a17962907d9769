//! What the reader of platform files shares with the plans that are made of platforms.
//!
//! - `PlatformFault` says why a platform is refused: a `PlatformCode` with the table and the key
//!   where it stands. `Place` names a table of the file, and makes refusals that stand there.
//! - `RowKind` is a kind of rows, or a test of them, and `rows` the one loop over rows: it answers all
//!   of them, or the first refusal.
//! - `window` is the window of a row, for the translation of addresses.
//! - `specs/Bounded.antt` has the limits that each platform keeps that a file describes.
//!
//! Promises: a refusal has the code, the text of its place and the key that it was made of, and each
//! code is printed as its word of the format. `rows` reads each item, in order, as its kind says, and
//! stops at the first refusal. The only other answer is want of memory.
#![tactic(auto)]

mod fault;
mod place;
mod reading;
mod windows;

pub use fault::{PlatformCode, PlatformFault};
pub use place::Place;
pub use reading::{RowKind, rows};
pub use windows::window;
