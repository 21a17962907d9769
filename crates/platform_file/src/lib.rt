//! The platform file: a TOML document that describes a platform, or its first fault.
//!
//! - `read_platform` reads the bytes of a file. It answers a `Platform` of `tlm_model`, or a
//!   `PlatformFault` of `platform_model`: a `PlatformCode` with the table and the key where it stands.
//! - Inside, `Kind` is a kind of values, `Keys` a table with its required and optional keys, and
//!   `table_rows` reads one table after the other.
//!
//! Promises: what is read, or refused, is what `platform_of` of `specs/Platform.antt` gives of the
//! bytes: every key, default and range, and the first fault in the order of the format. The only
//! other answer is want of memory.
#![tactic(auto)]

mod bound;
mod initiators;
mod keys;
mod kinds;
mod memories;
mod names;
mod read;
mod reading;
mod routers;
mod sums;
mod tables;
mod top;
mod windows;
mod words;
pub mod worked;

pub use platform_model::{Place, PlatformCode, PlatformFault};
pub use read::read_platform;
pub use tlm_model::{InitiatorRow, MemoryRow, Platform, RouterRow, Rows, Style, Target, WindowRow};
