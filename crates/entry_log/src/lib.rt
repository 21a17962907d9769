//! The log of an object of a TLM-2.0 virtual platform: what happened there, in order.
//!
//! - `Log` is a list of entries, with the room that was made for them. An access mostly takes 32 bytes, among which are up
//!   to 8 of its own; others stand in one list. An entry of a hop or a pool takes 16. What has large numbers, byte enables
//!   or a status other than OK stands in a long form. A log with room for 64 KiB of bytes keeps equal bytes of large
//!   accesses once, where it finds them.
//!   A log can forget its entries, and all that come after them: they are known in contracts alone, and can't be read.
//! - `LoggedAccess` is an access that was read from it: its head, its plain parts, and the bytes that it sent, enabled
//!   and got.
//!
//! Promises: a log has what was pushed, in order; and forgetting changes nothing of that. It can't fail for want of
//! memory while it has room for entries and for bytes, and after want of memory it is as before. What a read sent isn't
//! kept: it is zeros. A log holds less than 4 GiB of bytes.
#![tactic(auto)]

mod log;

pub use log::{Log, LoggedAccess};
