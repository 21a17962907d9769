//! Masked copies of bytes.
//!
//! - `merge` copies the enabled bytes, `is_enabled` tells whether a byte is enabled, `expand` writes
//!   out the enables that stand for each byte, `is_zero` tells whether a line of bytes is zeros.
//!
//! The enables are the byte enables of the generic payload (IEEE 1666-2011, clause 14): with m
//! elements, element `k mod m` governs byte k, which is enabled where that is 0xff. Without any
//! element every byte is enabled.
//!
//! Promises: each call equals its plain definition, for every length, and can't fail.
#![tactic(auto)]

mod lanes;

pub use lanes::{expand, is_enabled, is_zero, merge};
