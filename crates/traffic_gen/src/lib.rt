//! The generator of loads: a platform with the scripts of its initiators, made of a number.
//!
//! - `generate` makes the platform's text and four scripts of 8,000 lines each: two for blocking
//!   initiators, one for a direct one and one for a four-phase one.
//! - `Generated` has the texts.
//!
//! Promises: the texts are those of the definitions, byte for byte. The platform is the same for every
//! number; addresses and data of the scripts come from a linear congruential generator that begins with
//! it. The only error is want of memory.
#![tactic(auto)]

mod numbers;
mod platform;
mod scripts;

pub use scripts::{Generated, generate};
