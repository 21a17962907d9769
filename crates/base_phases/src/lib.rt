//! The phases of the base protocol on one hop (IEEE 1666-2011, clause 15.2).
//!
//! - `LaneState` is where a transaction stands on a hop.
//! - `may` says which calls and answers a state allows, and the state after them.
//! - `laws` says which walks of `may` there are: the eleven sequences of a transaction's calls on a
//!   hop, which `specs/Sequences` lists, and no others.
//! - `worked` has small walks, each proved by computing the definitions.
//!
//! The base protocol leaves several answers open. The list of eleven sequences is this project's choice
//! among them; nothing is said of other sequences of the standard.
#![tactic(auto)]

pub mod laws;
mod phases;
pub mod worked;

pub use phases::{LaneState, may};
