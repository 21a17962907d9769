//! The tests of histories, tokens, memories, hops and pools by themselves. The libraries that they test stand
//! below, so that none of these is proved once more with its tests. Hops and pools under their locks, behind
//! memories, are tested with whole runs (`run_tests`, and the worked rows in `rows/`).
//!
//! - `bench` gives the seats and the books of two objects, with which tests of histories and tokens start.
//! - `history` and `gates` have histories, `tokens` and `grants` tokens, `regions` memories.
//! - `hops` has rows of calls of a hop, which `hop_steps` asks one step after another, and `pools` calls of a pool.
//!
//! There is nothing to call.
#![tactic(auto)]

#[cfg(test)]
mod bench;
#[cfg(test)]
mod gates;
#[cfg(test)]
mod grants;
#[cfg(test)]
mod history;
#[cfg(test)]
mod hop_steps;
#[cfg(test)]
mod hops;
#[cfg(test)]
mod pools;
#[cfg(test)]
mod regions;
#[cfg(test)]
mod tokens;
