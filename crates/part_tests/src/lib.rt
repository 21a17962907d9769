//! Tests of parts of a platform, each over the public calls of its crate, which has the contracts: what
//! these can't say is shown here.
//!
//! - `payloads` has the generic payload of `generic_payload`, `engines` the scripts of `script_engine`,
//!   `lanes` the masked copies of `lane_copy`, `events` the queue of `event_queue`,
//!   `generators` the loads of `traffic_gen`, `phases` the calls on a lane of `base_phases`, `keepers` the keeper of
//!   `quantum_keeper`.
//! - `types` has the common types of `tlm_types`: with ample memory each call that may answer want of memory
//!   gives its value. `memory` has the libraries, sinks and paces in memory of `outside`, and `files` real files and
//!   streams, of which no contract tells the content.
//! - `sequences` has rows of four-phase calls by the checks of `flow_check`. `lists` takes items out of a list.
//! - `laws` has a run by hand that leaves what the law of ended runs wants (`joined_traffic`).
//! - `boards` has the rounds of `time_board`, `queues` the jobs of `run_queue`: by one thread, and by two at
//!   once, which meet at their locks.
//!
//! There is nothing to call but that law. The tests stand in a crate of their own so that those crates aren't proved
//! again with them.
#![tactic(auto)]

#[cfg(test)]
mod boards;
#[cfg(test)]
mod engines;
#[cfg(test)]
mod events;
#[cfg(test)]
mod files;
#[cfg(test)]
mod generators;
#[cfg(test)]
mod keepers;
#[cfg(test)]
mod lanes;
pub mod laws;
#[cfg(test)]
mod lists;
#[cfg(test)]
mod memory;
#[cfg(test)]
mod payloads;
#[cfg(test)]
mod phases;
#[cfg(test)]
mod queues;
#[cfg(test)]
mod sequences;
#[cfg(test)]
mod types;
