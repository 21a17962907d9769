//! Tests of the top call: a run of each style of initiators with its whole report, its faults, its loads and
//! its threads, and what it writes to two streams.
//!
//! They use the public calls of `tlm_top` alone. The values of the reports are worked out by hand. Worked runs
//! that need nothing but files stand in `rows/`, and are run by the built program (`tools/rows`).
#![tactic(auto)]

#[cfg(test)]
mod bench;
#[cfg(test)]
mod faults;
#[cfg(test)]
mod generated;
#[cfg(test)]
mod loads;
#[cfg(test)]
mod paces;
#[cfg(test)]
mod runs;
#[cfg(test)]
mod streams;
#[cfg(test)]
mod threads;
