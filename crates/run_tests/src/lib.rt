//! Tests of nets, of transport along their routes, of runs by worker threads and by a schedule, and of the
//! report of a run, over public calls: `plat_build`, `blocking_path`, `plat_run`, `plat_core` and `trace_print`
//! have the contracts, and what they can't say is shown here.
//!
//! - `bench` makes plans of texts.
//! - `nets` has a net that was just built, `transports` accesses along their routes.
//! - `runs` has runs by 1 to 4 workers: that they end, that workers run at once, that rounds hold
//!   initiators back, whom the pace is told of, and that a run whose logs are forgotten ends as any other.
//!   `paces` has the paces that hold initiators and count.
//! - `phases` has runs of initiators of all styles by 1, 2, 4 and 16 workers.
//! - `reports` has a report whose lines are written by hand, each of which is one piece for the sink, and compares the
//!   reports of a core and of a worker.
//! - `step_bench` compares what schedules make with rows that were made by hand, each beginning of a schedule too.
//!   `schedules` has a blocking initiator that is stepped, `phase_schedules` four-phase initiators, routers and memories,
//!   `grant_schedules` direct initiators, invalidations and rounds.
//!
//! There is nothing to call. The tests stand in a crate of their own so that those crates aren't proved
//! again with them.
#![tactic(auto)]

#[cfg(test)]
mod bench;
#[cfg(test)]
mod grant_schedules;
#[cfg(test)]
mod nets;
#[cfg(test)]
mod paces;
#[cfg(test)]
mod phase_schedules;
#[cfg(test)]
mod phases;
#[cfg(test)]
mod reports;
#[cfg(test)]
mod runs;
#[cfg(test)]
mod schedules;
#[cfg(test)]
mod step_bench;
#[cfg(test)]
mod transports;
