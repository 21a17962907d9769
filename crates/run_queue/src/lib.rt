//! A queue of jobs that workers take, give a turn, and give back, until enough of them have finished.
//!
//! - A `Job` has a number and tells whether it is done.
//! - `Jobs<J>` has each job at a `JobState`: it waits, is out with a worker, or has finished. One that waits is
//!   in line, parked until a round is reached, or at rest until another job has moved. Contracts see the places by
//!   number, the numbers in line, those that are parked and those at rest, the greatest round that was told, how often
//!   a move was told, and how many jobs have to finish.
//! - `RunQueue<J>` is the same for threads, under a lock. Who hands in a job can take the next one under
//!   the same lock, and who finds none in line can wait for one.
//! - `tlm_types::Memory` is the error of the two calls named `new`, which were refused memory.
//!
//! Promises: the jobs in line are taken first in, first out; a parked one comes back into line when a round above
//! its own is told, and at once where that was told before; one at rest comes back when a move is told, and at once where
//! one was told since it was taken. A job is out at most once, and a job that is handed in
//! while its number isn't out is dropped. In the end each job comes back once: from `into_jobs` once
//! enough have finished, which are done then, and from `into_all` at any time. No call but `new` can fail for want of memory.
#![tactic(auto)]

mod jobs;
mod queue;

pub use jobs::{Job, JobState, Jobs, TakenJob};
pub use queue::RunQueue;
