//! The top call: from the words of the command line to the report of a run.
//!
//! - `run` does what the words ask for: it has a platform and the scripts of its initiators made a plan
//!   (`plan_loads`), which `run FILE` and `script FILE` load from a `Library` and `gen SEED` generates of
//!   a number, runs them by worker threads and writes the report to a `Sink`, or of what was generated
//!   one line that tells its totals.
//! - `serve` is `run` over two streams, with the rest written that a sink collects: what the program does.
//! - `program` is `serve` with the words, the files and the streams of a runtime: a `main` hands on to it.
//! - `Exit` is the answer, and `after_flush` the answer after a sink that collects has written its rest:
//!   both are those of `plan_loads`. Where a run was reported, the answer carries its history, which was
//!   closed.
//!
//! Promises: Done means that the sink took the report, or that line, of the history that the threads
//! drew, whatever they did in which order, and that it is good for the valid plan that the words ask for.
//! Every other answer comes with its cause, the first in the order of refusals, and with nothing written,
//! or for WriteFault a prefix of that report or line. A second sink is told of each answer but Done by one
//! line.
#![tactic(auto)]

pub mod laws;
mod runtimes;
mod streams;
mod top;

pub use plan_loads::{Exit, after_flush};
pub use runtimes::program;
pub use streams::serve;
pub use top::run;
