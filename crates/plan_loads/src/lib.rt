//! What the top call does before a run and after it: its answers, the plan that a command line asks for, and what is
//! told.
//!
//! - `Exit` is the answer of the top call, and `Exit::number` the number that a program ends with. Where a run was
//!   reported, the answer carries its history, which was closed.
//! - `plan_of` makes the plan of a command line: a platform and the scripts of its initiators are loaded from a
//!   `Library`, or a script for the built-in platform (a blocking initiator `cpu` on a memory `ram` of 256 bytes and
//!   10 ps), or they are generated of a number. `workers_of` is how many workers run it.
//! - `print_totals` writes the line of the totals of a run, for what was generated.
//! - `tell` writes the line of an answer, and `after_flush` is the answer after a sink that collects has written its
//!   rest.
//!
//! Promises: a plan is valid, and just what the words ask for, of the files that they read. Where there is none, the
//! refusal has its cause, the first in the order of refusals (`IsRefusal`), or memory was refused. A line is written
//! whole, or its sink failed, and has taken a prefix of it.
#![tactic(auto)]

mod built_in;
mod exit;
mod generated;
mod loads;
mod plans;
mod tells;
mod totals;

pub use exit::Exit;
pub use plans::{plan_of, workers_of};
pub use tells::{after_flush, tell};
pub use totals::print_totals;
