//! Tests of what the program reads: the words of the command line, platform files, scripts, the windows
//! of routers, and the plan that is made of them.
//!
//! They use the public calls of these crates alone. What a contract proves has one row here; the other
//! rows are those whose values come from the format by hand.
#![tactic(auto)]

#[cfg(test)]
mod lines;
#[cfg(test)]
mod plans;
#[cfg(test)]
mod platforms;
#[cfg(test)]
mod scripts;
#[cfg(test)]
mod spans;
