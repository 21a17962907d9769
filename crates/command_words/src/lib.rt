//! The command line: what the words of the program ask for.
//!
//! - `Command` is what a command line asks for: `run FILE [--workers N] [--trace all|accesses|none]`,
//!   `script FILE` or `gen SEED [--workers N]`. The words are those after the program's name.
//! - `read_words` reads the words.
//! - `worked` has worked command lines, proved by computing the definition.
//!
//! Promises: what is read is `command_of` of the words, in `specs/Words`: options stand anywhere after
//! the first word, each at most once, and every other list of words is no command line. Words that are
//! no command line are told as such, never as want of memory.
#![tactic(auto)]

mod command;
mod read;
mod shape;
mod values;
pub mod worked;

pub use command::Command;
pub use read::read_words;
