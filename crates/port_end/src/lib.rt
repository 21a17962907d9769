//! An access that has arrived at its initiator, in the words of the initiator's port: what vouched for its payload,
//! and what is left in its wallet, is what the port takes back.
//!
//! - `specs/Arrives` says it for one access.
//!
//! Nothing here runs: each function carries a law.
#![tactic(auto)]

ghost use Rattle.port_end.specs.Arrives.{ArrivedComesBack, FinishedArrives, TakesBackFenced, TakesBackPlain};

/// A payload that is back on the first hop has arrived once the port has ended it: with the END_RESP that is owed, and the last two
/// Releases.
pub fn finished_accesses_arrive()
    ensures { FinishedArrives }
{}

/// An access that has arrived is one that comes back: its calls, its end, its entry at the memory, and its tickets.
pub fn arrived_accesses_come_back()
    ensures { ArrivedComesBack }
{}

/// A port takes a plain access back, and is under way without it.
pub fn plain_accesses_are_taken_back()
    ensures { TakesBackPlain }
{}

/// A port takes back the access that its engine waits for, and tells the engine the payload's bytes.
pub fn fenced_accesses_are_taken_back()
    ensures { TakesBackFenced }
{}
