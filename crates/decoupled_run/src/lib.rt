//! A blocking or direct initiator of a run, whose local time is decoupled (IEEE 1666-2011, clauses 11 and 16).
//!
//! - `DecoupledInitiator` is an initiator with its run, its payload, its note, its wallet and the grants that it
//!   holds, if it is a direct one. `go_on` takes one operation of its script, or one access of it. A plain access of
//!   a direct initiator goes direct by the first grant that covers it and isn't stale, and anything else goes by
//!   transport. After a plain access by transport that was OK and has the DMI hint a direct initiator asks for a grant
//!   at once. An invalidation ends each grant that it overlaps, whoever holds it, before the script goes on.
//! - `SteppedInitiator` is the same for who steps it an entry at a time: `step` makes its moves up to and with its next entry,
//!   as far as the rounds let it. A grant that is asked for after an access, and each closing of an invalidation, is a step of
//!   its own. `initiators_stay` is the law that what an initiator keeps, it keeps as its note learns more.
//! - `finish` hands in how it ended, its wallet and its note.
//!
//! Promises: `specs/Job` says what such an initiator knows at any time: its own entries run its script, with
//! their times, and keep what a history of grants asks of them, in each history that has all that its note
//! knows; the table has its grants but for those that an invalidation has overlapped; and its tickets suffice
//! for all accesses and invalidations to come, for the grant of each gate that a direct one may still be given, and
//! for the closing of each gate that may still be open, where its script invalidates. Once its script has ended, this
//! is what the end of a run and that of its grants want of it. No call takes memory.
#![tactic(auto)]

mod access;
mod initiator;
mod laws;
mod send;
mod steps;

pub use initiator::DecoupledInitiator;
pub use laws::initiators_stay;
pub use steps::SteppedInitiator;
