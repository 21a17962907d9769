//! A queue of events by their times: the payload event queue `peq_with_get` of IEEE 1666-2011, clause
//! 16.3, with absolute times.
//!
//! - `EventQueue<T>` holds items, each with a time in picoseconds. Contracts see it as its entries, in
//!   the order in which they are given, and its room.
//! - `tlm_types::Memory` is the error of `new`, which was refused memory.
//!
//! An entry that is no earlier than all before it, as most are, stands at the end of a line, and stays in its place
//! until it is given. One that is earlier than the last of the line waits in a heap, by times and by numbers
//! that count these: adding and giving take time in proportion to the logarithm of how many are in the heap.
//! Where the last number was taken, once in 2^64 notifications, what is in the heap moves to a second one of the
//! same room, with new numbers.
//!
//! Promises: entries are given in the order of their times, those of equal times in the order of their
//! notification. An entry is given as soon as its time has come, and none before. No call but `new`
//! can fail for want of memory, and no call but `pop` lets go of an item.
#![tactic(auto)]

mod queue;
mod waiting;

pub use queue::EventQueue;
