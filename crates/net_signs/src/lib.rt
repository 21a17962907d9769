//! Signs of four-phase traffic: what calls have left at the hops and pools of a net, so that a call is made only where it
//! may come to something (IEEE 1666-2011, clauses 11.1.2 and 15.2).
//!
//! - `Signs` counts the requests and responses that wait at each hop, those that are open there, its lanes in use, and the
//!   live slots of each pool. It is told what each call has come to, and asked before one.
//! - A `Count` is how it counts: in steps that threads share, or in cells of one thread.
//!
//! No clause rests on signs: what stands in an object is seen by a call at it alone, and who waits is tried now and then all
//! the same. No call but `Signs::new` takes memory.
#![tactic(auto)]

mod count;
mod signs;

pub use count::Count;
pub use signs::Signs;
