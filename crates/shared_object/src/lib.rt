//! Objects whose calls are entries of one history, under a lock or in a cell of one thread.
//!
//! - An `Object` is a memory, a hop or a pool: it has a log, and a call adds one entry to it or none.
//! - A `World` says, for a law, how the object of each number is built, and what vouches for an item.
//! - A `Naming` names one history and its tokens, so that what is kept is known by its type.
//! - A `Keeper` keeps a value: a `Mutex`, which threads share, or a `RefCell` of one thread, which has no lock
//!   to take. `kept_by_others` has other keepers keep what several have kept.
//! - `Shared` has an object, its seat in the history and its book of tickets (`Locked`) in a keeper. `step`
//!   makes one call: it joins a note, draws where the call is admitted, applies it and copies a note.
//!   `step_leaving` does so with a note that is inside a gate, and leaves it after the draw.
//!   `step_alone` does so for the only one who has the object, who needn't go in. `forget` lets the object's
//!   log forget its entries: an object whose log nobody reads needs no more memory.
//!
//! Promises: a call that is admitted adds one entry to the history, which is that of the object's log,
//! and spends one ticket; any other adds none. The reply is what the object gives in a state that its
//! log so far gives. The note that comes back knows all that the object has written. Between two calls
//! the seat's entries are the object's, and tickets are out for just the entries for which there is
//! room. No call takes memory. Nothing of this depends on the keeper.
#![tactic(auto)]

mod keeper;
mod locked;
mod naming;
mod object;
mod shared;

pub use keeper::{Entered, Keeper};
pub use locked::{Locked, Stepped};
pub use naming::Naming;
pub use object::{Object, World};
pub use shared::{Shared, kept_by_others};
