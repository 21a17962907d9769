//! One history of entries, whose positions many threads draw.
//!
//! - A `History` is a counting word and a word for each gate. `History::new` gives an `ObjectSeat` for each object and one
//!   `Note`. A seat draws the entries of its object, each at the next free position.
//! - A `Note` carries what was seen from seat to seat: `copy` and `split` make one, `join` takes it in.
//! - A note goes inside a gate by `enter`, and its seat leaves by `leave`. `mark` lets nobody in any more,
//!   and `drain` waits until nobody is inside.
//! - A `Law` says which earlier entries back an entry in a world. `NoLaw` backs everything.
//! - `learn` lets a note know the whole history so far. `close` ends it: its `Sealed` has all entries, in the order of their positions.
//!
//! Promises, between any two steps of any threads and for any law: each position below the count
//! stands in one object's own entries, what a seat or a note knows stands in the history below the
//! length that it has seen, no object has two seats, and each entry is backed by those before it. Nobody
//! is inside a gate that is drained or closed, and no direct access through one stands after its closing.
//! No call but `drain` waits, and none but `History::new` can fail, for want of memory. Entries are seen
//! by contracts alone.
#![tactic(auto)]

mod close;
mod entry;
mod gates;
mod history;
mod law;
mod parts;
mod seats;
mod steps;
mod view;

pub use close::{Closed, Sealed};
pub use entry::{Entry, Sign};
pub use gates::Entered;
pub use history::History;
pub use law::{Drawn, Law, Looked, NoLaw};
pub use parts::{
    closings_are_last, entries_are_backed, marked_gates_are_revoked, notes_are_shared_out,
    numbered_lists_begin_alike, objects_have_one_seat, positions_stand_once, rule_is_kept,
    shut_gates_are_empty, stays_are_counted, views_know_the_history,
};
pub use seats::{Note, ObjectSeat};
pub use view::{Frame, Owned, Stay, View};
