// The parts of the rule that holds between any two steps, each as a function that does nothing. A
// state is the words of the table and the view of each seat.
ghost use Rattle.std.specs.Prelude.{ℕ, slice_index};
ghost use Rattle.atomic_table.specs.Table.{State};
ghost use Rattle.one_history.specs.declared.view.Frame.{Frame};
ghost use Rattle.one_history.specs.declared.view.View.{View};
ghost use Rattle.one_history.specs.Rule.{IsOneLog};
ghost use Rattle.one_history.specs.Alike.{BeginAlike};
ghost use Rattle.one_history.specs.Parts.{StandsOnce, KnowsHistory, HasOneSeat, SharesNotes, MergesBacked, CountsStays, MarksRevoked, KeepsShut, EndsDirect, IsKept};

use crate::law::Law;

/// Each position below the count stands in just one object's own entries, and no other does.
pub fn positions_stand_once<E, G, W: Law<E, G>>()
    ensures { (key : Frame G) (s : State ℕ (View E G)) → IsOneLog W.backs key s → StandsOnce (slice_index s.words 0) s.views }
{}

/// No view has seen more than the count. What a view knows stands in the history at its position,
/// below the length that the view has seen.
pub fn views_know_the_history<E, G, W: Law<E, G>>()
    ensures { (key : Frame G) (s : State ℕ (View E G)) → IsOneLog W.backs key s → KnowsHistory (slice_index s.words 0) s.views }
{}

/// No object has two seats. A seat's own entries are of its object, rise by position, are known to it,
/// and are no more than were planned; a gate that they give or close is one of the object's. One view at
/// most counts the seats, and each object's number is below its count.
pub fn objects_have_one_seat<E, G, W: Law<E, G>>()
    ensures { (key : Frame G) (s : State ℕ (View E G)) → IsOneLog W.backs key s → HasOneSeat key s.views }
{}

/// All views together stand for the number of notes that `History::new` was given. A view that was
/// joined to another knows nothing and stands for no note.
pub fn notes_are_shared_out<E, G, W: Law<E, G>>()
    ensures { (key : Frame G) (s : State ℕ (View E G)) → IsOneLog W.backs key s → SharesNotes key s.views }
{}

/// The own entries of all objects merge by position into one list, in which each entry is backed, by
/// the law and in the world, by the entries before it.
pub fn entries_are_backed<E, G, W: Law<E, G>>()
    ensures { (key : Frame G) (s : State ℕ (View E G)) → IsOneLog W.backs key s → MergesBacked W.backs key (slice_index s.words 0) s.views }
{}

/// A gate's word is its mark, which is 0 or the top bit, and the number of stays at it in all views, which
/// is below the top bit. No view has more stays than it stands for notes.
pub fn stays_are_counted<E, G, W: Law<E, G>>()
    ensures { (key : Frame G) (s : State ℕ (View E G)) → IsOneLog W.backs key s → CountsStays key s }
{}

/// Where a gate is marked, or void to a view, its grant and after it an overlapping invalidation stand
/// among an object's own entries.
pub fn marked_gates_are_revoked<E, G, W: Law<E, G>>()
    ensures { (key : Frame G) (s : State ℕ (View E G)) → IsOneLog W.backs key s → MarksRevoked key s }
{}

/// Where a gate is drained to a view, or its closing stands among an object's own entries, it is marked,
/// and no view is inside it.
pub fn shut_gates_are_empty<E, G, W: Law<E, G>>()
    ensures { (key : Frame G) (s : State ℕ (View E G)) → IsOneLog W.backs key s → KeepsShut key s }
{}

/// Each direct access through a gate stands before the closing of the gate.
pub fn closings_are_last<E, G, W: Law<E, G>>()
    ensures { (key : Frame G) (s : State ℕ (View E G)) → IsOneLog W.backs key s → EndsDirect s.views }
{}

/// All parts of the rule.
pub fn rule_is_kept<E, G, W: Law<E, G>>()
    ensures { (key : Frame G) (s : State ℕ (View E G)) → IsOneLog W.backs key s → IsKept W.backs key s }
{}

/// A list in which each entry stands at its position begins with each other such list all of whose entries it has. So what a
/// note knows of the whole history at one time is the beginning of what it knows later.
pub fn numbered_lists_begin_alike<E>()
    ensures { BeginAlike E }
{}
