// What a seat or a note knows, and the rule of all of them.
use crate::entry::Entry;
use crate::law::Law;
use atomic_table::TableRule;
use std::collections::LinkedList;
use std::marker::PhantomData;
use std::snapshot::Snapshot;

/// What `History::new` was given, as the table keeps it.
#[derive(Drop)]
pub struct Key<G> {
    pub world: Snapshot<G>,
    pub planned: Vec<u64>,
    pub gates: Vec<u32>,
    pub notes: u32,
}

/// What `History::new` was given, as contracts see it: the world, the most entries of each object,
/// the number of each object's gates, and the number of notes. No value of it is made.
pub struct Frame<G> {
    pub world: G,
    pub planned: LinkedList<u64>,
    pub gates: LinkedList<u32>,
    pub notes: u32,
}

/// An object's number and its own entries, as contracts see them. No value of it is made.
pub struct Owned<E> {
    pub number: u64,
    pub own: LinkedList<Entry<E>>,
}

/// What a seat or a note knows, as contracts see it. No value of it is made.
pub struct View<E, G> {
    /// None once it was joined to another.
    pub frame: Option<Frame<G>>,
    /// How many notes it stands for.
    pub notes: u64,
    /// The length of the history that it has seen.
    pub seen: u64,
    /// Entries below that length.
    pub known: LinkedList<Entry<E>>,
    /// Objects with the numbers of looks at them.
    pub looks: LinkedList<(u64, u64)>,
    /// The object of a seat. A note has none.
    pub objects: LinkedList<Owned<E>>,
    /// How many seats were made. The first note alone counts them.
    pub counts: Option<u64>,
    /// Its stays at gates. A note has at most one.
    pub stays: LinkedList<Stay>,
    /// Gates whose grant was revoked: an overlapping invalidation stands after it.
    pub void: LinkedList<u32>,
    /// Marked gates inside which nobody is any more.
    pub drained: LinkedList<u32>,
}

/// A stay at a gate, inside or turned away, as contracts see it. No value of it is made.
pub struct Stay {
    pub gate: u32,
    pub inside: bool,
}

/// The rule of the table.
pub struct Rule<E, G, W> {
    of: PhantomData<(E, G, W)>,
}

impl<E, G, W: Law<E, G>> TableRule<u8, View<E, G>, Key<G>> for Rule<E, G, W> {
    ghost use Rattle.one_history.specs.Rule.{IsOneLog, first_view, plain};

    ghost holds = { λ key s. IsOneLog W.backs (plain key) s };

    ghost first = { λ key. first_view (plain key) };
}
