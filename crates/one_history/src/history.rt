// The history, and the steps on it.
ghost use Rattle.std.specs.Prelude.{◌≡◌, ℕ, ◌+◌, ◌<◌, ◌≤◌, [], ◌∷◌, ◌++◌, length, replicate, slice_index_or, sum, Some, IfOk};
ghost use Rattle.one_history.specs.Rule.{plain};
ghost use Rattle.one_history.specs.Moves.{IsFrame, MayDraw, counting, one_more, blank_seat, number_of, own_of, KnowsOwn, entry, drawn, copied, one_gone, one_less, parted, joined};

use crate::entry::Sign;
use crate::law::{Drawn, Law, Looked};
use crate::seats::{Note, ObjectSeat};
use crate::steps::{Copies, Draws, Joins, Makes, Parts, Recalls, Signed};
use crate::view::{Key, Rule, View};
use atomic_table::{Seat, Table};
use std::alloc::{AllocError, Global};
use std::marker::{Brand, Model, PhantomData};
use std::snapshot::Snapshot;
use tlm_types::Memory;

/// A history of entries with the content E, in a world G, under a law W. Contracts see which table it
/// is, and what `new` was given.
pub struct History<E, G, W: Law<E, G>> {
    pub(crate) table: Table<u8, View<E, G>, Key<G>, Rule<E, G, W>, Global>,
}

impl<E, G, W: Law<E, G>> Model for History<E, G, W> {
    ghost use Rattle.std.specs.Prelude.{◌≡◌, ◌+◌, ◌<◌, ◌≤◌, sum, length};
    ghost use Rattle.one_history.specs.Gates.{total_gates};
    ghost use Rattle.one_history.specs.Rule.{plain};
    ghost use Rattle.one_history.specs.Held.{Opened};

    ghost Value = { Opened G };

    ghost view = { λ h. record { table = h.table.shared.table_id; frame = plain h.table.shared.key } };

    ghost invariant = { λ h. (h.table.shared.table_id.words ≡ 1 + total_gates (plain h.table.shared.key)) × (sum h.table.shared.key.planned.items ≤ 1000000) × (0 < length h.table.shared.key.planned.items) };
}

// Written out, so that crates above call it and needn't prove again how each part is let go of.
impl<E, G, W: Law<E, G>> Drop for History<E, G, W> {
    fn drop(self) {
        let History { table: _table } = self;
    }
}

// The facts that the table keeps.
fn key_of<G>(
    alloc: Global,
    world: &G,
    planned: &[u64],
    gates: &[u32],
    notes: u32,
) -> Result<Key<G>, AllocError>
    ensures { IfOk result (λ k. IsFrame (plain k) world.now planned.now gates.now notes) }
{
    let mut kept_planned = Vec::new(alloc);
    kept_planned.extend_from_slice(planned)?;
    let mut kept_gates = Vec::new(alloc);
    kept_gates.extend_from_slice(gates)?;
    Ok(Key {
        world: Snapshot::of(world),
        planned: kept_planned,
        gates: kept_gates,
        notes,
    })
}

// The count, and a word for each gate.
fn words_of(alloc: Global, gates: &[u32]) -> Result<Vec<u64>, AllocError>
    requires { sum gates.now ≤ 1024 }
    ensures { IfOk result (λ v. v.items ≡ 0 ∷ replicate (sum gates.now) 0) }
{
    let total: u32 = gates.iter().sum();
    let mut words = Vec::new(alloc);
    words.push(0)?;
    words.resize(total as usize + 1, 0)?;
    Ok(words)
}

impl<E, G, W: Law<E, G>> History<E, G, W> {
    ghost use Rattle.one_history.specs.Seats.{AreFresh};

    /// An empty history in this world, with a seat for each object, in order, and a note that stands
    /// for so many notes. `planned` gives the most entries of each object, 1,000,000 in all at most,
    /// and `gates` how many gates it has, 1,024 in all at most, which are numbered through the objects
    /// in order. Its only error is want of memory.
    pub fn new(
        alloc: Global,
        world: &G,
        planned: &[u64],
        gates: &[u32],
        notes: u32,
    ) -> Result<(History<E, G, W>, Vec<ObjectSeat<E, G, W>>, Note<E, G, W>), Memory>
        requires lists { (length gates.now ≡ length planned.now) × (0 < length planned.now) }
        requires few { sum planned.now ≤ 1000000 }
        requires gates { sum gates.now ≤ 1024 }
        requires notes { 0 < notes }
        ensures frame { IfOk result (λ r. IsFrame r.0.frame world.now planned.now gates.now notes) }
        ensures seats { IfOk result (λ r. (length r.1.items ≡ length planned.now) × AreFresh r.0.table r.0.frame r.1.items) }
        ensures note { IfOk result (λ r. (r.2.table ≡ r.0.table) × (r.2.knows ≡ counting r.0.frame (length planned.now))) }
    {
        let key = key_of(alloc, world, planned, gates, notes)?;
        let words = words_of(alloc, gates)?;
        let (table, seat) = Table::of_words(alloc, words.as_slice(), &key)?;
        let history = History { table };
        let mut note = Note {
            seat,
            of: PhantomData,
        };
        let seats = history.make_all(alloc, &mut note, planned.len())?;
        Ok((history, seats, note))
    }

    // The seats of all objects.
    fn make_all(
        &self,
        alloc: Global,
        note: &mut Note<E, G, W>,
        count: usize,
    ) -> Result<Vec<ObjectSeat<E, G, W>>, AllocError>
        requires note { (note.old.table ≡ self.now.table) × (note.old.knows ≡ counting self.now.frame 0) }
        requires some { 0 < self.now.frame.notes }
        ensures note { IfOk result (λ r. (note.new.table ≡ self.now.table) × (note.new.knows ≡ counting self.now.frame count)) }
        ensures seats { IfOk result (λ r. (length r.items ≡ count) × AreFresh self.now.table self.now.frame r.items) }
    {
        let mut seats = Vec::new(alloc);
        for _i in 0..count {
            seats.push(self.make(note))?;
        }
        Ok(seats)
    }

    // The seat of the next object.
    fn make(&self, note: &mut Note<E, G, W>) -> ObjectSeat<E, G, W>
        requires note { note.old.table ≡ self.now.table }
        requires counts { (n : ℕ) × (note.old.knows.counts ≡ Some n) }
        requires notes { 1 ≤ note.old.knows.notes }
        ensures note { (note.new.table ≡ note.old.table) × (note.new.knows ≡ one_more note.old.knows) }
        ensures seat { (result.table ≡ note.old.table) × (result.knows ≡ blank_seat note.old.knows) }
    {
        let seat = self.table.shared.split_seat::<Makes>(&mut note.seat);
        ObjectSeat {
            seat,
            of: PhantomData,
        }
    }

    // The call picks the sign.
    fn draw_as<D: Drawn<E>, B: Signed>(&self, seat: &mut Seat<u8, View<E, G>>, _sign: Sign) -> u64
        requires seat { (seat.old.table_id ≡ self.now.table) × (length seat.old.me.0.objects ≡ 1) }
        requires planned { length (own_of seat.old.me.0) < slice_index_or self.now.frame.planned (number_of seat.old.me.0) 0 }
        requires backed { (p : ℕ) → seat.old.me.0.seen ≤ p → KnowsOwn seat.old.me.0 → W.backs self.now.frame.world seat.old.me.0.known (entry p (number_of seat.old.me.0) B.sign D.content) }
        requires gates { KnowsOwn seat.old.me.0 → MayDraw self.now.frame seat.old.me.0 B.sign }
        ensures same { (seat.new.table_id ≡ seat.old.table_id) × (seat.new.me.1 ≡ seat.old.me.1) }
        ensures after { seat.old.me.0.seen ≤ result }
        ensures below { result < 1000000 }
        ensures drawn { seat.new.me.0 ≡ drawn seat.old.me.0 (entry result (number_of seat.old.me.0) B.sign D.content) }
        ensures mine { KnowsOwn seat.old.me.0 }
    {
        self.table.shared.fetch_add::<Draws<D, B>>(seat, 0, 1)
    }

    /// Adds an entry of the seat's object, with this sign and the content of D, and answers its
    /// position: the length that the history had, which is no less than what the seat had seen. The
    /// seat has fewer entries than planned, and what it knows backs the entry. A gate that is granted or
    /// closed is one of its object's. For a direct access the seat is inside the gate, and for a closing
    /// the gate is drained to it. What it knows of its object is among its own entries, and all that it
    /// knows stands below what it has seen.
    pub fn draw<D: Drawn<E>>(&self, seat: &mut ObjectSeat<E, G, W>, sign: Sign) -> u64
        requires seat { seat.old.table ≡ self.now.table }

        // The entry may be drawn.
        requires planned { length (own_of seat.old.knows) < slice_index_or self.now.frame.planned (number_of seat.old.knows) 0 }
        requires backed { (p : ℕ) → seat.old.knows.seen ≤ p → KnowsOwn seat.old.knows → W.backs self.now.frame.world seat.old.knows.known (entry p (number_of seat.old.knows) sign D.content) }
        requires gates { KnowsOwn seat.old.knows → MayDraw self.now.frame seat.old.knows sign }

        // It was drawn, past all that the seat had seen.
        ensures table { seat.new.table ≡ seat.old.table }
        ensures after { seat.old.knows.seen ≤ result }
        ensures below { result < 1000000 }
        ensures drawn { seat.new.knows ≡ drawn seat.old.knows (entry result (number_of seat.old.knows) sign D.content) }
        ensures number { number_of seat.new.knows ≡ number_of seat.old.knows }
        ensures own { own_of seat.new.knows ≡ own_of seat.old.knows ++ entry result (number_of seat.old.knows) sign D.content ∷ [] }
        ensures mine { KnowsOwn seat.old.knows }
    {
        self.draw_as::<D, Brand>(&mut seat.seat, sign)
    }

    /// Looks at the history: what the seat knows of its object is among its own entries, and all that it
    /// knows stands below what it has seen.
    pub fn recall(&self, seat: &mut ObjectSeat<E, G, W>)
        requires { seat.old.table ≡ self.now.table }
        ensures same { seat.new ≡ seat.old }
        ensures mine { KnowsOwn seat.old.knows }
    {
        self.table.shared.load::<Recalls>(&mut seat.seat, 0);
    }

    /// A note that has seen what the seat has seen and stands for one of its notes, of which it has more
    /// than stays. The seat's looks go
    /// to it, with one more: the seat's object and the number of D.
    pub fn copy<D: Looked>(&self, seat: &mut ObjectSeat<E, G, W>) -> Note<E, G, W>
        requires seat { seat.old.table ≡ self.now.table }
        requires notes { length seat.old.knows.stays + 1 ≤ seat.old.knows.notes }
        ensures table { (seat.new.table ≡ self.now.table) × (result.table ≡ self.now.table) }
        ensures seat { seat.new.knows ≡ one_gone seat.old.knows }
        ensures note { result.knows ≡ copied D.number seat.old.knows }
    {
        let other = self.table.shared.split_seat::<Copies<D>>(&mut seat.seat);
        Note {
            seat: other,
            of: PhantomData,
        }
    }

    /// A second note that has seen what the first has seen and stands for one of its notes. It has no
    /// looks. The first is inside no gate.
    pub fn split(&self, note: &mut Note<E, G, W>) -> Note<E, G, W>
        requires note { note.old.table ≡ self.now.table }
        requires notes { 2 ≤ note.old.knows.notes }
        requires outside { note.old.knows.stays ≡ [] }
        ensures table { (note.new.table ≡ self.now.table) × (result.table ≡ self.now.table) }
        ensures left { note.new.knows ≡ one_less note.old.knows }
        ensures part { result.knows ≡ parted note.old.knows }
    {
        let other = self.table.shared.split_seat::<Parts>(&mut note.seat);
        Note {
            seat: other,
            of: PhantomData,
        }
    }

    /// Afterwards the seat has seen what both had seen. It has the notes, the looks and the stays of both.
    /// What it knows of its object is among its own entries, and where a gate of its object is void to
    /// it, they have the gate's grant and after it an overlapping invalidation.
    pub fn join(&self, seat: &mut ObjectSeat<E, G, W>, note: Note<E, G, W>)
        requires seat { seat.old.table ≡ self.now.table }
        requires note { note.table ≡ self.now.table }
        ensures table { seat.new.table ≡ seat.old.table }
        ensures joined { seat.new.knows ≡ joined seat.old.knows note.knows }
        ensures number { number_of seat.new.knows ≡ number_of seat.old.knows }
        ensures own { own_of seat.new.knows ≡ own_of seat.old.knows }
        ensures mine { KnowsOwn seat.new.knows }
    {
        self.take_in(seat, note);
        self.recall(seat);
    }

    /// Takes a note into a seat as `join` does, but without the look at the history that tells what the seat
    /// knows. To be called where a draw or a look follows, which tells it.
    pub fn take_in(&self, seat: &mut ObjectSeat<E, G, W>, note: Note<E, G, W>)
        requires seat { seat.old.table ≡ self.now.table }
        requires note { note.table ≡ self.now.table }
        ensures table { seat.new.table ≡ seat.old.table }
        ensures joined { seat.new.knows ≡ joined seat.old.knows note.knows }
        ensures number { number_of seat.new.knows ≡ number_of seat.old.knows }
        ensures own { own_of seat.new.knows ≡ own_of seat.old.knows }
    {
        let other = note.into_seat();
        self.table.shared.join_seat::<Joins>(&mut seat.seat, other);
    }
}
