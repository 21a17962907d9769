// Steps at the gates.
ghost use Rattle.std.specs.Prelude.{◌≡◌, ◌+◌, ◌<◌, ◌≤◌, ◌==◌, [], cond, length};
ghost use lib.Dec.{ltb};
ghost use Rattle.one_history.specs.Gates.{total_gates, stays_of};
ghost use Rattle.one_history.specs.Moves.{number_of, own_of, SawInvalidated, entered, away, left, voided, drained_at};

use crate::history::History;
use crate::law::Law;
use crate::seats::{Note, ObjectSeat};
use crate::steps::{Comes, Leaves, Marks, Watches};
use crate::view::View;
use atomic_table::Seat;
use std::sync::Wait;

/// What `History::enter` answers.
#[derive(Clone, Copy, PartialEq, Eq, Debug)]
pub enum Entered {
    Inside,
    /// The gate is marked.
    Marked,
}

impl<E, G, W: Law<E, G>> History<E, G, W> {
    ghost use Rattle.one_history.specs.Answer.{ByEntered};
    ghost use Rattle.view_lists.specs.Lists.{Has};

    // A stay begins: inside, where the word that was found has no mark.
    fn come(&self, seat: &mut Seat<u8, View<E, G>>, gate: u32) -> u64
        requires gate { gate < total_gates self.now.frame }
        requires seat { seat.old.table_id ≡ self.now.table }
        requires outside { seat.old.me.0.stays ≡ [] }
        requires notes { 1 ≤ seat.old.me.0.notes }
        ensures same { (seat.new.table_id ≡ seat.old.table_id) × (seat.new.me.1 ≡ seat.old.me.1) }
        ensures came { seat.new.me.0 ≡ cond (ltb result 9223372036854775808) (entered gate seat.old.me.0) (away gate seat.old.me.0) }
    {
        self.table
            .shared
            .fetch_add::<Comes>(seat, 1 + gate as usize, 1)
    }

    // A stay ends. Where it was the last one at a marked gate, those who wait for that are woken.
    fn go(&self, seat: &mut Seat<u8, View<E, G>>, gate: u32)
        requires gate { gate < total_gates self.now.frame }
        requires seat { seat.old.table_id ≡ self.now.table }
        requires stay { 1 ≤ stays_of gate seat.old.me.0 }
        requires some { 1 ≤ seat.old.me.0.notes + length seat.old.me.0.objects }
        ensures same { (seat.new.table_id ≡ seat.old.table_id) × (seat.new.me.1 ≡ seat.old.me.1) }
        ensures left { seat.new.me.0 ≡ left gate seat.old.me.0 }
    {
        let word = 1 + gate as usize;
        let found = self.table.shared.fetch_sub::<Leaves>(seat, word, 1);
        if found == (1 << 63) + 1 {
            self.table.shared.wake_all(word);
        }
    }

    // A look at the gate's word. The gate is drained where it is the mark alone.
    fn watch(&self, seat: &mut Seat<u8, View<E, G>>, gate: u32) -> u64
        requires gate { gate < total_gates self.now.frame }
        requires seat { seat.old.table_id ≡ self.now.table }
        requires some { 1 ≤ seat.old.me.0.notes + length seat.old.me.0.objects }
        ensures same { (seat.new.table_id ≡ seat.old.table_id) × (seat.new.me.1 ≡ seat.old.me.1) }
        ensures watched { seat.new.me.0 ≡ cond (result == 9223372036854775808) (drained_at gate seat.old.me.0) seat.old.me.0 }
    {
        self.table.shared.load::<Watches>(seat, 1 + gate as usize)
    }

    // Looks at the gate's word until it is the mark alone. Between two looks it sleeps, until the number of
    // stays has changed.
    fn wait<R: Wait>(&self, rt: &R, seat: &mut Seat<u8, View<E, G>>, gate: u32)
        requires gate { gate < total_gates self.now.frame }
        requires seat { seat.old.table_id ≡ self.now.table }
        requires some { 1 ≤ seat.old.me.0.notes + length seat.old.me.0.objects }
        ensures same { (seat.new.table_id ≡ seat.old.table_id) × (seat.new.me.1 ≡ seat.old.me.1) }
        ensures drained { seat.new.me.0 ≡ drained_at gate seat.old.me.0 }
    {
        for _ in rt.forever() {
            let found = self.watch(seat, gate);
            if found == 1 << 63 {
                break;
            }
            let stays = (found % (1 << 32)) as u32;
            self.table.shared.park(rt, 1 + gate as usize, stays);
        }
    }

    /// Goes inside the gate. It is `Marked` only where an overlapping invalidation of the gate's grant
    /// stands in the history; then the note is inside no gate, and the gate is void to it.
    pub fn enter(&self, note: &mut Note<E, G, W>, gate: u32) -> Entered
        requires gate { gate < total_gates self.now.frame }
        requires note { note.old.table ≡ self.now.table }
        requires outside { note.old.knows.stays ≡ [] }
        requires notes { 1 ≤ note.old.knows.notes }
        ensures table { note.new.table ≡ note.old.table }
        ensures came { ByEntered result (note.new.knows ≡ entered gate note.old.knows) (note.new.knows ≡ voided gate note.old.knows) }
    {
        if self.come(&mut note.seat, gate) < 1 << 63 {
            return Entered::Inside;
        }
        self.go(&mut note.seat, gate);
        Entered::Marked
    }

    /// Leaves the gate, at which the seat has a stay.
    pub fn leave(&self, seat: &mut ObjectSeat<E, G, W>, gate: u32)
        requires gate { gate < total_gates self.now.frame }
        requires seat { seat.old.table ≡ self.now.table }
        requires stay { 1 ≤ stays_of gate seat.old.knows }
        ensures table { seat.new.table ≡ seat.old.table }
        ensures left { seat.new.knows ≡ left gate seat.old.knows }
        ensures number { number_of seat.new.knows ≡ number_of seat.old.knows }
        ensures own { own_of seat.new.knows ≡ own_of seat.old.knows }
    {
        self.go(&mut seat.seat, gate);
    }

    /// Marks the gate: from now on nobody goes inside. The note has seen an overlapping invalidation of
    /// the gate's grant. Marking twice is lawful.
    pub fn mark(&self, note: &mut Note<E, G, W>, gate: u32)
        requires gate { gate < total_gates self.now.frame }
        requires note { note.old.table ≡ self.now.table }
        requires notes { 1 ≤ note.old.knows.notes }
        requires saw { SawInvalidated note.old.knows gate }
        ensures table { note.new.table ≡ note.old.table }
        ensures void { note.new.knows ≡ voided gate note.old.knows }
    {
        self.table
            .shared
            .fetch_or::<Marks>(&mut note.seat, 1 + gate as usize, 1 << 63);
    }

    /// Waits until nobody is inside the gate, which is void to the note. Then the gate is drained to the
    /// note: nobody is ever inside it again. Between two looks it sleeps until a stay at the gate has
    /// ended. Nothing is promised of how long it waits.
    pub fn drain<R: Wait>(&self, rt: &R, note: &mut Note<E, G, W>, gate: u32)
        requires gate { gate < total_gates self.now.frame }
        requires note { note.old.table ≡ self.now.table }
        requires notes { 1 ≤ note.old.knows.notes }
        requires void { Has note.old.knows.void gate }
        ensures table { note.new.table ≡ note.old.table }
        ensures drained { note.new.knows ≡ drained_at gate note.old.knows }
    {
        self.wait(rt, &mut note.seat, gate);
    }
}
