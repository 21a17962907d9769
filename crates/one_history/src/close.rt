// The end of a history.
ghost use Rattle.std.specs.Prelude.{◌≡◌, ◌<◌, ◌≤◌, [], length, Some};

use crate::history::History;
use crate::law::Law;
use crate::seats::{Note, ObjectSeat};
use crate::steps::{Joins, Learns};
use crate::view::View;
use atomic_table::Seat;
use std::marker::Model;

/// A history that has ended. Contracts see its table, its world, and its list of entries.
pub struct Sealed<E, G, W: Law<E, G>> {
    history: History<E, G, W>,
    seat: Seat<u8, View<E, G>>,
    count: u64,
}

impl<E, G, W: Law<E, G>> Model for Sealed<E, G, W> {
    ghost use Rattle.std.specs.Prelude.{◌≡◌, length};
    ghost use Rattle.one_history.specs.Held.{Ended};

    ghost Value = { Ended E G };

    ghost view = { λ s. record { table = s.history.table; world = s.history.frame.world; entries = s.seat.me.0.known } };

    ghost invariant = { λ s. s.count ≡ length s.seat.me.0.known };
}

// Written out, so that crates above call it and needn't prove again how each part is let go of.
impl<E, G, W: Law<E, G>> Drop for Sealed<E, G, W> {
    fn drop(self) {
        let Sealed {
            history: _history,
            seat: _seat,
            count: _,
        } = self;
    }
}

impl<E, G, W: Law<E, G>> Sealed<E, G, W> {
    /// How many entries it has, which is at most 1,000,000.
    pub fn len(&self) -> u64
        ensures { result ≡ length self.now.entries }
    {
        self.count
    }
}

/// What `History::close` answers. Closing takes no memory, so it is always `Done`.
#[derive(Drop)]
pub enum Closed<E, G, W: Law<E, G>> {
    Done(Sealed<E, G, W>),
    /// Never answered: it stands for want of memory, with all that is handed back untouched.
    Refused(History<E, G, W>, Vec<ObjectSeat<E, G, W>>, Vec<Note<E, G, W>>),
}

impl<E, G, W: Law<E, G>> History<E, G, W> {
    ghost use Rattle.view_lists.specs.Lists.{Has, Within};
    ghost use Rattle.one_history.specs.declared.view.Owned.{Owned};
    ghost use Rattle.one_history.specs.Gates.{NoneAfterClosed};
    ghost use Rattle.one_history.specs.Lists.{entries_at};
    ghost use Rattle.one_history.specs.Moves.{joined, learnt};
    ghost use Rattle.one_history.specs.Seats.{AreSeats, AreNotes, Gathers, Tell, IsMerge};
    ghost use Rattle.one_history.specs.Closing.{Numbered, AreBacked, ArePlanned};
    ghost use Rattle.one_history.specs.Answer.{IfDone};

    // One seat for all objects.
    fn gather(&self, mut seats: Vec<ObjectSeat<E, G, W>>) -> Seat<u8, View<E, G>>
        requires some { 0 < length seats.items }
        requires seats { AreSeats self.now.table self.now.frame seats.items }
        ensures table { result.table_id ≡ self.now.table }
        ensures frame { (result.me.0.frame ≡ Some self.now.frame) × (1 ≤ length result.me.0.objects) }
        ensures all { Gathers seats.items 0 result.me.0.objects }
    {
        let Some(last) = seats.pop() else {
            unreachable!()
        };
        let mut master = last.into_seat();
        while let Some(next) = seats.pop() {
            self.take_seat(&mut master, next);
        }
        master
    }

    // The master takes in a seat.
    fn take_seat(&self, master: &mut Seat<u8, View<E, G>>, seat: ObjectSeat<E, G, W>)
        requires master { (master.old.table_id ≡ self.now.table) × (1 ≤ length master.old.me.0.objects) }
        requires seat { seat.table ≡ self.now.table }
        ensures master { (master.new.table_id ≡ master.old.table_id) × (master.new.me ≡ (joined master.old.me.0 seat.knows, master.old.me.1)) }
        ensures one { length seat.knows.objects ≡ 1 }
    {
        let other = seat.into_seat();
        self.table.shared.join_seat::<Joins>(master, other);
    }

    // The master takes in a note.
    fn take_note(&self, master: &mut Seat<u8, View<E, G>>, note: Note<E, G, W>)
        requires master { (master.old.table_id ≡ self.now.table) × (1 ≤ length master.old.me.0.objects) }
        requires note { note.table ≡ self.now.table }
        ensures master { (master.new.table_id ≡ master.old.table_id) × (master.new.me ≡ (joined master.old.me.0 note.knows, master.old.me.1)) }
        ensures none { note.knows.objects ≡ [] }
    {
        let other = note.into_seat();
        self.table.shared.join_seat::<Joins>(master, other);
    }

    // The master takes in all notes.
    fn take_notes(&self, master: &mut Seat<u8, View<E, G>>, mut notes: Vec<Note<E, G, W>>)
        requires master { (master.old.table_id ≡ self.now.table) × (1 ≤ length master.old.me.0.objects) }
        requires notes { AreNotes self.now.table notes.items }
        ensures same { (master.new.table_id ≡ master.old.table_id) × (master.new.me.0.frame ≡ master.old.me.0.frame) × (master.new.me.0.objects ≡ master.old.me.0.objects) }
        ensures tell { Tell notes.items 0 master.new.me.0.known }
    {
        while let Some(next) = notes.pop() {
            self.take_note(master, next);
        }
    }

    /// Looks at the whole history so far, and answers its length. The note knows all of it then, by numbers from 0 on, and
    /// nothing else about the note changes. It takes no memory and can't fail.
    pub fn learn(&self, note: &mut Note<E, G, W>) -> u64
        requires note { note.old.table ≡ self.now.table }
        requires notes { 1 ≤ note.old.knows.notes }
        ensures table { note.new.table ≡ note.old.table }
        ensures learnt { note.new.knows ≡ learnt note.old.knows note.new.knows.known }
        ensures keeps { Within note.old.knows.known note.new.knows.known }
        ensures numbered { Numbered note.new.knows.known }
        ensures length { result ≡ length note.new.knows.known }
        ensures ended { NoneAfterClosed note.new.knows.known }
    {
        self.table.shared.load::<Learns<W>>(&mut note.seat, 0)
    }

    // What the master knows of the whole history, and its length.
    fn seal(self, mut master: Seat<u8, View<E, G>>) -> Sealed<E, G, W>
        requires table { master.table_id ≡ self.table }
        requires frame { (master.me.0.frame ≡ Some self.frame) × (1 ≤ length master.me.0.objects) }
        ensures of { (result.table ≡ self.table) × (result.world ≡ self.frame.world) }
        ensures numbered { Numbered result.entries }
        ensures owns { (x : Owned E) → Has master.me.0.objects x → x.own ≡ entries_at x.number result.entries }
        ensures keeps { Within master.me.0.known result.entries }
        ensures planned { ArePlanned self.frame result.entries }
        ensures backed { AreBacked W.backs self.frame.world result.entries }
        ensures ended { NoneAfterClosed result.entries }
    {
        let count = self.table.shared.load::<Learns<W>>(&mut master, 0);
        Sealed {
            history: self,
            seat: master,
            count,
        }
    }

    /// Ends the history. The seats are those of all objects, in order, and the notes are of this
    /// history. Its entries are the merge of the seats' own entries by position, each object's are no
    /// more than were planned, all that the notes know is among them, and each is backed by those
    /// before it. No direct access through a gate stands after its closing. The answer is always `Done`.
    pub fn close(
        self,
        seats: Vec<ObjectSeat<E, G, W>>,
        notes: Vec<Note<E, G, W>>,
    ) -> Closed<E, G, W>
        requires count { length seats.items ≡ length self.frame.planned }
        requires seats { AreSeats self.table self.frame seats.items }
        requires notes { AreNotes self.table notes.items }
        ensures of { IfDone result (λ s. (s.table ≡ self.table) × (s.world ≡ self.frame.world)) }
        ensures merge { IfDone result (λ s. IsMerge seats.items s.entries) }
        ensures planned { IfDone result (λ s. ArePlanned self.frame s.entries) }
        ensures tell { IfDone result (λ s. Tell notes.items 0 s.entries) }
        ensures backed { IfDone result (λ s. AreBacked W.backs self.frame.world s.entries) }
        ensures ended { IfDone result (λ s. NoneAfterClosed s.entries) }
    {
        // `new` was given an object, so there is a seat.
        let _ = &self.table;
        let mut master = self.gather(seats);
        self.take_notes(&mut master, notes);
        Closed::Done(self.seal(master))
    }
}
