// The seats of objects, and notes.
ghost use Rattle.std.specs.Prelude.{◌≡◌, [], length};

use crate::view::View;
use atomic_table::Seat;
use std::marker::{Model, PhantomData};

/// The seat of an object. Contracts see its history's table and what it knows.
pub struct ObjectSeat<E, G, W> {
    pub(crate) seat: Seat<u8, View<E, G>>,
    pub(crate) of: PhantomData<W>,
}

impl<E, G, W> Model for ObjectSeat<E, G, W> {
    ghost use Rattle.std.specs.Prelude.{◌≡◌, [], length};
    ghost use Rattle.one_history.specs.Held.{Held};

    ghost Value = { Held E G };

    ghost view = { λ s. record { table = s.seat.table_id; knows = s.seat.me.0 } };

    ghost invariant = { λ s. (s.seat.me.1 ≡ []) × (length s.seat.me.0.objects ≡ 1) };
}

/// A note, which carries what was seen to a seat. Contracts see its history's table and what it
/// knows. It stands for a number of notes, and those that `split` and `copy` give away are fewer.
pub struct Note<E, G, W> {
    pub(crate) seat: Seat<u8, View<E, G>>,
    pub(crate) of: PhantomData<W>,
}

impl<E, G, W> Model for Note<E, G, W> {
    ghost use Rattle.std.specs.Prelude.{◌≡◌, []};
    ghost use Rattle.one_history.specs.Held.{Held};

    ghost Value = { Held E G };

    ghost view = { λ s. record { table = s.seat.table_id; knows = s.seat.me.0 } };

    ghost invariant = { λ s. (s.seat.me.1 ≡ []) × (s.seat.me.0.objects ≡ []) };
}

// These are written out, so that crates above call them and needn't prove again how each part is let go of.
impl<E, G, W> Drop for ObjectSeat<E, G, W> {
    fn drop(self) {
        let ObjectSeat { seat: _seat, of: _ } = self;
    }
}

impl<E, G, W> Drop for Note<E, G, W> {
    fn drop(self) {
        let Note { seat: _seat, of: _ } = self;
    }
}

impl<E, G, W> ObjectSeat<E, G, W> {
    /// The seat of the table.
    pub(crate) fn into_seat(self) -> Seat<u8, View<E, G>>
        ensures seat { (result.table_id ≡ self.table) × (result.me ≡ (self.knows, [])) }
        ensures one { length self.knows.objects ≡ 1 }
    {
        let ObjectSeat { seat, of: _ } = self;
        seat
    }
}

impl<E, G, W> Note<E, G, W> {
    /// The seat of the table.
    pub(crate) fn into_seat(self) -> Seat<u8, View<E, G>>
        ensures seat { (result.table_id ≡ self.table) × (result.me ≡ (self.knows, [])) }
        ensures none { self.knows.objects ≡ [] }
    {
        let Note { seat, of: _ } = self;
        seat
    }
}
