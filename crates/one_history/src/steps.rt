// What each step does to a seat or a note.
use crate::law::{Drawn, Law, Looked};
use crate::view::View;
use atomic_table::{Join, Play, Split};
use std::marker::{Brand, PhantomData};

/// Names the sign of an entry.
pub trait Signed {
    ghost use Rattle.one_history.specs.declared.entry.Sign.{Sign};

    ghost sign: { Sign };
}

impl Signed for Brand {
    ghost use Rattle.one_history.specs.declared.entry.Sign.TheVariants.{Plain};

    ghost sign = { Plain };
}

/// A seat draws an entry.
pub struct Draws<D, B> {
    of: PhantomData<(D, B)>,
}

impl<E, G, D: Drawn<E>, B: Signed> Play<u8, View<E, G>> for Draws<D, B> {
    ghost use Rattle.one_history.specs.Moves.{Drew};

    ghost then = { Drew D.content B.sign };
}

/// A seat looks at what it knows of its object.
pub struct Recalls;

impl<E, G> Play<u8, View<E, G>> for Recalls {
    ghost use Rattle.one_history.specs.Moves.{Recalled};

    ghost then = { Recalled };
}

/// A seat gives a note away.
pub struct Copies<D> {
    of: PhantomData<D>,
}

impl<E, G, D: Looked> Split<View<E, G>> for Copies<D> {
    ghost use Rattle.one_history.specs.Moves.{one_gone, copied};

    ghost left = { one_gone };

    ghost right = { copied D.number };
}

/// A note gives a note away.
pub struct Parts;

impl<E, G> Split<View<E, G>> for Parts {
    ghost use Rattle.one_history.specs.Moves.{one_less, parted};

    ghost left = { one_less };

    ghost right = { parted };
}

/// The first note makes the next seat.
pub struct Makes;

impl<E, G> Split<View<E, G>> for Makes {
    ghost use Rattle.one_history.specs.Moves.{one_more, blank_seat};

    ghost left = { one_more };

    ghost right = { blank_seat };
}

/// A seat takes in a note, or another seat.
pub struct Joins;

impl<E, G> Join<View<E, G>> for Joins {
    ghost use Rattle.one_history.specs.Rule.{spent_view};
    ghost use Rattle.one_history.specs.Moves.{joined};

    ghost both = { joined };

    ghost spent = { spent_view };
}

/// A seat looks at the whole history.
pub struct Learns<W> {
    of: PhantomData<W>,
}

impl<E, G, W: Law<E, G>> Play<u8, View<E, G>> for Learns<W> {
    ghost use Rattle.one_history.specs.Closing.{Learned};

    ghost then = { Learned W.backs };
}

/// A note comes to a gate.
pub struct Comes;

impl<E, G> Play<u8, View<E, G>> for Comes {
    ghost use Rattle.one_history.specs.Moves.{Came};

    ghost then = { Came };
}

/// A stay ends.
pub struct Leaves;

impl<E, G> Play<u8, View<E, G>> for Leaves {
    ghost use Rattle.one_history.specs.Moves.{Left};

    ghost then = { Left };
}

/// A note marks a gate.
pub struct Marks;

impl<E, G> Play<u8, View<E, G>> for Marks {
    ghost use Rattle.one_history.specs.Moves.{Marked};

    ghost then = { Marked };
}

/// A note looks at a gate.
pub struct Watches;

impl<E, G> Play<u8, View<E, G>> for Watches {
    ghost use Rattle.one_history.specs.Moves.{Watched};

    ghost then = { Watched };
}
