// Items that wait, as a heap compares them.
ghost use Rattle.std.specs.Prelude.{◌≡◌, Some, refl};
ghost use Rattle.std.specs.Cmp.{back_total, eq_by_cmp_equiv, nat_cmp_total, on_total, partial_equiv_from_equiv, partial_order_from_total, then_total};
ghost use Rattle.std.specs.Ordering.{eq_by_cmp, nat_cmp};
ghost use Rattle.event_queue.specs.Waiting.{given_sooner, sooner_total};

use std::cmp::Ordering;

/// An item that waits, with its time in picoseconds and its number in the order of notification. The
/// greatest is the one that is given first.
#[derive(Drop)]
pub struct Waiting<T> {
    pub at: u64,
    pub order: u64,
    pub item: T,
}

impl<T> PartialEq for Waiting<T> {
    ghost eq = { λ x y. eq_by_cmp given_sooner x y };

    ghost laws = { partial_equiv_from_equiv (eq_by_cmp_equiv sooner_total) };

    fn eq(&self, other: &Self) -> bool {
        self.cmp(other).is_eq()
    }
}

impl<T> Eq for Waiting<T> {
    ghost laws = { eq_by_cmp_equiv sooner_total };
}

impl<T> PartialOrd for Waiting<T> {
    ghost partial_cmp = { λ x y. Some (given_sooner x y) };

    ghost laws = { partial_order_from_total sooner_total };

    fn partial_cmp(&self, other: &Self) -> Option<Ordering> {
        Some(self.cmp(other))
    }
}

impl<T> Ord for Waiting<T> {
    ghost cmp = { λ x y. given_sooner x y };

    ghost total = { sooner_total };

    ghost matches_partial_cmp = { λ x y. refl };

    ghost matches_eq = { λ x y. refl };

    fn cmp(&self, other: &Self) -> Ordering {
        other.at.cmp(&self.at).then(other.order.cmp(&self.order))
    }
}
