// How many members are in which round.
ghost use Rattle.std.specs.Prelude.{◌≡◌, ◌+◌, ◌-◌, ◌^◌, ◌<◌, ◌≤◌, ◌↔◌, min, IsTrue};

// How many unfinished members are in the round `lowest` and in the one after it. None is in another.
// With these counts an advance that succeeds looks at no other member.
#[derive(Clone, Copy, Debug)]
pub(crate) struct Tally {
    pub(crate) lowest: u64,
    pub(crate) behind: u32,
    pub(crate) ahead: u32,
}

impl Tally {
    // Whether an unfinished member is below this round, which is one of the two.
    pub(crate) fn holds_back(&self, round: u64) -> bool
        ensures { IsTrue result ↔ ((self.now.lowest < round) × (0 < self.now.behind)) }
    {
        self.lowest < round && self.behind > 0
    }

    // The round that all unfinished members have reached, and one of them is in; at the greatest `u64` it stays.
    pub(crate) fn reached(&self) -> u64
        ensures lower { 0 < self.now.behind → result ≡ self.now.lowest }
        ensures upper { self.now.behind ≡ 0 → result ≡ min (self.now.lowest + 1) (2 ^ 64 - 1) }
    {
        if self.behind > 0 {
            return self.lowest;
        }
        self.lowest.saturating_add(1)
    }

    // The same with this round as the lowest, where no member is below it.
    pub(crate) fn leveled(self, round: u64) -> Tally
        ensures same { round ≤ self.lowest → result ≡ self }
        ensures up { self.lowest < round
            → result ≡ record { lowest = round; behind = self.ahead; ahead = 0 } }
    {
        if self.lowest < round {
            return Tally {
                lowest: round,
                behind: self.ahead,
                ahead: 0,
            };
        }
        self
    }

    // After a member of the lowest round has gone on to the next one.
    pub(crate) fn moved(self) -> Tally
        requires some { 0 < self.behind }
        requires fits { self.ahead + 1 < 2 ^ 32 }
        ensures { result ≡ record self { behind = self.behind - 1; ahead = self.ahead + 1 } }
    {
        Tally {
            lowest: self.lowest,
            behind: self.behind - 1,
            ahead: self.ahead + 1,
        }
    }

    // After a member of this round has finished.
    pub(crate) fn left(self, round: u64) -> Tally
        requires lower { round ≤ self.lowest → 0 < self.behind }
        requires upper { self.lowest < round → 0 < self.ahead }
        ensures lower { round ≤ self.lowest → result ≡ record self { behind = self.behind - 1 } }
        ensures upper { self.lowest < round → result ≡ record self { ahead = self.ahead - 1 } }
    {
        if self.lowest < round {
            return Tally {
                lowest: self.lowest,
                behind: self.behind,
                ahead: self.ahead - 1,
            };
        }
        Tally {
            lowest: self.lowest,
            behind: self.behind - 1,
            ahead: self.ahead,
        }
    }
}
