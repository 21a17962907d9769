// Paces that hold initiators, and one that counts.
use outside::Pace;
use std::sync::atomic::{AtomicU64, Ordering};

/// How often a held initiator looks whether it may go on.
const LOOKS: u32 = 1_000_000_000;

// Looks until as many have come, or gives up.
fn wait_for(came: &AtomicU64, wanted: u64) -> bool {
    for _look in 0..LOOKS {
        if came.load(Ordering::SeqCst) >= wanted {
            return true;
        }
    }
    false
}

/// Holds all initiators but one before their first accesses, until that one has announced its second.
#[derive(Drop)]
pub(crate) struct Holding {
    free: u32,
    announced: AtomicU64,
    gave_up: AtomicU64,
}

impl Holding {
    pub(crate) fn all_but(free: u32) -> Holding {
        Holding {
            free,
            announced: AtomicU64::new(0),
            gave_up: AtomicU64::new(0),
        }
    }

    /// How many were held in vain.
    pub(crate) fn gave_up(&self) -> u64 {
        self.gave_up.load(Ordering::SeqCst)
    }
}

impl Pace for Holding {
    fn before(&self, initiator: u32, seq: u64) {
        if initiator == self.free {
            if seq == 1 {
                self.announced.store(1, Ordering::SeqCst);
            }
        } else if seq == 0 && !wait_for(&self.announced, 1) {
            self.gave_up.fetch_add(1, Ordering::SeqCst);
        }
    }
}

/// How much longer initiator 0 is held once all others have announced their second accesses.
const MORE_LOOKS: u32 = 20_000_000;

/// Holds initiator 0 before its first access until so many others have announced their second, and for a
/// while more. It notes an access of the others after their second that is announced meanwhile.
#[derive(Drop)]
pub(crate) struct Watching {
    others: u64,
    second: AtomicU64,
    released: AtomicU64,
    early: AtomicU64,
}

impl Watching {
    pub(crate) fn others(others: u64) -> Watching {
        Watching {
            others,
            second: AtomicU64::new(0),
            released: AtomicU64::new(0),
            early: AtomicU64::new(0),
        }
    }

    /// How many of the others have announced their second access.
    pub(crate) fn second(&self) -> u64 {
        self.second.load(Ordering::SeqCst)
    }

    /// Whether initiator 0 was held and let go again.
    pub(crate) fn released(&self) -> bool {
        self.released.load(Ordering::SeqCst) == 1
    }

    /// How many later accesses were announced meanwhile.
    pub(crate) fn early(&self) -> u64 {
        self.early.load(Ordering::SeqCst)
    }

    fn watch(&self) {
        if wait_for(&self.second, self.others) {
            for _look in 0..MORE_LOOKS {
                if self.early() > 0 {
                    return;
                }
            }
            self.released.store(1, Ordering::SeqCst);
        }
    }

    fn note(&self, seq: u64) {
        if seq == 1 {
            self.second.fetch_add(1, Ordering::SeqCst);
        }
        if seq > 1 && !self.released() {
            self.early.fetch_add(1, Ordering::SeqCst);
        }
    }
}

impl Pace for Watching {
    fn before(&self, initiator: u32, seq: u64) {
        if initiator > 0 {
            self.note(seq);
        } else if seq == 0 {
            self.watch();
        }
    }
}

/// Compares whom it is told of with initiators in turn, each with its own numbers from 0 on.
#[derive(Drop)]
pub(crate) struct InTurn {
    initiators: u64,
    told: AtomicU64,
    wrong: AtomicU64,
}

impl InTurn {
    /// Of so many initiators, at least one.
    pub(crate) fn of(initiators: u64) -> InTurn {
        InTurn {
            initiators,
            told: AtomicU64::new(0),
            wrong: AtomicU64::new(0),
        }
    }

    /// How often it was told of one.
    pub(crate) fn told(&self) -> u64 {
        self.told.load(Ordering::SeqCst)
    }

    /// How often of another one than the one whose turn it was, or of another number.
    pub(crate) fn wrong(&self) -> u64 {
        self.wrong.load(Ordering::SeqCst)
    }
}

impl Pace for InTurn {
    fn before(&self, initiator: u32, seq: u64) {
        let place = self.told.fetch_add(1, Ordering::SeqCst);
        let turn = u64::from(initiator).checked_add(seq.saturating_mul(self.initiators));
        if turn != Some(place) || u64::from(initiator) >= self.initiators {
            self.wrong.fetch_add(1, Ordering::SeqCst);
        }
    }
}

/// Any of these, or none. Runs are compiled once for all of them.
#[derive(Clone, Copy)]
pub(crate) enum Pacing<'a> {
    Free,
    Holding(&'a Holding),
    Watching(&'a Watching),
    InTurn(&'a InTurn),
}

impl Pace for Pacing<'_> {
    fn before(&self, initiator: u32, seq: u64) {
        match self {
            Pacing::Free => {}
            Pacing::Holding(pace) => pace.before(initiator, seq),
            Pacing::Watching(pace) => pace.before(initiator, seq),
            Pacing::InTurn(pace) => pace.before(initiator, seq),
        }
    }
}
