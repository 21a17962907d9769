// What holds an initiator, or nobody.
use outside::Pace;
use std::sync::atomic::{AtomicU64, Ordering};

// How often a held initiator looks whether it may go on.
const LOOKS: u32 = 1_000_000_000;

/// Holds an initiator before its first access until the other one has announced its access with this number.
#[derive(Drop)]
pub struct Holding {
    held: u32,
    enough: u64,
    announced: AtomicU64,
    gave_up: AtomicU64,
}

impl Holding {
    pub fn of(held: u32, enough: u64) -> Holding {
        Holding {
            held,
            enough,
            announced: AtomicU64::new(0),
            gave_up: AtomicU64::new(0),
        }
    }

    /// Whether it was held in vain.
    pub fn gave_up(&self) -> u64 {
        self.gave_up.load(Ordering::SeqCst)
    }

    fn hold(&self) {
        for _look in 0..LOOKS {
            if self.announced.load(Ordering::SeqCst) == 1 {
                return;
            }
        }
        self.gave_up.store(1, Ordering::SeqCst);
    }
}

impl Pace for Holding {
    fn before(&self, initiator: u32, seq: u64) {
        if initiator != self.held && seq == self.enough {
            self.announced.store(1, Ordering::SeqCst);
        }
        if initiator == self.held && seq == 0 {
            self.hold();
        }
    }
}

/// That, or nothing. Runs are compiled once for both.
#[derive(Clone, Copy)]
pub enum Pacing<'a> {
    Free,
    Holding(&'a Holding),
}

impl Pace for Pacing<'_> {
    fn before(&self, initiator: u32, seq: u64) {
        match self {
            Pacing::Free => {}
            Pacing::Holding(pace) => pace.before(initiator, seq),
        }
    }
}
