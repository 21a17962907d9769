// Counts of what waits.
use std::cell::Cell;
use std::sync::atomic::{AtomicU64, Ordering};

/// A count that is changed behind a shared reference: an `AtomicU64`, where threads share it, or a `Cell<u64>`
/// of one thread, which takes no locked step.
pub trait Count: Sized + Drop {
    /// One with this value.
    fn of(value: u64) -> Self;

    /// Its value.
    fn value(&self) -> u64;

    /// Sets its value.
    fn set(&self, value: u64);

    /// Adds one, modulo 2^64.
    fn raise(&self);

    /// Takes one away, modulo 2^64.
    fn lower(&self);
}

impl Count for AtomicU64 {
    fn of(value: u64) -> AtomicU64 {
        AtomicU64::new(value)
    }

    fn value(&self) -> u64 {
        self.load(Ordering::SeqCst)
    }

    fn set(&self, value: u64) {
        self.store(value, Ordering::SeqCst);
    }

    fn raise(&self) {
        self.fetch_add(1, Ordering::SeqCst);
    }

    fn lower(&self) {
        self.fetch_sub(1, Ordering::SeqCst);
    }
}

impl Count for Cell<u64> {
    fn of(value: u64) -> Cell<u64> {
        Cell::new(value)
    }

    fn value(&self) -> u64 {
        self.get()
    }

    fn set(&self, value: u64) {
        Cell::set(self, value);
    }

    fn raise(&self) {
        Cell::set(self, self.get().wrapping_add(1));
    }

    fn lower(&self) {
        Cell::set(self, self.get().wrapping_sub(1));
    }
}
