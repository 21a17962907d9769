// A log that forgets its entries while it grows.
ghost use Rattle.std.specs.Prelude.{◌≡◌, List, [], false};
ghost use Rattle.std.specs.Borrow.{ftrue};
ghost use Rattle.tlm_types.specs.declared.entry.Entry.{Entry};

use super::Log;
use std::marker::Model;

// The entries that a log forgot. They exist only in proofs, and take no bytes.
#[derive(Drop)]
pub(super) struct Past {
    pub(super) ghost entries: { List Entry },
}

impl Model for Past {
    ghost also_owns = { λ _. ftrue };
}

// They are no memory: so a log may go to another thread, and several may look at it.
unsafe impl Send for Past {}

unsafe impl Sync for Past {}

impl Past {
    pub(super) fn none() -> Past
        ensures { result.entries ≡ [] }
    {
        Past {}
    }

    // All that a log has is its past, once it forgets the rest.
    pub(super) fn of(_log: &Log) -> Past
        ensures { result.entries ≡ _log.now.entries }
    {
        Past {}
    }
}

impl Log {
    /// Forgets the entries that are in store, and from then on those that come after them: they are known in
    /// contracts alone, and can't be read. What comes after them takes their place, so that no more memory is
    /// touched.
    pub fn forget(&mut self)
        ensures forgotten { self.new.whole ≡ false }
        ensures entries { self.new.entries ≡ self.old.entries }
        ensures rooms { (self.new.room ≡ self.old.room) × (self.new.room_bytes ≡ self.old.room_bytes) }
    {
        let count = self.len();
        if count >= FORGOTTEN_MAX {
            self.keeps = false;
            return;
        }
        let past = Past::of(self);
        self.keeps = false;
        self.forgotten = count;
        self.past = past;
        self.items.clear();
        self.bytes.clear();
    }

    // Forgets what is in store, where it isn't to stay there, once it has become much.
    #[inline(always)]
    pub(super) fn settle(&mut self)
        ensures { self.new ≡ self.old }
    {
        if !self.keeps && self.items.len() >= SETTLED {
            self.forget();
        }
    }
}

// So many entries of a log that keeps none are in store at once: they stay in the nearest cache.
const SETTLED: usize = 64;

// A log forgets fewer entries, so that they can still be counted with those in store.
const FORGOTTEN_MAX: u64 = 0x4000_0000_0000_0000;
