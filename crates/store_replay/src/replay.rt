// A history that is gone through from its first entry on.
ghost use Rattle.std.specs.Prelude.{◌≡◌, ◌<◌, length, true, IfOk, Some, slice_get};
ghost use Rattle.tlm_types.specs.declared.entry.Entry.{Entry};
ghost use Rattle.tlm_model.specs.Store.{store_after, zeros};
ghost use Rattle.store_replay.specs.Replay.{AreOpening, GoesOn, HaveGoneOn, access_in};

use crate::accesses::apply;
use entry_log::{Log, LoggedAccess};
use run_outcome::MergedLog;
use std::alloc::Global;
use std::marker::Model;
use tlm_model::{Platform, Rows};
use tlm_types::{Bytes, Memory, ObjectNo};

// The bytes of a memory.
#[derive(Drop)]
struct Store {
    bytes: Vec<u8>,
}

impl Model for Store {
    ghost use Rattle.std.specs.Prelude.{List, ℕ};

    ghost Value = { List ℕ };

    ghost view = { λ s. s.bytes.items };
}

impl Store {
    // So many zeros. Its only error is want of memory.
    fn of_zeros(alloc: Global, size: u64) -> Result<Store, Memory>
        ensures { IfOk result (λ store. store ≡ zeros size) }
    {
        let bytes = vec![in alloc; 0u8; size as usize]?;
        Ok(Store { bytes })
    }

    // Does what an access did that was logged.
    fn apply(&mut self, access: &LoggedAccess<'_>)
        ensures { self.new ≡ store_after access.now.facts.way access.now.facts.status (access_in access.now) self.old }
    {
        apply(&mut self.bytes, access);
    }

    fn into_bytes(self) -> Bytes
        ensures { result ≡ self }
    {
        let Store { bytes } = self;
        Bytes::from_vec(bytes)
    }
}

/// The bytes of all memories of a platform before the first entry of a history.
#[derive(Drop)]
pub struct OpeningStores {
    stores: Vec<Store>,
}

impl Model for OpeningStores {
    ghost use Rattle.std.specs.Prelude.{List, ℕ};

    ghost Value = { List (List ℕ) };

    ghost view = { λ o. o.stores.items };
}

// Does what the entry at this index of a log did.
fn replay_entry(stores: &mut Vec<Store>, log: &Log, index: u64)
    requires whole { log.now.whole ≡ true }
    requires index { index < length log.now.entries }
    ensures { (e : Entry) → slice_get log.now.entries index ≡ Some e → GoesOn e stores.old.items stores.new.items }
{
    let Some(access) = log.access(index) else {
        return;
    };
    let ObjectNo::Memory(number) = access.head.object else {
        return;
    };
    if let Some(store) = stores.get_mut(number as usize) {
        store.apply(&access);
    }
}

// Does what all entries of a history did.
fn replay_all(alloc: Global, stores: &mut Vec<Store>, history: &MergedLog) -> Result<(), Memory>
    requires whole { history.now.whole ≡ true }
    ensures { IfOk result (λ _. HaveGoneOn history.now.entries stores.old.items stores.new.items) }
{
    let mut reader = history.reader(alloc)?;
    for position in 0..history.len() {
        let (log, index) = reader.at(position);
        replay_entry(stores, log, index);
    }
    Ok(())
}

// The same bytes, in rows.
fn in_rows(alloc: Global, stores: Vec<Store>) -> Result<Rows<Bytes>, Memory>
    ensures { IfOk result (λ rows. rows ≡ stores.items) }
{
    let mut rows = Vec::new(alloc);
    for store in stores {
        rows.push(store.into_bytes())?;
    }
    Ok(Rows::from_vec(rows))
}

impl OpeningStores {
    /// Those of this platform: zeros. Its only error is want of memory.
    pub fn of(alloc: Global, platform: &Platform) -> Result<OpeningStores, Memory>
        ensures { IfOk result (AreOpening platform.now) }
    {
        let mut stores = Vec::new(alloc);
        for row in platform.memories.as_slice() {
            stores.push(Store::of_zeros(alloc, row.traits.size)?)?;
        }
        Ok(OpeningStores { stores })
    }

    /// The bytes after a history whose entries are in store. Its only error is want of memory.
    pub fn after(mut self, alloc: Global, history: &MergedLog) -> Result<Rows<Bytes>, Memory>
        requires { history.now.whole ≡ true }
        ensures { IfOk result (HaveGoneOn history.now.entries self) }
    {
        replay_all(alloc, &mut self.stores, history)?;
        in_rows(alloc, self.stores)
    }
}
