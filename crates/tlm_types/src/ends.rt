// How an initiator ended.
ghost use Rattle.std.specs.Prelude.{◌≡◌, ◌<◌, [], ◌∷◌, ◌++◌, length, slice_get, Some, IfOk, IsTrue, ◌↔◌};

use crate::words::{Command, Memory, Ps};
use std::alloc::Global;
use std::marker::Model;

/// An access or a debug read whose address has no route: its number, the time in picoseconds at which
/// it was issued, whether it is a debug read (its command is then Read), its command and its address.
#[derive(Clone, Copy, Debug, PartialEq, Eq)]
pub struct RefusedItem {
    pub seq: u64,
    pub time: Ps,
    pub debug: bool,
    pub command: Command,
    pub address: u64,
}

/// A list of refused requests, whose room is made once.
pub struct RefusedList {
    items: Vec<RefusedItem>,
    room: u32,
}

// Written out, so that crates above call it and needn't prove again how each part is let go of.
impl Drop for RefusedList {
    fn drop(self) {
        let RefusedList {
            items: _items,
            room: _,
        } = self;
    }
}

impl Model for RefusedList {
    ghost use Rattle.std.specs.Prelude.{◌≤◌, ◌<◌, ◌^◌, vec_len, vec_capacity};
    ghost use Rattle.tlm_types.specs.Refused.{Refusals};

    ghost Value = { Refusals };

    ghost view = { λ l. record { items = l.items.items; room = l.room } };

    ghost invariant = { λ l. (vec_len l.items ≤ l.room) × (l.room ≤ vec_capacity l.items) × (l.room < 2 ^ 32) };
}

impl RefusedList {
    /// An empty list with room for so many items. Its only error is want of memory.
    pub fn with_room(alloc: Global, items: u32) -> Result<RefusedList, Memory>
        ensures { IfOk result (λ l. l ≡ record { items = []; room = items }) }
    {
        let room = items;
        let items = Vec::with_capacity(alloc, room as usize)?;
        Ok(RefusedList { items, room })
    }

    /// Appends an item. The room for it is there.
    pub fn push(&mut self, item: RefusedItem)
        requires { length self.old.items < self.old.room }
        ensures { self.new ≡ record self.old { items = self.old.items ++ item ∷ [] } }
    {
        let Ok(()) = self.items.push(item) else {
            unreachable!()
        };
    }

    /// How many items there are.
    pub fn len(&self) -> u32
        ensures { result ≡ length self.now.items }
    {
        self.items.len() as u32
    }

    pub fn is_empty(&self) -> bool
        ensures { IsTrue result ↔ (self.now.items ≡ []) }
    {
        self.items.is_empty()
    }

    /// The item at this place, counted from 0.
    pub fn item(&self, index: u32) -> RefusedItem
        requires { index < length self.now.items }
        ensures { slice_get self.now.items index ≡ Some result }
    {
        self.items[index as usize]
    }
}

/// How an initiator ended: the sequence numbers that it took, its syncs, its end time in picoseconds,
/// and the accesses and debug reads that had no route.
#[derive(Drop)]
pub struct EndOf {
    pub transactions: u64,
    pub syncs: u64,
    pub end: Ps,
    pub refused: RefusedList,
}
