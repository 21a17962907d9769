// A pool and how it is made.
ghost use Rattle.std.specs.Prelude.{◌≡◌, ◌≤◌, [], true, length, replicate, IfOk};
ghost use Rattle.std.specs.List.{All};
ghost use Rattle.tlm_types.specs.declared.words.ObjectNo.TheVariants.{Pool as pool_number};
ghost use Rattle.flow_model.specs.Events.{Event, entries};
ghost use Rattle.payload_pool.specs.Slots.{fresh_slot};
ghost use Rattle.payload_pool.specs.Pool.{live_of, has_free, Follows, IsPool};
ghost use Rattle.payload_pool.specs.Calls.{is_out};

use crate::slot::{self, Slot};
use entry_log::Log;
use numbered_log::NumberedLog;
use std::alloc::Global;
use std::marker::Model;
use tlm_types::Memory;
use token_book::Book;

/// How a pool is made: how many slots it has, and how many bytes each payload can hold.
#[derive(Clone, Copy, Debug, PartialEq, Eq)]
pub struct PoolMade {
    pub slots: u32,
    pub room: u32,
}

/// The payloads of an initiator with their memory manager (clause 14.5). Contracts see its slots, its
/// log and the book of its references.
pub struct Pool {
    pub(crate) initiator: u32,
    pub(crate) room: u32,
    pub(crate) slots: Vec<Slot>,
    pub(crate) log: NumberedLog,
    pub(crate) book: Book,
}

impl Model for Pool {
    ghost use Rattle.payload_pool.specs.Pool.{PoolView};
    ghost use Rattle.payload_pool.specs.Inside.{view_of, IsPool};

    ghost Value = { PoolView };

    ghost view = { view_of };

    ghost invariant = { λ p. IsPool (view_of p) };
}

// So many free slots.
fn free_slots(alloc: Global, slots: u32, room: u32) -> Result<Vec<Slot>, Memory>
    ensures { IfOk result (λ v. v.items ≡ replicate slots (fresh_slot room)) }
{
    let mut all = Vec::with_capacity(alloc, slots as usize)?;
    for _ in 0..slots {
        all.push(Slot::new(alloc, room)?)?;
    }
    Ok(all)
}

// Written out, so that crates above call it and needn't prove again how each part is let go of.
impl Drop for Pool {
    fn drop(self) {
        let Pool {
            initiator: _,
            room: _,
            slots: _slots,
            log: _log,
            book: _book,
        } = self;
    }
}

impl Pool {
    /// The pool of this initiator, with so many free slots, each with a payload that can hold `room`
    /// bytes and a wallet of 12 places, and an empty log with room for so many entries. Its only error is
    /// want of memory.
    pub fn new(
        alloc: Global,
        initiator: u32,
        slots: u32,
        room: u32,
        entries: u64,
        book: Book,
    ) -> Result<Pool, Memory>
        requires slots { (1 ≤ slots) × (slots ≤ 16) }
        requires book { book.out ≡ [] }
        ensures { IfOk result (λ p. p ≡ record {
          initiator = initiator;
          room = room;
          slots = replicate slots (fresh_slot room);
          log = record { events = []; room = entries };
          book = book;
        }) }
    {
        let all = free_slots(alloc, slots, room)?;
        let log = NumberedLog::with_room(alloc, entries)?;
        Ok(Pool {
            initiator,
            room,
            slots: all,
            log,
            book,
        })
    }

    /// The number of its initiator.
    pub fn initiator(&self) -> u32
        ensures { result ≡ self.now.initiator }
    {
        self.initiator
    }

    /// How it was made.
    pub fn made(&self) -> PoolMade
        ensures { result ≡ record { slots = length self.now.slots; room = self.now.room } }
    {
        PoolMade {
            slots: self.slots.len() as u32,
            room: self.room,
        }
    }

    /// The log: an entry for each call but `live`, in the order in which they were made.
    pub fn log(&self) -> &Log
        ensures entries { result.now.entries ≡ entries self.now.log.events }
        ensures room { result.now.room ≡ self.now.log.room }
        ensures len { length result.now.entries ≡ length self.now.log.events }
        ensures whole { result.now.whole ≡ true }
        ensures follows { Follows self.now }
        ensures own { All (λ (e : Event). e.object ≡ pool_number self.now.initiator) self.now.log.events }
    {
        self.log.log()
    }

    /// The log, when the pool is done with.
    pub fn into_log(self) -> Log
        ensures entries { result.entries ≡ entries self.log.events }
        ensures whole { result.whole ≡ true }
        ensures pool { IsPool self }
    {
        let Pool {
            initiator: _,
            room: _,
            slots: _slots,
            log,
            book: _book,
        } = self;
        log.into_log()
    }

    /// How many slots are live.
    pub fn live(&self) -> u32
        ensures { result ≡ live_of self.now }
    {
        slot::live(&self.slots) as u32
    }

    /// Whether a slot is free.
    pub fn has_free(&self) -> bool
        ensures { result ≡ has_free self.now }
    {
        slot::free_place(&self.slots).is_some()
    }

    // Whether a reference of this name is out.
    pub(crate) fn is_out(&self, name: u32) -> bool
        ensures { result ≡ is_out self.now name }
    {
        slot::is_out(&self.slots, name)
    }
}
