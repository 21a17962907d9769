// The slots of a pool.
ghost use Rattle.std.specs.Prelude.{◌≡◌, ◌<◌, ◌≤◌, ◌==◌, IsSome, IfSome, Some, IfOk, length, option_map, true};
ghost use Rattle.std.specs.List.{list_any, position, count_by};
ghost use Rattle.generic_payload.specs.Payload.{new_payload};
ghost use Rattle.token_book.specs.Purse.{empty_purse};
ghost use Rattle.payload_pool.specs.Slots.{fresh_slot, tally, is_free, is_live, has_name, taken_slot, acquired_more, given_back};

use generic_payload::Payload;
use std::alloc::Global;
use std::marker::Model;
use tlm_types::{Memory, TxnId};
use token_book::Wallet;
use view_lists::take_from;

/// How many places a wallet has.
pub(crate) const PLACES: u32 = 12;

// The number of the initiator's own reference.
const OWN: u32 = 15;

/// A payload and its wallet, as a slot keeps them.
#[derive(Drop)]
pub struct KeptPayload {
    pub payload: Payload,
    pub wallet: Wallet,
}

/// A slot with its latest life. Contracts see its fields, and the numbers of references as a list.
#[derive(Drop)]
pub struct Slot {
    kept: Option<KeptPayload>,
    txn: TxnId,
    position: u64,
    acquired: u32,
    out: Vec<u32>,
}

impl Model for Slot {
    ghost use Rattle.std.specs.Prelude.{◌≡◌, ◌≤◌, vec_capacity, IfSome, option_map};
    ghost use Rattle.token_book.specs.Purse.{empty_purse};
    ghost use Rattle.payload_pool.specs.Slots.{SlotView};

    ghost Value = { SlotView };

    ghost view = { λ s. record {
      kept = option_map (λ k. k.payload.room) s.kept;
      txn = s.txn;
      position = s.position;
      acquired = s.acquired;
      out = s.out.items;
    } };

    ghost invariant = { λ s. (16 ≤ vec_capacity s.out) × IfSome s.kept (λ k. k.wallet ≡ empty_purse 12) };
}

impl Slot {
    /// A free slot with a payload that can hold so many bytes.
    pub fn new(alloc: Global, room: u32) -> Result<Slot, Memory>
        ensures { IfOk result (λ s. s ≡ fresh_slot room) }
    {
        let payload = Payload::with_room(alloc, room)?;
        let wallet = Wallet::new(alloc, PLACES)?;
        let out = Vec::with_capacity(alloc, 16)?;
        Ok(Slot {
            kept: Some(KeptPayload { payload, wallet }),
            txn: TxnId {
                initiator: 0,
                seq: 0,
            },
            position: 0,
            acquired: 0,
            out,
        })
    }

    /// Whether no reference is out.
    pub fn is_free(&self) -> bool
        ensures { result ≡ is_free self.now }
    {
        self.out.is_empty()
    }

    /// Whether a reference is out.
    pub fn is_live(&self) -> bool
        ensures { result ≡ is_live self.now }
    {
        !self.out.is_empty()
    }

    /// The transaction of its latest life.
    pub fn txn(&self) -> TxnId
        ensures { result ≡ self.now.txn }
    {
        self.txn
    }

    // Whether the reference of this number is out.
    fn holds(&self, number: u32) -> bool
        ensures { result ≡ list_any (λ m. m == number) self.now.out }
    {
        self.out.iter().any(|m| *m == number)
    }

    /// Whether a reference of this name is out.
    pub fn has(&self, name: u32) -> bool
        ensures { result ≡ has_name name self.now }
    {
        let part = name % 32;
        if u64::from(name / 32) != self.position {
            false
        } else if part < OWN {
            self.holds(part)
        } else if part == self.acquired.saturating_add(OWN + 1) {
            self.holds(OWN)
        } else {
            false
        }
    }

    /// Begins a life with the initiator's own reference, and hands out what it keeps, the payload as new.
    pub fn begin(&mut self, txn: TxnId, position: u64) -> KeptPayload
        requires free { is_free self.old ≡ true }
        requires kept { IsSome self.old.kept }
        ensures slot { self.new ≡ taken_slot txn position }
        ensures kept { self.old.kept ≡ Some result.payload.room }
        ensures payload { result.payload ≡ new_payload result.payload.room }
        ensures wallet { result.wallet ≡ empty_purse 12 }
    {
        let Some(mut kept) = self.kept.take() else {
            unreachable!()
        };
        kept.payload.reset();
        self.txn = txn;
        self.position = position;
        self.acquired = 0;
        let Ok(()) = self.out.push(OWN) else {
            unreachable!()
        };
        kept
    }

    /// Counts one reference more.
    pub fn acquire(&mut self)
        requires few { self.old.acquired < 15 }
        requires room { length self.old.out < 16 }
        ensures { self.new ≡ acquired_more self.old }
    {
        let Ok(()) = self.out.push(self.acquired) else {
            unreachable!()
        };
        self.acquired += 1;
    }

    /// Takes back the reference of this number, with what it brings back. It answers whether that was
    /// the last.
    pub fn give_back(&mut self, number: u32, kept: Option<KeptPayload>) -> bool
        requires number { 1 ≤ tally number self.old.out }
        requires wallet { IfSome kept (λ k. k.wallet ≡ empty_purse 12) }
        ensures slot { self.new ≡ given_back number (option_map (λ k. k.payload.room) kept) self.old }
        ensures last { result ≡ (length self.old.out == 1) }
    {
        self.kept = kept.or(self.kept.take());
        let place = place_in(&self.out, number);
        take_from(&mut self.out, place);
        self.is_free()
    }
}

// The first place of a number, which stands at one.
fn place_in(numbers: &[u32], number: u32) -> usize
    requires { 1 ≤ tally number numbers.now }
    ensures { position (λ m. m == number) numbers.now ≡ Some result }
{
    let mut place = 0;
    while numbers[place] != number {
        place += 1;
    }
    place
}

/// The place of the least free slot.
pub(crate) fn free_place(slots: &[Slot]) -> Option<usize>
    ensures { result ≡ position is_free slots.now }
{
    slots.iter().position(|slot| slot.is_free())
}

/// Whether a reference of this name is out.
pub(crate) fn is_out(slots: &[Slot], name: u32) -> bool
    ensures { result ≡ list_any (has_name name) slots.now }
{
    slots.iter().any(|slot| slot.has(name))
}

/// The place of the slot that has the reference of this name, which one of them has.
pub(crate) fn place_of(slots: &[Slot], name: u32) -> usize
    requires { list_any (has_name name) slots.now ≡ true }
    ensures { position (has_name name) slots.now ≡ Some result }
{
    let mut place = 0;
    while !slots[place].has(name) {
        place += 1;
    }
    place
}

/// How many slots are live.
pub(crate) fn live(slots: &[Slot]) -> usize
    ensures { result ≡ count_by is_live slots.now }
{
    let mut live = 0;
    for slot in slots {
        if slot.is_live() {
            live += 1;
        }
    }
    live
}
