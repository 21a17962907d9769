// The grants that an initiator holds.
ghost use Rattle.std.specs.Prelude.{◌≡◌, ◌+◌, ◌<◌, ◌≤◌, ◌++◌, [], ◌∷◌, length, nat_le, position, remove, slice_get, Some, IfOk, IfSome};
ghost use Rattle.region_object.specs.Grants.{allows};
ghost use Rattle.dmi_grants.specs.Table.{covers};

use std::alloc::Global;
use std::marker::Model;
use tlm_types::{Command, Kind, Memory, Ps, TxnId};

/// A grant that is held: the gate, the range and the kind that the memory gave, the place and the
/// transaction of its entry, and the addresses of the initiator that lead into the range, of which the
/// first leads to the offset `base`. Ranges are in bytes, first and last included.
#[derive(Clone, Copy)]
pub struct Held {
    pub gate: u32,
    pub memory: u32,
    pub first: u64,
    pub last: u64,
    pub kind: Kind,
    pub position: u64,
    pub txn: TxnId,
    pub time: Ps,
    pub low: u64,
    pub high: u64,
    pub base: u64,
}

/// The grants of a direct initiator, in the order in which they were taken. Contracts see the list of
/// them, and for how many there is room.
#[derive(Drop)]
pub struct GrantTable {
    held: Vec<Held>,
    room: u32,
}

impl Model for GrantTable {
    ghost use Rattle.std.specs.Prelude.{◌≤◌, vec_capacity, length};
    ghost use Rattle.dmi_grants.specs.Table.{TableView};

    ghost Value = { TableView };

    ghost view = { λ t. record { held = t.held.items; room = t.room } };

    ghost invariant = { λ t. (length t.held.items ≤ t.room) × (t.room ≤ vec_capacity t.held) };
}

impl GrantTable {
    /// An empty table with room for so many grants. Its only error is want of memory.
    pub fn new(alloc: Global, room: u32) -> Result<GrantTable, Memory>
        ensures { IfOk result (λ t. t ≡ record { held = []; room = room }) }
    {
        Ok(GrantTable {
            held: Vec::with_capacity(alloc, room as usize)?,
            room,
        })
    }

    /// The index of the first grant that covers an access of `length` bytes at this address, by address,
    /// length and kind. `None` exactly where none does.
    pub fn find(&self, address: u64, length: u32, command: Command) -> Option<u32>
        ensures { result ≡ position (covers address length command) self.now.held }
    {
        let _room = self.room;
        match index_of(&self.held, address, u64::from(length), command) {
            Some(place) => Some(place as u32),
            None => None,
        }
    }

    /// The grant at this index.
    pub(crate) fn at(&self, which: u32) -> Held
        requires { which < length self.now.held }
        ensures { slice_get self.now.held which ≡ Some result }
    {
        self.held[which as usize]
    }

    /// Holds one more grant, and answers its index.
    pub(crate) fn hold(&mut self, held: Held) -> u32
        requires room { length self.old.held < self.old.room }
        ensures which { result ≡ length self.old.held }
        ensures held { self.new ≡ record { held = self.old.held ++ held ∷ []; room = self.old.room } }
    {
        let which = self.held.len() as u32;
        let Ok(()) = self.held.push(held) else {
            unreachable!()
        };
        which
    }

    /// Drops the grant at this index.
    pub(crate) fn drop_stale(&mut self, which: u32)
        requires { which < length self.old.held }
        ensures { self.new ≡ record { held = remove self.old.held which; room = self.old.room } }
    {
        self.held.remove(which as usize);
    }
}

// The index of the first of these that covers the access.
fn index_of(held: &[Held], address: u64, bytes: u64, command: Command) -> Option<usize>
    ensures first { result ≡ position (covers address bytes command) held.now }
    ensures below { IfSome result (λ place. place < length held.now) }
{
    held.iter()
        .position(|held| held.covers(address, bytes, command))
}

impl Held {
    fn covers(&self, address: u64, length: u64, command: Command) -> bool
        ensures { result ≡ covers address length command self.now }
    {
        allows(self.kind, command) && self.low <= address && self.reaches(address, length)
    }

    // So many bytes from the address on end within the addresses.
    fn reaches(&self, address: u64, length: u64) -> bool
        ensures { result ≡ nat_le (address + length) (self.now.high + 1) }
    {
        match length.checked_sub(1) {
            None => address.saturating_sub(1) <= self.high,
            Some(more) => address <= self.high && more <= self.high - address,
        }
    }
}

// Whether a grant of this kind allows the command.
fn allows(kind: Kind, command: Command) -> bool
    ensures { result ≡ allows kind command }
{
    match (kind, command) {
        (Kind::Read | Kind::Both, Command::Read) | (Kind::Write | Kind::Both, Command::Write) =>
            true,
        _ => false,
    }
}
