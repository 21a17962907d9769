// The numbers of the accesses that are outstanding.
ghost use Rattle.std.specs.Prelude.{◌≡◌, ◌<◌, ◌≤◌, [], ◌∷◌, length, IfOk, ◌↔◌, IsTrue, IfSome, IfNone, Some, slice_get};
ghost use Rattle.view_lists.specs.Lists.{Has};
ghost use Rattle.flow_model.specs.Events.{Among};
ghost use Rattle.port_moves.specs.Away.{TakesOff};

use std::alloc::Global;
use std::marker::Model;
use tlm_types::Memory;

/// The numbers of the accesses that a port has taken and not yet got back, none twice. Their room is made
/// once. Contracts see them as a list, the last one first.
#[derive(Drop)]
pub struct Away {
    numbers: Vec<u64>,
    room: u32,
}

impl Model for Away {
    ghost use Rattle.std.specs.Prelude.{◌≤◌, ◌<◌, ◌^◌, vec_len, vec_capacity};
    ghost use Rattle.view_lists.specs.Lists.{AreDistinct};
    ghost use Rattle.port_moves.specs.Away.{Outstanding};

    ghost Value = { Outstanding };

    ghost view = { λ a. record { numbers = a.numbers.items; room = a.room } };

    ghost invariant = { λ a. (vec_len a.numbers ≤ a.room) × (a.room ≤ vec_capacity a.numbers) × AreDistinct a.numbers.items };
}

impl Away {
    /// None is outstanding, and so many may be. Its only error is want of memory.
    pub fn with_room(alloc: Global, room: u32) -> Result<Away, Memory>
        ensures { IfOk result (λ a. a ≡ record { numbers = []; room = room }) }
    {
        Ok(Away {
            numbers: Vec::with_capacity(alloc, room as usize)?,
            room,
        })
    }

    /// Whether none is outstanding.
    pub fn is_empty(&self) -> bool
        ensures { IsTrue result ↔ (length self.now.numbers ≡ 0) }
    {
        self.numbers.is_empty()
    }

    /// One more is outstanding.
    pub fn insert(&mut self, number: u64)
        requires new { Has self.old.numbers number → ⊥ }
        requires room { length self.old.numbers < self.old.room }
        ensures { self.new ≡ record self.old { numbers = number ∷ self.old.numbers } }
    {
        let Ok(()) = self.numbers.insert(0, number) else {
            unreachable!()
        };
    }

    /// This one is back. It answers whether it was outstanding; else nothing changes.
    #[tactic(auto, using(crate::proofs::AwayLemmas::distinct_left, crate::proofs::AwayLemmas::removes_at))]
    pub fn remove(&mut self, number: u64) -> bool
        ensures { TakesOff self.old number result self.new }
    {
        match place_of(&self.numbers, number) {
            Some(i) => {
                self.numbers.remove(i);
                true
            }
            None => false,
        }
    }
}

// Where a number stands.
#[tactic(auto, using(crate::proofs::AwayLemmas::among_next))]
fn place_of(numbers: &[u64], number: u64) -> Option<usize>
    ensures found { IfSome result (λ i. slice_get numbers.now i ≡ Some number) }
    ensures none { IfNone result (Among numbers.now number → ⊥) }
{
    for i in 0..numbers.len() {
        if numbers[i] == number {
            return Some(i);
        }
    }
    None
}
