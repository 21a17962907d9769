// The board that threads share.
ghost use Rattle.std.specs.Prelude.{◌≡◌, IfOk};
ghost use Rattle.time_board.specs.Rounds.{IsAnswer};

use crate::rounds::{Advance, Rounds};
use std::alloc::Global;
use std::sync::{Mutex, Wait};
use tlm_types::Memory;

/// Rounds under a lock. Its calls may wait for the lock, and for nothing else.
#[derive(Drop)]
pub struct Board {
    lock: Mutex<Rounds>,
}

impl Board {
    /// A board of so many members in round 0. Its only error is want of memory.
    pub fn new(alloc: Global, members: u32) -> Result<Board, Memory> {
        let rounds = Rounds::new(alloc, members)?;
        Ok(Board {
            lock: Mutex::new(rounds),
        })
    }

    /// What `Rounds::advance` answers at some moment during this call.
    pub fn advance<R: Wait>(&self, rt: &R, who: u32) -> Advance
        ensures { IsAnswer who result }
    {
        self.lock.lock(rt).advance(who)
    }

    /// What `Rounds::finish` does.
    pub fn finish<R: Wait>(&self, rt: &R, who: u32) {
        self.lock.lock(rt).finish(who);
    }

    /// What `Rounds::advance` answers at some moment during this call, and what `Rounds::reached` answers after it.
    pub fn advance_and_look<R: Wait>(&self, rt: &R, who: u32) -> (Advance, u64)
        ensures { IsAnswer who result.0 }
    {
        let mut rounds = self.lock.lock(rt);
        let answer = rounds.advance(who);
        let reached = rounds.reached();
        (answer, reached)
    }

    /// What `Rounds::finish` does, and what `Rounds::reached` answers after it.
    pub fn finish_and_look<R: Wait>(&self, rt: &R, who: u32) -> u64 {
        let mut rounds = self.lock.lock(rt);
        rounds.finish(who);
        rounds.reached()
    }
}
