// A log whose entries have numbers.
ghost use Rattle.std.specs.Prelude.{◌≡◌, ◌<◌, true, [], length, map, IfOk};
ghost use Rattle.tlm_types.specs.Entries.{entry_at};
ghost use Rattle.log_items.specs.Items.{brief_what};
ghost use Rattle.flow_model.specs.Events.{entries};
ghost use Rattle.numbered_log.specs.Logged.{event_of, with_event};

use entry_log::Log;
use log_items::BriefEvent;
use std::alloc::Global;
use std::marker::Model;
use tlm_types::{Head, Memory};

/// A log without accesses, and the number of each entry, which is below 256. Contracts see its entries with their numbers,
/// and for how many there is room.
#[derive(Drop)]
pub struct NumberedLog {
    log: Log,
    numbers: Vec<u8>,
}

impl Model for NumberedLog {
    ghost use Rattle.std.specs.Prelude.{length, vec_capacity};
    ghost use Rattle.numbered_log.specs.Logged.{LoggedView, IsNumbered, events_of};

    ghost Value = { LoggedView };

    ghost view = { λ l. record {
      events = events_of l.log.entries l.numbers.items;
      room = l.log.room;
    } };

    ghost invariant = { λ l. IsNumbered l.log (length l.numbers.items) (vec_capacity l.numbers) };
}

impl NumberedLog {
    /// An empty log with room for so many entries. Its only error is want of memory.
    pub fn with_room(alloc: Global, entries: u64) -> Result<NumberedLog, Memory>
        ensures { IfOk result (λ l. l ≡ record { events = []; room = entries }) }
    {
        let log = Log::with_room(alloc, entries, 0)?;
        let numbers = Vec::with_capacity(alloc, entries as usize)?;
        Ok(NumberedLog { log, numbers })
    }

    /// The entries without their numbers.
    pub fn log(&self) -> &Log
        ensures entries { result.now.entries ≡ entries self.now.events }
        ensures room { result.now.room ≡ self.now.room }
        ensures len { length result.now.entries ≡ length self.now.events }
        ensures whole { result.now.whole ≡ true }
    {
        &self.log
    }

    /// The numbers of the entries, in order.
    pub fn numbers(&self) -> &[u8]
        ensures { result.now ≡ map (λ e. e.number) self.now.events }
    {
        self.numbers.as_slice()
    }

    /// The entries without their numbers, when the numbers aren't needed any more.
    pub fn into_log(self) -> Log
        ensures entries { result.entries ≡ entries self.events }
        ensures whole { result.whole ≡ true }
    {
        self.log
    }

    /// Appends what happened at a hop or in a pool with its number. The room for it is there.
    #[inline(always)]
    pub fn push(&mut self, head: Head, event: BriefEvent, number: u8)
        requires { length self.old.events < self.old.room }
        ensures { self.new ≡ with_event self.old (event_of (entry_at head (brief_what event)) number) }
    {
        let Ok(()) = self.log.push_brief(head, event) else {
            unreachable!()
        };
        self.numbers.push_reserved(number);
    }
}
