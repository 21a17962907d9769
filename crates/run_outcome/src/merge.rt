// Logs that are read as one, in the order of the positions of their entries.
ghost use Rattle.std.specs.Prelude.{◌≡◌, ◌<◌, ◌≤◌, length, take, true, IfOk, slice_get};
ghost use Rattle.tlm_model.specs.History.{IsNumbered};
ghost use Rattle.run_outcome.specs.Merge.{merged};
ghost use Rattle.run_outcome.specs.Places.{are_whole, entries_of_logs};

mod window;

use entry_log::Log;
use std::alloc::Global;
use std::marker::Model;
use tlm_types::Memory;
use window::Window;

/// The entries of several logs in the order of their positions, which count from 0. They stay in their
/// logs. Contracts see the list of them, and whether all are in store, so that they can be read.
#[derive(Drop)]
pub struct MergedLog {
    logs: Vec<Log>,
    count: u64,
    whole: bool,
}

impl Model for MergedLog {
    ghost use Rattle.std.specs.Prelude.{◌≡◌, ◌≤◌, length, take};
    ghost use Rattle.tlm_model.specs.History.{IsNumbered};
    ghost use Rattle.run_outcome.specs.Merge.{merged};
    ghost use Rattle.run_outcome.specs.Places.{MergedView, are_whole, entries_of_logs};

    ghost Value = { MergedView };

    ghost view = { λ m. record { entries = take m.count (merged (entries_of_logs m.logs.items)); whole = m.whole } };

    ghost invariant = { λ m. IsNumbered (merged (entries_of_logs m.logs.items)) × (m.count ≤ length (merged (entries_of_logs m.logs.items)))
        × (m.whole ≡ are_whole m.logs.items) };
}

impl MergedLog {
    /// These logs as one. The positions of their entries are those from 0 on, each once: `count` in
    /// all. It copies none of them.
    pub fn of_logs(logs: Vec<Log>, count: u64) -> MergedLog
        requires numbered { IsNumbered (merged (entries_of_logs logs.items)) }
        requires counted { count ≡ length (merged (entries_of_logs logs.items)) }
        ensures entries { result.entries ≡ merged (entries_of_logs logs.items) }
        ensures whole { result.whole ≡ are_whole logs.items }
    {
        let whole = are_whole(&logs);
        MergedLog { logs, count, whole }
    }

    /// All entries are in store, so that they can be read.
    pub fn is_whole(&self) -> bool
        ensures { result ≡ self.now.whole }
    {
        self.whole
    }

    /// The first so many entries. It takes no memory, and all stay in their logs.
    pub fn cut(mut self, count: u64) -> MergedLog
        requires { count ≤ length self.entries }
        ensures entries { result.entries ≡ take count self.entries }
        ensures whole { result.whole ≡ self.whole }
    {
        self.count = count;
        self
    }

    /// How many entries there are.
    pub fn len(&self) -> u64
        ensures { result ≡ length self.now.entries }
    {
        self.count
    }

    /// A reader of the entries. Its only error is want of memory.
    pub fn reader(&self, alloc: Global) -> Result<LogReader<'_>, Memory>
        requires { self.now.whole ≡ true }
        ensures { IfOk result (λ reader. reader ≡ self.now) }
    {
        let window = Window::over(alloc, self.logs.len())?;
        Ok(LogReader {
            logs: self.logs.as_slice(),
            count: self.count,
            window,
        })
    }
}

/// Reads the entries of merged logs, whose list contracts see. To read all in order takes constant time
/// an entry where each log has its entries in the order of their positions, as logs of a run do.
#[derive(Drop)]
pub struct LogReader<'a> {
    logs: &'a [Log],
    count: u64,
    window: Window,
}

impl<'a> Model for LogReader<'a> {
    ghost use Rattle.std.specs.Prelude.{◌≡◌, ◌≤◌, length, take, true};
    ghost use Rattle.tlm_model.specs.History.{IsNumbered};
    ghost use Rattle.run_outcome.specs.Merge.{merged};
    ghost use Rattle.run_outcome.specs.Places.{MergedView, are_whole, entries_of_logs};

    ghost Value = { MergedView };

    ghost view = { λ r. record { entries = take r.count (merged (entries_of_logs r.logs.now)); whole = true } };

    ghost invariant = { λ r. IsNumbered (merged (entries_of_logs r.logs.now)) × (r.count ≤ length (merged (entries_of_logs r.logs.now)))
        × (are_whole r.logs.now ≡ true) };
}

impl<'a> LogReader<'a> {
    /// How many entries there are.
    pub fn len(&self) -> u64
        ensures { result ≡ length self.now.entries }
    {
        self.count
    }

    /// The log that has the entry of this position, and its index there.
    #[inline(always)]
    pub fn at(&mut self, position: u64) -> (&'a Log, u64)
        requires { position < length self.old.entries }
        ensures entries { self.new ≡ self.old }
        ensures within { result.1 < length result.0.now.entries }
        ensures whole { result.0.now.whole ≡ true }
        ensures same { slice_get result.0.now.entries result.1 ≡ slice_get self.old.entries position }
    {
        let logs = self.logs;
        let place = self.window.place_of(logs, position);
        (&logs[place.log], place.index)
    }
}

// All these logs have their entries in store.
fn are_whole(logs: &[Log]) -> bool
    ensures { result ≡ are_whole logs.now }
{
    logs.iter().all(|log| log.is_whole())
}
