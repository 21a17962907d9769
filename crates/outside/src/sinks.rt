// Sinks in memory.
ghost use Rattle.std.specs.Prelude.{◌≡◌, ◌≤◌, ◌⊎◌, ℕ, List, [], ◌++◌, take, length, Option, Some, None, IsSomeAnd, OnOk, OnErr, is_ok, if◌then◌else◌};
ghost use Rattle.std.specs.Option.{option_copied};
ghost use Rattle.outside.specs.Causes.{next_count, Rose};
ghost use Rattle.outside.specs.Pieces.{TakesAll, TakesPrefix};
ghost use Rattle.outside.specs.SinkState.{cut, takes_of};

use crate::traits::{Failed, Sink};
use std::alloc::Global;
use std::marker::Model;

/// A write that is to fail, by its number, and how many bytes of its piece it takes first.
#[derive(Clone, Copy, Debug, PartialEq, Eq)]
pub struct FailingWrite {
    pub write: u64,
    pub takes: usize,
}

/// A sink into memory, of which some writes fail: those whose number, counted from 0 over all writes
/// of this sink, is listed. A write whose memory is refused fails too.
#[derive(Drop)]
pub struct VecSink {
    bytes: Vec<u8>,
    failing: Vec<FailingWrite>,
    writes: u64,
    faults: u64,
}

impl Model for VecSink {
    ghost use Rattle.outside.specs.SinkState.{SinkState};

    ghost Value = { SinkState };

    ghost view = { λ s. record { bytes = s.bytes.items; failing = s.failing.items; writes = s.writes; faults = s.faults } };
}

impl VecSink {
    /// An empty sink, whose writes of these numbers fail. Of two entries of one number the first holds.
    pub fn new(alloc: Global, failing: Vec<FailingWrite>) -> VecSink
        ensures { result ≡ record { bytes = []; failing = failing.items; writes = 0; faults = 0 } }
    {
        VecSink {
            bytes: Vec::new(alloc),
            failing,
            writes: 0,
            faults: 0,
        }
    }

    /// The bytes that it has taken.
    pub fn bytes(&self) -> &[u8]
        ensures { result.now ≡ self.now.bytes }
    {
        &self.bytes
    }

    /// How many writes there were, failed ones among them.
    pub fn writes(&self) -> u64
        ensures { result ≡ self.now.writes }
    {
        self.writes
    }

    /// How many writes failed.
    pub fn faults(&self) -> u64
        ensures { result ≡ self.now.faults }
    {
        self.faults
    }
}

fn takes_at(failing: &[FailingWrite], number: u64) -> Option<usize>
    ensures { result ≡ takes_of failing.now number }
{
    for entry in failing {
        if entry.write == number {
            return Some(entry.takes);
        }
    }
    None
}

impl Sink for VecSink {
    ghost taken = { λ s. Some s.bytes };

    ghost faults = { λ s. s.faults };

    fn write(&mut self, bytes: &[u8]) -> Result<(), Failed>
        // Which writes fail, and what they take first. Where memory is refused a write takes nothing.
        ensures whole { OnOk result ((cut self.old ≡ None) × (self.new.bytes ≡ self.old.bytes ++ bytes.now)) }
        ensures cut_short { OnErr result ((self.new.bytes ≡ self.old.bytes)
            ⊎ IsSomeAnd (cut self.old) (λ n. self.new.bytes ≡ self.old.bytes ++ take n bytes.now)) }
        ensures counted { self.new ≡ record self.old {
          bytes = self.new.bytes;
          writes = next_count self.old.writes;
          faults = if is_ok result then self.old.faults else next_count self.old.faults;
        } }

        // What every sink promises.
        ensures all { OnOk result (TakesAll (Some self.old.bytes) (Some self.new.bytes) bytes.now) }
        ensures part { OnErr result
            (TakesPrefix (Some self.old.bytes) (Some self.new.bytes) bytes.now) }
        ensures later { self.old.faults ≤ self.new.faults }
        ensures failed { OnErr result (Rose self.old.faults self.new.faults) }
    {
        let number = self.writes;
        self.writes = number.saturating_add(1);
        let cut = takes_at(&self.failing, number);
        let part = &bytes[..cut.unwrap_or(bytes.len()).min(bytes.len())];
        let added = self.bytes.extend_from_slice(part);
        if cut.is_some() || added.is_err() {
            self.faults = self.faults.saturating_add(1);
            return Err(Failed);
        }
        Ok(())
    }
}

/// A sink into memory that never fails. Where memory is refused it falls silent: it tells nothing from
/// then on.
#[derive(Drop)]
pub struct WillingSink {
    bytes: Option<Vec<u8>>,
}

impl Model for WillingSink {
    ghost use Rattle.std.specs.Prelude.{ℕ, List, Option};
    ghost use Rattle.std.specs.Option.{option_map};

    ghost Value = { Option (List ℕ) };

    ghost view = { λ s. option_map (λ v. v.items) s.bytes };
}

impl WillingSink {
    /// An empty sink.
    pub fn new(alloc: Global) -> WillingSink
        ensures { result ≡ Some [] }
    {
        WillingSink {
            bytes: Some(Vec::new(alloc)),
        }
    }

    /// The bytes that it has taken, or None where it has fallen silent.
    pub fn bytes(&self) -> Option<&[u8]>
        ensures { option_copied result ≡ self.now }
    {
        match &self.bytes {
            None => None,
            Some(bytes) => Some(bytes.as_slice()),
        }
    }
}

impl Sink for WillingSink {
    ghost taken = { λ s. s };

    ghost faults = { λ s. 0 };

    fn write(&mut self, bytes: &[u8]) -> Result<(), Failed> {
        let refused = match &mut self.bytes {
            None => false,
            Some(all) => all.extend_from_slice(bytes).is_err(),
        };
        if refused {
            self.bytes = None;
        }
        Ok(())
    }
}
