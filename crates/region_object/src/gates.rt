// The gates of a memory, each with what became of it.
ghost use Rattle.std.specs.Prelude.{◌≡◌, ◌+◌, ◌-◌, ◌<◌, ◌≤◌, ◌&&◌, length, drop, position, nat_le, replicate, slice_set, slice_index_or, IfOk};
ghost use Rattle.region_object.specs.Gates.{is_given_before, is_shut_at, open_from};

use std::alloc::{AllocError, Global};
use std::marker::Model;

/// What became of a gate.
#[derive(Clone, Copy, Debug, PartialEq, Eq)]
pub(crate) enum Gate {
    /// It was never given.
    Fresh,
    /// It was given by the grant at this position.
    Given(u64),
    /// It was given, and then closed.
    Shut,
}

impl Gate {
    fn is_given_before(&self, position: u64) -> bool
        ensures { result ≡ is_given_before position self.now }
    {
        match self {
            Gate::Given(given) => *given < position,
            Gate::Fresh | Gate::Shut => false,
        }
    }
}

/// The gates of a memory. They are given in turn, from the first on.
#[derive(Drop)]
pub(crate) struct Gates {
    first: u32,
    gates: Vec<Gate>,
    given: u32,
}

impl Model for Gates {
    ghost use Rattle.region_object.specs.Gates.{GatesView};

    ghost Value = { GatesView };

    ghost view = { λ g. record { first = g.first; gates = g.gates.items; given = g.given } };
}

impl Gates {
    /// So many gates, none of them given.
    pub(crate) fn new(alloc: Global, first: u32, count: u32) -> Result<Gates, AllocError>
        ensures { IfOk result (λ g. g ≡ record { first = first; gates = replicate count Gate.Fresh; given = 0 }) }
    {
        let gates = vec![in alloc; Gate::Fresh; count as usize]?;
        Ok(Gates {
            first,
            gates,
            given: 0,
        })
    }

    pub(crate) fn first(&self) -> u32
        ensures { result ≡ self.now.first }
    {
        self.first
    }

    /// How many were given.
    pub(crate) fn given(&self) -> u32
        ensures { result ≡ self.now.given }
    {
        self.given
    }

    /// The gate that is given next.
    pub(crate) fn next(&self) -> u32
        requires named { self.now.first + self.now.given < 4294967296 }
        ensures { result ≡ self.now.first + self.now.given }
    {
        self.first + self.given
    }

    /// Gives the next gate, by the grant at this position.
    pub(crate) fn give(&mut self, position: u64) -> u32
        requires some { self.old.given < length self.old.gates }
        requires named { self.old.first + length self.old.gates < 4294967296 }
        ensures gate { result ≡ self.old.first + self.old.given }
        ensures given { self.new ≡ record {
          first = self.old.first;
          gates = slice_set self.old.gates self.old.given (Gate.Given position);
          given = self.old.given + 1;
        } }
    {
        let place = self.given;
        self.gates[place as usize] = Gate::Given(position);
        self.given = place + 1;
        self.first + place
    }

    /// Whether a gate of this number is closed.
    pub(crate) fn is_shut(&self, gate: u32) -> bool
        ensures { result ≡ is_shut_at self.now gate }
    {
        if gate < self.first {
            return false;
        }
        let place = (gate - self.first) as usize;
        match self.gates.get(place) {
            Some(Gate::Shut) => true,
            Some(Gate::Fresh | Gate::Given(_)) | None => false,
        }
    }

    /// Closes this gate.
    pub(crate) fn shut(&mut self, gate: u32)
        requires own { (self.old.first ≤ gate) × (gate < self.old.first + length self.old.gates) }
        ensures { self.new ≡ record {
          first = self.old.first;
          gates = slice_set self.old.gates (gate - self.old.first) Gate.Shut;
          given = self.old.given;
        } }
    {
        let place = gate - self.first;
        self.gates[place as usize] = Gate::Shut;
    }

    /// The least gate from `from` on that was given before this position and isn't closed.
    pub(crate) fn least_given_before(&self, from: u32, position: u64) -> Option<u32>
        requires named { self.now.first + length self.now.gates < 4294967296 }
        ensures { result ≡ open_from self.now from position }
    {
        let start = from.saturating_sub(self.first);
        let place = find_given_before(&self.gates, start as usize, position)?;
        Some(self.first + start + place as u32)
    }
}

// The first of these gates from `start` on that was given before this position and isn't closed, counted
// from there.
fn find_given_before(gates: &[Gate], start: usize, before: u64) -> Option<usize>
    ensures { result ≡ position (is_given_before before) (drop start gates.now) }
{
    gates
        .iter()
        .skip(start)
        .position(|gate| gate.is_given_before(before))
}
