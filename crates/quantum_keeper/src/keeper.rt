// The keeper.
ghost use Rattle.std.specs.Prelude.{◌≡◌, ◌⊎◌, ◌↔◌, IsTrue};
ghost use Rattle.tlm_model.specs.Rounds.{next_point};
ghost use Rattle.tlm_model.specs.Route.{later};
ghost use Rattle.quantum_keeper.specs.Keeper.{HasReachedPoint, new_keeper, current_time, needs_sync, stepped, synced};

use std::marker::Model;
use tlm_types::Ps;

/// The time of an initiator since its last sync, as the standard's `tlm_quantumkeeper` (clause 16.2) keeps
/// it. All times are picoseconds.
// The next point is kept, since it is asked for after each access and changes only with a sync.
#[derive(Drop)]
pub struct QuantumKeeper {
    quantum: Ps,
    last_sync: Ps,
    local: Ps,
    next: Ps,
}

impl Model for QuantumKeeper {
    ghost use Rattle.quantum_keeper.specs.Keeper.{Keeper};

    ghost Value = { Keeper };

    ghost use Rattle.std.specs.Prelude.{◌≡◌};
    ghost use Rattle.tlm_model.specs.Rounds.{next_point};

    ghost view = { λ k. record { quantum = k.quantum; last_sync = k.last_sync; local = k.local } };

    ghost invariant = { λ k. k.next ≡ next_point k.quantum k.last_sync };
}

// The next whole multiple of a quantum after a time, which stands still at the greatest `u64`. For a
// quantum of 0 it is that time.
fn point_after(quantum: Ps, time: Ps) -> Ps
    ensures { result ≡ next_point quantum time }
{
    if quantum == 0 {
        return time;
    }
    time.saturating_add(quantum - time % quantum)
}

impl QuantumKeeper {
    /// A keeper at time 0, with no offset. A quantum of 0 asks for a sync at each test.
    pub fn new(quantum: Ps) -> QuantumKeeper
        ensures { result ≡ new_keeper quantum }
    {
        QuantumKeeper {
            quantum,
            last_sync: 0,
            local: 0,
            next: point_after(quantum, 0),
        }
    }

    /// Adds to the offset, which stands still at the greatest `u64`, as the current time does.
    pub fn inc(&mut self, by: Ps)
        ensures offset { self.new ≡ stepped self.old by }
        ensures current { current_time self.new ≡ later (current_time self.old) by }
    {
        self.local = self.local.saturating_add(by);
    }

    /// Puts this offset in the place of the one that stands.
    pub fn set_local(&mut self, local: Ps)
        ensures { self.new ≡ record self.old { local = local } }
    {
        self.local = local;
    }

    /// Whether the current time has reached the next point, a time on the point included, or the
    /// quantum is 0.
    pub fn need_sync(&self) -> bool
        ensures defined { result ≡ needs_sync self.now }

        // This compares the whole sum, which does not stand still.
        ensures reached { IsTrue result ↔ ((self.now.quantum ≡ 0) ⊎ HasReachedPoint self.now) }
    {
        self.quantum == 0 || self.next <= self.current()
    }

    /// Moves the time of the last sync on by the offset, and sets the offset to 0.
    pub fn sync(&mut self)
        ensures moved { self.new ≡ synced self.old }
        ensures current { current_time self.new ≡ current_time self.old }
    {
        self.last_sync = self.current();
        self.local = 0;
        self.next = point_after(self.quantum, self.last_sync);
    }

    /// The offset from the time of the last sync.
    pub fn local(&self) -> Ps
        ensures { result ≡ self.now.local }
    {
        self.local
    }

    /// The time of the last sync and the offset, as a sum that stands still at the greatest `u64`.
    pub fn current(&self) -> Ps
        ensures { result ≡ current_time self.now }
    {
        self.last_sync.saturating_add(self.local)
    }

    /// The next whole multiple of the quantum after the time of the last sync, which stands still at
    /// the greatest `u64`. For a quantum of 0 it is the time of the last sync.
    pub fn next_point(&self) -> Ps
        ensures { result ≡ next_point self.now.quantum self.now.last_sync }
    {
        self.next
    }
}
