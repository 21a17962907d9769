// What is counted of scripts at the objects of a platform.
ghost use Rattle.std.specs.Prelude.{◌≡◌, ◌<◌, ◌≤◌, ◌*◌, ◌+◌, ◌==◌, ℕ, All, IfOk, length, slice_get, sum_by};
ghost use Rattle.std.specs.List.{AllByRecursion};
ghost use Rattle.platform_shape.specs.Paths.{once};
ghost use Rattle.route_plan.specs.Counted.{Counted, added_by_hop, added_by_hops, is_led_to, counted_of, counted_in, passed_at, passed_by};
ghost use Rattle.route_plan.specs.Counts.{AreMore, capped, counts_of, counted_number, entries_only};
ghost use Rattle.route_plan.specs.Planned.{by_fourphase};
ghost use Rattle.route_plan.specs.Routes.{bound_walk};
ghost use Rattle.tlm_model.specs.declared.ask.Ask.TheVariants.{Access as AnAccess, DebugRead as ADebugRead, Invalidation as AnInvalidation};
ghost use Rattle.tlm_model.specs.Actions.{asks_of};
ghost use Rattle.traffic_script.specs.Pieces.{written_out};
ghost use Rattle.traffic_script.specs.Proper.{IsProper, AreProper};

use crate::routes::{MOST_VISITED, Routes};
use std::alloc::{AllocError, Global};
use tlm_model::{Ask, Asks, Operation, Style};
use tlm_types::ObjectNo;
use traffic_script::{Piece, Script, asks_of};

/// What is counted at an object: the entries that may be added to its log, the bytes that accesses and
/// debug reads log, and the invalidations. Sums stand still at the greatest number, which no script
/// comes near.
#[derive(Clone, Copy)]
pub struct Count {
    pub entries: u64,
    pub logged: u64,
    pub invalidations: u64,
}

impl Count {
    /// So many entries, which log nothing.
    fn of_entries(entries: u64) -> Count
        ensures { result ≡ record { entries = entries; logged = 0; invalidations = 0 } }
    {
        Count {
            entries,
            logged: 0,
            invalidations: 0,
        }
    }

    /// This and so many times more.
    fn plus(self, more: Count, times: u64) -> Count
        ensures { (c : Counted) → counted_number c result ≡ capped (counted_number c self + counted_number c more * times) }
    {
        Count {
            entries: self
                .entries
                .saturating_add(more.entries.saturating_mul(times)),
            logged: self
                .logged
                .saturating_add(more.logged.saturating_mul(times)),
            invalidations: self
                .invalidations
                .saturating_add(more.invalidations.saturating_mul(times)),
        }
    }
}

/// Adds so many times more at a place.
fn add_at(counts: &mut [Count], place: usize, more: Count, times: u64)
    ensures { AreMore (λ c k. counted_number c more * once (place == k) * times) counts.old counts.new }
{
    if place < counts.len() {
        counts[place] = counts[place].plus(more, times);
    }
}

/// A count of what an initiator asks for, at all objects at once. What an address adds is added so many
/// times at the place of the memory that it leads to, and where the initiator is four-phase, an access
/// adds its entries at the places of the hops on its way and of the initiator's pool.
#[derive(Clone, Copy)]
struct Tally<'p> {
    routes: &'p Routes,
    initiator: u32,
    ghost there: { initiator < length routes.now.initiators },
}

impl<'p> Tally<'p> {
    fn add(&self, counts: &mut [Count], address: u64, more: Count, times: u64)
        ensures { AreMore (λ c k. counted_number c more * once (is_led_to self.now.routes.now self.now.initiator k address) * times) counts.old counts.new }
    {
        let Some(route) = self.routes.route(self.initiator, address) else {
            return;
        };
        add_at(counts, route.memory as usize, more, times);
    }

    /// A hop that an access passes: four entries of the hop, and two of the pool.
    fn add_hop(&self, counts: &mut [Count], hop: u32, times: u64)
        ensures { AreMore (λ c k. entries_only c (added_by_hop self.now.routes.now self.now.initiator k hop) * times) counts.old counts.new }
    {
        let hop = self.routes.place(ObjectNo::Hop(hop));
        let pool = self.routes.place(ObjectNo::Pool(self.initiator));
        add_at(counts, hop, Count::of_entries(4), times);
        add_at(counts, pool, Count::of_entries(2), times);
    }

    /// All hops that an address passes, as far as windows lead.
    fn add_hops(&self, counts: &mut [Count], address: u64, times: u64)
        ensures { AreMore (λ c k. entries_only c (sum_by (added_by_hop self.now.routes.now self.now.initiator k) (bound_walk self.now.routes.now self.now.initiator address).hops) * times) counts.old counts.new }
    {
        let mut step = self.routes.first_step(self.initiator, address);
        for _passed in 0..MOST_VISITED {
            self.add_hop(counts, step.hop, times);
            let Some(next) = self.routes.next_step(step) else {
                return;
            };
            step = next;
        }
    }

    /// The entries that four-phase accesses of one address make on their way.
    fn add_passages(&self, counts: &mut [Count], address: u64, times: u64)
        ensures { AreMore (λ c k. entries_only c (added_by_hops self.now.routes.now self.now.initiator k (bound_walk self.now.routes.now self.now.initiator address).hops) * times) counts.old counts.new }
    {
        let pool = self.routes.place(ObjectNo::Pool(self.initiator));
        add_at(counts, pool, Count::of_entries(2), times);
        self.add_hops(counts, address, times);
    }

    /// The style of the initiator.
    fn style(&self) -> Style
        ensures { (added : ℕ) → passed_by (slice_get self.now.routes.now.initiators self.now.initiator) added ≡ by_fourphase result added }
    {
        let initiators = self.routes.platform().initiators.as_slice();
        initiators[self.initiator as usize].style
    }

    /// What accesses of one address add on their way.
    fn add_way(&self, counts: &mut [Count], address: u64, times: u64)
        ensures { AreMore (λ c k. entries_only c (passed_at self.now.routes.now self.now.initiator k address) * times) counts.old counts.new }
    {
        match self.style() {
            Style::Blocking | Style::Direct => {}
            Style::FourPhase => self.add_passages(counts, address, times),
        }
    }

    /// Debug reads of one address that log so many bytes each.
    fn add_debug_reads(&self, counts: &mut [Count], address: u64, bytes: u64, times: u64)
        ensures { AreMore (λ c k. counted_of c self.now.routes.now self.now.initiator k (ADebugRead address bytes) * times) counts.old counts.new }
    {
        let entry = Count {
            entries: 1,
            logged: bytes,
            invalidations: 0,
        };
        self.add(counts, address, entry, times);
    }

    /// Accesses of one address that log so many bytes each: their length and their enables.
    fn add_accesses(&self, counts: &mut [Count], address: u64, bytes: u64, times: u64)
        ensures { AreMore (λ c k. counted_of c self.now.routes.now self.now.initiator k (AnAccess address bytes) * times) counts.old counts.new }
    {
        self.add_debug_reads(counts, address, bytes, times);
        self.add_way(counts, address, times);
    }

    fn add_invalidations(&self, counts: &mut [Count], address: u64, times: u64)
        ensures { AreMore (λ c k. counted_of c self.now.routes.now self.now.initiator k (AnInvalidation address) * times) counts.old counts.new }
    {
        let invalidation = Count {
            entries: 1,
            logged: 0,
            invalidations: 1,
        };
        self.add(counts, address, invalidation, times);
    }

    fn add_ask(&self, counts: &mut [Count], ask: Ask, times: u64)
        ensures { AreMore (λ c k. counted_of c self.now.routes.now self.now.initiator k ask * times) counts.old counts.new }
    {
        match ask {
            Ask::Access { address, logged } => self.add_accesses(counts, address, logged, times),
            Ask::DebugRead { address, logged } => {
                self.add_debug_reads(counts, address, logged, times);
            }
            Ask::Invalidation { address } => self.add_invalidations(counts, address, times),
        }
    }

    fn add_operation(&self, counts: &mut [Count], operation: &Operation, times: u32)
        requires { IsProper operation.now }
        ensures { AreMore (λ c k. sum_by (counted_of c self.now.routes.now self.now.initiator k) (asks_of operation.now) * times) counts.old counts.new }
    {
        let times = times as u64;
        match asks_of(operation) {
            Asks::Nothing => {}
            Asks::One(ask) => self.add_ask(counts, ask, times),
            Asks::Two(first, second) => {
                self.add_ask(counts, first, times);
                self.add_ask(counts, second, times);
            }
        }
    }

    /// Operations that are repeated: each is looked at once.
    fn add_operations(&self, counts: &mut [Count], operations: &[Operation], times: u32)
        requires { AllByRecursion IsProper operations.now }
        ensures { AreMore (λ c k. counted_in c self.now.routes.now self.now.initiator k operations.now * times) counts.old counts.new }
    {
        for operation in operations {
            self.add_operation(counts, operation, times);
        }
    }

    fn add_pieces(&self, counts: &mut [Count], pieces: &[Piece])
        requires { AreProper (written_out pieces.now) }
        ensures { AreMore (λ c k. counted_in c self.now.routes.now self.now.initiator k (written_out pieces.now)) counts.old counts.new }
    {
        for piece in pieces {
            self.add_operations(counts, piece.operations.as_slice(), piece.times);
        }
    }
}

/// What is counted of a script at each object, in one pass: at the memories, then at the hops, then at
/// the pools. Its only error is want of memory.
pub fn counts(
    alloc: Global,
    routes: &Routes,
    initiator: u32,
    script: &Script,
) -> Result<Vec<Count>, AllocError>
    requires { initiator < length routes.now.initiators }
    ensures counted { IfOk result (λ counts. counts.items ≡ counts_of routes.now initiator script.now) }
    ensures few { IfOk result (λ counts. All (λ count. count.entries ≤ 1638400000) counts.items) }
{
    let _ = routes.platform();
    let none = Count::of_entries(0);
    let mut counts = vec![in alloc; none; routes.objects()]?;
    let tally = Tally { routes, initiator };
    tally.add_pieces(counts.as_mut_slice(), script.pieces());
    Ok(counts)
}
