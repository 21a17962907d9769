// The core.
ghost use Rattle.std.specs.Prelude.{◌≡◌, ◌<◌, ◌≤◌, length, map, true, false, IfOk};
ghost use Rattle.tlm_model.specs.Log.{log_bytes};
ghost use Rattle.good_history.specs.GrantLaws.{HasNoInvalidation};
ghost use Rattle.region_object.specs.Region.{LoggedMemory};
ghost use Rattle.platform_shape.specs.Shape.{IsBlocking};
ghost use Rattle.time_board.specs.declared.rounds.Member.{Member};
ghost use Rattle.plat_core.specs.Fresh.{AreFresh};
ghost use Rattle.plat_core.specs.Outcome.{IsOutcome};
ghost use Rattle.run_outcome.specs.Places.{entries_of_logs};
ghost use Rattle.initiator_run.specs.Run.{end_at};
ghost use Rattle.plat_core.specs.Core.{GoesOn, HasStopped, IsStep, IsStuck, actors_of, all_true, are_finished, begun_core, logs_of, no_runs, progress};

use entry_log::Log;
use generic_payload::Payload;
use initiator_run::{InitiatorRun, Turn, take_turn};
use outside::{NoPace, Pace};
use region_object::Region;
use route_plan::Plan;
use run_outcome::{MergedLog, Outcome};
use std::alloc::Global;
use std::marker::Model;
use time_board::Rounds;
use tlm_model::Rows;
use tlm_types::{Bytes, EndOf, Memory, ObjectNo};

/// A platform with its scripts on one thread: its actors move one at a time, as its caller picks them.
/// The actors are the initiators, the routers and the memories, numbered in this order. Contracts see
/// the plan, the history so far, for each initiator whether it has finished, and the rounds.
///
/// Each sync of an initiator begins a round. By its own next step the initiator is let into that round, if
/// every other one that hasn't finished has reached the round before.
#[derive(Drop)]
pub struct Core<'a> {
    alloc: Global,
    plan: &'a Plan,
    runs: Vec<InitiatorRun>,
    rounds: Rounds,
    regions: Vec<Region>,
    payload: Payload,
    made: u64,
}

/// What a step did.
#[derive(Clone, Copy, Debug, PartialEq, Eq)]
pub enum CoreStep {
    /// It made the entry at this position of the history.
    Made(u64),
    /// There is nothing to do before others have moved.
    Waits,
    /// The actor has nothing more to do.
    Finished,
}

impl<'a> Model for Core<'a> {
    ghost use Rattle.std.specs.Prelude.{◌≡◌};
    ghost use Rattle.plat_core.specs.Board.{AreInRounds};
    ghost use Rattle.plat_core.specs.Core.{CoreView, IsCore, are_finished, history_of};

    ghost Value = { CoreView };

    ghost view = { λ c. record {
      plan = c.plan.now;
      history = history_of c.regions.items;
      finished = are_finished c.runs.items;
      rounds = c.rounds;
    } };

    ghost invariant = { λ c. IsCore c.plan.now c.runs.items c.regions.items c.made × AreInRounds c.plan.now (history_of c.regions.items) c.runs.items c.rounds × (c.payload.room ≡ 4096) };
}

impl<'a> Core<'a> {
    /// A core of a plan of blocking initiators whose scripts don't invalidate (`can_run` tells), before its first
    /// step. Its only error is want of memory.
    pub fn new(alloc: Global, plan: &'a Plan) -> Result<Core<'a>, Memory>
        requires blocking { IsBlocking plan.now.platform }
        requires quiet { HasNoInvalidation plan.now }
        ensures { IfOk result (λ core. core ≡ begun_core plan.now) }
    {
        let runs = begin_runs(alloc, plan)?;
        let initiators = plan.platform().initiators.as_slice().len() as u32;
        let rounds = Rounds::new(alloc, initiators)?;
        let regions = begin_regions(alloc, plan)?;
        let payload = Payload::with_room(alloc, 4096)?;
        Ok(Core {
            alloc,
            plan,
            runs,
            rounds,
            regions,
            payload,
            made: 0,
        })
    }

    /// How many actors there are.
    pub fn actors(&self) -> u32
        ensures { result ≡ actors_of self.now.plan.platform }
    {
        let platform = self.plan.platform();
        let nodes = platform.routers.as_slice().len() + platform.memories.as_slice().len();
        (platform.initiators.as_slice().len() + nodes) as u32
    }

    /// How many initiators there are.
    pub fn initiators(&self) -> u32
        ensures count { result ≡ length self.now.plan.platform.initiators }
        ensures flags { result ≡ length self.now.finished }
        ensures rounds { map (λ (m : Member). m.finished) self.now.rounds ≡ self.now.finished }
    {
        self.runs.len() as u32
    }

    /// Makes one event of an actor: its moves that add no entry, up to and with its next entry. A
    /// blocking initiator waits where that entry, or its end, is more than one round after the round of
    /// another one that hasn't finished. One that has finished stays so; a router or a memory has no work
    /// of its own, and has finished once all initiators have.
    pub fn step(&mut self, actor: u32) -> CoreStep
        requires { actor < actors_of self.old.plan.platform }
        ensures { IsStep self.old actor self.new result }
    {
        let index = actor as usize;
        if index < self.runs.len() {
            self.step_initiator(index, &NoPace)
        } else if self.has_finished() {
            CoreStep::Finished
        } else {
            CoreStep::Waits
        }
    }

    /// Whether every initiator has finished.
    pub fn has_finished(&self) -> bool
        ensures all { result ≡ all_true self.now.finished }
        ensures few { progress self.now ≤ 20000000 }
    {
        all_finished(&self.runs)
    }

    /// Steps an initiator until it has finished or waits. The pace is told of each access and debug read
    /// that its script asks for.
    pub fn go_on<P: Pace>(&mut self, initiator: u32, pace: &P)
        requires { initiator < length self.old.finished }
        ensures goes { GoesOn self.old self.new }
        ensures stuck { progress self.new ≤ progress self.old → (self.new ≡ self.old) × IsStuck self.old.rounds initiator }
    {
        while let CoreStep::Made(_) = self.step_initiator(initiator as usize, pace) {}
    }

    /// Lets each initiator in order go on until it has finished or waits. Where not all have finished,
    /// there is progress.
    pub fn go_round<P: Pace>(&mut self, pace: &P)
        ensures plan { self.new.plan ≡ self.old.plan }
        ensures progress { all_true self.old.finished ≡ false → progress self.old < progress self.new }
    {
        for initiator in 0..self.initiators() {
            self.go_on(initiator, pace);
        }
    }

    /// How the run ended, as far as it has come. Its only error is want of memory.
    pub fn into_outcome(self) -> Result<Outcome, Memory>
        ensures { IfOk result (IsOutcome self.entry) }
    {
        let complete = self.has_finished();
        let (logs, stores) = into_parts(self.alloc, self.regions)?;
        let history = MergedLog::of_logs(logs, self.made);
        let ends = into_ends(self.alloc, self.runs)?;
        Ok(Outcome {
            history,
            stores,
            ends,
            complete,
        })
    }

    fn step_initiator<P: Pace>(&mut self, index: usize, pace: &P) -> CoreStep
        requires { index < length self.old.finished }
        ensures step { IsStep self.old index self.new result }
        ensures goes { GoesOn self.old self.new }
        ensures stops { HasStopped self.old index self.new result }
        ensures few { progress self.new ≤ 20000000 }
    {
        if self.runs[index].has_finished() {
            return CoreStep::Finished;
        }
        let run = &mut self.runs[index];
        let turn = take_turn(
            self.plan,
            run,
            &mut self.rounds,
            &mut self.regions,
            self.made,
            &mut self.payload,
            pace,
        );
        match turn {
            Turn::Made => {
                let position = self.made;
                self.made += 1;
                CoreStep::Made(position)
            }
            Turn::Invalidates(_) => unreachable!(),
            Turn::Waits => CoreStep::Waits,
            Turn::Ended => CoreStep::Finished,
        }
    }
}

// The run of each initiator, before its first step.
fn begin_runs(alloc: Global, plan: &Plan) -> Result<Vec<InitiatorRun>, Memory>
    ensures { IfOk result (λ runs. runs.items ≡ no_runs plan.now) }
{
    let quantum = plan.platform().quantum;
    let mut runs = Vec::new(alloc);
    for number in 0..plan.platform().initiators.as_slice().len() {
        let script = plan.script(number as u32).copy(alloc)?;
        runs.push(InitiatorRun::new(alloc, number as u32, script, quantum)?)?;
    }
    Ok(runs)
}

// The memories, with empty logs that have room for the entries and the bytes that are planned.
fn begin_regions(alloc: Global, plan: &Plan) -> Result<Vec<Region>, Memory>
    ensures { IfOk result (λ regions. AreFresh plan.now regions.items (length plan.now.platform.memories)) }
{
    let mut first_gate = 0u32;
    let mut regions = Vec::new(alloc);
    for (number, row) in plan.platform().memories.as_slice().iter().enumerate() {
        let number = number as u32;
        let entries = plan.entries(ObjectNo::Memory(number));
        let logged = plan.logged(number);
        let region = Region::new(alloc, number, row.traits, entries, logged, first_gate)?;
        regions.push(region)?;
        first_gate = first_gate.saturating_add(row.traits.gates);
    }
    Ok(regions)
}

// The logs of the memories and their bytes.
fn into_parts(alloc: Global, regions: Vec<Region>) -> Result<(Vec<Log>, Rows<Bytes>), Memory>
    ensures logs { IfOk result (λ parts. entries_of_logs parts.0.items ≡ logs_of regions.items) }
    ensures stores { IfOk result (λ parts. parts.1 ≡ map (λ (m : LoggedMemory). log_bytes m.traits m.log.entries) regions.items) }
{
    let mut logs = Vec::new(alloc);
    let mut stores = Vec::new(alloc);
    for region in regions {
        let (log, bytes) = region.into_parts();
        logs.push(log)?;
        stores.push(bytes)?;
    }
    Ok((logs, Rows::from_vec(stores)))
}

// How far each run has come.
fn into_ends(alloc: Global, runs: Vec<InitiatorRun>) -> Result<Rows<EndOf>, Memory>
    ensures { IfOk result (λ ends. ends ≡ map end_at runs.items) }
{
    let mut ends = Vec::new(alloc);
    for run in runs {
        ends.push(run.into_end())?;
    }
    Ok(Rows::from_vec(ends))
}

fn all_finished(runs: &[InitiatorRun]) -> bool
    ensures { result ≡ all_true (are_finished runs.now) }
{
    for run in runs {
        if !run.has_finished() {
            return false;
        }
    }
    true
}
