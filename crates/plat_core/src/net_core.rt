// A core over a net: its actors move one at a time, an entry at a time, by one note.
ghost use Rattle.std.specs.Prelude.{◌≡◌, ◌↔◌, ◌<◌, ◌≤◌, Some, true, length, IfOk};
ghost use Rattle.view_lists.specs.Lists.{Within};
ghost use Rattle.shared_object.specs.Steps.{IsNote};
ghost use Rattle.plat_build.specs.Kept.{all_waiting};
ghost use Rattle.stepped_actors.specs.Begin.{actors_of};
ghost use Rattle.plat_core.specs.Core.{all_true};
ghost use Rattle.node_hops.specs.declared.node.OneStep.TheVariants as Steps;
ghost use Rattle.plat_core.specs.NetCore.{AreBegunRounds, left_out, IsBegunNet, IsCoreAt, IsNetStep, IsOver, KnowsAll, finished_after, history_in, known_in, length_after, step_as};
ghost use Rattle.plat_core.specs.Rounds.{KeepsRoundsOf};
ghost use Rattle.plat_core.specs.NetOutcome.{AreEndsSoFar, HaveToLeave};
ghost use Rattle.plat_core.specs.NetEnds.{AreEndsOf, AreInitiators};

use crate::steps::CoreStep;
use node_hops::OneStep;
use outside::NoPace;
use plat_build::{Built, Kept};
use plat_net::{Net, OneThread, PlatNote, TlmLaw};
use route_plan::Plan;
use shared_object::Naming;
use std::alloc::Global;
use std::marker::Model;
use std::sync::Wait;
use stepped_actors::{SteppedActor, actors_stay, begin_all};
use time_board::Rounds;
use tlm_types::{EndOf, Memory};

/// A net on one thread: its actors move one at a time, as its caller picks them, an entry at a time. The actors are the
/// initiators, the routers and the memories, numbered in this order. Contracts see the history so far, the actors, for each
/// initiator whether it has finished, and the rounds.
// The note is away only while an actor moves, which carries it along.
pub struct NetCore<N: Naming<Plan, TlmLaw>> {
    pub(crate) net: Net<N, OneThread>,
    pub(crate) actors: Vec<SteppedActor>,
    pub(crate) finished: Vec<bool>,
    pub(crate) rounds: Rounds,
    pub(crate) note: Option<PlatNote>,
    pub(crate) made: u64,
}

// Written out, so that the crates above call it: how each part is let go of is proved here alone.
impl<N: Naming<Plan, TlmLaw>> Drop for NetCore<N> {
    fn drop(self) {
        let NetCore {
            net: _net,
            actors: _actors,
            finished: _finished,
            rounds: _rounds,
            note: _note,
            made: _,
        } = self;
    }
}

impl<N: Naming<Plan, TlmLaw>> Model for NetCore<N> {
    ghost use Rattle.std.specs.Coded.{codes};
    ghost use Rattle.token_book.specs.Purse.{purse_code};
    ghost use Rattle.plat_core.specs.NetCore.{IsNetCore, NetView};

    ghost Value = { NetView };

    ghost coded = { Prim.hlevel (codes, purse_code) };

    ghost view = { λ c. record { actors = c.actors.items; finished = c.finished.items; rounds = c.rounds; note = c.note } };

    ghost invariant = { λ c. IsNetCore N.table N.tokens N.frame (record { actors = c.actors.items; finished = c.finished.items; rounds = c.rounds; note = c.note }) c.made };
}

// A four-phase initiator holds nobody back.
fn leave_out(rounds: &mut Rounds, number: u32, actor: &SteppedActor)
    ensures { rounds.new ≡ left_out rounds.old number actor.now }
{
    if let SteppedActor::FourPhase(_) = actor {
        rounds.finish(number);
    }
}

// Rounds of so many initiators, the first of these actors, in which no four-phase one holds anybody back. Its only error is
// want of memory.
fn begin_rounds(alloc: Global, actors: &[SteppedActor], count: u32) -> Result<Rounds, Memory>
    requires { count ≤ length actors.now }
    ensures { IfOk result (AreBegunRounds actors.now count) }
{
    let mut rounds = Rounds::new(alloc, count)?;
    for number in 0..count {
        leave_out(&mut rounds, number, &actors[number as usize]);
    }
    Ok(rounds)
}

// Waits until the history has as many entries as expected, and knows all of them then. It has at once: nobody else draws.
fn see<N: Naming<Plan, TlmLaw>, R: Wait>(
    net: &Net<N, OneThread>,
    rt: &R,
    mut note: PlatNote,
    expected: u64,
) -> PlatNote
    requires note { IsNote N.table note }
    ensures note { IsNote N.table result }
    ensures knew { Within note.knows.known result.knows.known }
    ensures all { KnowsAll result expected }
{
    for _ in rt.forever() {
        if net.history().learn(&mut note) == expected {
            return note;
        }
    }
    unreachable!()
}

// How many entries there are after a step.
fn length_after(made: u64, step: OneStep) -> u64
    ensures { result ≡ length_after made step }
{
    match step {
        OneStep::Made => made.saturating_add(1),
        OneStep::Waits | OneStep::Finished => made,
    }
}

// An initiator has finished where its step tells so.
fn mark_finished(finished: &mut Vec<bool>, index: usize, step: OneStep)
    requires { step ≡ Steps.Finished → index < length finished.old.items }
    ensures { finished.new.items ≡ finished_after finished.old.items index step }
{
    if step == OneStep::Finished {
        finished[index] = true;
    }
}

// What a step is for who asked for it. An entry has this position.
fn step_as(step: OneStep, position: u64) -> CoreStep
    ensures { result ≡ step_as step position }
{
    match step {
        OneStep::Made => CoreStep::Made(position),
        OneStep::Waits => CoreStep::Waits,
        OneStep::Finished => CoreStep::Finished,
    }
}

// How far each of these initiators has come. Its only error is want of memory.
fn ends_of(alloc: Global, initiators: &[SteppedActor]) -> Result<Vec<EndOf>, Memory>
    requires { AreInitiators initiators.now }
    ensures { IfOk result (λ ends. AreEndsOf initiators.now ends.items) }
{
    let mut ends = Vec::new(alloc);
    for initiator in initiators {
        ends.push(initiator.end_so_far(alloc)?)?;
    }
    Ok(ends)
}

impl<N: Naming<Plan, TlmLaw>> NetCore<N> {
    /// A core of a net that was just built, before its first step. Its only error is want of memory.
    pub fn new(alloc: Global, built: Built<N, OneThread>) -> Result<NetCore<N>, Memory>
        requires kept { built.kept ≡ all_waiting built.net.platform }
        ensures { IfOk result (IsBegunNet N.table N.tokens N.frame) }
    {
        let Built { net, mut kept } = built;
        let count = net.plan().platform().initiators.as_slice().len();
        let (actors, note) = begin_all(alloc, &net, &mut kept)?;
        let rounds = begin_rounds(alloc, &actors, count as u32)?;
        let finished = vec![in alloc; false; count]?;
        Ok(NetCore {
            net,
            actors,
            finished,
            rounds,
            note: Some(note),
            made: 0,
        })
    }

    /// How many actors there are.
    pub fn actors(&self) -> u32
        ensures { result ≡ actors_of N.frame.world.platform }
    {
        let platform = self.net.plan().platform();
        let nodes = platform.routers.as_slice().len() + platform.memories.as_slice().len();
        (platform.initiators.as_slice().len() + nodes) as u32
    }

    /// Whether every initiator has finished.
    pub fn has_finished(&self) -> bool
        ensures { result ≡ all_true self.now.finished }
    {
        let _ = &self.note;
        self.finished.iter().all(|finished| *finished)
    }

    // What its parts keep.
    pub(crate) fn keep(&self)
        ensures { IsCoreAt N.table N.tokens N.frame self.now }
    {
        let _ = &self.note;
    }

    // How many entries there are. They keep the rounds.
    pub(crate) fn made(&self) -> u64
        ensures count { result ≡ length (known_in self.now) }
        ensures rounds { KeepsRoundsOf N.frame.world (history_in N.frame.world self.now) }
    {
        let _ = &self.note;
        self.made
    }

    // How far each initiator has come. Its only error is want of memory.
    pub(crate) fn ends_so_far(&self, alloc: Global) -> Result<Vec<EndOf>, Memory>
        ensures { IfOk result (λ ends. AreEndsSoFar N.frame.world self.now ends.items) }
    {
        let _ = &self.note;
        ends_of(alloc, &self.actors[..self.finished.len()])
    }

    // The net, its initiators, which have all finished, and the note that they had in turn. The routers and memories are let go
    // of.
    pub(crate) fn into_initiators(self) -> (Net<N, OneThread>, Vec<SteppedActor>, PlatNote)
        requires { all_true self.finished ≡ true }
        ensures note { self.note ≡ Some result.2 }
        ensures count { length result.1.items ≡ length N.frame.world.platform.initiators }
        ensures leave { HaveToLeave N.table N.tokens N.frame result.2 result.1.items }
        ensures is_note { IsNote N.table result.2 }
    {
        let NetCore {
            net,
            mut actors,
            finished,
            rounds: _rounds,
            note,
            made: _,
        } = self;
        let Some(note) = note else { unreachable!() };
        actors.truncate(finished.len());
        (net, actors, note)
    }

    // Whether nothing is left to do for an actor: an initiator has finished; for a router or a memory all have.
    fn is_over(&self, index: usize) -> bool
        ensures { (result ≡ true) ↔ IsOver self.now index }
    {
        match self.finished.get(index) {
            Some(finished) => *finished,
            None => self.has_finished(),
        }
    }

    /// Makes one event of an actor: its moves that add no entry, up to and with its next entry. A blocking or direct
    /// initiator waits where its last sync isn't let through, any other actor where a pump of it finds nothing that it could
    /// do. An initiator that has finished stays so, and a router or a memory has once all initiators have.
    pub fn step<R: Wait>(&mut self, rt: &R, actor: u32) -> CoreStep
        requires { actor < actors_of N.frame.world.platform }
        ensures { IsNetStep N.table N.tokens N.frame self.old actor self.new result }
    {
        let index = actor as usize;
        if self.is_over(index) {
            return CoreStep::Finished;
        }
        actors_stay();
        let note = self.note.take().unwrap();
        let (step, note) = self.actors[index].step(rt, &self.net, &mut self.rounds, note, &NoPace);
        let made = self.made;
        let expected = length_after(made, step);
        let note = see(&self.net, rt, note, expected);
        mark_finished(&mut self.finished, index, step);
        self.made = expected;
        self.note = Some(note);
        step_as(step, made)
    }
}
