// Schedules of a core over a net.
ghost use Rattle.std.specs.Prelude.{◌≡◌, ◌≤◌, true, false, IfOk, length, vec_capacity};
ghost use Rattle.good_history.specs.GrantLaws.{HasNoInvalidation};
ghost use Rattle.platform_shape.specs.Shape.{IsBlocking};
ghost use Rattle.plat_core.specs.Outcome.{IsScheduled};
ghost use Rattle.plat_net.specs.Objects.{frame_of};
ghost use Rattle.plat_end.specs.Run.{IsCoreRun};
ghost use Rattle.run_outcome.specs.Outcome.{IsWhole};
ghost use Rattle.plat_core.specs.Core.{all_true};
ghost use Rattle.plat_core.specs.NetCore.{known_in};
ghost use Rattle.plat_core.specs.NetOutcome.{GoesOnFrom, HaveLeftBy, HaveToLeave, IsCut, IsCutBack, IsNetTurn, IsRoomFor, IsScheduledBy, IsSoFarAsMade, TellsOf, TellsSoFar};

use crate::net_core::NetCore;
use crate::plans::can_run;
use crate::schedule::run_blocking_schedule;
use plat_build::{Opened, build};
use plat_end::{Apart, seal, take_apart};
use plat_net::{Net, NetParts, OneThread, PlatNote, TlmLaw};
use route_plan::Plan;
use run_outcome::{MergedLog, Outcome};
use shared_object::Naming;
use std::alloc::Global;
use std::marker::Brand;
use std::mem::replace;
use std::sync::Wait;
use stepped_actors::SteppedActor;
use store_replay::{OpeningStores, stores_are_those_after};
use tlm_model::Rows;
use tlm_types::{EndOf, Memory};
use token_book::Wallet;

// Room for what the initiators leave and for what the objects leave, made before a core runs on.
#[derive(Drop)]
pub(crate) struct Room {
    pub ends: Vec<EndOf>,
    pub wallets: Vec<Wallet>,
    pub notes: Vec<PlatNote>,
    pub apart: Apart,
}

// What an outcome that isn't complete tells, as far as it can be told before a core runs on: how far each initiator has
// come, and the bytes of the memories before the first entry.
#[derive(Drop)]
pub(crate) struct SoFar {
    pub ends: Vec<EndOf>,
    pub stores: OpeningStores,
}

// Room for what all that is on a net leaves. Its only error is want of memory.
fn room_for<N: Naming<Plan, TlmLaw>>(alloc: Global, net: &Net<N, OneThread>) -> Result<Room, Memory>
    ensures { IfOk result (IsRoomFor N.frame.world.platform) }
{
    let count = net.plan().platform().initiators.as_slice().len();
    let apart = Apart::room_for(alloc, net)?;
    let ends = Vec::with_capacity(alloc, count)?;
    let wallets = Vec::with_capacity(alloc, count)?;
    let notes = Vec::with_capacity(alloc, 1)?;
    Ok(Room {
        ends,
        wallets,
        notes,
        apart,
    })
}

// What these initiators leave, which have finished and stand in order. It is put where room was made for it.
fn hand_in<N: Naming<Plan, TlmLaw>>(
    actors: Vec<SteppedActor>,
    note: &PlatNote,
    ends: &mut Vec<EndOf>,
    wallets: &mut Vec<Wallet>,
)
    requires leave { HaveToLeave N.table N.tokens N.frame note.now actors.items }
    requires none { (length ends.old.items ≡ 0) × (length wallets.old.items ≡ 0) }
    requires room { (length actors.items ≤ vec_capacity ends.old) × (length actors.items ≤ vec_capacity wallets.old) }
    ensures { HaveLeftBy N.table N.tokens N.frame.world (length actors.items) note.now ends.new.items wallets.new.items }
{
    for actor in actors {
        let (end, wallet) = actor.finish::<N>(note);
        ends.push_reserved(end);
        wallets.push_reserved(wallet);
    }
}

// Waits without end unless a history has as many entries as were made. It has: nobody else has made any.
fn expect_length<R: Wait>(rt: &R, length: u64, made: u64)
    ensures { length ≡ made }
{
    if length == made {
        return;
    }
    for _ in rt.forever() {}
    unreachable!()
}

// Waits without end unless all entries of a history are in store. They are: no memory of a core lets its log forget.
fn expect_whole<R: Wait>(rt: &R, history: &MergedLog)
    ensures { history.now.whole ≡ true }
{
    if history.is_whole() {
        return;
    }
    for _ in rt.forever() {}
    unreachable!()
}

// Cuts an outcome that isn't complete back to so many entries. Its only error is want of memory.
fn cut_history(
    alloc: Global,
    mut outcome: Outcome,
    made: u64,
    so_far: SoFar,
) -> Result<Outcome, Memory>
    requires few { made ≤ length outcome.history.entries }
    requires whole { outcome.history.whole ≡ true }
    ensures { IfOk result (IsCutBack false made so_far outcome) }
{
    let SoFar { ends, stores } = so_far;
    // A log of nothing stands for the history while it is cut.
    let nothing = MergedLog::of_logs(Vec::new(alloc), 0);
    let history = replace(&mut outcome.history, nothing).cut(made);
    let stores = stores.after(alloc, &history)?;
    Ok(Outcome {
        history,
        stores,
        ends: Rows::from_vec(ends),
        complete: false,
    })
}

// Cuts an outcome back to so many entries, where it isn't to be complete. Its only error is want of memory.
fn cut_back<R: Wait>(
    rt: &R,
    alloc: Global,
    outcome: Outcome,
    made: u64,
    complete: bool,
    so_far: SoFar,
) -> Result<Outcome, Memory>
    requires { made ≤ length outcome.history.entries }
    ensures { IfOk result (IsCutBack complete made so_far outcome) }
{
    if complete {
        expect_length(rt, outcome.history.len(), made);
        return Ok(outcome);
    }
    expect_whole(rt, &outcome.history);
    cut_history(alloc, outcome, made, so_far)
}

impl<N: Naming<Plan, TlmLaw>> NetCore<N> {
    // A step of the actor of this number, if there is one.
    fn take_number<R: Wait>(&mut self, rt: &R, number: u32)
        ensures { IsNetTurn N.table N.tokens N.frame self.old number self.new }
    {
        if number < self.actors() {
            self.step(rt, number);
        }
    }

    // A step of each actor in order.
    fn step_all<R: Wait>(&mut self, rt: &R)
        ensures { GoesOnFrom self.old self.new }
    {
        for actor in 0..self.actors() {
            self.step(rt, actor);
        }
    }

    // Steps of all actors in turn, until all initiators have finished.
    fn run_on<R: Wait>(&mut self, rt: &R)
        ensures goes { GoesOnFrom self.old self.new }
        ensures all { all_true self.new.finished ≡ true }
    {
        for _ in rt.forever() {
            if self.has_finished() {
                return;
            }
            self.step_all(rt);
        }
        unreachable!()
    }

    // The outcome of the whole run, once all initiators have finished. There is room for all that is left, so it takes no
    // memory.
    fn end<R: Wait>(self, rt: &R, room: Room) -> Outcome
        requires all { all_true self.finished ≡ true }
        requires room { IsRoomFor N.frame.world.platform room }
        ensures whole { IsWhole N.frame.world result }
        ensures core { IsCoreRun N.frame.world result.history.entries }
        ensures tells { TellsOf N.frame.world.platform (known_in self) result.history.entries }
    {
        let (net, actors, note) = self.into_initiators();
        let Room {
            mut ends,
            mut wallets,
            mut notes,
            apart,
        } = room;
        hand_in::<N>(actors, &note, &mut ends, &mut wallets);
        notes.push_reserved(note);
        let _ = net.plan().platform();
        let NetParts {
            history,
            tickets,
            memories,
            hops,
            pools,
        } = net.into_parts();
        let apart = take_apart::<N, OneThread, R>(
            rt,
            &tickets,
            memories,
            hops,
            pools,
            &mut wallets,
            apart,
        );
        let (outcome, _) = seal::<N>(history, ends, notes, apart);
        outcome
    }

    // What can be told before it runs on. Its only error is want of memory.
    fn so_far(&self, alloc: Global) -> Result<SoFar, Memory>
        ensures { IfOk result (TellsSoFar N.frame.world self.now) }
    {
        let ends = self.ends_so_far(alloc)?;
        let stores = OpeningStores::of(alloc, self.net.plan().platform())?;
        Ok(SoFar { ends, stores })
    }

    /// How the run ended, as far as it has come: its history so far, the bytes that it leaves in the memories, how far each
    /// initiator has come, and whether all have finished. Where they haven't, the core runs on to its end, and the history
    /// is cut back then. Its only error is want of memory, before the core runs on or where the outcome is made.
    pub fn into_outcome<R: Wait>(self, rt: &R, alloc: Global) -> Result<Outcome, Memory>
        ensures { IfOk result (IsCut N.frame.world self) }
    {
        let mut core = self;
        let room = room_for(alloc, &core.net)?;
        let so_far = core.so_far(alloc)?;
        let complete = core.has_finished();
        let made = core.made();
        core.run_on(rt);
        let outcome = core.end(rt, room);
        stores_are_those_after();
        cut_back(rt, alloc, outcome, made, complete, so_far)
    }
}

/// Runs a plan by a schedule: each of its numbers that names an actor gives that actor a step, and the others are passed
/// over. The actors are the initiators, the routers and the memories, numbered in this order. A plan of blocking initiators
/// whose scripts don't invalidate (`can_run` tells) is run as far as the schedule goes. Any other one runs on then until all
/// initiators have finished, and its history is cut back to what the schedule made. Its only error is want of memory, before
/// the first step, before it runs on, and where the outcome is made.
pub fn run_schedule<R: Wait>(
    rt: &R,
    alloc: Global,
    plan: &Plan,
    schedule: &[u32],
) -> Result<Outcome, Memory>
    ensures outcome { IfOk result (IsSoFarAsMade plan.now) }
    ensures blocking { IsBlocking plan.now.platform → HasNoInvalidation plan.now → IfOk result (IsScheduled plan.now schedule.now) }
    ensures others { (IsBlocking plan.now.platform → HasNoInvalidation plan.now → ⊥) → IfOk result (IsScheduledBy plan.now schedule.now) }
{
    if can_run(plan) {
        return run_blocking_schedule(alloc, plan, schedule);
    }
    run_net_schedule(rt, alloc, plan, schedule)
}

// Runs a plan by a schedule on its net.
fn run_net_schedule<R: Wait>(
    rt: &R,
    alloc: Global,
    plan: &Plan,
    schedule: &[u32],
) -> Result<Outcome, Memory>
    ensures { IfOk result (IsScheduledBy plan.now schedule.now) }
{
    let opened = Opened::new(alloc, plan)?;
    run_opened::<Brand, R>(rt, alloc, plan, opened, schedule)
}

// The same of a history that has been opened. The call picks N.
fn run_opened<N: Naming<Plan, TlmLaw>, R: Wait>(
    rt: &R,
    alloc: Global,
    plan: &Plan,
    opened: Opened,
    schedule: &[u32],
) -> Result<Outcome, Memory>
    requires history { (opened.table ≡ N.table) × (opened.frame ≡ N.frame) }
    requires tickets { opened.tokens ≡ N.tokens }
    requires frame { N.frame ≡ frame_of plan.now }
    ensures { IfOk result (IsScheduledBy plan.now schedule.now) }
{
    let built = build::<N, OneThread>(alloc, opened, plan)?;
    let mut core = NetCore::new(alloc, built)?;
    core.keep();
    for number in schedule {
        core.take_number(rt, *number);
        core.keep();
    }
    core.into_outcome(rt, alloc)
}

/// Runs a plan on its net to its end: all actors in turn, an entry at a time, until all initiators have finished. Its only
/// error is want of memory, before the first step.
pub fn run_net_in_order<R: Wait>(rt: &R, alloc: Global, plan: &Plan) -> Result<Outcome, Memory>
    ensures { IfOk result (IsWhole plan.now) }
{
    let opened = Opened::new(alloc, plan)?;
    run_opened_in_order::<Brand, R>(rt, alloc, plan, opened)
}

// The same of a history that has been opened. The call picks N.
fn run_opened_in_order<N: Naming<Plan, TlmLaw>, R: Wait>(
    rt: &R,
    alloc: Global,
    plan: &Plan,
    opened: Opened,
) -> Result<Outcome, Memory>
    requires history { (opened.table ≡ N.table) × (opened.frame ≡ N.frame) }
    requires tickets { opened.tokens ≡ N.tokens }
    requires frame { N.frame ≡ frame_of plan.now }
    ensures { IfOk result (IsWhole plan.now) }
{
    let built = build::<N, OneThread>(alloc, opened, plan)?;
    let mut core = NetCore::new(alloc, built)?;
    let room = room_for(alloc, &core.net)?;
    core.run_on(rt);
    Ok(core.end(rt, room))
}
