// The run of one initiator: its script, its local time, and what is counted of it.
ghost use Rattle.std.specs.Prelude.{◌≡◌, ◌+◌, ◌*◌, ◌^◌, ◌<◌, ◌≤◌, [], length, IfOk, IsTrue, ◌↔◌, ◌≢◌, true, false};
ghost use Rattle.tlm_model.specs.Plan.{Plan as PlanView};
ghost use Rattle.region_object.specs.Call.{IsFit, payload_cost};
ghost use Rattle.region_object.specs.Region.{region_entry as entry_of_call, with_logged};
ghost use Rattle.traffic_script.specs.Proper.{AreProper};
ghost use Rattle.script_engine.specs.declared.part.Part.TheVariants.{Asks, Invalidates, Pauses};
ghost use Rattle.script_engine.specs.Part.{is_fenced_kind, is_sync_pause};
ghost use Rattle.script_engine.specs.State.{next_of, payload_of};
ghost use Rattle.quantum_keeper.specs.Keeper.{current_time};
ghost use Rattle.time_board.specs.Rounds.{AreClose};
ghost use Rattle.initiator_run.specs.Access.{bytes_back, call_at, cost_next, entry_made, payload_back};
ghost use Rattle.initiator_run.specs.Board.{HasGoneOn, IsInRound, IsLet, SyncsOnce};
ghost use Rattle.initiator_run.specs.Moves.{Advances, IsInvalidation, IsMove, IsUnderWay, Keeps, last_byte, steps_left};
ghost use Rattle.initiator_run.specs.Steps.{HasMoved, StepsOnce};
ghost use Rattle.initiator_run.specs.Run.{IsSoFar, accessed, fresh_run, end_at, engine_after, invalidated, passed, refused_as, with_refusal, with_sync};

use generic_payload::Payload;
use outside::Pace;
use quantum_keeper::QuantumKeeper;
use region_object::Region;
use route_plan::{Plan, Route};
use script_engine::{Engine, Part, Pause, Transfer, TransferKind};
use std::alloc::Global;
use std::marker::Model;
use time_board::{Advance, Rounds};
use tlm_types::{Command, EndOf, Memory, Ps, RefusedItem, RefusedList, TxnId, Way};
use traffic_script::Script;

/// A blocking or direct initiator under way. Contracts see where its script stands, its local time, its syncs, the
/// round that it has been let into, and what had no route.
#[derive(Drop)]
pub struct InitiatorRun {
    engine: Engine,
    keeper: QuantumKeeper,
    syncs: u64,
    round: u64,
    refused: RefusedList,
    finished: bool,
}

impl Model for InitiatorRun {
    ghost use Rattle.initiator_run.specs.Run.{Run};

    ghost Value = { Run };

    ghost view = { λ r. record {
      engine = r.engine;
      keeper = r.keeper;
      syncs = r.syncs;
      round = r.round;
      refused = r.refused;
      finished = r.finished;
    } };
}

/// An access or a debug read that is next, with its route.
#[derive(Drop)]
pub struct NextAccess {
    pub transfer: Transfer,
    pub route: Route,
}

/// An invalidation that is next, with its route: the bytes from `first` to `last` of the route's memory.
#[derive(Drop)]
pub struct NextInvalidation {
    pub first: u64,
    pub last: u64,
    pub route: Route,
}

/// What a run does next.
pub enum Move {
    /// It has moved on, and made no entry.
    Went,
    /// The access or debug read that is next has a route.
    Reached(NextAccess),
    /// The invalidation that is next has a route.
    Invalidates(NextInvalidation),
    /// Its script has ended.
    Ended,
}

/// Where the moves of a run have led to.
pub enum Stop {
    /// The access or debug read that is next has a route.
    Reached(NextAccess),
    /// The invalidation that is next has a route.
    Invalidates(NextInvalidation),
    /// Others have to move before its last sync is let through.
    Waits,
    /// Its script has ended.
    Ended,
}

impl InitiatorRun {
    /// A run of an initiator of this number with its whole script before it. Its only error is want of
    /// memory.
    pub fn new(
        alloc: Global,
        initiator: u32,
        script: Script,
        quantum: Ps,
    ) -> Result<InitiatorRun, Memory>
        ensures run { IfOk result (λ run. run ≡ fresh_run initiator script quantum (2 * length script)) }
        ensures proper { IfOk result (λ _. AreProper script) }
    {
        let room = 2 * script.len() as u32;
        InitiatorRun::of_engine(alloc, Engine::new(initiator, script), quantum, room)
    }

    /// A run of an engine that has its whole script before it, with room for so many refusals. Its only
    /// error is want of memory.
    pub fn of_engine(
        alloc: Global,
        engine: Engine,
        quantum: Ps,
        room: u32,
    ) -> Result<InitiatorRun, Memory>
        ensures { IfOk result (λ run. run ≡ record (fresh_run 0 [] quantum room) { engine = engine }) }
    {
        let refused = RefusedList::with_room(alloc, room)?;
        Ok(InitiatorRun {
            engine,
            keeper: QuantumKeeper::new(quantum),
            syncs: 0,
            round: 0,
            refused,
            finished: false,
        })
    }

    /// The number of its initiator.
    pub fn initiator(&self) -> u32
        ensures { result ≡ self.now.engine.initiator }
    {
        self.engine.initiator()
    }

    /// Its local time, in picoseconds.
    pub fn current(&self) -> Ps
        ensures { result ≡ current_time self.now.keeper }
    {
        self.keeper.current()
    }

    /// Whether its last sync has not been let through yet.
    pub fn owes_sync(&self) -> bool
        ensures { IsTrue result ↔ (self.now.round ≢ self.now.syncs) }
    {
        self.round != self.syncs
    }

    /// Its last sync has been let through.
    pub fn pass_sync(&mut self)
        ensures { self.new ≡ record self.old { round = self.old.syncs } }
    {
        self.round = self.syncs;
    }

    /// Makes it the payload of the access or debug read that is next, with the address that the
    /// initiator gives.
    #[inline(always)]
    pub fn fill_next(&self, payload: &mut Payload)
        requires { payload.old.room ≡ 4096 }
        ensures { payload.new ≡ payload_of self.now.engine 4096 }
    {
        self.engine.fill(payload);
    }

    /// How far it has come.
    pub fn into_end(self) -> EndOf
        ensures { result ≡ end_at self }
    {
        EndOf {
            transactions: self.engine.transactions(),
            syncs: self.syncs,
            end: self.keeper.current(),
            refused: self.refused,
        }
    }

    /// How far it has come, told while it may go on. Its only error is want of memory.
    pub fn end_so_far(&self, alloc: Global) -> Result<EndOf, Memory>
        ensures { IfOk result (IsSoFar self.now) }
    {
        let refused = copied_refusals(alloc, &self.refused)?;
        Ok(EndOf {
            transactions: self.engine.transactions(),
            syncs: self.syncs,
            end: self.keeper.current(),
            refused,
        })
    }

    /// Whether a step of it has found its script at the end.
    pub fn has_finished(&self) -> bool
        ensures { result ≡ self.now.finished }
    {
        self.finished
    }

    /// Makes all moves without an entry, up to the next access, debug read or invalidation that has a route, which
    /// is answered, to the end of the script, or to a sync that the rounds don't let through. The pace is
    /// told of each access and debug read.
    pub fn advance<P: Pace>(
        &mut self,
        plan: &Plan,
        rounds: &mut Rounds,
        payload: &mut Payload,
        pace: &P,
    ) -> Stop
        requires way { IsUnderWay plan.now self.old }
        requires going { self.old.finished ≡ false }
        requires round { IsInRound rounds.old self.old.engine.initiator self.old }
        requires close { AreClose rounds.old }
        requires roomy { payload.old.room ≡ 4096 }
        ensures keeps { Keeps plan.now self.old self.new }
        ensures moved { HasMoved plan.now self.old self.new }
        ensures cases { Advances plan.now self.old self.new rounds.new result }
        ensures rounds { HasGoneOn self.old self.new rounds.old rounds.new }
        ensures roomy { payload.new.room ≡ payload.old.room }
    {
        while self.is_let_through(rounds) {
            match self.step(plan, payload, pace) {
                Move::Went => {}
                Move::Reached(next) => return Stop::Reached(next),
                Move::Invalidates(next) => return Stop::Invalidates(next),
                Move::Ended => {
                    rounds.finish(self.engine.initiator());
                    return Stop::Ended;
                }
            }
        }
        Stop::Waits
    }

    // Whether its last sync is let through the rounds, now or earlier.
    fn is_let_through(&mut self, rounds: &mut Rounds) -> bool
        requires few { self.old.syncs < 2 ^ 64 }
        requires going { self.old.finished ≡ false }
        requires round { IsInRound rounds.old self.old.engine.initiator self.old }
        requires close { AreClose rounds.old }
        ensures run { self.new ≡ record self.old { round = self.new.round } }
        ensures rounds { HasGoneOn self.old self.new rounds.old rounds.new }
        ensures through { IsLet rounds.new self.new result }
    {
        if self.round == self.syncs {
            return true;
        }
        match rounds.advance(self.engine.initiator()) {
            Advance::Advanced { round } => {
                self.round = round;
                true
            }
            Advance::NotYet { .. } => false,
        }
    }

    /// One move without an entry, if one is next, with the sync that is due after it. The pace is told of
    /// an access or a debug read.
    #[inline(always)]
    pub fn step<P: Pace>(&mut self, plan: &Plan, payload: &mut Payload, pace: &P) -> Move
        requires way { IsUnderWay plan.now self.old }
        requires roomy { payload.old.room ≡ 4096 }
        ensures keeps { Keeps plan.now self.old self.new }
        ensures syncs { SyncsOnce self.old self.new }
        ensures once { StepsOnce self.old.engine self.new.engine }
        ensures cases { IsMove plan.now self.old self.new result }
        ensures roomy { payload.new.room ≡ payload.old.room }
    {
        match self.engine.next().part() {
            Part::Asks(transfer) => {
                pace.before(self.engine.initiator(), self.engine.transactions());
                self.look_up(plan, transfer, payload)
            }
            Part::Pauses(pause) => {
                self.pass(pause);
                Move::Went
            }
            Part::Invalidates {
                seq: _,
                address,
                length,
            } => self.look_for(plan, address, length),
            Part::Ends => {
                self.finished = true;
                Move::Ended
            }
        }
    }

    // Finds the route of the access or debug read that is next. Without one it is refused.
    #[inline(always)]
    fn look_up(&mut self, plan: &Plan, transfer: Transfer, payload: &mut Payload) -> Move
        requires way { IsUnderWay plan.now self.old }
        requires next { next_of self.old.engine ≡ Asks transfer }
        requires roomy { payload.old.room ≡ 4096 }
        ensures keeps { Keeps plan.now self.old self.new }
        ensures syncs { SyncsOnce self.old self.new }
        ensures once { StepsOnce self.old.engine self.new.engine }
        ensures cases { IsMove plan.now self.old self.new result }
        ensures roomy { payload.new.room ≡ payload.old.room }
    {
        let initiator = self.engine.initiator();
        match plan.route(initiator, transfer.address) {
            Some(route) => {
                // Moved field by field, it stays in registers where this is inlined.
                let Transfer {
                    seq,
                    address,
                    length,
                    kind,
                } = transfer;
                let transfer = Transfer {
                    seq,
                    address,
                    length,
                    kind,
                };
                Move::Reached(NextAccess { transfer, route })
            }
            None => {
                let latency = plan.latency(initiator, transfer.address);
                self.refuse(transfer, latency, payload);
                Move::Went
            }
        }
    }

    // Finds the route of the invalidation that is next. Without one there is nothing to invalidate, and the run
    // goes on.
    fn look_for(&mut self, plan: &Plan, address: u64, length: u64) -> Move
        requires way { IsUnderWay plan.now self.old }
        requires next { next_of self.old.engine ≡ Invalidates self.old.engine.seq address length }
        ensures keeps { Keeps plan.now self.old self.new }
        ensures syncs { SyncsOnce self.old self.new }
        ensures once { StepsOnce self.old.engine self.new.engine }
        ensures cases { IsMove plan.now self.old self.new result }
    {
        let initiator = self.engine.initiator();
        match plan.route(initiator, address) {
            Some(route) => {
                let first = route.offset;
                let last = last_byte(first, length);
                Move::Invalidates(NextInvalidation { first, last, route })
            }
            None => {
                self.pass_invalidation();
                Move::Went
            }
        }
    }

    /// Goes on after the invalidation that is next, as after a fence: it takes no time.
    pub fn pass_invalidation(&mut self)
        requires next { IsInvalidation (next_of self.old.engine) }
        ensures { self.new ≡ invalidated self.old }
    {
        self.engine.passed();
        self.finish_operation(false);
    }

    // Notes an access or a debug read that has no route, and goes on after it.
    fn refuse(&mut self, transfer: Transfer, latency: Ps, payload: &mut Payload)
        requires next { next_of self.old.engine ≡ Asks transfer }
        requires items { length self.old.refused.items < self.old.refused.room }
        requires roomy { payload.old.room ≡ 4096 }
        ensures run { self.new ≡ accessed transfer latency (payload_of self.old.engine 4096).bytes (with_refusal transfer self.old) }
        ensures roomy { payload.new.room ≡ payload.old.room }
    {
        self.engine.fill(payload);
        let item = self.refused_item(transfer, payload.command());
        self.refused.push(item);
        self.complete(transfer, latency, payload);
    }

    // How the access or debug read that is next is noted, whose payload has this command.
    fn refused_item(&self, transfer: Transfer, command: Command) -> RefusedItem
        requires next { next_of self.now.engine ≡ Asks transfer }
        requires command { command ≡ (payload_of self.now.engine 4096).command }
        ensures { result ≡ refused_as transfer (current_time self.now.keeper) }
    {
        RefusedItem {
            seq: transfer.seq,
            time: self.keeper.current(),
            debug: matches!(transfer.kind, TransferKind::DebugRead),
            command,
            address: transfer.address,
        }
    }

    // Goes on after a wait, a sync or a fence.
    fn pass(&mut self, pause: Pause)
        requires next { next_of self.old.engine ≡ Pauses pause }
        ensures run { self.new ≡ passed pause self.old }
        ensures keeps { (p : PlanView) → Keeps p self.old self.new }
        ensures syncs { self.old.syncs < 2 ^ 64 → SyncsOnce self.old self.new }
        ensures once { StepsOnce self.old.engine self.new.engine }
        ensures fewer { steps_left self.new.engine < steps_left self.old.engine }
    {
        if let Pause::Wait(time) = pause {
            self.keeper.inc(time);
        }
        self.engine.passed();
        self.finish_operation(matches!(pause, Pause::Sync));
    }

    /// Goes on after an access or a debug read, whose payload has come back, with the sync that is due.
    #[inline(always)]
    pub fn complete(&mut self, transfer: Transfer, latency: Ps, payload: &Payload)
        requires next { next_of self.old.engine ≡ Asks transfer }
        requires whole { is_fenced_kind transfer.kind ≡ true → length payload.now.bytes ≡ transfer.length }
        ensures { self.new ≡ accessed transfer latency payload.now.bytes self.old }
    {
        self.tell(transfer, payload);
        if let TransferKind::Access { .. } = transfer.kind {
            self.keeper.inc(latency);
        }
        self.finish_operation(false);
    }

    #[inline(always)]
    fn tell(&mut self, transfer: Transfer, payload: &Payload)
        requires next { next_of self.old.engine ≡ Asks transfer }
        requires whole { is_fenced_kind transfer.kind ≡ true → length payload.now.bytes ≡ transfer.length }
        ensures { self.new ≡ record self.old { engine = engine_after self.old.engine payload.now.bytes } }
    {
        match transfer.kind {
            TransferKind::Access { fenced: true, .. } => self.engine.told(payload),
            _ => self.engine.passed(),
        }
    }

    // Makes the sync that is due after what has just been done, which was a sync itself or not.
    #[inline(always)]
    fn finish_operation(&mut self, is_sync: bool)
        ensures { self.new ≡ with_sync is_sync self.old }
    {
        if self.engine.at_end_of_operation() && (is_sync || self.keeper.need_sync()) {
            self.keeper.sync();
            self.syncs = self.syncs.saturating_add(1);
        }
    }

    /// Makes the access or debug read that is next at its memory, as the entry at this position, and goes
    /// on after it. The memory has room for that entry and for the bytes of the payload.
    pub(crate) fn access(
        &mut self,
        region: &mut Region,
        next: &NextAccess,
        position: u64,
        payload: &mut Payload,
    )
        requires next { next_of self.old.engine ≡ Asks next.now.transfer }
        requires room { length region.old.log.entries < region.old.log.room }
        requires room_bytes { cost_next self.old ≤ region.old.log.room_bytes }
        requires roomy { payload.old.room ≡ 4096 }
        ensures run { self.new ≡ accessed next.now.transfer next.now.route.latency payload.new.bytes self.old }
        ensures memory { region.new ≡ with_logged region.old (entry_made self.old next.now.transfer region.old next.now.route position) }
        ensures told { is_fenced_kind next.now.transfer.kind ≡ true → payload.new.bytes ≡ bytes_back self.old next.now.transfer region.old next.now.route }
        ensures roomy { payload.new.room ≡ 4096 }
    {
        self.fill(&next.route, payload);
        let txn = self.next_txn();
        let time = self.keeper.current();
        send(
            region,
            position,
            next.transfer.kind,
            txn,
            time,
            next.route.before,
            payload,
        );
        self.complete(next.transfer, next.route.latency, payload);
    }

    // Makes it the payload of the access or debug read that is next, at the end of its route.
    fn fill(&self, route: &Route, payload: &mut Payload)
        requires { payload.old.room ≡ 4096 }
        ensures { payload.new ≡ record (payload_of self.now.engine 4096) { address = route.now.offset } }
    {
        self.engine.fill(payload);
        payload.set_address(route.offset);
    }

    /// The transaction that is next.
    pub fn next_txn(&self) -> TxnId
        ensures { result ≡ record { initiator = self.now.engine.initiator; seq = self.now.engine.seq } }
    {
        TxnId {
            initiator: self.engine.initiator(),
            seq: self.engine.transactions(),
        }
    }
}

/// A list of the same refusals. Its only error is want of memory.
pub fn copied_refusals(alloc: Global, refused: &RefusedList) -> Result<RefusedList, Memory>
    ensures { IfOk result (λ l. l.items ≡ refused.now.items) }
{
    let count = refused.len();
    let mut copy = RefusedList::with_room(alloc, count)?;
    for at in 0..count {
        copy.push(refused.item(at));
    }
    Ok(copy)
}

// The last of so many bytes from this one on. It is the last that there can be where there are more.
fn last_byte(first: u64, length: u64) -> u64
    ensures { result ≡ last_byte first length }
{
    first.saturating_add(length.saturating_sub(1))
}

// Makes the call of an access or a debug read that was issued at this time, as the entry at this
// position: an access arrives after the routers.
fn send(
    region: &mut Region,
    position: u64,
    kind: TransferKind,
    txn: TxnId,
    time: Ps,
    before: Ps,
    payload: &mut Payload,
)
    requires fit { IsFit (call_at kind txn time before payload.old) }
    requires room { length region.old.log.entries < region.old.log.room }
    requires room_bytes { payload_cost payload.old ≤ region.old.log.room_bytes }
    ensures memory { region.new ≡ with_logged region.old (entry_of_call region.old position (call_at kind txn time before payload.old)) }
    ensures payload { payload.new ≡ payload_back region.old (call_at kind txn time before payload.old) }
{
    match kind {
        TransferKind::DebugRead => {
            region.debug(position, txn, time, payload);
        }
        TransferKind::Access { .. } => {
            let arrival = time.saturating_add(before);
            region.transport(position, txn, arrival, Way::Blocking, payload);
        }
    }
}
