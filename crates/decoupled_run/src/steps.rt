// A blocking or direct initiator that is stepped an entry at a time.
ghost use Rattle.std.specs.Prelude.{◌≡◌, ◌≢◌, ◌<◌, IfOk, IsSomeAnd, IsTrue, false, length, slice_get, true};
ghost use Rattle.view_lists.specs.Lists.{Within};
ghost use Rattle.shared_object.specs.Steps.{IsNote};
ghost use Rattle.token_book.specs.Purse.{IsOf};
ghost use Rattle.tlm_model.specs.declared.platform.Style.TheVariants.{FourPhase};
ghost use Rattle.time_board.specs.Rounds.{AreClose};
ghost use Rattle.node_hops.specs.Steps.{IsAccessOf, StepAdds};
ghost use Rattle.plat_build.specs.Kept.{IsStart};
ghost use Rattle.initiator_run.specs.Board.{HasGoneOn, IsInRound, IsWaiting};
ghost use Rattle.initiator_run.specs.Moves.{HasReached, HasToInvalidate, Keeps};
ghost use Rattle.initiator_run.specs.Run.{IsSoFar};
ghost use Rattle.decoupled_run.specs.End.{IsFinished};
ghost use Rattle.decoupled_run.specs.Job.{goes_direct};
ghost use Rattle.decoupled_run.specs.Stepped.{HasBegun, HasClosedNext, HasMadeOne, HasSettled, IsStepEntry, IsStepped, MayCloseNext, is_held, owed_after};

use crate::access::{MadeNext, command_of, make_next};
use crate::initiator::DecoupledInitiator;
use dmi_grants::{Asked, Ending, GrantTable, Revocation, begin_invalidation, end_next_grant};
use generic_payload::Payload;
use initiator_run::{InitiatorRun, NextAccess, NextInvalidation, Stop};
use node_hops::OneStep;
use outside::Pace;
use plat_build::Start;
use plat_net::{Net, PlatNote, Sharing, TlmLaw};
use route_plan::Plan;
use shared_object::Naming;
use std::alloc::Global;
use std::marker::PhantomData;
use std::sync::Wait;
use time_board::Rounds;
use tlm_model::Style;
use tlm_types::{Command, EndOf, Memory, Ps, TxnId};
use token_book::Wallet;

// Twice as many as a platform has gates at most: so there is always a place for what may be given.
const MOST_GRANTS: u32 = 2048;

/// What an initiator owes between two steps.
#[derive(Clone, Copy)]
pub(crate) enum Owes {
    Nothing,
    /// A wish for a grant after an access.
    Grant {
        command: Command,
        address: u64,
        txn: TxnId,
        at: Ps,
    },
    /// The closings of an invalidation.
    Closings(Revocation),
}

/// A blocking or direct initiator that is stepped an entry at a time, with its payload, its wallet and the grants that
/// it holds, if it is a direct one. Its note is with who steps it.
// The payload is away only while an access is made, which carries it along.
pub struct SteppedInitiator {
    pub(crate) run: InitiatorRun,
    pub(crate) payload: Option<Payload>,
    pub(crate) wallet: Wallet,
    pub(crate) grants: GrantTable,
    pub(crate) is_direct: bool,
    pub(crate) owes: Owes,
}

// Written out, so that the crates above call it: how each part is let go of is proved here alone.
impl Drop for SteppedInitiator {
    fn drop(self) {
        let SteppedInitiator {
            run: _,
            payload: _,
            wallet: _,
            grants: _,
            is_direct: _,
            owes: _,
        } = self;
    }
}

// For how many grants an initiator has room.
fn grants_for(is_direct: bool) -> u32
    ensures { is_direct ≡ true → result ≡ 2048 }
{
    if is_direct { MOST_GRANTS } else { 0 }
}

// Whether the initiator with this number is a direct one.
fn is_direct<N: Naming<Plan, TlmLaw>, S: Sharing<N>>(net: &Net<N, S>, number: u32) -> bool
    requires { number < length net.now.platform.initiators }
    ensures { result ≡ goes_direct net.now number }
{
    let rows = net.plan().platform().initiators.as_slice();
    rows[number as usize].style == Style::Direct
}

// Whether a wish was granted.
fn is_held(asked: Asked) -> bool
    ensures { result ≡ is_held asked }
{
    matches!(asked, Asked::Held(_))
}

// What is owed after an access that wants a grant, or none.
fn owed_after(wants: bool, next: &NextAccess, txn: TxnId, at: Ps) -> Owes
    ensures { result ≡ owed_after wants next.now.transfer txn at }
{
    if wants {
        Owes::Grant {
            command: command_of(next.transfer.kind),
            address: next.transfer.address,
            txn,
            at,
        }
    } else {
        Owes::Nothing
    }
}

// Closes the next gate that an invalidation is to close itself. Says whether there was one.
fn close_next<N: Naming<Plan, TlmLaw>, S: Sharing<N>, R: Wait>(
    rt: &R,
    net: &Net<N, S>,
    revocation: &Revocation,
    note: PlatNote,
    wallet: &mut Wallet,
) -> (bool, PlatNote)
    requires note { IsNote N.table note }
    requires wallet { IsOf N.tokens wallet.old }
    requires closes { MayCloseNext N.frame revocation.now note.knows wallet.old }
    ensures { HasClosedNext N.table N.tokens N.frame revocation.now note result.1 wallet.old wallet.new result.0 }
{
    let mut now = note;
    for _ in rt.forever() {
        let (ending, next) = end_next_grant(net, rt, revocation, now, wallet);
        now = next;
        match ending {
            Ending::Closed => return (true, now),
            Ending::Returned => return (false, now),
            Ending::ByOthers => {}
        }
    }
    unreachable!()
}

impl SteppedInitiator {
    /// The blocking or direct initiator with this number, with what it starts with, and its note. Its only error is want of
    /// memory.
    pub fn begin<N: Naming<Plan, TlmLaw>, S: Sharing<N>>(
        alloc: Global,
        net: &Net<N, S>,
        number: u32,
        start: Start,
    ) -> Result<(SteppedInitiator, PlatNote), Memory>
        requires number { number < length net.now.platform.initiators }
        requires decoupled { IsSomeAnd (slice_get net.now.platform.initiators number) (λ row. row.style ≢ FourPhase) }
        requires start { IsStart N.table N.tokens N.frame.world number start }
        ensures { IfOk result (λ r. HasBegun N.table N.tokens N.frame number r.0 r.1) }
    {
        let Start {
            engine,
            payload,
            note,
            wallet,
        } = start;
        let plan = net.plan();
        let room = 2 * plan.script(number).len() as u32;
        let run = InitiatorRun::of_engine(alloc, engine, plan.platform().quantum, room)?;
        let is_direct = is_direct(net, number);
        let grants = GrantTable::new(alloc, grants_for(is_direct))?;
        let begun = SteppedInitiator {
            run,
            payload: Some(payload),
            wallet,
            grants,
            is_direct,
            owes: Owes::Nothing,
        };
        Ok((begun, note))
    }

    /// The same, which has its note with it from now on.
    pub(crate) fn with_note<N: Naming<Plan, TlmLaw>>(self, note: PlatNote) -> DecoupledInitiator<N>
        requires stepped { IsStepped N.table N.tokens N.frame self note }
        requires free { self.owes ≡ Owes.Nothing }
        ensures { result ≡ self.run }
    {
        let SteppedInitiator {
            run,
            payload,
            wallet,
            grants,
            is_direct,
            owes: _,
        } = self;
        DecoupledInitiator {
            run,
            payload,
            note: Some(note),
            wallet,
            grants,
            is_direct,
            of: PhantomData,
        }
    }

    /// Its moves up to and with its next entry, as far as the rounds let it. An access with the grant that is asked for
    /// after it, and an invalidation with its closings, take a step for each entry. The pace is told of an access or a
    /// debug read before it is made, while no lock is held.
    pub fn step<N: Naming<Plan, TlmLaw>, S: Sharing<N>, R: Wait, P: Pace>(
        &mut self,
        rt: &R,
        net: &Net<N, S>,
        rounds: &mut Rounds,
        note: PlatNote,
        pace: &P,
    ) -> (OneStep, PlatNote)
        requires stepped { IsStepped N.table N.tokens N.frame self.old note }
        requires round { IsInRound rounds.old self.old.run.engine.initiator self.old.run }
        requires close { AreClose rounds.old }
        requires going { self.old.run.finished ≡ false }
        ensures stepped { IsStepped N.table N.tokens N.frame self.new result.1 }
        ensures number { self.new.run.engine.initiator ≡ self.old.run.engine.initiator }

        // What was made, and what the note has learned.
        ensures adds { StepAdds (IsAccessOf N.frame.world self.old.run.engine.initiator) result.0 note.knows.known result.1.knows.known }
        ensures made { StepAdds (IsStepEntry N.frame.world self.old.run self.new.run) result.0 note.knows.known result.1.knows.known }
        ensures keeps { Within note.knows.known result.1.knows.known }

        // Where it waits or has finished, it has made no entry; it waits for somebody whose round is behind.
        ensures rounds { HasGoneOn self.old.run self.new.run rounds.old rounds.new }
        ensures round { IsInRound rounds.new self.old.run.engine.initiator self.new.run }
        ensures none { result.0 ≢ OneStep.Made → Keeps N.frame.world self.old.run self.new.run }
        ensures waits { result.0 ≡ OneStep.Waits → IsWaiting rounds.new self.new.run }
        ensures finished { result.0 ≡ OneStep.Finished → self.new.run.finished ≡ true }
        ensures going { result.0 ≢ OneStep.Finished → self.new.run.finished ≡ false }
    {
        let (made, note) = self.settle(rt, net, note);
        if made {
            return (OneStep::Made, note);
        }
        let Some(payload) = &mut self.payload else {
            unreachable!()
        };
        match self.run.advance(net.plan(), rounds, payload, pace) {
            Stop::Waits => (OneStep::Waits, note),
            Stop::Ended => (OneStep::Finished, note),
            Stop::Reached(next) => (OneStep::Made, self.access(rt, net, &next, note)),
            Stop::Invalidates(next) => (OneStep::Made, self.tell(rt, net, &next, note)),
        }
    }

    // Does what it owes, up to and with an entry: says whether it made one.
    fn settle<N: Naming<Plan, TlmLaw>, S: Sharing<N>, R: Wait>(
        &mut self,
        rt: &R,
        net: &Net<N, S>,
        note: PlatNote,
    ) -> (bool, PlatNote)
        requires { IsStepped N.table N.tokens N.frame self.old note }
        ensures { HasSettled N.table N.tokens N.frame self.old self.new note result.1 result.0 }
    {
        match self.owes {
            Owes::Nothing => (false, note),
            Owes::Grant {
                command,
                address,
                txn,
                at,
            } => self.ask(rt, net, command, address, txn, at, note),
            Owes::Closings(revocation) => self.close(rt, net, revocation, note),
        }
    }

    // Asks for the grant that it wishes for.
    fn ask<N: Naming<Plan, TlmLaw>, S: Sharing<N>, R: Wait>(
        &mut self,
        rt: &R,
        net: &Net<N, S>,
        command: Command,
        address: u64,
        txn: TxnId,
        at: Ps,
        note: PlatNote,
    ) -> (bool, PlatNote)
        requires stepped { IsStepped N.table N.tokens N.frame self.old note }
        requires owes { self.old.owes ≡ Owes.Grant command address txn at }
        ensures { HasSettled N.table N.tokens N.frame self.old self.new note result.1 result.0 }
    {
        let who = self.run.initiator();
        let (grants, wallet) = (&mut self.grants, &mut self.wallet);
        let (asked, note) = grants.ask(net, rt, who, command, address, note, wallet, txn, at);
        self.owes = Owes::Nothing;
        (is_held(asked), note)
    }

    // Closes the next gate of an invalidation, or finds none left.
    fn close<N: Naming<Plan, TlmLaw>, S: Sharing<N>, R: Wait>(
        &mut self,
        rt: &R,
        net: &Net<N, S>,
        revocation: Revocation,
        note: PlatNote,
    ) -> (bool, PlatNote)
        requires stepped { IsStepped N.table N.tokens N.frame self.old note }
        requires owes { self.old.owes ≡ Owes.Closings revocation }
        ensures { HasSettled N.table N.tokens N.frame self.old self.new note result.1 result.0 }
    {
        let (closed, note) = close_next(rt, net, &revocation, note, &mut self.wallet);
        if closed {
            return (true, note);
        }
        self.owes = Owes::Nothing;
        (false, note)
    }

    // Makes the access or debug read that is next, which has a route. Where it has the hint, a grant is to be asked for.
    fn access<N: Naming<Plan, TlmLaw>, S: Sharing<N>, R: Wait>(
        &mut self,
        rt: &R,
        net: &Net<N, S>,
        next: &NextAccess,
        note: PlatNote,
    ) -> PlatNote
        requires stepped { IsStepped N.table N.tokens N.frame self.old note }
        requires owes { self.old.owes ≡ Owes.Nothing }
        requires through { self.old.run.round ≡ self.old.run.syncs }
        requires reached { HasReached N.frame.world self.old.run next.now.transfer next.now.route }
        ensures { HasMadeOne N.table N.tokens N.frame self.old self.new note result }
    {
        let payload = self.payload.take().unwrap();
        let mut reach = net;
        let MadeNext {
            payload,
            note,
            wants,
        } = make_next(
            &mut reach,
            rt,
            &self.run,
            next,
            self.is_direct,
            &mut self.grants,
            payload,
            note,
            &mut self.wallet,
        );
        let txn = self.run.next_txn();
        let at = self.run.current().saturating_add(next.route.latency);
        self.run
            .complete(next.transfer, next.route.latency, &payload);
        self.payload = Some(payload);
        self.owes = owed_after(wants, next, txn, at);
        note
    }

    // Tells the invalidation that is next, which has a route. Its closings are to be made.
    fn tell<N: Naming<Plan, TlmLaw>, S: Sharing<N>, R: Wait>(
        &mut self,
        rt: &R,
        net: &Net<N, S>,
        next: &NextInvalidation,
        note: PlatNote,
    ) -> PlatNote
        requires stepped { IsStepped N.table N.tokens N.frame self.old note }
        requires owes { self.old.owes ≡ Owes.Nothing }
        requires through { self.old.run.round ≡ self.old.run.syncs }
        requires reached { HasToInvalidate N.frame.world self.old.run next.now }
        ensures { HasMadeOne N.table N.tokens N.frame self.old self.new note result }
    {
        let txn = self.run.next_txn();
        let at = self.run.current();
        let memory = next.route.memory;
        let wallet = &mut self.wallet;
        let (revocation, note) = begin_invalidation(
            net, rt, memory, next.first, next.last, note, wallet, txn, at,
        );
        self.run.pass_invalidation();
        self.owes = Owes::Closings(revocation);
        note
    }

    /// Its number.
    pub fn number(&self) -> u32
        ensures { result ≡ self.now.run.engine.initiator }
    {
        self.run.initiator()
    }

    /// Whether a step of it has found its script at the end.
    pub fn finished(&self) -> bool
        ensures { result ≡ self.now.run.finished }
    {
        self.run.has_finished()
    }

    /// How far it has come, told while it may go on. Its only error is want of memory.
    pub fn end_so_far(&self, alloc: Global) -> Result<EndOf, Memory>
        ensures { IfOk result (IsSoFar self.now.run) }
    {
        self.run.end_so_far(alloc)
    }

    /// What it leaves where it has finished: how it ended, and its wallet.
    pub fn finish<N: Naming<Plan, TlmLaw>>(self, note: &PlatNote) -> (EndOf, Wallet)
        requires stepped { IsStepped N.table N.tokens N.frame self note.now }
        requires finished { self.run.finished ≡ true }
        ensures { IsFinished N.table N.tokens N.frame.world self.run.engine.initiator result.0 note.now result.1 }
    {
        let _ = note;
        let SteppedInitiator {
            run,
            payload: _,
            wallet,
            grants: _,
            is_direct: _,
            owes: _,
        } = self;
        (run.into_end(), wallet)
    }
}
