// A blocking or direct initiator under way.
ghost use Rattle.std.specs.Prelude.{◌≡◌, ◌≢◌, ◌<◌, ◌↔◌, IfOk, IsSomeAnd, IsTrue, length, slice_get, true};
ghost use Rattle.tlm_model.specs.declared.platform.Style.TheVariants.{FourPhase};
ghost use Rattle.plat_build.specs.Kept.{IsStart};
ghost use Rattle.initiator_run.specs.Moves.{HasReached, HasToInvalidate};
ghost use Rattle.initiator_run.specs.Steps.{StepsOnce};
ghost use Rattle.decoupled_run.specs.End.{IsFinished};

use crate::access::{MadeNext, ask_after, make_next};
use crate::steps::SteppedInitiator;
use dmi_grants::{GrantTable, invalidate};
use generic_payload::Payload;
use initiator_run::{InitiatorRun, Move, NextAccess, NextInvalidation};
use outside::Pace;
use plat_build::Start;
use plat_net::{Net, PlatNote, Reach, Sharing, TlmLaw};
use route_plan::Plan;
use shared_object::Naming;
use std::alloc::Global;
use std::marker::{Model, PhantomData};
use std::sync::Wait;
use tlm_types::{EndOf, Memory};
use token_book::Wallet;

/// A blocking or direct initiator under way, whose local time is decoupled (clause 16), with its payload, its note,
/// its wallet and the grants that it holds, if it is a direct one. Contracts see its run.
// The payload and the note are away only while an access is made, which carries them along.
pub struct DecoupledInitiator<N: Naming<Plan, TlmLaw>> {
    pub(crate) run: InitiatorRun,
    pub(crate) payload: Option<Payload>,
    pub(crate) note: Option<PlatNote>,
    pub(crate) wallet: Wallet,
    pub(crate) grants: GrantTable,
    pub(crate) is_direct: bool,
    pub(crate) of: PhantomData<N>,
}

// Written out, so that the crates above call it: how each part is let go of is proved here alone.
impl<N: Naming<Plan, TlmLaw>> Drop for DecoupledInitiator<N> {
    fn drop(self) {
        let DecoupledInitiator {
            run: _,
            payload: _,
            note: _,
            wallet: _,
            grants: _,
            is_direct: _,
            of: _,
        } = self;
    }
}

impl<N: Naming<Plan, TlmLaw>> Model for DecoupledInitiator<N> {
    ghost use Rattle.initiator_run.specs.Run.{Run};
    ghost use Rattle.decoupled_run.specs.Job.{IsAtRest};

    ghost Value = { Run };

    ghost view = { λ j. j.run };

    ghost invariant = { λ j. IsAtRest N.table N.tokens N.frame j.is_direct j.run j.payload j.note j.wallet j.grants };
}

impl<N: Naming<Plan, TlmLaw>> DecoupledInitiator<N> {
    /// The blocking or direct initiator with this number, with what it starts with. Its only error is want of memory.
    pub fn begin<S: Sharing<N>>(
        alloc: Global,
        net: &Net<N, S>,
        number: u32,
        start: Start,
    ) -> Result<DecoupledInitiator<N>, Memory>
        requires number { number < length net.now.platform.initiators }
        requires decoupled { IsSomeAnd (slice_get net.now.platform.initiators number) (λ row. row.style ≢ FourPhase) }
        requires start { IsStart N.table N.tokens N.frame.world number start }
        ensures { IfOk result (λ job. job.engine.initiator ≡ number) }
    {
        let (begun, note) = SteppedInitiator::begin(alloc, net, number, start)?;
        Ok(begun.with_note(note))
    }

    /// Its number.
    pub fn number(&self) -> u32
        ensures { result ≡ self.now.engine.initiator }
    {
        self.run.initiator()
    }

    /// Whether it has found its script at the end.
    pub fn done(&self) -> bool
        ensures { result ≡ self.now.finished }
    {
        self.run.has_finished()
    }

    /// Whether its last sync has not been let through yet.
    pub fn owes_sync(&self) -> bool
        ensures { IsTrue result ↔ (self.now.round ≢ self.now.syncs) }
    {
        self.run.owes_sync()
    }

    /// Its last sync has been let through.
    pub fn pass_sync(&mut self)
        ensures { self.new ≡ record self.old { round = self.old.syncs } }
    {
        self.run.pass_sync();
    }

    /// What it leaves where it has finished: how it ended, its wallet, and its note.
    pub fn finish(self) -> (EndOf, Wallet, PlatNote)
        requires { self.finished ≡ true }
        ensures { IsFinished N.table N.tokens N.frame.world self.engine.initiator result.0 result.2 result.1 }
    {
        let DecoupledInitiator {
            run,
            payload: _,
            note,
            wallet,
            grants: _,
            is_direct: _,
            of: _,
        } = self;
        (run.into_end(), wallet, note.unwrap())
    }

    /// Lets go of it. Its number is that of an initiator.
    pub fn let_go(self)
        ensures { self.engine.initiator < length N.frame.world.platform.initiators }
    {
        let DecoupledInitiator {
            run: _,
            payload: _,
            note: _,
            wallet: _,
            grants: _,
            is_direct: _,
            of: _,
        } = self;
    }

    /// One operation of its script, or one access of it with the grant that is asked for after it. An invalidation ends
    /// each grant that it overlaps, whoever holds it: an own one is found stale when it is to be used. The pace is
    /// told of an access or a debug read before it is made, while no lock is held.
    pub fn go_on<S: Sharing<N>, B: Reach<N, S>, P: Pace, R: Wait>(
        &mut self,
        rt: &R,
        reach: &mut B,
        pace: &P,
    )
        ensures number { self.new.engine.initiator ≡ self.old.engine.initiator }
        ensures once { StepsOnce self.old.engine self.new.engine }
    {
        let Some(payload) = &mut self.payload else {
            unreachable!()
        };
        match self.run.step(reach.net().plan(), payload, pace) {
            Move::Went | Move::Ended => {}
            Move::Reached(next) => self.access(rt, reach, &next),
            Move::Invalidates(next) => self.invalidate(rt, reach.net(), &next),
        }
    }

    // Makes the access or debug read that is next, which has a route, and asks for a grant where it has the hint.
    #[inline(always)]
    fn access<S: Sharing<N>, B: Reach<N, S>, R: Wait>(
        &mut self,
        rt: &R,
        reach: &mut B,
        next: &NextAccess,
    )
        requires { HasReached N.frame.world self.old next.now.transfer next.now.route }
        ensures number { self.new.engine.initiator ≡ self.old.engine.initiator }
        ensures once { StepsOnce self.old.engine self.new.engine }
    {
        let payload = self.payload.take().unwrap();
        let note = self.note.take().unwrap();
        let (grants, wallet) = (&mut self.grants, &mut self.wallet);
        let MadeNext {
            payload,
            note,
            wants,
        } = make_next(
            reach,
            rt,
            &self.run,
            next,
            self.is_direct,
            grants,
            payload,
            note,
            wallet,
        );
        let txn = self.run.next_txn();
        let granted_at = self.run.current().saturating_add(next.route.latency);
        self.run
            .complete(next.transfer, next.route.latency, &payload);
        self.payload = Some(payload);
        let net = reach.net();
        let note = ask_after(
            net, rt, &self.run, next, wants, grants, note, wallet, txn, granted_at,
        );
        self.note = Some(note);
    }

    // Makes the invalidation that is next, which has a route.
    fn invalidate<S: Sharing<N>, R: Wait>(
        &mut self,
        rt: &R,
        net: &Net<N, S>,
        next: &NextInvalidation,
    )
        requires { HasToInvalidate N.frame.world self.old next.now }
        ensures number { self.new.engine.initiator ≡ self.old.engine.initiator }
        ensures once { StepsOnce self.old.engine self.new.engine }
    {
        let note = self.note.take().unwrap();
        let txn = self.run.next_txn();
        let at = self.run.current();
        let memory = next.route.memory;
        let wallet = &mut self.wallet;
        let note = invalidate(
            net, rt, memory, next.first, next.last, note, wallet, txn, at,
        );
        self.run.pass_invalidation();
        self.note = Some(note);
    }
}
