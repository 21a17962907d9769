// The kinds of jobs.
ghost use Rattle.std.specs.Prelude.{◌≡◌, ◌<◌, true, false, length};
ghost use Rattle.plat_run.specs.Actors.{is_done, is_pumped, number_of};
ghost use Rattle.net_end.specs.Leaves.{IsFinished};
ghost use Rattle.plat_run.specs.Turn.{HasTurned};

use crate::decoupled;
use crate::nodes::NodeJob;
use crate::port_job::PortJob;
use crate::turn::JobTurn;
use decoupled_run::DecoupledInitiator;
use outside::Pace;
use plat_net::{Net, PlatNote, Reach, Sharing, TlmLaw};
use route_plan::Plan;
use router_node::RouterNode;
use run_queue::Job;
use shared_object::Naming;
use std::alloc::Global;
use std::sync::Wait;
use target_node::TargetNode;
use time_board::Board;
use tlm_types::EndOf;
use token_book::Wallet;

/// A job of a run. The jobs of initiators have their numbers, and those of routers and memories come after them.
// It is in a box, so that workers hand on the box alone and a turn works in place.
pub enum Actor<N: Naming<Plan, TlmLaw>> {
    /// A blocking or direct initiator.
    Decoupled(Box<DecoupledInitiator<N>, Global>),
    FourPhase(Box<PortJob<N>, Global>),
    Memory(Box<NodeJob<N, TargetNode>, Global>),
    Router(Box<NodeJob<N, RouterNode>, Global>),
}

// Written out, so that the crates above call it: how each part is let go of is proved here alone.
impl<N: Naming<Plan, TlmLaw>> Drop for Actor<N> {
    fn drop(self) {
        match self {
            Actor::Decoupled(_) => {}
            Actor::FourPhase(_) => {}
            Actor::Memory(_) => {}
            Actor::Router(_) => {}
        }
    }
}

impl<N: Naming<Plan, TlmLaw>> Job for Actor<N> {
    ghost use Rattle.plat_run.specs.Actors.{is_done, number_of};

    ghost number_of = { number_of };

    ghost is_done = { is_done };

    fn number(&self) -> u32 {
        match self {
            Actor::Decoupled(job) => job.number(),
            Actor::FourPhase(job) => job.number(),
            Actor::Memory(job) => job.number(),
            Actor::Router(job) => job.number(),
        }
    }

    fn done(&self) -> bool {
        match self {
            Actor::Decoupled(job) => job.done(),
            Actor::FourPhase(job) => job.done(),
            Actor::Memory(_) | Actor::Router(_) => false,
        }
    }
}

impl<N: Naming<Plan, TlmLaw>> Actor<N> {
    /// Whether its turns may change hops and pools. Such a job takes no part in rounds.
    pub fn is_pumped(&self) -> bool
        ensures { result ≡ is_pumped self.now }
    {
        !matches!(self, Actor::Decoupled(_))
    }

    /// Whether a job is to be passed over: by what the net tells of its hops and its pool, a pump would find nothing. Now and
    /// then it is not, whatever the net tells.
    #[inline(always)]
    pub fn rests<S: Sharing<N>>(&mut self, net: &Net<N, S>) -> bool
        ensures number { number_of self.new ≡ number_of self.old }
        ensures done { is_done self.new ≡ is_done self.old }
    {
        match self {
            Actor::Decoupled(_) => false,
            Actor::FourPhase(job) => job.rests(net),
            Actor::Memory(job) => job.rests(net),
            Actor::Router(job) => job.rests(net),
        }
    }

    /// A turn of a job of any kind: of a blocking or direct initiator at most one step of its script, of all others one pump.
    pub fn turn<S: Sharing<N>, B: Reach<N, S>, P: Pace, R: Wait>(
        &mut self,
        rt: &R,
        reach: &mut B,
        board: &Board,
        pace: &P,
    ) -> JobTurn
        ensures number { number_of self.new ≡ number_of self.old }
        ensures turned { HasTurned N.frame self.old self.new result }
    {
        match self {
            Actor::Decoupled(job) => decoupled::turn(job, rt, reach, board, pace),
            Actor::FourPhase(job) => job.turn(rt, reach.net(), pace),
            Actor::Memory(job) => job.turn(rt, reach.net()),
            Actor::Router(job) => job.turn(rt, reach.net()),
        }
    }

    /// A turn, unless it has finished or is to be passed over, and whether it needs more: an initiator until it has finished. A
    /// memory and a router never do, and would need more if they were among the first so many.
    pub(crate) fn visit<S: Sharing<N>, B: Reach<N, S>, P: Pace, R: Wait>(
        &mut self,
        rt: &R,
        reach: &mut B,
        board: &Board,
        pace: &P,
        count: u32,
    ) -> bool
        ensures number { number_of self.new ≡ number_of self.old }
        ensures more { result ≡ false → number_of self.new < count → is_done self.new ≡ true }
    {
        match self {
            Actor::Decoupled(job) => decoupled::visit(job, rt, reach, board, pace),
            Actor::FourPhase(job) => job.visit(rt, reach.net(), pace),
            Actor::Memory(job) => job.visit(rt, reach.net(), count),
            Actor::Router(job) => job.visit(rt, reach.net(), count),
        }
    }

    /// What a job leaves that has finished: how its initiator ended, its wallet, and its note.
    pub fn finish(self) -> (EndOf, Wallet, PlatNote)
        requires { is_done self ≡ true }
        ensures { IsFinished N.table N.tokens N.frame.world (number_of self) result.0 result.2 result.1 }
    {
        match self {
            Actor::Decoupled(job) => Box::into_inner(job).finish(),
            Actor::FourPhase(job) => Box::into_inner(job).finish(),
            Actor::Memory(_) | Actor::Router(_) => unreachable!(),
        }
    }

    /// Lets go of a job. One that is done has the number of an initiator.
    pub fn let_go(self)
        ensures { is_done self ≡ true → number_of self < length N.frame.world.platform.initiators }
    {
        match self {
            Actor::Decoupled(job) => Box::into_inner(job).let_go(),
            Actor::FourPhase(job) => Box::into_inner(job).let_go(),
            Actor::Memory(_) | Actor::Router(_) => {}
        }
    }
}
