// An actor that is stepped.
ghost use Rattle.std.specs.Prelude.{◌≡◌, IfOk, false};
ghost use Rattle.view_lists.specs.Lists.{Within};
ghost use Rattle.node_hops.specs.declared.node.OneStep.TheVariants as Steps;
ghost use Rattle.node_hops.specs.Steps.{StepAdds};
ghost use Rattle.net_end.specs.Leaves.{IsFinished};
ghost use Rattle.time_board.specs.Rounds.{AreClose};
ghost use Rattle.stepped_actors.specs.Actors.{HasEnded, IsGoing, IsMadeBy, IsMember, KeepsBy, MovesRounds, WaitsFor, is_node, number_of};
ghost use Rattle.stepped_actors.specs.Ends.{IsSoFar};
ghost use Rattle.stepped_actors.specs.Made.{IsStepOf, KeepsRun, is_decoupled};

use decoupled_run::SteppedInitiator;
use fourphase_port::SteppedPort;
use node_hops::OneStep;
use outside::Pace;
use plat_net::{Net, PlatNote, Sharing, TlmLaw};
use route_plan::Plan;
use router_steps::SteppedRouter;
use shared_object::Naming;
use std::alloc::Global;
use std::sync::Wait;
use target_node::TargetNode;
use time_board::Rounds;
use tlm_types::{EndOf, Memory};
use token_book::Wallet;

/// An initiator, a router or a memory that is stepped an entry at a time. Its note is with who steps it.
pub enum SteppedActor {
    /// A blocking or direct initiator.
    Decoupled(SteppedInitiator),
    FourPhase(SteppedPort),
    Router(SteppedRouter),
    Memory(TargetNode),
}

// Written out, so that the crates above call it: how each part is let go of is proved here alone.
impl Drop for SteppedActor {
    fn drop(self) {
        match self {
            SteppedActor::Decoupled(_) => {}
            SteppedActor::FourPhase(_) => {}
            SteppedActor::Router(_) => {}
            SteppedActor::Memory(_) => {}
        }
    }
}

impl SteppedActor {
    /// Its moves up to and with its next entry. A blocking or direct initiator goes on as far as the rounds let it; no other
    /// actor takes part in rounds. The pace is told of what a blocking or direct initiator asks for. It takes no memory and
    /// can't fail.
    pub fn step<N: Naming<Plan, TlmLaw>, S: Sharing<N>, R: Wait, P: Pace>(
        &mut self,
        rt: &R,
        net: &Net<N, S>,
        rounds: &mut Rounds,
        note: PlatNote,
        pace: &P,
    ) -> (OneStep, PlatNote)
        requires keeps { KeepsBy N.table N.tokens N.frame self.old note }
        requires member { IsMember rounds.old self.old }
        requires close { AreClose rounds.old }
        requires going { IsGoing self.old }
        ensures keeps { KeepsBy N.table N.tokens N.frame self.new result.1 }
        ensures knew { Within note.knows.known result.1.knows.known }
        ensures number { number_of N.frame.world.platform self.new ≡ number_of N.frame.world.platform self.old }
        ensures adds { StepAdds (IsMadeBy N.frame.world self.old) result.0 note.knows.known result.1.knows.known }
        ensures made { StepAdds (IsStepOf N.frame.world self.old self.new) result.0 note.knows.known result.1.knows.known }
        ensures rounds { MovesRounds self.old self.new rounds.old rounds.new }
        ensures member { IsMember rounds.new self.new }
        ensures waits { result.0 ≡ Steps.Waits → WaitsFor N.frame N.tokens self.old self.new note result.1 rounds.new }
        ensures ended { result.0 ≡ Steps.Finished → HasEnded self.new }
        ensures going { (result.0 ≡ Steps.Finished → ⊥) → IsGoing self.new }
        ensures kind { is_node self.new ≡ is_node self.old }
        ensures style { is_decoupled self.new ≡ is_decoupled self.old }
        ensures none { (result.0 ≡ Steps.Made → ⊥) → KeepsRun N.frame.world self.old self.new }
        ensures nodes { result.0 ≡ Steps.Finished → is_node self.old ≡ false }
    {
        match self {
            SteppedActor::Decoupled(initiator) => initiator.step(rt, net, rounds, note, pace),
            SteppedActor::FourPhase(port) => port.step(rt, net, note),
            SteppedActor::Router(router) => router.step(net, rt, note),
            SteppedActor::Memory(memory) => memory.step(net, rt, note),
        }
    }

    /// How far an initiator has come, told while it may go on. Its only error is want of memory.
    pub fn end_so_far(&self, alloc: Global) -> Result<EndOf, Memory>
        requires { is_node self.now ≡ false }
        ensures { IfOk result (IsSoFar self.now) }
    {
        match self {
            SteppedActor::Decoupled(initiator) => initiator.end_so_far(alloc),
            SteppedActor::FourPhase(port) => port.end_so_far(alloc),
            SteppedActor::Router(_) | SteppedActor::Memory(_) => unreachable!(),
        }
    }

    /// What an initiator leaves that has finished: how it ended, and its wallet.
    pub fn finish<N: Naming<Plan, TlmLaw>>(self, note: &PlatNote) -> (EndOf, Wallet)
        requires keeps { KeepsBy N.table N.tokens N.frame self note.now }
        requires ended { HasEnded self }
        ensures { IsFinished N.table N.tokens N.frame.world (number_of N.frame.world.platform self) result.0 note.now result.1 }
    {
        match self {
            SteppedActor::Decoupled(initiator) => initiator.finish::<N>(note),
            SteppedActor::FourPhase(port) => {
                let (wallet, end) = port.finish();
                (end, wallet)
            }
            SteppedActor::Router(_) | SteppedActor::Memory(_) => unreachable!(),
        }
    }
}
