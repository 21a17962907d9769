// Steps of a memory, which make one entry at most.
ghost use Rattle.std.specs.Prelude.{◌≡◌, ◌≢◌, true, Some, None, if◌then◌else◌};
ghost use Rattle.view_lists.specs.Lists.{Within};
ghost use Rattle.one_history.specs.Lists.{StandBelow};
ghost use Rattle.shared_object.specs.Steps.{IsNote};
ghost use Rattle.tlm_model.specs.declared.platform.Target.TheVariants.{Memory};
ghost use Rattle.node_hops.specs.Steps.{IsByNode, StepAdds};
ghost use Rattle.node_hops.specs.declared.node.OneStep.TheVariants as Steps;
ghost use Rattle.target_node.specs.Node.{HasMade, HasTried, HasWaited, IsTarget};

use crate::node::TargetNode;
use node_hops::OneStep;
use plat_net::{Net, PlatNote, Sharing, TlmLaw};
use route_plan::Plan;
use shared_object::Naming;
use std::sync::Wait;

// What a step has come to where it took a request in: END_REQ was made where the memory's mode is so, else it goes on.
fn taken_as(accepts: bool) -> Option<OneStep>
    ensures { result ≡ (if accepts then Some Steps.Made else None) }
{
    if accepts { Some(OneStep::Made) } else { None }
}

impl TargetNode {
    /// The number of the memory.
    pub fn number(&self) -> u32
        ensures { result ≡ self.now.memory }
    {
        self.memory
    }

    // Goes once through the moves of a step. It answers what the step has come to, if it has.
    fn try_step<N: Naming<Plan, TlmLaw>, S: Sharing<N>, R: Wait>(
        &mut self,
        net: &Net<N, S>,
        rt: &R,
        note: PlatNote,
    ) -> (Option<OneStep>, PlatNote)
        requires target { IsTarget N.frame N.tokens self.old note.knows.known }
        requires note { IsNote N.table note }
        requires below { StandBelow note.knows.known note.knows.seen }
        ensures target { IsTarget N.frame N.tokens self.new result.1.knows.known }
        ensures note { IsNote N.table result.1 }
        ensures knew { Within note.knows.known result.1.knows.known }
        ensures below { StandBelow result.1.knows.known result.1.knows.seen }
        ensures same { self.new.memory ≡ self.old.memory }
        ensures tried { HasTried N.frame N.tokens self.old self.new note.knows result.1.knows result.0 }
    {
        let (sent, note) = self.send(net, rt, note);
        if sent {
            return (Some(OneStep::Made), note);
        }
        let (taken, note) = self.take_in(net, rt, note);
        if taken {
            return (taken_as(self.accepts), note);
        }
        if self.held.is_some() {
            return (Some(OneStep::Waits), note);
        }
        let (served, note) = self.serve_first(net, rt, note);
        if served {
            return (Some(OneStep::Made), note);
        }
        (Some(OneStep::Waits), note)
    }

    /// Makes the next entry of the memory: the first of these. A response that is held is sent. Where the queue has
    /// room and a request waits at a hop, in order of hops, it is taken in; that is an entry where the memory's mode is
    /// `accept`, and else the step goes on from the start. Where no response is held and the queue isn't empty,
    /// its first request is served. Else the step waits, and has made no entry. It takes no memory and can't fail.
    pub fn step<N: Naming<Plan, TlmLaw>, S: Sharing<N>, R: Wait>(
        &mut self,
        net: &Net<N, S>,
        rt: &R,
        note: PlatNote,
    ) -> (OneStep, PlatNote)
        requires target { IsTarget N.frame N.tokens self.old note.knows.known }
        requires note { IsNote N.table note }
        requires below { StandBelow note.knows.known note.knows.seen }
        ensures target { IsTarget N.frame N.tokens self.new result.1.knows.known }
        ensures note { IsNote N.table result.1 }
        ensures knew { Within note.knows.known result.1.knows.known }
        ensures below { StandBelow result.1.knows.known result.1.knows.seen }
        ensures same { self.new.memory ≡ self.old.memory }
        ensures adds { StepAdds (IsByNode N.frame.world (Memory self.old.memory)) result.0 note.knows.known result.1.knows.known }
        ensures made { result.0 ≡ Steps.Made → HasMade N.frame N.tokens self.old self.new note.knows result.1.knows }
        ensures waits { result.0 ≡ Steps.Waits → HasWaited N.frame N.tokens self.old self.new note.knows result.1.knows }
        ensures never { result.0 ≢ Steps.Finished }
    {
        let mut note = note;
        for _ in rt.forever() {
            let (tried, back) = self.try_step(net, rt, note);
            note = back;
            if let Some(step) = tried {
                return (step, note);
            }
        }
        unreachable!()
    }
}
