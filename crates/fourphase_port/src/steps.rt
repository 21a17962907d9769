// A port that is stepped an entry at a time.
ghost use Rattle.std.specs.Prelude.{◌≡◌, ◌⊎◌, ◌<◌, IfOk, None, Some, length};
ghost use Rattle.atomic_table.specs.Seated.{TableId};
ghost use Rattle.one_history.specs.Held.{Held};
ghost use Rattle.one_history.specs.declared.view.Frame.{Frame};
ghost use Rattle.view_lists.specs.Lists.{Within};
ghost use Rattle.tlm_types.specs.declared.entry.Content.{Content};
ghost use Rattle.tlm_model.specs.Plan.{Plan as PlanView};
ghost use Rattle.node_hops.specs.Steps.{HasNew, IsByPort, StepAdds};
ghost use Rattle.node_hops.specs.declared.node.OneStep.TheVariants as Steps;
ghost use Rattle.port_model.specs.Ends.{IsEndOfPort};
ghost use Rattle.port_moves.specs.Moved.{ends, made};
ghost use Rattle.port_moves.specs.State.{IsPort, begun_state, with_note};
ghost use Rattle.port_moves.specs.declared.hand.Pumped.TheVariants as Pumps;
ghost use Rattle.fourphase_port.specs.Closing.{IsToTell};
ghost use Rattle.fourphase_port.specs.Fresh.{IsFresh};
ghost use Rattle.fourphase_port.specs.Moves.{AddsOwn};
ghost use Rattle.fourphase_port.specs.Pumps.{HasFinished};
ghost use Rattle.fourphase_port.specs.Stepped.{HasPumpedLast, IsSteppedPort, MovesOn, moved_by, step_of, stepped_with};

use crate::closes::{Told, end_next, tell, to_tell};
use crate::moves::advance;
use crate::port::room_for;
use cargo_net::TlmLaw;
use dmi_grants::{Ending, Revocation};
use generic_payload::Payload;
use node_hops::OneStep;
use plat_net::{Net, PlatNote, Sharing};
use port_moves::{Moved, PortState, Pumped};
use route_plan::Plan;
use script_engine::Engine;
use shared_object::Naming;
use std::alloc::Global;
use std::sync::Wait;
use tlm_types::{EndOf, Memory};
use token_book::Wallet;

/// A four-phase initiator that is stepped an entry at a time (IEEE 1666-2011, clause 11.1.2): where it stands, and the
/// invalidation that it has told and that has not returned, if there is one. Its note is with who steps it.
pub struct SteppedPort {
    pub(crate) state: PortState,
    pub(crate) closes: Option<Revocation>,
}

// Written out, so that crates above call it and needn't prove again how each part is let go of.
impl Drop for SteppedPort {
    fn drop(self) {
        let SteppedPort {
            state: _state,
            closes: _,
        } = self;
    }
}

// What the end of a grant is for a step: an entry where this port has closed it, and else its pump begins again.
fn moved_by(ending: Ending) -> Moved
    ensures { result ≡ moved_by ending }
{
    match ending {
        Ending::Closed => Moved::made(),
        Ending::ByOthers | Ending::Returned => Moved::ends(false, Pumped::Did),
    }
}

// What a move is for a step: nothing where the step goes on.
fn comes_to(moved: Moved) -> Option<OneStep>
    ensures { result ≡ step_of moved }
{
    if moved.entry {
        return Some(OneStep::Made);
    }
    match moved.pumped {
        None | Some(Pumped::Did) => None,
        Some(Pumped::Nothing) => Some(OneStep::Waits),
        Some(Pumped::Finished) => Some(OneStep::Finished),
    }
}

impl SteppedPort {
    /// A port with its whole script before it. It makes the room for all that may be outstanding or refused,
    /// and takes no memory afterwards. Its only error is want of memory, by which what was handed in is spent.
    pub fn new<N: Naming<Plan, TlmLaw>, S: Sharing<N>>(
        alloc: Global,
        net: &Net<N, S>,
        engine: Engine,
        payload: Payload,
        wallet: Wallet,
    ) -> Result<SteppedPort, Memory>
        requires number { engine.initiator < length N.frame.world.platform.initiators }
        ensures port { IfOk result (λ port. (note : Held Content PlanView) →
            IsFresh N.table N.tokens N.frame.world engine.initiator engine payload note wallet → IsSteppedPort N.table N.tokens N.frame port note) }
        ensures state { IfOk result (λ port. port.state ≡ begun_state engine payload port.state.room wallet) }
    {
        let _ = net.plan().platform();
        let room = room_for(net, engine.initiator());
        let state = PortState::new(alloc, room, engine, payload, wallet)?;
        Ok(SteppedPort {
            state,
            closes: None,
        })
    }

    /// The number of its initiator.
    pub fn number(&self) -> u32
        ensures { result ≡ self.now.state.port.engine.initiator }
    {
        self.state.initiator()
    }

    /// Its next entry. It makes the moves that make none, up to the one with the entry. It waits once a pump finds nothing
    /// that it can do, and has finished once its script has ended, nothing is outstanding and no slot of its pool is live.
    /// An invalidation is told by one step, and each grant that it ends is closed by one of the next. It takes no memory.
    pub fn step<N: Naming<Plan, TlmLaw>, S: Sharing<N>, R: Wait>(
        &mut self,
        rt: &R,
        net: &Net<N, S>,
        note: PlatNote,
    ) -> (OneStep, PlatNote)
        requires port { IsSteppedPort N.table N.tokens N.frame self.old note }
        ensures port { IsSteppedPort N.table N.tokens N.frame self.new result.1 }
        ensures number { self.new.state.port.engine.initiator ≡ self.old.state.port.engine.initiator }
        ensures knew { Within note.knows.known result.1.knows.known }
        ensures adds { StepAdds (IsByPort N.frame.world self.old.state.port.engine.initiator) result.0 note.knows.known result.1.knows.known }
        ensures waits { result.0 ≡ Steps.Waits → HasPumpedLast N.frame Pumps.Nothing (stepped_with self.old note) (stepped_with self.new result.1) }
        ensures ended { result.0 ≡ Steps.Finished → HasPumpedLast N.frame Pumps.Finished (stepped_with self.old note) (stepped_with self.new result.1) }
        ensures finished { result.0 ≡ Steps.Finished → HasFinished self.new.state }
    {
        let mut note = note;
        let mut fetched = false;
        for _ in rt.forever() {
            let (moved, next) = self.go_on(rt, net, note, fetched);
            note = next;
            if let Some(step) = comes_to(moved) {
                return (step, note);
            }
            fetched = moved.pumped.is_none();
        }
        unreachable!()
    }

    // The next move of a step, which makes one entry at most. `fetched` says that its pump has looked for a response.
    fn go_on<N: Naming<Plan, TlmLaw>, S: Sharing<N>, R: Wait>(
        &mut self,
        rt: &R,
        net: &Net<N, S>,
        note: PlatNote,
        fetched: bool,
    ) -> (Moved, PlatNote)
        requires port { IsSteppedPort N.table N.tokens N.frame self.old note }
        ensures port { IsSteppedPort N.table N.tokens N.frame self.new result.1 }
        ensures number { self.new.state.port.engine.initiator ≡ self.old.state.port.engine.initiator }
        ensures knew { Within note.knows.known result.1.knows.known }
        ensures adds { AddsOwn N.frame (stepped_with self.old note) (stepped_with self.new result.1) result.0 }
        ensures moved { MovesOn N.frame fetched (stepped_with self.old note) (stepped_with self.new result.1) result.0 }
    {
        match self.closes {
            Some(revocation) => self.close(rt, net, note, revocation),
            None => self.move_on(rt, net, note, fetched),
        }
    }

    // Ends the next grant of the invalidation that it has told.
    fn close<N: Naming<Plan, TlmLaw>, S: Sharing<N>, R: Wait>(
        &mut self,
        rt: &R,
        net: &Net<N, S>,
        note: PlatNote,
        revocation: Revocation,
    ) -> (Moved, PlatNote)
        requires closes { self.old.closes ≡ Some revocation }
        requires port { IsSteppedPort N.table N.tokens N.frame self.old note }
        ensures port { IsSteppedPort N.table N.tokens N.frame self.new result.1 }
        ensures number { self.new.state.port.engine.initiator ≡ self.old.state.port.engine.initiator }
        ensures knew { Within note.knows.known result.1.knows.known }
        ensures adds { AddsOwn N.frame (stepped_with self.old note) (stepped_with self.new result.1) result.0 }
        ensures moved { (result.0 ≡ made) ⊎ (result.0 ≡ ends Pumps.Did) }
    {
        let (ending, note) = end_next(&mut self.state, rt, net, note, &revocation);
        if let Ending::Returned = ending {
            self.closes = None;
            return (Moved::ends(false, Pumped::Did), note);
        }
        (moved_by(ending), note)
    }

    // A move of a port, or the entry by which it tells the invalidation that is next.
    fn move_on<N: Naming<Plan, TlmLaw>, S: Sharing<N>, R: Wait>(
        &mut self,
        rt: &R,
        net: &Net<N, S>,
        note: PlatNote,
        fetched: bool,
    ) -> (Moved, PlatNote)
        requires closes { self.old.closes ≡ None }
        requires port { IsSteppedPort N.table N.tokens N.frame self.old note }
        ensures port { IsSteppedPort N.table N.tokens N.frame self.new result.1 }
        ensures number { self.new.state.port.engine.initiator ≡ self.old.state.port.engine.initiator }
        ensures knew { Within note.knows.known result.1.knows.known }
        ensures adds { AddsOwn N.frame (stepped_with self.old note) (stepped_with self.new result.1) result.0 }
        ensures moved { MovesOn N.frame fetched (stepped_with self.old note) (stepped_with self.new result.1) result.0 }
    {
        if fetched {
            if let Some(told) = to_tell(&self.state, net) {
                return (Moved::made(), self.tell(rt, net, note, told));
            }
        }
        advance(&mut self.state, rt, net, note, fetched)
    }

    // Tells the invalidation that is next, in one entry.
    fn tell<N: Naming<Plan, TlmLaw>, S: Sharing<N>, R: Wait>(
        &mut self,
        rt: &R,
        net: &Net<N, S>,
        note: PlatNote,
        told: Told,
    ) -> PlatNote
        requires closes { self.old.closes ≡ None }
        requires port { IsSteppedPort N.table N.tokens N.frame self.old note }
        requires told { IsToTell N.frame.world self.old.state told }
        ensures port { IsSteppedPort N.table N.tokens N.frame self.new result }
        ensures number { self.new.state.port.engine.initiator ≡ self.old.state.port.engine.initiator }
        ensures knew { Within note.knows.known result.knows.known }
        ensures adds { HasNew (IsByPort N.frame.world self.old.state.port.engine.initiator) note.knows.known result.knows.known }
    {
        let (revocation, note) = tell(&mut self.state, rt, net, note, told);
        self.closes = Some(revocation);
        note
    }

    /// How far its initiator has come, told while it may go on, with no syncs. Its only error is want of memory.
    pub fn end_so_far(&self, alloc: Global) -> Result<EndOf, Memory>
        ensures { IfOk result (IsEndOfPort self.now.state.port) }
    {
        self.state.end_so_far(alloc)
    }

    /// Its own wallet, and how its initiator ended, with no syncs.
    pub fn finish(self) -> (Wallet, EndOf)
        requires finished { HasFinished self.state }
        ensures port { (table tokens : TableId) (frame : Frame PlanView) (note : Held Content PlanView) →
            IsSteppedPort table tokens frame self note → IsPort table tokens frame (with_note self.state note) }
        ensures wallet { result.0 ≡ self.state.wallet }
        ensures end { IsEndOfPort self.state.port result.1 }
    {
        let SteppedPort { state, closes: _ } = self;
        state.into_end()
    }
}
