// A router that is stepped an entry at a time.
ghost use Rattle.std.specs.Prelude.{◌≡◌, ◌≢◌, length, None, IfSome};
ghost use Rattle.view_lists.specs.Lists.{Within};
ghost use Rattle.one_history.specs.Lists.{StandBelow};
ghost use Rattle.shared_object.specs.Steps.{IsNote};
ghost use Rattle.node_hops.specs.declared.node.OneStep.TheVariants.{Finished, Made, Waits};
ghost use Rattle.router_node.specs.Node.{IsRouter};
ghost use Rattle.node_hops.specs.Steps.{HasNew, IsByNode, StepAdds};
ghost use Rattle.tlm_model.specs.declared.platform.Target.TheVariants.{Router};
ghost use Rattle.router_steps.specs.Stepped.{HasWaited, IsDue, IsSteppedRouter};
ghost use Rattle.router_node.specs.Stages.{IsByRouter};

use crate::tries::{Tried, hold_below, move_once, put_in};
use node_hops::OneStep;
use plat_net::{Net, PlatNote, Sharing, TlmLaw};
use route_plan::Plan;
use router_moves::{BegunBelow, PassedOn, Rest, end_above, release};
use router_node::{RouterNode, serve};
use shared_object::Naming;
use std::sync::Wait;
use tlm_types::Ps;

/// What is still to be made of a passage whose first entry was made. Where its transaction is to be held again, it stands
/// at this place among the others.
#[derive(Drop)]
pub enum Due {
    /// END_REQ above, after BEGIN_REQ below at this time, in picoseconds. Where the response came by return, the memory is
    /// still to be called.
    EndAbove {
        at: usize,
        held: PassedOn,
        time: Ps,
        begun: Option<BegunBelow>,
    },
    /// The access of a request whose response came by return.
    Serve {
        at: usize,
        held: PassedOn,
        begun: BegunBelow,
    },
    /// The Release below, after END_RESP there.
    Release(Rest),
}

// Makes what is due, and tells what is due then.
fn make_due<N: Naming<Plan, TlmLaw>, S: Sharing<N>, R: Wait>(
    net: &Net<N, S>,
    rt: &R,
    note: PlatNote,
    node: &mut RouterNode,
    due: Due,
) -> (Option<Due>, PlatNote)
    requires router { IsRouter N.frame N.tokens node.old note.knows.known }
    requires due { IsDue N.frame N.tokens note.knows.known (length node.old.held.items) node.old.room due }
    requires note { IsNote N.table note }
    requires below { StandBelow note.knows.known note.knows.seen }
    ensures router { IsRouter N.frame N.tokens node.new result.1.knows.known }
    ensures due { IfSome result.0 (IsDue N.frame N.tokens result.1.knows.known (length node.new.held.items) node.new.room) }
    ensures note { IsNote N.table result.1 }
    ensures knew { Within note.knows.known result.1.knows.known }
    ensures below { StandBelow result.1.knows.known result.1.knows.seen }
    ensures adds { HasNew (IsByRouter N.frame.world) note.knows.known result.1.knows.known }
    ensures number { node.new.router ≡ node.old.router }
{
    match due {
        Due::EndAbove {
            at,
            held,
            time,
            begun,
        } => {
            let (held, note) = end_above(net, rt, note, held, time);
            let due = hold_below(net, &note, &mut node.held, at, held, begun);
            (due, note)
        }
        Due::Serve { at, held, begun } => {
            let (stage, note) = serve(net, rt, note, held, begun);
            put_in(&mut node.held, at, stage);
            (None, note)
        }
        Due::Release(rest) => (None, release(net, rt, note, rest)),
    }
}

/// A router that is stepped an entry at a time.
pub struct SteppedRouter {
    pub(crate) node: RouterNode,
    pub(crate) due: Option<Due>,
}

// Written out, so that crates above call it and needn't prove again how each part is let go of.
impl Drop for SteppedRouter {
    fn drop(self) {
        let SteppedRouter {
            node: _node,
            due: _due,
        } = self;
    }
}

impl SteppedRouter {
    /// A router before its first step. Nothing is due.
    pub fn new(node: RouterNode) -> SteppedRouter
        ensures node { result.node ≡ node }
        ensures due { result.due ≡ None }
    {
        SteppedRouter { node, due: None }
    }

    /// The number of the router.
    pub fn number(&self) -> u32
        ensures { result ≡ self.now.node.router }
    {
        self.node.router
    }

    /// The router, at the end of a run. What is still due is let go of, as all that it holds may be: it would be made below,
    /// after all initiators have finished.
    pub fn into_node(self) -> RouterNode
        ensures { result ≡ self.node }
    {
        let SteppedRouter { node, due: _due } = self;
        node
    }

    /// Makes one entry, if it can: what is due, or else the first that a pump would make, in its order and with every try and
    /// every look. What a pump does without an entry it does on the way. It waits where there is nothing that it could do. It
    /// takes no memory and can't fail.
    pub fn step<N: Naming<Plan, TlmLaw>, S: Sharing<N>, R: Wait>(
        &mut self,
        net: &Net<N, S>,
        rt: &R,
        note: PlatNote,
    ) -> (OneStep, PlatNote)
        requires router { IsSteppedRouter N.frame N.tokens self.old note.knows.known }
        requires note { IsNote N.table note }
        requires below { StandBelow note.knows.known note.knows.seen }
        ensures router { IsSteppedRouter N.frame N.tokens self.new result.1.knows.known }
        ensures note { IsNote N.table result.1 }
        ensures knew { Within note.knows.known result.1.knows.known }
        ensures below { StandBelow result.1.knows.known result.1.knows.seen }
        ensures adds { StepAdds (IsByNode N.frame.world (Router self.old.node.router)) result.0 note.knows.known result.1.knows.known }
        ensures number { self.new.node.router ≡ self.old.node.router }
        ensures waits { result.0 ≡ Waits → HasWaited N.frame N.tokens self.new.node note.knows result.1.knows }
        ensures first { self.old.due ≢ None → result.0 ≡ Made }
        ensures idle { result.0 ≡ Waits → self.new.due ≡ None }
        ensures never { result.0 ≢ Finished }
    {
        if let Some(due) = self.due.take() {
            let (due, note) = make_due(net, rt, note, &mut self.node, due);
            self.due = due;
            return (OneStep::Made, note);
        }
        let mut note = note;
        for _ in rt.forever() {
            let (tried, back) = move_once(net, rt, note, &mut self.node);
            note = back;
            match tried {
                Tried::Made(due) => {
                    self.due = due;
                    return (OneStep::Made, note);
                }
                Tried::Nothing => return (OneStep::Waits, note),
                Tried::Moved => {}
            }
        }
        unreachable!()
    }
}
