// The tries of a router that is stepped: each makes one entry at most.
ghost use Rattle.std.specs.Prelude.{ℕ, ◌≡◌, ◌≢◌, ◌+◌, ◌<◌, ◌≤◌, [], ◌∷◌, ◌++◌, List, length, None, IfSome, true, false, vec_capacity};
ghost use Rattle.std.specs.List.{AllByRecursion, insert, remove};
ghost use Rattle.view_lists.specs.Lists.{Within};
ghost use Rattle.one_history.specs.Lists.{StandBelow};
ghost use Rattle.shared_object.specs.Steps.{IsNote};
ghost use Rattle.flow_model.specs.Events.{Finds};
ghost use Rattle.flow_model.specs.Numbers.{IsEnder};
ghost use Rattle.cargo_model.specs.Known.{Known};
ghost use Rattle.router_node.specs.Node.{GoesThrough, HasSwept, IsRouter, MovesAt, Sweeps};
ghost use Rattle.router_node.specs.Places.{StandsAt};
ghost use Rattle.router_node.specs.Stages.{IsAway, IsSettled, IsStage, is_down};
ghost use Rattle.router_steps.specs.Stepped.{FetchesNone, HasGoneDown, HasPlace, HasTried, IsDownAt, IsDue, MovesNone, TryAdds, come_in};
ghost use Rattle.router_moves.specs.Items.{IsBegun};
ghost use Rattle.router_node.specs.declared.stage.Stage.{Stage as StageOf};
ghost use Rattle.router_node.specs.declared.stage.Stage.TheVariants as Stages;
ghost use Rattle.router_node.specs.declared.stage.Step.TheVariants as Steps;
ghost use Rattle.router_steps.specs.declared.tries.Tried.TheVariants.{Nothing};

use crate::steps::Due;
use plat_net::{Net, PlatNote, Sharing, TlmLaw};
use route_plan::Plan;
use router_moves::{BegunBelow, Down, End, Passed, PassedOn, end_below, pass_on, release};
use router_node::{RouterNode, SentUp, Stage, Step, look_for_end, send_at, take_sent};
use shared_object::Naming;
use std::sync::Wait;
use tlm_types::Ps;

/// What a try has come to.
#[derive(Drop)]
pub(crate) enum Tried {
    /// It has made an entry, and this is due then.
    Made(Option<Due>),
    /// It has moved a transaction, without an entry.
    Moved,
    /// It has moved nothing.
    Nothing,
}

// Whether a try has moved anything.
fn has_moved(tried: &Tried) -> bool
    ensures none { result ≡ false → tried.now ≡ Nothing }
    ensures some { result ≡ true → tried.now ≢ Nothing }
{
    !matches!(tried, Tried::Nothing)
}

/// Puts a transaction to its place among the others.
pub(crate) fn put_in(held: &mut Vec<Stage>, at: usize, stage: Stage)
    requires { HasPlace at (length held.old.items) (vec_capacity held.old) }
    ensures items { held.new.items ≡ insert held.old.items at stage }
    ensures capacity { vec_capacity held.old ≤ vec_capacity held.new }
{
    let Ok(()) = held.insert(at, stage) else {
        unreachable!()
    };
}

// Takes out the request that is to go down and stands at a place. What stands behind it closes up.
fn take_down(held: &mut Vec<Stage>, at: usize) -> Down
    requires { IsDownAt held.old.items at }
    ensures was { StandsAt held.old.items at (Stages.Down result) }
    ensures items { held.new.items ≡ remove held.old.items at }
    ensures capacity { vec_capacity held.new ≡ vec_capacity held.old }
{
    match held.remove(at) {
        Stage::Down(down) => down,
        _ => unreachable!(),
    }
}

/// Holds a request that has gone down and for which no END_REQ is owed, at its place. Where its response came by return,
/// its memory is to be called first.
pub(crate) fn hold_below<N: Naming<Plan, TlmLaw>, S: Sharing<N>>(
    net: &Net<N, S>,
    note: &PlatNote,
    held: &mut Vec<Stage>,
    at: usize,
    passed: PassedOn,
    begun: Option<BegunBelow>,
) -> Option<Due>
    requires place { HasPlace at (length held.old.items) (vec_capacity held.old) }
    requires held { AllByRecursion (IsStage N.frame N.tokens note.now.knows.known) held.old.items }
    requires settled { IsSettled N.frame N.tokens note.now.knows.known passed }
    requires begun { IfSome begun (IsBegun N.frame N.tokens note.now.knows.known passed) }
    ensures held { AllByRecursion (IsStage N.frame N.tokens note.now.knows.known) held.new.items }
    ensures capacity { vec_capacity held.old ≤ vec_capacity held.new }
    ensures few { length held.new.items ≤ length held.old.items + 1 }
    ensures due { IfSome result (IsDue N.frame N.tokens note.now.knows.known (length held.new.items) (length held.old.items + 1)) }
{
    let _ = net;
    let _ = note;
    match begun {
        Some(begun) => Some(Due::Serve {
            at,
            held: passed,
            begun,
        }),
        None => {
            put_in(held, at, Stage::Below(passed));
            None
        }
    }
}

// What is due of a request whose BEGIN_REQ was made below: END_REQ above first, where it is owed.
fn due_below<N: Naming<Plan, TlmLaw>, S: Sharing<N>>(
    net: &Net<N, S>,
    note: &PlatNote,
    held: &mut Vec<Stage>,
    at: usize,
    passed: PassedOn,
    time: Ps,
    begun: Option<BegunBelow>,
) -> Option<Due>
    requires place { HasPlace at (length held.old.items) (vec_capacity held.old) }
    requires held { AllByRecursion (IsStage N.frame N.tokens note.now.knows.known) held.old.items }
    requires gone { HasGoneDown N.frame N.tokens note.now.knows.known passed time begun }
    ensures held { AllByRecursion (IsStage N.frame N.tokens note.now.knows.known) held.new.items }
    ensures capacity { vec_capacity held.old ≤ vec_capacity held.new }
    ensures few { length held.new.items ≤ length held.old.items + 1 }
    ensures due { IfSome result (IsDue N.frame N.tokens note.now.knows.known (length held.new.items) (length held.old.items + 1)) }
{
    if passed.owed.is_some() {
        return Some(Due::EndAbove {
            at,
            held: passed,
            time,
            begun,
        });
    }
    hold_below(net, note, held, at, passed, begun)
}

// Makes the first entry that is left to be made below, for a response that was sent and has ended above: END_RESP where it
// is owed, or else the Release. There is none where it didn't come from there.
fn finish_one<N: Naming<Plan, TlmLaw>, S: Sharing<N>, R: Wait>(
    net: &Net<N, S>,
    rt: &R,
    note: PlatNote,
    away: SentUp,
) -> (Tried, PlatNote)
    requires note { IsNote N.table note }
    requires below { StandBelow note.knows.known note.knows.seen }
    requires away { IsAway N.frame N.tokens note.knows.known away }
    requires ended { Finds (Known N.frame.world.platform note.knows.known) (IsEnder away.txn away.above) }
    ensures note { IsNote N.table result.1 }
    ensures knew { Within note.knows.known result.1.knows.known }
    ensures below { StandBelow result.1.knows.known result.1.knows.seen }
    ensures adds { TryAdds N.frame.world note.knows.known result.1.knows.known result.0 }
    ensures tried { (count room : ℕ) → HasTried N.frame N.tokens result.1.knows.known count room ⊥ result.0 }
{
    let SentUp { at, rest, .. } = away;
    let Some(rest) = rest else {
        return (Tried::Moved, note);
    };
    match &rest.end {
        End::At(_) => {
            let note = release(net, rt, note, rest);
            (Tried::Made(None), note)
        }
        End::Owed(_, _) => {
            let (rest, note) = end_below(net, rt, note, rest, at);
            (Tried::Made(Some(Due::Release(rest))), note)
        }
    }
}

// Makes the first entry below for the response at a place, if one that was sent stands there and has ended above. It is
// held no longer then.
fn end_one<N: Naming<Plan, TlmLaw>, S: Sharing<N>, R: Wait>(
    net: &Net<N, S>,
    rt: &R,
    note: PlatNote,
    held: &mut Vec<Stage>,
    at: usize,
) -> (Tried, PlatNote)
    requires there { at < length held.old.items }
    requires note { IsNote N.table note }
    requires below { StandBelow note.knows.known note.knows.seen }
    requires held { AllByRecursion (IsStage N.frame N.tokens note.knows.known) held.old.items }
    ensures note { IsNote N.table result.1 }
    ensures knew { Within note.knows.known result.1.knows.known }
    ensures below { StandBelow result.1.knows.known result.1.knows.seen }
    ensures held { AllByRecursion (IsStage N.frame N.tokens result.1.knows.known) held.new.items }
    ensures capacity { vec_capacity held.old ≤ vec_capacity held.new }
    ensures few { length held.new.items ≤ length held.old.items }
    ensures adds { TryAdds N.frame.world note.knows.known result.1.knows.known result.0 }
    ensures tried { HasTried N.frame N.tokens result.1.knows.known (length held.new.items) (length held.old.items) (MovesAt N.frame false Steps.End at held.old.items held.new.items note.knows result.1.knows (at + 1) false) result.0 }
{
    let Stage::Sent(away) = &held[at] else {
        return (Tried::Nothing, note);
    };
    let (ended, note) = look_for_end(net, rt, note, away);
    if !ended {
        return (Tried::Nothing, note);
    }
    let away = take_sent(held, at);
    finish_one(net, rt, note, away)
}

// Tries to send the response at a place up, if one that is to go up stands there.
fn send_one<N: Naming<Plan, TlmLaw>, S: Sharing<N>, R: Wait>(
    net: &Net<N, S>,
    rt: &R,
    note: PlatNote,
    held: &mut Vec<Stage>,
    at: usize,
) -> (Tried, PlatNote)
    requires there { at < length held.old.items }
    requires note { IsNote N.table note }
    requires below { StandBelow note.knows.known note.knows.seen }
    requires held { AllByRecursion (IsStage N.frame N.tokens note.knows.known) held.old.items }
    ensures note { IsNote N.table result.1 }
    ensures knew { Within note.knows.known result.1.knows.known }
    ensures below { StandBelow result.1.knows.known result.1.knows.seen }
    ensures held { AllByRecursion (IsStage N.frame N.tokens result.1.knows.known) held.new.items }
    ensures capacity { vec_capacity held.old ≤ vec_capacity held.new }
    ensures few { length held.new.items ≤ length held.old.items }
    ensures adds { TryAdds N.frame.world note.knows.known result.1.knows.known result.0 }
    ensures tried { HasTried N.frame N.tokens result.1.knows.known (length held.new.items) (length held.old.items) (MovesAt N.frame false Steps.Send at held.old.items held.new.items note.knows result.1.knows (at + 1) false) result.0 }
{
    let (_, moved, note) = send_at(net, rt, note, held, at);
    if !moved {
        return (Tried::Nothing, note);
    }
    (Tried::Made(None), note)
}

// Tries BEGIN_REQ below for the request at a place, if one that is to go down stands there.
fn pass_one<N: Naming<Plan, TlmLaw>, S: Sharing<N>, R: Wait>(
    net: &Net<N, S>,
    rt: &R,
    note: PlatNote,
    held: &mut Vec<Stage>,
    at: usize,
) -> (Tried, PlatNote)
    requires there { at < length held.old.items }
    requires note { IsNote N.table note }
    requires below { StandBelow note.knows.known note.knows.seen }
    requires held { AllByRecursion (IsStage N.frame N.tokens note.knows.known) held.old.items }
    ensures note { IsNote N.table result.1 }
    ensures knew { Within note.knows.known result.1.knows.known }
    ensures below { StandBelow result.1.knows.known result.1.knows.seen }
    ensures held { AllByRecursion (IsStage N.frame N.tokens result.1.knows.known) held.new.items }
    ensures capacity { vec_capacity held.old ≤ vec_capacity held.new }
    ensures few { length held.new.items ≤ length held.old.items }
    ensures adds { TryAdds N.frame.world note.knows.known result.1.knows.known result.0 }
    ensures tried { HasTried N.frame N.tokens result.1.knows.known (length held.new.items) (length held.old.items) (MovesAt N.frame false Steps.Pass at held.old.items held.new.items note.knows result.1.knows (at + 1) false) result.0 }
{
    let Stage::Down(_) = &held[at] else {
        return (Tried::Nothing, note);
    };
    let down = take_down(held, at);
    match pass_on(net, rt, note, down) {
        Passed::Busy { down, note } => {
            put_in(held, at, Stage::Down(down));
            (Tried::Nothing, note)
        }
        Passed::Gone {
            held: passed,
            at: time,
            note,
        } => {
            let due = due_below(net, &note, held, at, passed, time, None);
            (Tried::Made(due), note)
        }
        Passed::Now {
            held: passed,
            begun,
            note,
        } => {
            let time = begun.at;
            let due = due_below(net, &note, held, at, passed, time, Some(begun));
            (Tried::Made(due), note)
        }
    }
}

// Tries a step with the transaction at a place, if it is one for it. It makes one entry at most.
fn try_one<N: Naming<Plan, TlmLaw>, S: Sharing<N>, R: Wait>(
    net: &Net<N, S>,
    rt: &R,
    what: Step,
    note: PlatNote,
    held: &mut Vec<Stage>,
    at: usize,
) -> (Tried, PlatNote)
    requires there { at < length held.old.items }
    requires note { IsNote N.table note }
    requires below { StandBelow note.knows.known note.knows.seen }
    requires held { AllByRecursion (IsStage N.frame N.tokens note.knows.known) held.old.items }
    ensures note { IsNote N.table result.1 }
    ensures knew { Within note.knows.known result.1.knows.known }
    ensures below { StandBelow result.1.knows.known result.1.knows.seen }
    ensures held { AllByRecursion (IsStage N.frame N.tokens result.1.knows.known) held.new.items }
    ensures capacity { vec_capacity held.old ≤ vec_capacity held.new }
    ensures few { length held.new.items ≤ length held.old.items }
    ensures adds { TryAdds N.frame.world note.knows.known result.1.knows.known result.0 }
    ensures tried { HasTried N.frame N.tokens result.1.knows.known (length held.new.items) (length held.old.items) (MovesAt N.frame false what at held.old.items held.new.items note.knows result.1.knows (at + 1) false) result.0 }
{
    match what {
        Step::End => end_one(net, rt, note, held, at),
        Step::Send => send_one(net, rt, note, held, at),
        Step::Pass => pass_one(net, rt, note, held, at),
    }
}

// Tries a step with each transaction that is held, in order, until one was moved.
fn try_each<N: Naming<Plan, TlmLaw>, S: Sharing<N>, R: Wait>(
    net: &Net<N, S>,
    rt: &R,
    what: Step,
    note: PlatNote,
    held: &mut Vec<Stage>,
) -> (Tried, PlatNote)
    requires note { IsNote N.table note }
    requires below { StandBelow note.knows.known note.knows.seen }
    requires held { AllByRecursion (IsStage N.frame N.tokens note.knows.known) held.old.items }
    ensures note { IsNote N.table result.1 }
    ensures knew { Within note.knows.known result.1.knows.known }
    ensures below { StandBelow result.1.knows.known result.1.knows.seen }
    ensures held { AllByRecursion (IsStage N.frame N.tokens result.1.knows.known) held.new.items }
    ensures capacity { vec_capacity held.old ≤ vec_capacity held.new }
    ensures few { length held.new.items ≤ length held.old.items }
    ensures adds { TryAdds N.frame.world note.knows.known result.1.knows.known result.0 }
    ensures tried { HasTried N.frame N.tokens result.1.knows.known (length held.new.items) (length held.old.items) (Sweeps N.frame false what held.old.items held.new.items note.knows result.1.knows false) result.0 }
{
    let mut note = note;
    for at in 0..held.len() {
        let (tried, back) = try_one(net, rt, what, note, held, at);
        if has_moved(&tried) {
            return (tried, back);
        }
        note = back;
    }
    (Tried::Nothing, note)
}

// Whether the transaction that is held last is a request that is to go down.
fn goes_down(held: &[Stage]) -> bool
    requires { 0 < length held.now }
    ensures { (before : List StageOf) (last : StageOf) → held.now ≡ before ++ last ∷ [] → result ≡ is_down last }
{
    matches!(&held[held.len() - 1], Stage::Down(_))
}

// What a fetch of a request has come to: one that is to go down has a reference of the hop below, by an entry.
fn come_in(down: bool) -> Tried
    ensures { result ≡ come_in down }
{
    if down {
        Tried::Made(None)
    } else {
        Tried::Moved
    }
}

// Tries a step with each transaction that is held, in order, until one was moved.
fn try_step<N: Naming<Plan, TlmLaw>, S: Sharing<N>, R: Wait>(
    net: &Net<N, S>,
    rt: &R,
    what: Step,
    note: PlatNote,
    node: &mut RouterNode,
) -> (Tried, PlatNote)
    requires router { IsRouter N.frame N.tokens node.old note.knows.known }
    requires note { IsNote N.table note }
    requires below { StandBelow note.knows.known note.knows.seen }
    ensures router { IsRouter N.frame N.tokens node.new result.1.knows.known }
    ensures note { IsNote N.table result.1 }
    ensures knew { Within note.knows.known result.1.knows.known }
    ensures below { StandBelow result.1.knows.known result.1.knows.seen }
    ensures same { node.new ≡ record node.old { held = node.new.held } }
    ensures adds { TryAdds N.frame.world note.knows.known result.1.knows.known result.0 }
    ensures tried { HasTried N.frame N.tokens result.1.knows.known (length node.new.held.items) node.new.room (HasSwept N.frame N.tokens false what node.old node.new note.knows result.1.knows false) result.0 }
{
    try_each(net, rt, what, note, &mut node.held)
}

// Tries what a pump does first for those that are held, with every look, until one was moved.
fn try_held<N: Naming<Plan, TlmLaw>, S: Sharing<N>, R: Wait>(
    net: &Net<N, S>,
    rt: &R,
    note: PlatNote,
    node: &mut RouterNode,
) -> (Tried, PlatNote)
    requires router { IsRouter N.frame N.tokens node.old note.knows.known }
    requires note { IsNote N.table note }
    requires below { StandBelow note.knows.known note.knows.seen }
    ensures router { IsRouter N.frame N.tokens node.new result.1.knows.known }
    ensures note { IsNote N.table result.1 }
    ensures knew { Within note.knows.known result.1.knows.known }
    ensures below { StandBelow result.1.knows.known result.1.knows.seen }
    ensures same { node.new ≡ record node.old { held = node.new.held } }
    ensures adds { TryAdds N.frame.world note.knows.known result.1.knows.known result.0 }
    ensures tried { HasTried N.frame N.tokens result.1.knows.known (length node.new.held.items) node.new.room (MovesNone N.frame N.tokens node.old node.new note result.1) result.0 }
{
    let (tried, note) = try_step(net, rt, Step::End, note, node);
    if has_moved(&tried) {
        return (tried, note);
    }
    let (tried, note) = try_step(net, rt, Step::Send, note, node);
    if has_moved(&tried) {
        return (tried, note);
    }
    try_step(net, rt, Step::Pass, note, node)
}

// Fetches as a pump does, with every look: a response from below, or else a request from above.
fn try_fetches<N: Naming<Plan, TlmLaw>, S: Sharing<N>, R: Wait>(
    net: &Net<N, S>,
    rt: &R,
    note: PlatNote,
    node: &mut RouterNode,
) -> (Tried, PlatNote)
    requires router { IsRouter N.frame N.tokens node.old note.knows.known }
    requires note { IsNote N.table note }
    requires below { StandBelow note.knows.known note.knows.seen }
    ensures router { IsRouter N.frame N.tokens node.new result.1.knows.known }
    ensures note { IsNote N.table result.1 }
    ensures knew { Within note.knows.known result.1.knows.known }
    ensures below { StandBelow result.1.knows.known result.1.knows.seen }
    ensures number { node.new.router ≡ node.old.router }
    ensures adds { TryAdds N.frame.world note.knows.known result.1.knows.known result.0 }
    ensures tried { HasTried N.frame N.tokens result.1.knows.known (length node.new.held.items) node.new.room (FetchesNone N.frame N.tokens node.old node.new note result.1) result.0 }
{
    let (joins, note) = node.take_back(net, rt, false, note);
    if joins {
        return (Tried::Moved, note);
    }
    let (takes, note) = node.take_in(net, rt, false, note);
    if !takes {
        return (Tried::Nothing, note);
    }
    let down = goes_down(&node.held);
    (come_in(down), note)
}

/// Makes the first move that a pump would make, in its order and with every try and every look. It makes one entry at most.
pub(crate) fn move_once<N: Naming<Plan, TlmLaw>, S: Sharing<N>, R: Wait>(
    net: &Net<N, S>,
    rt: &R,
    note: PlatNote,
    node: &mut RouterNode,
) -> (Tried, PlatNote)
    requires router { IsRouter N.frame N.tokens node.old note.knows.known }
    requires note { IsNote N.table note }
    requires below { StandBelow note.knows.known note.knows.seen }
    ensures router { IsRouter N.frame N.tokens node.new result.1.knows.known }
    ensures note { IsNote N.table result.1 }
    ensures knew { Within note.knows.known result.1.knows.known }
    ensures below { StandBelow result.1.knows.known result.1.knows.seen }
    ensures number { node.new.router ≡ node.old.router }
    ensures adds { TryAdds N.frame.world note.knows.known result.1.knows.known result.0 }
    ensures tried { HasTried N.frame N.tokens result.1.knows.known (length node.new.held.items) node.new.room (GoesThrough N.frame N.tokens false node.old node.new note result.1 false) result.0 }
{
    let (tried, note) = try_held(net, rt, note, node);
    if has_moved(&tried) {
        return (tried, note);
    }
    try_fetches(net, rt, note, node)
}
