// A router.
ghost use Rattle.std.specs.Prelude.{◌≡◌, ◌<◌, List, [], ◌∷◌, ◌++◌, ◌||◌, length, None, IfSome, true, false, slice_set, vec_capacity};
ghost use Rattle.std.specs.List.{AllByRecursion, remove};
ghost use Rattle.view_lists.specs.Lists.{Within};
ghost use Rattle.one_history.specs.Lists.{StandBelow};
ghost use Rattle.shared_object.specs.Steps.{IsNote};
ghost use Rattle.router_node.specs.Finds.{IsFound};
ghost use Rattle.router_node.specs.Joins.{HasJoinedOne, IsPlaceOf};
ghost use Rattle.router_node.specs.Node.{GoesOn, GoesThrough, HasPumped, HasSwept, HasTakenBack, HasTakenIn, IsRouter, IsSentAt, MovesAt, Sweeps, gap, pumped_by, stage_of};
ghost use Rattle.router_node.specs.Places.{StandsAt};
ghost use Rattle.router_node.specs.Stages.{AddsOnHop, IsByRouter, IsStage, is_down};
ghost use Rattle.node_hops.specs.Steps.{HasNew};
ghost use Rattle.router_node.specs.declared.stage.Stage.{Stage as StageOf};
ghost use Rattle.router_node.specs.declared.stage.Stage.TheVariants as Stages;
ghost use Rattle.router_node.specs.declared.stage.Step.TheVariants as Steps;

use crate::finds::{Found, find_back, find_request};
use crate::haste::{Due, Wanted, hops_at, may_move, next_place};
use crate::joins::{is_joined, join};
use crate::stage::{SentUp, Stage, Step, finish_away, look_for_end, pass, send};
use node_hops::{Node, Pumped};
use plat_net::{Net, PlatNote, Sharing, TlmLaw};
use route_plan::Plan;
use router_moves::{Turned, turn};
use shared_object::Naming;
use std::mem::replace;
use std::sync::Wait;
use tlm_types::{Ps, TxnId};

/// A router with its hops above and those of its windows, in order, and with the transactions that it
/// holds, in order of arrival.
pub struct RouterNode {
    /// Its number.
    pub router: u32,
    /// The number of the hop of its first window.
    pub(crate) first: u32,
    pub(crate) accepts: bool,
    pub(crate) latency: Ps,
    pub(crate) above: Vec<u32>,
    pub(crate) below: Vec<u32>,
    /// The transactions that it holds, in order of arrival.
    pub held: Vec<Stage>,
    pub(crate) room: u32,
    /// A response of no transaction that it holds.
    pub(crate) stray: Option<Found>,
}

// Written out, so that crates above call it and needn't prove again how each part is let go of.
impl Drop for RouterNode {
    fn drop(self) {
        let RouterNode {
            router: _,
            first: _,
            accepts: _,
            latency: _,
            above: _above,
            below: _below,
            held: _held,
            room: _,
            stray: _stray,
        } = self;
    }
}

// Whether one of two is so.
fn either(this: bool, that: bool) -> bool
    ensures { result ≡ (this || that) }
{
    this || that
}

// The answer of a pump, by whether it has moved a transaction.
fn pumped_by(moved: bool) -> Pumped
    ensures { result ≡ pumped_by moved }
{
    if moved { Pumped::Did } else { Pumped::Nothing }
}

// What stands at a place while a step is made with the transaction that stands there.
fn gap() -> Stage
    ensures { result ≡ gap }
{
    let txn = TxnId {
        initiator: 0,
        seq: 0,
    };
    Stage::Sent(SentUp {
        txn,
        above: 0,
        at: 0,
        ended: false,
        rest: None,
    })
}

// Takes out the transaction at a place, and leaves a gap there.
#[inline(always)]
fn take_out(held: &mut Vec<Stage>, at: usize) -> Stage
    requires { at < length held.old.items }
    ensures was { StandsAt held.old.items at result }
    ensures items { held.new.items ≡ slice_set held.old.items at gap }
    ensures capacity { vec_capacity held.new ≡ vec_capacity held.old }
{
    replace(&mut held[at], gap())
}

// Puts a transaction where there was a gap.
#[inline(always)]
fn put_back(held: &mut Vec<Stage>, at: usize, stage: Stage)
    requires { at < length held.old.items }
    ensures items { held.new.items ≡ slice_set held.old.items at stage }
    ensures capacity { vec_capacity held.new ≡ vec_capacity held.old }
{
    held[at] = stage;
}

/// Takes out the response that was sent and stands at a place. What stands behind it closes up.
pub fn take_sent(held: &mut Vec<Stage>, at: usize) -> SentUp
    requires { IsSentAt held.old.items at }
    ensures was { StandsAt held.old.items at (Stages.Sent result) }
    ensures items { held.new.items ≡ remove held.old.items at }
    ensures capacity { vec_capacity held.new ≡ vec_capacity held.old }
{
    match held.remove(at) {
        Stage::Sent(away) => away,
        _ => unreachable!(),
    }
}

// Ends below the response at a place, if one that was sent stands there and has ended above. It is forgotten
// then. The place of the next transaction, and whether this one was moved.
fn end_at<N: Naming<Plan, TlmLaw>, S: Sharing<N>, R: Wait>(
    net: &Net<N, S>,
    rt: &R,
    note: PlatNote,
    held: &mut Vec<Stage>,
    at: usize,
) -> (usize, bool, PlatNote)
    requires there { at < length held.old.items }
    requires note { IsNote N.table note }
    requires below { StandBelow note.knows.known note.knows.seen }
    requires held { AllByRecursion (IsStage N.frame N.tokens note.knows.known) held.old.items }
    ensures note { IsNote N.table result.2 }
    ensures knew { Within note.knows.known result.2.knows.known }
    ensures below { StandBelow result.2.knows.known result.2.knows.seen }
    ensures held { AllByRecursion (IsStage N.frame N.tokens result.2.knows.known) held.new.items }
    ensures capacity { vec_capacity held.new ≡ vec_capacity held.old }
    ensures moved { MovesAt N.frame false Steps.End at held.old.items held.new.items note.knows result.2.knows result.0 result.1 }
{
    let Stage::Sent(away) = &held[at] else {
        return (at + 1, false, note);
    };
    let (ended, note) = look_for_end(net, rt, note, away);
    if !ended {
        return (at + 1, false, note);
    }
    let away = take_sent(held, at);
    let note = finish_away(net, rt, note, away);
    (at, true, note)
}

/// Tries to send the response at a place up, if one that is to go up stands there. What it makes of it stands there then.
/// The place of the next transaction, and whether this one was moved.
pub fn send_at<N: Naming<Plan, TlmLaw>, S: Sharing<N>, R: Wait>(
    net: &Net<N, S>,
    rt: &R,
    note: PlatNote,
    held: &mut Vec<Stage>,
    at: usize,
) -> (usize, bool, PlatNote)
    requires there { at < length held.old.items }
    requires note { IsNote N.table note }
    requires below { StandBelow note.knows.known note.knows.seen }
    requires held { AllByRecursion (IsStage N.frame N.tokens note.knows.known) held.old.items }
    ensures note { IsNote N.table result.2 }
    ensures knew { Within note.knows.known result.2.knows.known }
    ensures below { StandBelow result.2.knows.known result.2.knows.seen }
    ensures held { AllByRecursion (IsStage N.frame N.tokens result.2.knows.known) held.new.items }
    ensures capacity { vec_capacity held.new ≡ vec_capacity held.old }
    ensures adds { result.1 ≡ true → AddsOnHop N.frame.world note.knows result.2.knows }
    ensures moved { MovesAt N.frame false Steps.Send at held.old.items held.new.items note.knows result.2.knows result.0 result.1 }
{
    let Stage::Up(_, _) = &held[at] else {
        return (at + 1, false, note);
    };
    let Stage::Up(response, rest) = take_out(held, at) else {
        unreachable!()
    };
    let (stage, moved, note) = send(net, rt, note, response, rest);
    put_back(held, at, stage);
    (at + 1, moved, note)
}

// Tries to pass the request at a place on, if one that is to go down stands there. What it makes of it stands there then.
// The place of the next transaction, and whether this one was moved.
fn pass_at<N: Naming<Plan, TlmLaw>, S: Sharing<N>, R: Wait>(
    net: &Net<N, S>,
    rt: &R,
    note: PlatNote,
    held: &mut Vec<Stage>,
    at: usize,
) -> (usize, bool, PlatNote)
    requires there { at < length held.old.items }
    requires note { IsNote N.table note }
    requires below { StandBelow note.knows.known note.knows.seen }
    requires held { AllByRecursion (IsStage N.frame N.tokens note.knows.known) held.old.items }
    ensures note { IsNote N.table result.2 }
    ensures knew { Within note.knows.known result.2.knows.known }
    ensures below { StandBelow result.2.knows.known result.2.knows.seen }
    ensures held { AllByRecursion (IsStage N.frame N.tokens result.2.knows.known) held.new.items }
    ensures capacity { vec_capacity held.new ≡ vec_capacity held.old }
    ensures moved { MovesAt N.frame false Steps.Pass at held.old.items held.new.items note.knows result.2.knows result.0 result.1 }
{
    let Stage::Down(_) = &held[at] else {
        return (at + 1, false, note);
    };
    let Stage::Down(down) = take_out(held, at) else {
        unreachable!()
    };
    let (stage, moved, note) = pass(net, rt, note, down);
    put_back(held, at, stage);
    (at + 1, moved, note)
}

// Comes by the transaction at a place: makes the step with it, if it is one for it. The place of the next one, and whether
// this one was moved.
#[inline(always)]
fn come_by<N: Naming<Plan, TlmLaw>, S: Sharing<N>, R: Wait>(
    net: &Net<N, S>,
    rt: &R,
    what: Step,
    note: PlatNote,
    held: &mut Vec<Stage>,
    at: usize,
) -> (usize, bool, PlatNote)
    requires there { at < length held.old.items }
    requires note { IsNote N.table note }
    requires below { StandBelow note.knows.known note.knows.seen }
    requires held { AllByRecursion (IsStage N.frame N.tokens note.knows.known) held.old.items }
    ensures note { IsNote N.table result.2 }
    ensures knew { Within note.knows.known result.2.knows.known }
    ensures below { StandBelow result.2.knows.known result.2.knows.seen }
    ensures held { AllByRecursion (IsStage N.frame N.tokens result.2.knows.known) held.new.items }
    ensures capacity { vec_capacity held.new ≡ vec_capacity held.old }
    ensures moved { MovesAt N.frame false what at held.old.items held.new.items note.knows result.2.knows result.0 result.1 }
{
    match what {
        Step::End => end_at(net, rt, note, held, at),
        Step::Send => send_at(net, rt, note, held, at),
        Step::Pass => pass_at(net, rt, note, held, at),
    }
}

// Makes a step with each transaction that is held, in order. Those that it isn't one for are looked at alone. In haste
// those are left out that stand behind this end, and those with which it would be in vain, by what the net tells. Whether
// one was moved.
#[inline(always)]
fn sweep<N: Naming<Plan, TlmLaw>, S: Sharing<N>, R: Wait>(
    net: &Net<N, S>,
    rt: &R,
    hasty: bool,
    end: usize,
    what: Step,
    note: PlatNote,
    held: &mut Vec<Stage>,
) -> (bool, PlatNote)
    requires note { IsNote N.table note }
    requires below { StandBelow note.knows.known note.knows.seen }
    requires held { AllByRecursion (IsStage N.frame N.tokens note.knows.known) held.old.items }
    ensures note { IsNote N.table result.1 }
    ensures knew { Within note.knows.known result.1.knows.known }
    ensures below { StandBelow result.1.knows.known result.1.knows.seen }
    ensures held { AllByRecursion (IsStage N.frame N.tokens result.1.knows.known) held.new.items }
    ensures capacity { vec_capacity held.new ≡ vec_capacity held.old }
    ensures swept { Sweeps N.frame hasty what held.old.items held.new.items note.knows result.1.knows result.0 }
{
    let mut note = note;
    let mut moved = false;
    let mut at = 0;
    for _k in 0..held.len() {
        at = next_place(net, hasty, end, what, held, at);
        if at >= held.len() {
            return (moved, note);
        }
        let (next, did, back) = come_by(net, rt, what, note, held, at);
        at = next;
        note = back;
        moved = either(moved, did);
    }
    (moved, note)
}

// The place of the first transaction that a response from below is of; none where it is of none.
fn place_of(held: &[Stage], found: &Found) -> Option<usize>
    ensures { IsPlaceOf found.now held.now result }
{
    for at in 0..held.len() {
        if is_joined(&held[at], found) {
            return Some(at);
        }
    }
    None
}

// Joins a response from below with the first transaction that it is of. It comes back where it is of none.
fn join_one<N: Naming<Plan, TlmLaw>, S: Sharing<N>>(
    net: &Net<N, S>,
    note: &PlatNote,
    held: &mut Vec<Stage>,
    found: Found,
) -> Option<Found>
    requires held { AllByRecursion (IsStage N.frame N.tokens note.now.knows.known) held.old.items }
    requires found { IsFound N.frame N.tokens note.now.knows.known found }
    ensures held { AllByRecursion (IsStage N.frame N.tokens note.now.knows.known) held.new.items }
    ensures capacity { vec_capacity held.new ≡ vec_capacity held.old }
    ensures found { IfSome result (IsFound N.frame N.tokens note.now.knows.known) }
    ensures joined { HasJoinedOne found held.old.items held.new.items result }
{
    let Some(at) = place_of(held, &found) else {
        return Some(found);
    };
    let stage = take_out(held, at);
    let (stage, left) = join(net, note, stage, found);
    put_back(held, at, stage);
    left
}

// What a request that was fetched is held as.
fn stage_of(turned: Turned) -> Stage
    ensures { result ≡ stage_of turned }
{
    match turned {
        Turned::Down(down) => Stage::Down(down),
        Turned::Back(response) => Stage::Up(response, None),
    }
}

impl RouterNode {
    // Makes a step with each transaction that is held, in order of arrival; in haste where it is due in front of this end.
    // Whether one was moved.
    #[inline(always)]
    fn sweep<N: Naming<Plan, TlmLaw>, S: Sharing<N>, R: Wait>(
        &mut self,
        net: &Net<N, S>,
        rt: &R,
        hasty: bool,
        end: usize,
        what: Step,
        note: PlatNote,
    ) -> (bool, PlatNote)
        requires router { IsRouter N.frame N.tokens self.old note.knows.known }
        requires note { IsNote N.table note }
        requires below { StandBelow note.knows.known note.knows.seen }
        ensures router { IsRouter N.frame N.tokens self.new result.1.knows.known }
        ensures note { IsNote N.table result.1 }
        ensures knew { Within note.knows.known result.1.knows.known }
        ensures below { StandBelow result.1.knows.known result.1.knows.seen }
        ensures swept { HasSwept N.frame N.tokens hasty what self.old self.new note.knows result.1.knows result.0 }
    {
        if hasty && end == 0 {
            return (false, note);
        }
        sweep(net, rt, hasty, end, what, note, &mut self.held)
    }

    /// Fetches a response from below, where no stray one is kept. In haste it looks at one hop alone. Whether it did.
    pub fn take_back<N: Naming<Plan, TlmLaw>, S: Sharing<N>, R: Wait>(
        &mut self,
        net: &Net<N, S>,
        rt: &R,
        hasty: bool,
        note: PlatNote,
    ) -> (bool, PlatNote)
        requires router { IsRouter N.frame N.tokens self.old note.knows.known }
        requires note { IsNote N.table note }
        requires below { StandBelow note.knows.known note.knows.seen }
        ensures router { IsRouter N.frame N.tokens self.new result.1.knows.known }
        ensures note { IsNote N.table result.1 }
        ensures knew { Within note.knows.known result.1.knows.known }
        ensures below { StandBelow result.1.knows.known result.1.knows.seen }
        ensures taken { HasTakenBack N.frame N.tokens hasty self.old self.new note.knows result.1.knows result.0 }
    {
        if self.stray.is_some() {
            return (false, note);
        }
        let hops = hops_at(net, hasty, Wanted::Response, self.below.as_slice());
        let (found, note) = find_back(net, rt, hops, note);
        let Some(found) = found else {
            return (false, note);
        };
        self.stray = join_one(net, &note, &mut self.held, found);
        (true, note)
    }

    /// Fetches a request from above, where there is room for it, and turns it down or back. In haste it looks at one hop
    /// alone. Whether it did. One that is to go down has a reference of the hop below, by an entry.
    pub fn take_in<N: Naming<Plan, TlmLaw>, S: Sharing<N>, R: Wait>(
        &mut self,
        net: &Net<N, S>,
        rt: &R,
        hasty: bool,
        note: PlatNote,
    ) -> (bool, PlatNote)
        requires router { IsRouter N.frame N.tokens self.old note.knows.known }
        requires note { IsNote N.table note }
        requires below { StandBelow note.knows.known note.knows.seen }
        ensures router { IsRouter N.frame N.tokens self.new result.1.knows.known }
        ensures note { IsNote N.table result.1 }
        ensures knew { Within note.knows.known result.1.knows.known }
        ensures below { StandBelow result.1.knows.known result.1.knows.seen }
        ensures adds { (before : List StageOf) (last : StageOf) → result.0 ≡ true → self.new.held.items ≡ before ++ last ∷ [] → is_down last ≡ true → HasNew (IsByRouter N.frame.world) note.knows.known result.1.knows.known }
        ensures taken { HasTakenIn N.frame N.tokens hasty self.old self.new note result.1 result.0 }
    {
        if self.held.len() >= self.room as usize {
            return (false, note);
        }
        let hops = hops_at(net, hasty, Wanted::Request, self.above.as_slice());
        let (request, note) = find_request(net, rt, self.router, hops, note);
        let Some(request) = request else {
            return (false, note);
        };
        let (turned, note) = turn(
            net,
            rt,
            self.router,
            self.first,
            self.accepts,
            self.latency,
            note,
            request,
        );
        let stage = stage_of(turned);
        self.held.push_reserved(stage);
        (true, note)
    }

    // Goes once through the steps of a pump, in their order; in haste or with every look. Whether one has moved a
    // transaction.
    fn go_through<N: Naming<Plan, TlmLaw>, S: Sharing<N>, R: Wait>(
        &mut self,
        net: &Net<N, S>,
        rt: &R,
        hasty: bool,
        note: PlatNote,
    ) -> (bool, PlatNote)
        requires router { IsRouter N.frame N.tokens self.old note.knows.known }
        requires note { IsNote N.table note }
        requires below { StandBelow note.knows.known note.knows.seen }
        ensures router { IsRouter N.frame N.tokens self.new result.1.knows.known }
        ensures note { IsNote N.table result.1 }
        ensures knew { Within note.knows.known result.1.knows.known }
        ensures below { StandBelow result.1.knows.known result.1.knows.seen }
        ensures gone { GoesThrough N.frame N.tokens hasty self.old self.new note result.1 result.0 }
    {
        let due = Due::of(net, hasty, &self.held);
        let (ends, note) = self.sweep(net, rt, hasty, due.ends, Step::End, note);
        let (sends, note) = self.sweep(net, rt, hasty, due.sends, Step::Send, note);
        let (passes, note) = self.sweep(net, rt, hasty, due.passes, Step::Pass, note);
        let (joins, note) = self.take_back(net, rt, hasty, note);
        let (takes, note) = self.take_in(net, rt, hasty, note);
        let moved = either(ends, either(sends, either(passes, either(joins, takes))));
        (moved, note)
    }

    // Goes through in haste, and where nothing was moved once more with every look. Whether a transaction was moved.
    fn go_on<N: Naming<Plan, TlmLaw>, S: Sharing<N>, R: Wait>(
        &mut self,
        net: &Net<N, S>,
        rt: &R,
        note: PlatNote,
    ) -> (bool, PlatNote)
        requires router { IsRouter N.frame N.tokens self.old note.knows.known }
        requires note { IsNote N.table note }
        requires below { StandBelow note.knows.known note.knows.seen }
        ensures router { IsRouter N.frame N.tokens self.new result.1.knows.known }
        ensures note { IsNote N.table result.1 }
        ensures knew { Within note.knows.known result.1.knows.known }
        ensures below { StandBelow result.1.knows.known result.1.knows.seen }
        ensures gone { GoesOn N.frame N.tokens self.old self.new note result.1 result.0 }
    {
        let (moved, note) = self.go_through(net, rt, true, note);
        if moved {
            return (true, note);
        }
        self.go_through(net, rt, false, note)
    }

    /// The end of a router. It holds no transaction, and no response of none that it holds.
    pub fn finish(self)
        requires held { self.held.items ≡ [] }
        requires stray { self.stray ≡ None }
    {}
}

impl<N: Naming<Plan, TlmLaw>> Node<N> for RouterNode {
    ghost use Rattle.router_node.specs.Node.{IsRouter};

    ghost keeps = { IsRouter N.frame N.tokens };

    /// A pump goes through these, in this order. What has ended above is ended below and forgotten. Each response that is
    /// to go up is tried, and each request that is to go down, in order of arrival. One response that waits below is
    /// fetched, in order of hops. Where there is room, one request that waits above is fetched, in order of hops.
    ///
    /// First it does so in haste: it leaves out tries and looks of which the net tells that they would be in vain. Only
    /// where nothing was moved so, it goes through once more, with every try and every look. The answer is Did where a
    /// transaction was moved. It takes no memory and can't fail.
    fn pump<S: Sharing<N>, R: Wait>(
        &mut self,
        net: &Net<N, S>,
        rt: &R,
        note: PlatNote,
    ) -> (Pumped, PlatNote)
        requires node { IsRouter N.frame N.tokens self.old note.knows.known }
        requires note { IsNote N.table note }
        requires below { StandBelow note.knows.known note.knows.seen }
        ensures node { IsRouter N.frame N.tokens self.new result.1.knows.known }
        ensures note { IsNote N.table result.1 }
        ensures knew { Within note.knows.known result.1.knows.known }
        ensures below { StandBelow result.1.knows.known result.1.knows.seen }
        ensures pumped { HasPumped N.frame N.tokens self.old self.new note result.1 result.0 }
    {
        let (moved, note) = self.go_on(net, rt, note);
        (pumped_by(moved), note)
    }

    /// Whether a pump may move a transaction, by what the net tells of hops. No clause speaks of it.
    fn may_move<S: Sharing<N>>(&self, net: &Net<N, S>) -> bool {
        may_move(self, net)
    }
}
