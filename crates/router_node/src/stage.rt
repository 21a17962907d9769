// A transaction that a router holds, and the steps that move it.
ghost use Rattle.std.specs.Prelude.{◌≡◌, ◌<◌, Some, true};
ghost use Rattle.view_lists.specs.Lists.{Within};
ghost use Rattle.one_history.specs.Lists.{StandBelow};
ghost use Rattle.shared_object.specs.Steps.{IsNote};
ghost use Rattle.flow_model.specs.Events.{Finds};
ghost use Rattle.flow_model.specs.Numbers.{IsEnder};
ghost use Rattle.cargo_model.specs.Known.{Known};
ghost use Rattle.route_plan.specs.Valid.{hop_count};
ghost use Rattle.router_moves.specs.Items.{HasGone, IsBegun, IsDown};
ghost use Rattle.router_moves.specs.Moves.{HasEndedAbove};
ghost use Rattle.router_node.specs.Stages.{AddsAccess, AddsOnHop, HasEnded, HasLookedForEnd, HasSettled, HasStepped, IsAway, IsServed, IsSettled, IsStage, IsUp, WasReleased, is_about};
ghost use Rattle.router_node.specs.declared.stage.Stage.TheVariants as Stages;
ghost use Rattle.router_node.specs.declared.stage.Step.TheVariants as Steps;

use node_hops::memory_behind;
use plat_net::{Net, PlatNote, Sharing, TlmLaw};
use route_plan::Plan;
use router_moves::{
    BegunBelow, Down, End, Passed, PassedOn, Rest, RouterResponse, Sent, end_above, end_below,
    has_ended_above, pass_on, release, send_up, serve_below, turn_up,
};
use shared_object::Naming;
use std::sync::Wait;
use tlm_types::{Ps, TxnId};

/// A response that was sent up at this time, in picoseconds, whether its answer has ended it, and what is to
/// be made below then.
#[derive(Drop)]
pub struct SentUp {
    pub txn: TxnId,
    pub above: u32,
    pub at: Ps,
    pub ended: bool,
    pub rest: Option<Rest>,
}

/// What a router holds of a transaction.
#[derive(Drop)]
pub enum Stage {
    /// Its request is to go down.
    Down(Down),
    /// Its request has gone down.
    Below(PassedOn),
    /// Its response is to go up, with what is to be made below after that.
    Up(RouterResponse, Option<Rest>),
    /// Its response was sent up.
    Sent(SentUp),
}

/// A step of a pump.
#[derive(Clone, Copy, Debug, PartialEq, Eq)]
pub enum Step {
    /// Ends below what has ended above.
    End,
    /// Sends responses up.
    Send,
    /// Passes requests on.
    Pass,
}

// Makes what is left to be made below, for a transaction that has ended above.
fn finish_below<N: Naming<Plan, TlmLaw>, S: Sharing<N>, R: Wait>(
    net: &Net<N, S>,
    rt: &R,
    note: PlatNote,
    rest: Rest,
    at: Ps,
) -> PlatNote
    requires note { IsNote N.table note }
    requires ended { HasEndedAbove N.frame N.tokens note.knows.known rest at }
    ensures note { IsNote N.table result }
    ensures knew { Within note.knows.known result.knows.known }
    ensures below { StandBelow result.knows.known result.knows.seen }
    ensures released { WasReleased N.frame result.knows.known rest.txn }
{
    match &rest.end {
        End::At(_) => release(net, rt, note, rest),
        End::Owed(_, _) => {
            let (rest, note) = end_below(net, rt, note, rest, at);
            release(net, rt, note, rest)
        }
    }
}

// Makes what is left to be made below for a response that was sent and has ended above, if it came from
// there.
pub(crate) fn finish_away<N: Naming<Plan, TlmLaw>, S: Sharing<N>, R: Wait>(
    net: &Net<N, S>,
    rt: &R,
    note: PlatNote,
    away: SentUp,
) -> PlatNote
    requires note { IsNote N.table note }
    requires below { StandBelow note.knows.known note.knows.seen }
    requires away { IsAway N.frame N.tokens note.knows.known away }
    requires ended { Finds (Known N.frame.world.platform note.knows.known) (IsEnder away.txn away.above) }
    ensures note { IsNote N.table result }
    ensures knew { Within note.knows.known result.knows.known }
    ensures below { StandBelow result.knows.known result.knows.seen }
    ensures ended { HasEnded N.frame result.knows.known away }
{
    let SentUp { at, rest, .. } = away;
    let Some(rest) = rest else {
        return note;
    };
    finish_below(net, rt, note, rest, at)
}

/// Looks whether a response that was sent has ended above; by its answer it may have. It makes no entry.
pub fn look_for_end<N: Naming<Plan, TlmLaw>, S: Sharing<N>, R: Wait>(
    net: &Net<N, S>,
    rt: &R,
    note: PlatNote,
    away: &SentUp,
) -> (bool, PlatNote)
    requires note { IsNote N.table note }
    requires below { StandBelow note.knows.known note.knows.seen }
    requires away { IsAway N.frame N.tokens note.knows.known away.now }
    ensures note { IsNote N.table result.1 }
    ensures knew { Within note.knows.known result.1.knows.known }
    ensures below { StandBelow result.1.knows.known result.1.knows.seen }
    ensures ended { HasLookedForEnd N.frame away.now note.knows result.1.knows result.0 }
{
    if away.ended {
        return (true, note);
    }
    has_ended_above(net, rt, away.above, note, away.txn)
}

/// Tries to send a response up, by BEGIN_RESP (IEEE 1666-2011, clause 15.2).
pub fn send<N: Naming<Plan, TlmLaw>, S: Sharing<N>, R: Wait>(
    net: &Net<N, S>,
    rt: &R,
    note: PlatNote,
    response: RouterResponse,
    rest: Option<Rest>,
) -> (Stage, bool, PlatNote)
    requires note { IsNote N.table note }
    requires up { IsUp N.frame N.tokens note.knows.known response rest }
    ensures note { IsNote N.table result.2 }
    ensures knew { Within note.knows.known result.2.knows.known }
    ensures below { StandBelow result.2.knows.known result.2.knows.seen }
    ensures stage { IsStage N.frame N.tokens result.2.knows.known result.0 }
    ensures adds { result.1 ≡ true → AddsOnHop N.frame.world note.knows result.2.knows }
    ensures stepped { HasStepped N.frame Steps.Send (Stages.Up response rest) note.knows result.2.knows result.1 (Some result.0) }
{
    let txn = response.cargo.baton.txn();
    let above = response.hop;
    match send_up(net, rt, note, response) {
        Sent::Open { at, note } => {
            let away = SentUp {
                txn,
                above,
                at,
                ended: false,
                rest,
            };
            (Stage::Sent(away), true, note)
        }
        Sent::Ended { at, note } => {
            let away = SentUp {
                txn,
                above,
                at,
                ended: true,
                rest,
            };
            (Stage::Sent(away), true, note)
        }
        Sent::Refused { response, note } => (Stage::Up(response, rest), false, note),
    }
}

/// Makes END_REQ above for a request that has gone down at this time, in picoseconds, where it is owed (IEEE
/// 1666-2011, clause 15.2).
pub fn settle<N: Naming<Plan, TlmLaw>, S: Sharing<N>, R: Wait>(
    net: &Net<N, S>,
    rt: &R,
    note: PlatNote,
    held: PassedOn,
    at: Ps,
) -> (PassedOn, PlatNote)
    requires note { IsNote N.table note }
    requires below { StandBelow note.knows.known note.knows.seen }
    requires gone { HasGone N.frame N.tokens note.knows.known held at }
    ensures note { IsNote N.table result.1 }
    ensures knew { Within note.knows.known result.1.knows.known }
    ensures below { StandBelow result.1.knows.known result.1.knows.seen }
    ensures settled { HasSettled N.frame N.tokens note.knows.known result.1.knows.known held result.0 }
{
    if held.owed.is_none() {
        return (held, note);
    }
    end_above(net, rt, note, held, at)
}

/// Calls the memory of a request whose response comes by return (IEEE 1666-2011, clause 14). The response is to go up.
pub fn serve<N: Naming<Plan, TlmLaw>, S: Sharing<N>, R: Wait>(
    net: &Net<N, S>,
    rt: &R,
    note: PlatNote,
    held: PassedOn,
    begun: BegunBelow,
) -> (Stage, PlatNote)
    requires note { IsNote N.table note }
    requires settled { IsSettled N.frame N.tokens note.knows.known held }
    requires begun { IsBegun N.frame N.tokens note.knows.known held begun }
    ensures note { IsNote N.table result.1 }
    ensures knew { Within note.knows.known result.1.knows.known }
    ensures below { StandBelow result.1.knows.known result.1.knows.seen }
    ensures stage { IsStage N.frame N.tokens result.1.knows.known result.0 }
    ensures adds { AddsAccess N.frame.world held.txn note.knows result.1.knows }
    ensures served { IsServed N.frame result.1.knows.known held begun result.0 }
{
    let Some((memory, latency)) = memory_behind(net, held.below) else {
        unreachable!()
    };
    let (back, note) = serve_below(net, rt, memory, latency, note, &held, begun);
    let (response, rest) = turn_up(net, &note, held, back);
    (Stage::Up(response, Some(rest)), note)
}

/// Tries to pass a request on. Where its response comes by return, the memory is called, and the response is
/// to go up.
pub(crate) fn pass<N: Naming<Plan, TlmLaw>, S: Sharing<N>, R: Wait>(
    net: &Net<N, S>,
    rt: &R,
    note: PlatNote,
    down: Down,
) -> (Stage, bool, PlatNote)
    requires note { IsNote N.table note }
    requires there { down.held.above < hop_count N.frame.world.platform }
    requires down { IsDown N.frame N.tokens note.knows.known down }
    ensures note { IsNote N.table result.2 }
    ensures knew { Within note.knows.known result.2.knows.known }
    ensures below { StandBelow result.2.knows.known result.2.knows.seen }
    ensures stage { IsStage N.frame N.tokens result.2.knows.known result.0 }
    ensures stepped { HasStepped N.frame Steps.Pass (Stages.Down down) note.knows result.2.knows result.1 (Some result.0) }
{
    match pass_on(net, rt, note, down) {
        Passed::Busy { down, note } => (Stage::Down(down), false, note),
        Passed::Gone { held, at, note } => {
            let (held, note) = settle(net, rt, note, held, at);
            (Stage::Below(held), true, note)
        }
        Passed::Now { held, begun, note } => {
            let (held, note) = settle(net, rt, note, held, begun.at);
            let (stage, note) = serve(net, rt, note, held, begun);
            (stage, true, note)
        }
    }
}

// Whether a step is one for a transaction.
pub(crate) fn is_about(what: Step, stage: &Stage) -> bool
    ensures { result ≡ is_about what stage.now }
{
    match stage {
        Stage::Sent(_) => matches!(what, Step::End),
        Stage::Up(_, _) => matches!(what, Step::Send),
        Stage::Down(_) => matches!(what, Step::Pass),
        Stage::Below(_) => false,
    }
}
