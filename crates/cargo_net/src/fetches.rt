// Looks at a hop: fetches of payloads that wait there, and whether a transaction has ended.
ghost use Rattle.std.specs.Prelude.{◌≡◌, [], ◌∷◌, ◌++◌, IfSome};
ghost use Rattle.view_lists.specs.Lists.{Within};
ghost use Rattle.one_history.specs.Lists.{StandBelow};
ghost use Rattle.shared_object.specs.Steps.{IsNote};
ghost use Rattle.hop_object.specs.Objects.{look_of};
ghost use Rattle.hop_object.specs.declared.call.HopCall.TheVariants.{Ended as AskEnded, FetchDown, FetchUp};
ghost use Rattle.cargo_net.specs.Hops.{HasAnswered};
ghost use Rattle.cargo_net.specs.Fetched.{down_reply, ended_reply, up_reply, HasFetchedRequest, HasFetchedResponse, IsDownReply, IsEndedReply, IsHopThere, IsUpReply};

use crate::law::{LockedHop, TlmLaw};
use crate::steps::step_hop;
use base_phases::LaneState;
use cargo_model::Cargo;
use hop_object::{Hop, HopCall, HopReply, Leg};
use one_history::{History, Note};
use route_plan::Plan;
use shared_object::{Keeper, Naming, Shared};
use std::sync::Wait;
use tlm_types::{Content, Ps, TxnId};
use token_book::Tokens;

/// A request that was fetched, with the leg of its lane, the lane's state, and the time of its BEGIN_REQ.
pub struct FetchedRequest {
    pub leg: Leg,
    pub state: LaneState,
    pub txn: TxnId,
    pub at: Ps,
    pub cargo: Cargo,
}

// The answer to a fetch of a request.
#[inline(always)]
fn fetched_request(reply: HopReply<Cargo>) -> Option<FetchedRequest>
    requires { IsDownReply reply }
    ensures { reply ≡ down_reply result }
{
    match reply {
        HopReply::Down(Some((leg, state, txn, at, cargo))) => Some(FetchedRequest {
            leg,
            state,
            txn,
            at,
            cargo,
        }),
        HopReply::Down(None) => None,
        _ => unreachable!(),
    }
}

/// Fetches the request that waits on a hop with the least time, equal times in order of arrival; none
/// exactly where none waits. It makes no entry and spends no ticket.
#[inline(always)]
pub fn fetch_request<R: Wait, N: Naming<Plan, TlmLaw>, L: Keeper<LockedHop<N>>>(
    hop: &Shared<Hop<Cargo>, Plan, TlmLaw, N, L>,
    rt: &R,
    history: &History<Content, Plan, TlmLaw>,
    tickets: &Tokens,
    note: Note<Content, Plan, TlmLaw>,
) -> (Option<FetchedRequest>, Note<Content, Plan, TlmLaw>)
    requires history { (history.now.table ≡ N.table) × (history.now.frame ≡ N.frame) }
    requires tickets { tickets.now ≡ N.tokens }
    requires note { IsNote N.table note }
    requires there { IsHopThere N.frame.world hop.now.number }
    ensures note { IsNote N.table result.1 }
    ensures knew { Within note.knows.known result.1.knows.known }
    ensures below { StandBelow result.1.knows.known result.1.knows.seen }
    ensures look { result.1.knows.looks ≡ note.knows.looks ++ (hop.now.number, look_of (down_reply result.0)) ∷ [] }
    ensures answer { HasAnswered N.frame N.tokens hop.now.number hop.now.own note.knows result.1.knows
        FetchDown (down_reply result.0) }
    ensures fetched { IfSome result.0 (λ r. HasFetchedRequest N.frame N.tokens hop.now.number r result.1.knows.known) }
{
    let (reply, note, _) = step_hop(hop, rt, history, tickets, note, None, HopCall::FetchDown);
    (fetched_request(reply), note)
}

/// A response that was fetched, with the leg of its lane where END_RESP is owed, and the time of its
/// BEGIN_RESP.
pub struct FetchedResponse {
    pub leg: Option<Leg>,
    pub txn: TxnId,
    pub at: Ps,
    pub cargo: Cargo,
}

// The answer to a fetch of a response.
#[inline(always)]
fn fetched_response(reply: HopReply<Cargo>) -> Option<FetchedResponse>
    requires { IsUpReply reply }
    ensures { reply ≡ up_reply result }
{
    match reply {
        HopReply::Up(Some((leg, txn, at, cargo))) => Some(FetchedResponse {
            leg,
            txn,
            at,
            cargo,
        }),
        HopReply::Up(None) => None,
        _ => unreachable!(),
    }
}

/// Fetches the response that waits on a hop with the least time, equal times in order of arrival; none
/// exactly where none waits. The leg of END_RESP comes where the component upstream accepts responses.
/// It makes no entry and spends no ticket.
#[inline(always)]
pub fn fetch_response<R: Wait, N: Naming<Plan, TlmLaw>, L: Keeper<LockedHop<N>>>(
    hop: &Shared<Hop<Cargo>, Plan, TlmLaw, N, L>,
    rt: &R,
    history: &History<Content, Plan, TlmLaw>,
    tickets: &Tokens,
    note: Note<Content, Plan, TlmLaw>,
) -> (Option<FetchedResponse>, Note<Content, Plan, TlmLaw>)
    requires history { (history.now.table ≡ N.table) × (history.now.frame ≡ N.frame) }
    requires tickets { tickets.now ≡ N.tokens }
    requires note { IsNote N.table note }
    requires there { IsHopThere N.frame.world hop.now.number }
    ensures note { IsNote N.table result.1 }
    ensures knew { Within note.knows.known result.1.knows.known }
    ensures below { StandBelow result.1.knows.known result.1.knows.seen }
    ensures look { result.1.knows.looks ≡ note.knows.looks ++ (hop.now.number, look_of (up_reply result.0)) ∷ [] }
    ensures answer { HasAnswered N.frame N.tokens hop.now.number hop.now.own note.knows result.1.knows
        FetchUp (up_reply result.0) }
    ensures fetched { IfSome result.0 (λ r. HasFetchedResponse N.frame N.tokens hop.now.number r result.1.knows.known) }
{
    let (reply, note, _) = step_hop(hop, rt, history, tickets, note, None, HopCall::FetchUp);
    (fetched_response(reply), note)
}

// The answer to whether a transaction has ended.
#[inline(always)]
fn ended(reply: HopReply<Cargo>) -> bool
    requires { IsEndedReply reply }
    ensures { reply ≡ ended_reply result }
{
    match reply {
        HopReply::Ended(ended) => ended,
        _ => unreachable!(),
    }
}

/// Looks whether a transaction has ended on a hop: true exactly where no lane is held by it. It makes no
/// entry and spends no ticket.
#[inline(always)]
pub fn has_ended<R: Wait, N: Naming<Plan, TlmLaw>, L: Keeper<LockedHop<N>>>(
    hop: &Shared<Hop<Cargo>, Plan, TlmLaw, N, L>,
    rt: &R,
    history: &History<Content, Plan, TlmLaw>,
    tickets: &Tokens,
    note: Note<Content, Plan, TlmLaw>,
    txn: TxnId,
) -> (bool, Note<Content, Plan, TlmLaw>)
    requires history { (history.now.table ≡ N.table) × (history.now.frame ≡ N.frame) }
    requires tickets { tickets.now ≡ N.tokens }
    requires note { IsNote N.table note }
    ensures note { IsNote N.table result.1 }
    ensures knew { Within note.knows.known result.1.knows.known }
    ensures below { StandBelow result.1.knows.known result.1.knows.seen }
    ensures look { result.1.knows.looks ≡ note.knows.looks ++ (hop.now.number, look_of (ended_reply result.0)) ∷ [] }
    ensures answer { HasAnswered N.frame N.tokens hop.now.number hop.now.own note.knows result.1.knows
        (AskEnded txn) (ended_reply result.0) }
{
    let (reply, note, _) = step_hop(
        hop,
        rt,
        history,
        tickets,
        note,
        None,
        HopCall::Ended { txn },
    );
    (ended(reply), note)
}
