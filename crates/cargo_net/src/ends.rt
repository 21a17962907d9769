// END_REQ and END_RESP, by a leg in hand.
ghost use Rattle.std.specs.Prelude.{◌≡◌, [], ◌∷◌, ◌++◌};
ghost use Rattle.view_lists.specs.Lists.{Within};
ghost use Rattle.one_history.specs.Lists.{StandBelow};
ghost use Rattle.token_book.specs.Ticket.{IsTicket};
ghost use Rattle.shared_object.specs.Steps.{IsNote};
ghost use Rattle.hop_object.specs.declared.call.HopCall.TheVariants.{EndReq, EndResp};
ghost use Rattle.hop_object.specs.declared.call.HopReply.TheVariants.{EndedReq, EndedResp};
ghost use Rattle.cargo_net.specs.Hops.{HasAnswered};
ghost use Rattle.cargo_net.specs.Ends.{HasEndedRequest, HasEndedResponse, IsEndedReq, IsEndedResp, MayEndRequest, MayEndResponse};

use crate::law::{LockedHop, TlmLaw};
use crate::steps::step_hop;
use cargo_model::Cargo;
use hop_object::{Hop, HopCall, HopReply, Leg};
use one_history::{History, Note};
use route_plan::Plan;
use shared_object::{Keeper, Naming, Shared};
use std::sync::Wait;
use tlm_types::{Content, Ps};
use token_book::{Ticket, Tokens};

// The answer to END_REQ.
#[inline(always)]
fn ended_req(reply: HopReply<Cargo>) -> (Leg, Ps)
    requires { IsEndedReq reply }
    ensures { reply ≡ EndedReq result.0 result.1 }
{
    match reply {
        HopReply::EndedReq(leg, time) => (leg, time),
        _ => unreachable!(),
    }
}

/// Makes END_REQ on a hop, by the leg of a lane whose request is open and a ticket of the hop, which is
/// spent (IEEE 1666-2011, clause 15.2). It is tried at `at` picoseconds, and answers the leg of the same
/// lane, which waits for its response, and the time of the entry. It can't fail.
#[inline(always)]
pub fn end_req<R: Wait, N: Naming<Plan, TlmLaw>, L: Keeper<LockedHop<N>>>(
    hop: &Shared<Hop<Cargo>, Plan, TlmLaw, N, L>,
    rt: &R,
    history: &History<Content, Plan, TlmLaw>,
    tickets: &Tokens,
    note: Note<Content, Plan, TlmLaw>,
    leg: Leg,
    ticket: Ticket,
    at: Ps,
) -> (Leg, Ps, Note<Content, Plan, TlmLaw>)
    requires history { (history.now.table ≡ N.table) × (history.now.frame ≡ N.frame) }
    requires tickets { tickets.now ≡ N.tokens }
    requires note { IsNote N.table note }
    requires ticket { IsTicket N.tokens hop.now.number ticket }
    requires may { MayEndRequest N.frame N.tokens hop.now.number leg at note.knows.known }
    ensures note { IsNote N.table result.2 }
    ensures knew { Within note.knows.known result.2.knows.known }
    ensures below { StandBelow result.2.knows.known result.2.knows.seen }
    ensures look { result.2.knows.looks ≡ note.knows.looks ++ (hop.now.number, 0) ∷ [] }
    ensures answer { HasAnswered N.frame N.tokens hop.now.number hop.now.own note.knows result.2.knows
        (EndReq leg at) (EndedReq result.0 result.1) }
    ensures ended { (may : MayEndRequest N.frame N.tokens hop.now.number leg at note.knows.known) →
        HasEndedRequest N.frame N.tokens hop.now.number at may.x may.pass may.hop result.0 result.1 result.2.knows.known }
{
    let (reply, note, _) = step_hop(
        hop,
        rt,
        history,
        tickets,
        note,
        Some(ticket),
        HopCall::EndReq { leg, at },
    );
    let (leg, time) = ended_req(reply);
    (leg, time, note)
}

// The answer to END_RESP.
#[inline(always)]
fn ended_resp(reply: HopReply<Cargo>) -> Ps
    requires { IsEndedResp reply }
    ensures { reply ≡ EndedResp result }
{
    match reply {
        HopReply::EndedResp(time) => time,
        _ => unreachable!(),
    }
}

/// Makes END_RESP on a hop, by the leg of a lane whose response is open and a ticket of the hop, which is
/// spent (IEEE 1666-2011, clause 15.2). It is tried at `at` picoseconds, and answers the time of the
/// entry. It can't fail.
#[inline(always)]
pub fn end_resp<R: Wait, N: Naming<Plan, TlmLaw>, L: Keeper<LockedHop<N>>>(
    hop: &Shared<Hop<Cargo>, Plan, TlmLaw, N, L>,
    rt: &R,
    history: &History<Content, Plan, TlmLaw>,
    tickets: &Tokens,
    note: Note<Content, Plan, TlmLaw>,
    leg: Leg,
    ticket: Ticket,
    at: Ps,
) -> (Ps, Note<Content, Plan, TlmLaw>)
    requires history { (history.now.table ≡ N.table) × (history.now.frame ≡ N.frame) }
    requires tickets { tickets.now ≡ N.tokens }
    requires note { IsNote N.table note }
    requires ticket { IsTicket N.tokens hop.now.number ticket }
    requires may { MayEndResponse N.frame N.tokens hop.now.number leg at note.knows.known }
    ensures note { IsNote N.table result.1 }
    ensures knew { Within note.knows.known result.1.knows.known }
    ensures below { StandBelow result.1.knows.known result.1.knows.seen }
    ensures look { result.1.knows.looks ≡ note.knows.looks ++ (hop.now.number, 0) ∷ [] }
    ensures answer { HasAnswered N.frame N.tokens hop.now.number hop.now.own note.knows result.1.knows
        (EndResp leg at) (EndedResp result.0) }
    ensures ended { (may : MayEndResponse N.frame N.tokens hop.now.number leg at note.knows.known) →
        HasEndedResponse N.frame at may.x may.pass may.hop result.0 result.1.knows.known }
{
    let (reply, note, _) = step_hop(
        hop,
        rt,
        history,
        tickets,
        note,
        Some(ticket),
        HopCall::EndResp { leg, at },
    );
    (ended_resp(reply), note)
}
