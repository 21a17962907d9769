// The moves of a response.
ghost use Rattle.std.specs.Prelude.{◌≡◌, ◌+◌, ◌<◌, ◌≤◌, [], ◌∷◌, ◌++◌, length, IfSome, IsTrue, None};
ghost use Rattle.view_lists.specs.Lists.{Within};
ghost use Rattle.one_history.specs.Lists.{StandBelow};
ghost use Rattle.shared_object.specs.Steps.{IsNote};
ghost use Rattle.token_book.specs.Purse.{IsOf, left_of};
ghost use Rattle.flow_model.specs.Events.{Finds};
ghost use Rattle.flow_model.specs.Numbers.{IsEnder};
ghost use Rattle.cargo_model.specs.Known.{Known};
ghost use Rattle.route_plan.specs.Valid.{hop_count};
ghost use Rattle.plat_net.specs.HopCalls.{CanRespond};
ghost use Rattle.plat_net.specs.Places.{hop_place, own_pool};
ghost use Rattle.node_hops.specs.Steps.{AddsAt};
ghost use Rattle.node_hops.specs.Traits.{hop_latency};
ghost use Rattle.router_moves.specs.Items.{IsRequest, way_of};
ghost use Rattle.router_moves.specs.Moves.{EndsBelow, HasBegunOn, HasEndedAbove, HasFetchedUp, HasReleased, HasSent, IsBackFor, IsDone, IsOwing, IsEndOf, IsRefused, IsReleasing, PullsFor, SendAdds, TurnsUp, ended_look, sent_as, sent_note, up_look};

use crate::items::{Back, End, PassedOn, Rest, RouterRequest, RouterResponse};
use cargo_model::Cargo;
use cargo_net::{Answered, FetchedResponse};
use hop_object::Leg;
use payload_pool::Baton;
use plat_net::{Net, PlatNote, Sharing, TlmLaw};
use route_plan::Plan;
use shared_object::Naming;
use std::sync::Wait;
use tlm_types::{Ps, Response as Status, TlmSync, TxnId};

/// Answers a request for whose address the router has no window, with ADDRESS_ERROR (IEEE 1666-2011, clause
/// 14.17). The response is due after the router's latency, in picoseconds. It makes no entry.
pub fn refuse<N: Naming<Plan, TlmLaw>, S: Sharing<N>>(
    net: &Net<N, S>,
    router: u32,
    latency: Ps,
    note: &PlatNote,
    request: RouterRequest,
) -> RouterResponse
    requires router { router < length N.frame.world.platform.routers }
    requires latency { latency ≡ hop_latency N.frame.world request.hop }
    requires request { IsRequest N.frame N.tokens note.now.knows.known router request }
    requires no_way { way_of N.frame.world router request.cargo.baton.payload.address ≡ None }
    ensures refused { IsRefused N.frame N.tokens note.now.knows.known latency request result }
{
    let _ = router;
    let _ = note;
    let _ = net.plan().platform();
    let RouterRequest {
        hop,
        leg,
        at,
        mut cargo,
    } = request;
    cargo.baton.payload.set_status(Status::AddressError);
    RouterResponse {
        hop,
        leg,
        due: at.saturating_add(latency),
        cargo,
    }
}

/// A response that was fetched from a hop below, and its transaction.
#[derive(Drop)]
pub struct FromBelow {
    pub txn: TxnId,
    pub back: Back,
}

/// Fetches the response that waits on the hop of a window with the least time, equal times in order of
/// arrival; none exactly where none waits. It makes no entry and spends no ticket.
pub fn fetch_up<N: Naming<Plan, TlmLaw>, S: Sharing<N>, R: Wait>(
    net: &Net<N, S>,
    rt: &R,
    hop: u32,
    note: PlatNote,
) -> (Option<FromBelow>, PlatNote)
    requires hop { hop < hop_count N.frame.world.platform }
    requires window { length N.frame.world.platform.initiators ≤ hop }
    requires note { IsNote N.table note }
    ensures note { IsNote N.table result.1 }
    ensures knew { Within note.knows.known result.1.knows.known }
    ensures below { StandBelow result.1.knows.known result.1.knows.seen }
    ensures look { result.1.knows.looks ≡ note.knows.looks ++ (hop_place N.frame.world hop, up_look result.0) ∷ [] }
    ensures fetched { IfSome result.0 (HasFetchedUp N.frame N.tokens result.1.knows.known hop) }
{
    let _ = net.plan().platform();
    let (fetched, note) = net.fetch_response(rt, hop, note);
    match fetched {
        None => (None, note),
        Some(
            FetchedResponse {
                leg,
                txn,
                at,
                cargo,
            },
        ) => {
            let back = Back { at, leg, cargo };
            (Some(FromBelow { txn, back }), note)
        }
    }
}

// The end below that is owed where there is a leg for it, with a ticket of the payload's wallet.
fn end_of<N: Naming<Plan, TlmLaw>, S: Sharing<N>>(
    net: &Net<N, S>,
    below: u32,
    leg: Option<Leg>,
    at: Ps,
    baton: &mut Baton,
) -> End
    requires hop { below < hop_count net.now.platform }
    requires of { IsOf N.tokens baton.old.wallet }
    requires left { IfSome leg (λ l. 0 < left_of baton.old.wallet (hop_place net.now below)) }
    ensures end { IsEndOf N.tokens (hop_place net.now below) leg at result }
    ensures pulls { PullsFor N.tokens (hop_place net.now below) leg baton.old baton.new }
{
    match leg {
        Some(leg) => {
            let ticket = baton.wallet.pull(net.tickets(), net.hop(below).number(), 0);
            End::Owed(leg, ticket)
        }
        None => End::At(at),
    }
}

/// Turns a response that is back upwards: it gets the reference that came with its request, and may go up on
/// the hop above. What is to be made below stays, with its tickets out of the payload's own wallet. It makes
/// no entry.
pub fn turn_up<N: Naming<Plan, TlmLaw>, S: Sharing<N>>(
    net: &Net<N, S>,
    note: &PlatNote,
    held: PassedOn,
    back: Back,
) -> (RouterResponse, Rest)
    requires settled { held.owed ≡ None }
    requires back { IsBackFor N.frame N.tokens note.now.knows.known held back }
    ensures turned { TurnsUp N.frame N.tokens note.now.knows.known held back result.0 result.1 }
{
    let _ = note;
    let _ = net.plan().platform();
    let PassedOn {
        txn,
        above,
        below,
        leg: leg_above,
        kept,
        owed: _,
    } = held;
    let Back { at, leg, cargo } = back;
    let Cargo { mut baton, hold } = cargo;
    let end = end_of(net, below, leg, at, &mut baton);
    let ticket = baton
        .wallet
        .pull(net.tickets(), net.pool(txn.initiator).number(), 0);
    let response = RouterResponse {
        hop: above,
        leg: leg_above,
        due: at,
        cargo: Cargo { baton, hold: kept },
    };
    let rest = Rest {
        txn,
        below,
        end,
        hold,
        ticket,
    };
    (response, rest)
}

/// What a response that was to go up has come to.
pub enum Sent {
    /// BEGIN_RESP was made at this time, in picoseconds. The component above is still to end it.
    Open {
        at: Ps,
        note: PlatNote,
    },
    /// The same, and by its answer the transaction has ended above.
    Ended {
        at: Ps,
        note: PlatNote,
    },
    /// A response is open on the hop above. This one may be sent as before.
    Refused {
        response: RouterResponse,
        note: PlatNote,
    },
}

// BEGIN_RESP was made.
fn sent_by(answer: TlmSync, at: Ps, note: PlatNote) -> Sent
    ensures { result ≡ sent_as answer at note }
{
    match answer {
        TlmSync::Accepted => Sent::Open { at, note },
        _ => Sent::Ended { at, note },
    }
}

/// Tries BEGIN_RESP on the hop above, at the time at which the response is due (IEEE 1666-2011, clause 15.2).
/// Where a response is open there, this one comes back as it was.
pub fn send_up<N: Naming<Plan, TlmLaw>, S: Sharing<N>, R: Wait>(
    net: &Net<N, S>,
    rt: &R,
    note: PlatNote,
    response: RouterResponse,
) -> Sent
    requires note { IsNote N.table note }
    requires can { CanRespond N.frame N.tokens response.hop response.leg response.cargo response.due note.knows.known }
    ensures note { IsNote N.table (sent_note result) }
    ensures knew { Within note.knows.known (sent_note result).knows.known }
    ensures below { StandBelow (sent_note result).knows.known (sent_note result).knows.seen }
    ensures adds { SendAdds N.frame.world response.hop note.knows result }
    ensures sent { HasSent N.frame N.tokens response note.knows result }
{
    let RouterResponse {
        hop,
        leg,
        due,
        cargo,
    } = response;
    match net.backward(rt, hop, note, leg, cargo, due) {
        Answered::Sent { answer, at, note } => sent_by(answer, at, note),
        Answered::Busy {
            holder: _,
            leg,
            cargo,
            note,
        } => Sent::Refused {
            response: RouterResponse {
                hop,
                leg,
                due,
                cargo,
            },
            note,
        },
    }
}

/// Looks whether a transaction that has begun on the hop above has ended there. It makes no entry and spends
/// no ticket.
pub fn has_ended_above<N: Naming<Plan, TlmLaw>, S: Sharing<N>, R: Wait>(
    net: &Net<N, S>,
    rt: &R,
    hop: u32,
    note: PlatNote,
    txn: TxnId,
) -> (bool, PlatNote)
    requires hop { hop < hop_count N.frame.world.platform }
    requires note { IsNote N.table note }
    requires begun { HasBegunOn N.frame note.knows.known hop txn }
    ensures note { IsNote N.table result.1 }
    ensures knew { Within note.knows.known result.1.knows.known }
    ensures below { StandBelow result.1.knows.known result.1.knows.seen }
    ensures look { result.1.knows.looks ≡ note.knows.looks ++ (hop_place N.frame.world hop, ended_look result.0) ∷ [] }
    ensures ended { IsTrue result.0 → Finds (Known N.frame.world.platform result.1.knows.known) (IsEnder txn hop) }
{
    let _ = net.plan();
    net.has_ended(rt, hop, note, txn)
}

/// Makes the END_RESP that is owed below, at the time of the BEGIN_RESP above (IEEE 1666-2011, clause 15.2).
/// The transaction has ended above.
pub fn end_below<N: Naming<Plan, TlmLaw>, S: Sharing<N>, R: Wait>(
    net: &Net<N, S>,
    rt: &R,
    note: PlatNote,
    rest: Rest,
    at: Ps,
) -> (Rest, PlatNote)
    requires note { IsNote N.table note }
    requires owed { IsOwing rest.end }
    requires ended { HasEndedAbove N.frame N.tokens note.knows.known rest at }
    ensures note { IsNote N.table result.1 }
    ensures knew { Within note.knows.known result.1.knows.known }
    ensures below { StandBelow result.1.knows.known result.1.knows.seen }
    ensures look { result.1.knows.looks ≡ note.knows.looks ++ (hop_place N.frame.world rest.below, 0) ∷ [] }
    ensures adds { AddsAt (hop_place N.frame.world rest.below) note.knows result.1.knows }
    ensures ended { EndsBelow N.frame N.tokens result.1.knows.known rest at result.0 }
{
    let Rest {
        txn,
        below,
        end,
        hold,
        ticket,
    } = rest;
    let End::Owed(leg, owed) = end else {
        unreachable!()
    };
    let (time, note) = net.end_resp(rt, below, note, leg, owed, at);
    let rest = Rest {
        txn,
        below,
        end: End::At(time),
        hold,
        ticket,
    };
    (rest, note)
}

/// Releases the reference of the hop below, at the time at which the transaction has ended there (IEEE
/// 1666-2011, clause 14.5).
pub fn release<N: Naming<Plan, TlmLaw>, S: Sharing<N>, R: Wait>(
    net: &Net<N, S>,
    rt: &R,
    note: PlatNote,
    rest: Rest,
) -> PlatNote
    requires note { IsNote N.table note }
    requires done { IsDone rest.end }
    requires rest { IsReleasing N.frame N.tokens note.knows.known rest }
    ensures note { IsNote N.table result }
    ensures knew { Within note.knows.known result.knows.known }
    ensures below { StandBelow result.knows.known result.knows.seen }
    ensures look { result.knows.looks ≡ note.knows.looks ++ (own_pool N.frame.world rest.txn.initiator, 0) ∷ [] }
    ensures adds { AddsAt (own_pool N.frame.world rest.txn.initiator) note.knows result.knows }
    ensures released { HasReleased N.frame result.knows.known rest }
{
    let Rest {
        txn,
        below: _,
        end,
        hold,
        ticket,
    } = rest;
    let End::At(at) = end else { unreachable!() };
    let (_, note) = net.release(rt, txn.initiator, note, ticket, hold, at);
    note
}
