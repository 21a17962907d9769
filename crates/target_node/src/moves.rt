// The moves of a memory at its hops.
ghost use Rattle.std.specs.Prelude.{◌≡◌, ◌<◌, [], ◌∷◌, ◌++◌, length, IfNone, IfSome};
ghost use Rattle.view_lists.specs.Lists.{Within};
ghost use Rattle.one_history.specs.Lists.{StandBelow};
ghost use Rattle.shared_object.specs.Steps.{IsNote};
ghost use Rattle.token_book.specs.Ticket.{IsTicket};
ghost use Rattle.tlm_model.specs.declared.platform.Target.TheVariants.{Memory};
ghost use Rattle.route_plan.specs.Valid.{hop_count};
ghost use Rattle.plat_net.specs.HopCalls.{CanRespond};
ghost use Rattle.plat_net.specs.Places.{LeadsTo, hop_place, memory_place};
ghost use Rattle.node_hops.specs.Steps.{AddsAt, AddsOf};
ghost use Rattle.node_hops.specs.Traits.{hop_latency, is_accepting};
ghost use Rattle.target_node.specs.Items.{HasResponded, HasServedAt, IsFetchedAs, IsOwedEnd, IsWaiting, fetch_look};

use crate::items::{FromHop, MemoryRequest, MemoryResponse};
use cargo_net::{Answered, FetchedRequest};
use plat_net::{Net, PlatNote, Sharing, TlmLaw};
use route_plan::Plan;
use shared_object::Naming;
use std::sync::Wait;
use tlm_types::Ps;
use token_book::Ticket;

/// Fetches the request that waits on a hop to this memory with the least time, equal times in order of arrival; none
/// exactly where none waits. Where the memory's mode is `accept`, END_REQ is owed, and its ticket comes with the
/// request, out of the payload's own wallet. It makes no entry.
pub fn fetch<N: Naming<Plan, TlmLaw>, S: Sharing<N>, R: Wait>(
    net: &Net<N, S>,
    rt: &R,
    memory: u32,
    accepts: bool,
    hop: u32,
    note: PlatNote,
) -> (Option<FromHop>, PlatNote)
    requires memory { memory < length N.frame.world.platform.memories }
    requires hop { hop < hop_count N.frame.world.platform }
    requires leads { LeadsTo N.frame.world.platform hop (Memory memory) }
    requires mode { accepts ≡ is_accepting N.frame.world.platform (Memory memory) }
    requires note { IsNote N.table note }
    ensures note { IsNote N.table result.1 }
    ensures knew { Within note.knows.known result.1.knows.known }
    ensures below { StandBelow result.1.knows.known result.1.knows.seen }
    ensures look { result.1.knows.looks ≡ note.knows.looks ++ (hop_place N.frame.world hop, fetch_look result.0) ∷ [] }
    ensures fetched { IfSome result.0 (IsFetchedAs N.frame N.tokens memory hop accepts result.1.knows.known) }
{
    let _ = memory;
    let _ = net.plan();
    let (fetched, note) = net.fetch_request(rt, hop, note);
    let Some(fetched) = fetched else {
        return (None, note);
    };
    let FetchedRequest {
        leg,
        state: _,
        txn: _,
        at,
        mut cargo,
    } = fetched;
    if !accepts {
        let request = MemoryRequest {
            hop,
            leg,
            at,
            cargo,
        };
        return (
            Some(FromHop {
                request,
                ticket: None,
            }),
            note,
        );
    }
    let ticket = cargo
        .baton
        .wallet
        .pull(net.tickets(), net.hop(hop).number(), 0);
    let request = MemoryRequest {
        hop,
        leg,
        at,
        cargo,
    };
    let ticket = Some(ticket);
    (Some(FromHop { request, ticket }), note)
}

/// Makes the END_REQ that is owed for a request, with its ticket, at the time of its BEGIN_REQ (IEEE 1666-2011,
/// clause 15.2). The request waits to be served then.
pub fn end<N: Naming<Plan, TlmLaw>, S: Sharing<N>, R: Wait>(
    net: &Net<N, S>,
    rt: &R,
    memory: u32,
    note: PlatNote,
    request: MemoryRequest,
    ticket: Ticket,
) -> (MemoryRequest, PlatNote)
    requires memory { memory < length N.frame.world.platform.memories }
    requires hop { request.hop < hop_count N.frame.world.platform }
    requires note { IsNote N.table note }
    requires ticket { IsTicket N.tokens (hop_place N.frame.world request.hop) ticket }
    requires owed { IsOwedEnd N.frame N.tokens memory note.knows.known request }
    ensures note { IsNote N.table result.1 }
    ensures knew { Within note.knows.known result.1.knows.known }
    ensures below { StandBelow result.1.knows.known result.1.knows.seen }
    ensures look { result.1.knows.looks ≡ note.knows.looks ++ (hop_place N.frame.world request.hop, 0) ∷ [] }
    ensures same { (result.0.hop ≡ request.hop) × (result.0.at ≡ request.at) × (result.0.cargo ≡ request.cargo) }
    ensures waits { IsWaiting N.frame N.tokens memory result.1.knows.known result.0 }
    ensures adds { AddsAt (hop_place N.frame.world request.hop) note.knows result.1.knows }
{
    let _ = memory;
    let _ = net.plan().platform();
    let MemoryRequest {
        hop,
        leg,
        at,
        cargo,
    } = request;
    let (leg, _, note) = net.end_req(rt, hop, note, leg, ticket, at);
    let request = MemoryRequest {
        hop,
        leg,
        at,
        cargo,
    };
    (request, note)
}

/// Makes the access of a request that waits, at the time of its BEGIN_REQ (IEEE 1666-2011, clause 14). Its response
/// is due after the memory's latency, in picoseconds.
pub fn serve<N: Naming<Plan, TlmLaw>, S: Sharing<N>, R: Wait>(
    net: &Net<N, S>,
    rt: &R,
    memory: u32,
    latency: Ps,
    note: PlatNote,
    request: MemoryRequest,
) -> (MemoryResponse, PlatNote)
    requires memory { memory < length N.frame.world.platform.memories }
    requires latency { latency ≡ hop_latency N.frame.world request.hop }
    requires note { IsNote N.table note }
    requires waits { IsWaiting N.frame N.tokens memory note.knows.known request }
    ensures note { IsNote N.table result.1 }
    ensures knew { Within note.knows.known result.1.knows.known }
    ensures below { StandBelow result.1.knows.known result.1.knows.seen }
    ensures look { result.1.knows.looks ≡ note.knows.looks ++ (memory_place N.frame.world memory, 0) ∷ [] }
    ensures served { HasServedAt N.frame N.tokens latency request result.1.knows.known result.0 }
    ensures adds { AddsOf (memory_place N.frame.world memory) request.cargo.baton.txn note.knows result.1.knows }
{
    let MemoryRequest {
        hop,
        leg,
        at,
        cargo,
    } = request;
    let (cargo, note) = net.serve(rt, memory, note, cargo, at);
    let response = MemoryResponse {
        hop,
        leg,
        due: at.saturating_add(latency),
        cargo,
    };
    (response, note)
}

/// Tries BEGIN_RESP on a hop, at the time at which the response is due (IEEE 1666-2011, clause 15.2). Where a
/// response is open on the hop, this one comes back as it was.
pub fn respond<N: Naming<Plan, TlmLaw>, S: Sharing<N>, R: Wait>(
    net: &Net<N, S>,
    rt: &R,
    note: PlatNote,
    response: MemoryResponse,
) -> (Option<MemoryResponse>, PlatNote)
    requires hop { response.hop < hop_count N.frame.world.platform }
    requires note { IsNote N.table note }
    requires can { CanRespond N.frame N.tokens response.hop response.leg response.cargo response.due note.knows.known }
    ensures note { IsNote N.table result.1 }
    ensures knew { Within note.knows.known result.1.knows.known }
    ensures below { StandBelow result.1.knows.known result.1.knows.seen }
    ensures responded { HasResponded N.frame N.tokens response note.knows result.1.knows result.0 }
    ensures adds { IfNone result.0 (AddsAt (hop_place N.frame.world response.hop) note.knows result.1.knows) }
{
    let MemoryResponse {
        hop,
        leg,
        due,
        cargo,
    } = response;
    match net.backward(rt, hop, note, leg, cargo, due) {
        Answered::Sent {
            answer: _,
            at: _,
            note,
        } => (None, note),
        Answered::Busy {
            holder: _,
            leg,
            cargo,
            note,
        } => {
            let response = MemoryResponse {
                hop,
                leg,
                due,
                cargo,
            };
            (Some(response), note)
        }
    }
}
