// The moves of a request.
ghost use Rattle.std.specs.Prelude.{◌≡◌, ◌<◌, [], ◌∷◌, ◌++◌, length, IfSome, IsSome, Some};
ghost use Rattle.view_lists.specs.Lists.{Within};
ghost use Rattle.one_history.specs.Lists.{StandBelow};
ghost use Rattle.shared_object.specs.Steps.{IsNote};
ghost use Rattle.tlm_model.specs.declared.platform.Target.TheVariants.{Memory, Router};
ghost use Rattle.tlm_model.specs.Route.{later, window_hop};
ghost use Rattle.route_plan.specs.Valid.{hop_count};
ghost use Rattle.plat_net.specs.Places.{LeadsTo, hop_place, memory_place, own_pool};
ghost use Rattle.node_hops.specs.Steps.{AddsAt, AddsOf};
ghost use Rattle.node_hops.specs.Traits.{hop_latency, is_accepting};
ghost use Rattle.router_moves.specs.Items.{HasGone, IsBegun, IsDown, IsRequest, way_of};
ghost use Rattle.router_moves.specs.Moves.{EndsAbove, HasPassed, HasServedBelow, PassAdds, fetch_look, owed_above, passed_note};

use crate::items::{Back, BegunBelow, Down, PassedOn, RouterRequest, WayBehind};
use cargo_net::{Descended, FetchedRequest, Tried};
use plat_net::{Net, PlatNote, Sharing, TlmLaw};
use route_plan::Plan;
use shared_object::Naming;
use std::sync::Wait;
use tlm_types::Ps;

/// Fetches the request that waits on a hop to this router with the least time, equal times in order of
/// arrival; none exactly where none waits. It makes no entry and spends no ticket.
pub fn fetch_down<N: Naming<Plan, TlmLaw>, S: Sharing<N>, R: Wait>(
    net: &Net<N, S>,
    rt: &R,
    router: u32,
    hop: u32,
    note: PlatNote,
) -> (Option<RouterRequest>, PlatNote)
    requires hop { hop < hop_count N.frame.world.platform }
    requires leads { LeadsTo N.frame.world.platform hop (Router router) }
    requires note { IsNote N.table note }
    ensures note { IsNote N.table result.1 }
    ensures knew { Within note.knows.known result.1.knows.known }
    ensures below { StandBelow result.1.knows.known result.1.knows.seen }
    ensures look { result.1.knows.looks ≡ note.knows.looks ++ (hop_place N.frame.world hop, fetch_look result.0) ∷ [] }
    ensures fetched { IfSome result.0 (λ r. (r.hop ≡ hop) × IsRequest N.frame N.tokens result.1.knows.known router r) }
{
    let _ = router;
    let (fetched, note) = net.fetch_request(rt, hop, note);
    match fetched {
        None => (None, note),
        Some(
            FetchedRequest {
                leg,
                state: _,
                txn: _,
                at,
                cargo,
            },
        ) => {
            let request = RouterRequest {
                hop,
                leg,
                at,
                cargo,
            };
            (Some(request), note)
        }
    }
}

/// What is behind the window of a router that has an address, in bytes (IEEE 1666-2011, clause 14.7); none
/// exactly where no window has it. `first` is the number of the hop of the router's first window.
pub fn way_behind<N: Naming<Plan, TlmLaw>, S: Sharing<N>>(
    net: &Net<N, S>,
    router: u32,
    first: u32,
    address: u64,
) -> Option<WayBehind>
    requires router { router < length net.now.platform.routers }
    requires first { first ≡ window_hop net.now.platform router 0 }
    ensures { result ≡ way_of net.now router address }
{
    let plan = net.plan();
    let _ = plan.platform();
    match plan.windows(router).decode(address) {
        Some((port, address)) => Some(WayBehind {
            hop: first + port,
            address,
        }),
        None => None,
    }
}

// The hop on which END_REQ is owed.
fn owed_above(accepts: bool, hop: u32) -> Option<u32>
    ensures { result ≡ owed_above accepts hop }
{
    if accepts { Some(hop) } else { None }
}

/// Acquires the reference of the hop below for a request that was fetched, at the time at which it leaves
/// the router: that of its BEGIN_REQ and the router's latency, in picoseconds. The request has the address
/// behind its window then (IEEE 1666-2011, clauses 14.5 and 14.7). Where the router accepts requests,
/// END_REQ is owed above.
pub fn descend<N: Naming<Plan, TlmLaw>, S: Sharing<N>, R: Wait>(
    net: &Net<N, S>,
    rt: &R,
    router: u32,
    accepts: bool,
    latency: Ps,
    note: PlatNote,
    request: RouterRequest,
    way: WayBehind,
) -> (Down, PlatNote)
    requires router { router < length N.frame.world.platform.routers }
    requires mode { accepts ≡ is_accepting N.frame.world.platform (Router router) }
    requires latency { latency ≡ hop_latency N.frame.world request.hop }
    requires note { IsNote N.table note }
    requires request { IsRequest N.frame N.tokens note.knows.known router request }
    requires way { way_of N.frame.world router request.cargo.baton.payload.address ≡ Some way }
    ensures note { IsNote N.table result.1 }
    ensures knew { Within note.knows.known result.1.knows.known }
    ensures below { StandBelow result.1.knows.known result.1.knows.seen }
    ensures look { result.1.knows.looks ≡ note.knows.looks ++ (own_pool N.frame.world request.cargo.baton.txn.initiator, 0) ∷ [] }
    ensures adds { AddsAt (own_pool N.frame.world request.cargo.baton.txn.initiator) note.knows result.1.knows }
    ensures held { (result.0.held.txn ≡ request.cargo.baton.txn) × (result.0.held.above ≡ request.hop) × (result.0.held.below ≡ way.hop) }
    ensures due { result.0.due ≡ later request.at latency }
    ensures down { IsDown N.frame N.tokens result.1.knows.known result.0 }
{
    let _ = router;
    let _ = net.plan().platform();
    let RouterRequest {
        hop,
        leg,
        at,
        cargo,
    } = request;
    let txn = cargo.baton.txn();
    let due = at.saturating_add(latency);
    let above = owed_above(accepts, hop);
    let Descended {
        cargo,
        kept,
        ticket,
        note,
    } = net.descend(rt, txn.initiator, note, cargo, above, way.address, due);
    let held = PassedOn {
        txn,
        above: hop,
        below: way.hop,
        leg,
        kept,
        owed: ticket,
    };
    (Down { held, due, cargo }, note)
}

/// What a request that was to go down has come to.
pub enum Passed {
    /// BEGIN_REQ was made at this time, in picoseconds. The payload waits for the component below.
    Gone {
        held: PassedOn,
        at: Ps,
        note: PlatNote,
    },
    /// The same, and the response comes by return. Its memory is still to be called.
    Now {
        held: PassedOn,
        begun: BegunBelow,
        note: PlatNote,
    },
    /// A request is open on the hop below, or no lane is free. The request may go down as before.
    Busy {
        down: Down,
        note: PlatNote,
    },
}

/// Tries BEGIN_REQ on the hop below, at the time at which the request leaves the router (IEEE 1666-2011,
/// clause 15.2). Where a request is open there or no lane is free, it comes back as it was.
pub fn pass_on<N: Naming<Plan, TlmLaw>, S: Sharing<N>, R: Wait>(
    net: &Net<N, S>,
    rt: &R,
    note: PlatNote,
    down: Down,
) -> Passed
    requires note { IsNote N.table note }
    requires down { IsDown N.frame N.tokens note.knows.known down }
    ensures note { IsNote N.table (passed_note result) }
    ensures knew { Within note.knows.known (passed_note result).knows.known }
    ensures below { StandBelow (passed_note result).knows.known (passed_note result).knows.seen }
    ensures adds { PassAdds N.frame.world down.held.below note.knows result }
    ensures passed { HasPassed N.frame N.tokens down note.knows result }
{
    let Down { held, due, cargo } = down;
    match net.begin_req(rt, held.below, note, cargo, due) {
        Tried::Left {
            answer: _,
            at,
            note,
        } => Passed::Gone { held, at, note },
        Tried::Now {
            answer: _,
            at,
            leg,
            cargo,
            note,
        } => Passed::Now {
            held,
            begun: BegunBelow { at, leg, cargo },
            note,
        },
        Tried::Busy {
            holder: _,
            live: _,
            cargo,
            note,
        } => Passed::Busy {
            down: Down { held, due, cargo },
            note,
        },
    }
}

/// Makes the access of a request whose response comes by return, at the time of its BEGIN_REQ below (IEEE
/// 1666-2011, clause 14). The response may go up after the memory's latency, in picoseconds.
pub fn serve_below<N: Naming<Plan, TlmLaw>, S: Sharing<N>, R: Wait>(
    net: &Net<N, S>,
    rt: &R,
    memory: u32,
    latency: Ps,
    note: PlatNote,
    held: &PassedOn,
    begun: BegunBelow,
) -> (Back, PlatNote)
    requires memory { memory < length N.frame.world.platform.memories }
    requires leads { LeadsTo N.frame.world.platform held.now.below (Memory memory) }
    requires latency { latency ≡ hop_latency N.frame.world held.now.below }
    requires note { IsNote N.table note }
    requires begun { IsBegun N.frame N.tokens note.knows.known held.now begun }
    ensures note { IsNote N.table result.1 }
    ensures knew { Within note.knows.known result.1.knows.known }
    ensures below { StandBelow result.1.knows.known result.1.knows.seen }
    ensures look { result.1.knows.looks ≡ note.knows.looks ++ (memory_place N.frame.world memory, 0) ∷ [] }
    ensures adds { AddsOf (memory_place N.frame.world memory) held.now.txn note.knows result.1.knows }
    ensures served { HasServedBelow N.frame N.tokens latency held.now begun result.1.knows.known result.0 }
{
    let _ = held;
    let BegunBelow { at, leg, cargo } = begun;
    let (cargo, note) = net.serve(rt, memory, note, cargo, at);
    let back = Back {
        at: at.saturating_add(latency),
        leg,
        cargo,
    };
    (back, note)
}

/// Makes the END_REQ that is owed above, at the time of the BEGIN_REQ below (IEEE 1666-2011, clause 15.2).
pub fn end_above<N: Naming<Plan, TlmLaw>, S: Sharing<N>, R: Wait>(
    net: &Net<N, S>,
    rt: &R,
    note: PlatNote,
    held: PassedOn,
    at: Ps,
) -> (PassedOn, PlatNote)
    requires note { IsNote N.table note }
    requires owed { IsSome held.owed }
    requires gone { HasGone N.frame N.tokens note.knows.known held at }
    ensures note { IsNote N.table result.1 }
    ensures knew { Within note.knows.known result.1.knows.known }
    ensures below { StandBelow result.1.knows.known result.1.knows.seen }
    ensures look { result.1.knows.looks ≡ note.knows.looks ++ (hop_place N.frame.world held.above, 0) ∷ [] }
    ensures adds { AddsAt (hop_place N.frame.world held.above) note.knows result.1.knows }
    ensures ended { EndsAbove N.frame N.tokens note.knows.known result.1.knows.known held at result.0 }
{
    let PassedOn {
        txn,
        above,
        below,
        leg,
        kept,
        owed,
    } = held;
    let Some(ticket) = owed else { unreachable!() };
    let (leg, _, note) = net.end_req(rt, above, note, leg, ticket, at);
    let held = PassedOn {
        txn,
        above,
        below,
        leg,
        kept,
        owed: None,
    };
    (held, note)
}
