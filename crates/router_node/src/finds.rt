// The first of several hops at which something waits.
ghost use Rattle.std.specs.List.{AllByRecursion};
ghost use Rattle.view_lists.specs.Lists.{Within};
ghost use Rattle.one_history.specs.Lists.{StandBelow};
ghost use Rattle.shared_object.specs.Steps.{IsNote};
ghost use Rattle.tlm_model.specs.declared.platform.Target.TheVariants.{Router};
ghost use Rattle.node_hops.specs.Hops.{IsHopTo};
ghost use Rattle.router_node.specs.Finds.{HasFoundBack, HasFoundRequest, IsHopBelow};

use plat_net::{Net, PlatNote, Sharing, TlmLaw};
use route_plan::Plan;
use router_moves::{FromBelow, RouterRequest, fetch_down, fetch_up};
use shared_object::Naming;
use std::sync::Wait;

/// A response that was fetched, and the hop below from which it was.
#[derive(Drop)]
pub struct Found {
    pub hop: u32,
    pub fetched: FromBelow,
}

/// Fetches a response from the first of these hops of windows at which one waits. It makes no entry.
pub fn find_back<N: Naming<Plan, TlmLaw>, S: Sharing<N>, R: Wait>(
    net: &Net<N, S>,
    rt: &R,
    hops: &[u32],
    note: PlatNote,
) -> (Option<Found>, PlatNote)
    requires hops { AllByRecursion (λ h. IsHopBelow N.frame.world h) hops.now }
    requires note { IsNote N.table note }
    requires below { StandBelow note.knows.known note.knows.seen }
    ensures note { IsNote N.table result.1 }
    ensures knew { Within note.knows.known result.1.knows.known }
    ensures below { StandBelow result.1.knows.known result.1.knows.seen }
    ensures found { HasFoundBack N.frame N.tokens hops.now note.knows result.1.knows result.0 }
{
    let mut note = note;
    for hop in hops {
        let (fetched, back) = fetch_up(net, rt, *hop, note);
        note = back;
        if let Some(fetched) = fetched {
            return (Some(Found { hop: *hop, fetched }), note);
        }
    }
    (None, note)
}

/// Fetches a request from the first of these hops to the router at which one waits. It makes no entry.
pub fn find_request<N: Naming<Plan, TlmLaw>, S: Sharing<N>, R: Wait>(
    net: &Net<N, S>,
    rt: &R,
    router: u32,
    hops: &[u32],
    note: PlatNote,
) -> (Option<RouterRequest>, PlatNote)
    requires hops { AllByRecursion (λ h. IsHopTo N.frame.world (Router router) h) hops.now }
    requires note { IsNote N.table note }
    requires below { StandBelow note.knows.known note.knows.seen }
    ensures note { IsNote N.table result.1 }
    ensures knew { Within note.knows.known result.1.knows.known }
    ensures below { StandBelow result.1.knows.known result.1.knows.seen }
    ensures found { HasFoundRequest N.frame N.tokens router hops.now note.knows result.1.knows result.0 }
{
    let mut note = note;
    for hop in hops {
        let (request, back) = fetch_down(net, rt, router, *hop, note);
        note = back;
        if let Some(request) = request {
            return (Some(request), note);
        }
    }
    (None, note)
}
