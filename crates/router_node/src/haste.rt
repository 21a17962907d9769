// What spares a router calls in vain: where a going through in haste looks, and which tries it leaves out. No clause rests
// on what the net tells of a hop.
ghost use Rattle.std.specs.Prelude.{◌≡◌, ◌<◌, ◌≤◌, length, true, false};
ghost use Rattle.router_node.specs.Finds.{AreLookedAt};

use crate::node::RouterNode;
use crate::stage::{Stage, Step, is_about};
use plat_net::{Net, Sharing, TlmLaw};
use route_plan::Plan;
use shared_object::Naming;

/// What a router looks for at a hop: a request from above, or a response from below.
#[derive(Clone, Copy)]
pub(crate) enum Wanted {
    Request,
    Response,
}

// Whether it may wait there.
fn may_wait<N: Naming<Plan, TlmLaw>, S: Sharing<N>>(
    net: &Net<N, S>,
    wanted: Wanted,
    hop: u32,
) -> bool {
    match wanted {
        Wanted::Request => net.may_have_request(hop),
        Wanted::Response => net.may_have_response(hop),
    }
}

// The one that stands at a place.
fn one_at(hops: &[u32], at: usize) -> &[u32]
    requires { at < length hops.now }
    ensures { AreLookedAt true hops.now result.now }
{
    let (_, rest) = hops.split_at(at);
    let (one, _) = rest.split_at(1);
    one
}

// None of them.
fn no_hop(hops: &[u32]) -> &[u32]
    ensures { AreLookedAt true hops.now result.now }
{
    let (none, _) = hops.split_at(0);
    none
}

/// The hops at which to look: all of these, or in haste the first at which what is wanted may wait.
pub(crate) fn hops_at<'a, N: Naming<Plan, TlmLaw>, S: Sharing<N>>(
    net: &Net<N, S>,
    hasty: bool,
    wanted: Wanted,
    hops: &'a [u32],
) -> &'a [u32]
    ensures { AreLookedAt hasty hops.now result.now }
{
    if !hasty {
        return hops;
    }
    for at in 0..hops.len() {
        if may_wait(net, wanted, hops[at]) {
            return one_at(hops, at);
        }
    }
    no_hop(hops)
}

// Whether the step that is one for a transaction may move it.
fn may_go<N: Naming<Plan, TlmLaw>, S: Sharing<N>>(net: &Net<N, S>, stage: &Stage) -> bool {
    match stage {
        Stage::Sent(away) => away.ended || net.may_respond(away.above),
        Stage::Up(response, _) => net.may_respond(response.hop),
        Stage::Down(down) => net.may_begin(down.held.below),
        Stage::Below(_) => false,
    }
}

// The first place from here on, and in front of the end, whose transaction a step may move.
#[inline(always)]
fn next_due<N: Naming<Plan, TlmLaw>, S: Sharing<N>>(
    net: &Net<N, S>,
    end: usize,
    what: Step,
    held: &[Stage],
    from: usize,
) -> usize
    requires { from ≤ length held.now }
    ensures on { from ≤ result }
    ensures within { result ≤ length held.now }
{
    for at in from..held.len() {
        if at >= end {
            return held.len();
        }
        let stage = &held[at];
        if is_about(what, stage) && may_go(net, stage) {
            return at;
        }
    }
    held.len()
}

/// The place at which to make a step next: this one, or in haste the first from here on, and in front of the end, whose
/// transaction it may move. It is behind all of them where there is none. Each step has a loop of its own, which asks for
/// nothing else.
#[inline(always)]
pub(crate) fn next_place<N: Naming<Plan, TlmLaw>, S: Sharing<N>>(
    net: &Net<N, S>,
    hasty: bool,
    end: usize,
    what: Step,
    held: &[Stage],
    from: usize,
) -> usize
    requires { from ≤ length held.now }
    ensures on { from ≤ result }
    ensures within { result ≤ length held.now }
    ensures each { hasty ≡ false → result ≡ from }
{
    if !hasty {
        return from;
    }
    match what {
        Step::End => next_due(net, end, Step::End, held, from),
        Step::Send => next_due(net, end, Step::Send, held, from),
        Step::Pass => next_due(net, end, Step::Pass, held, from),
    }
}

/// How far each step of a going through in haste is to look: the place behind the last transaction that it may move, or 0.
/// Where some have ended before, those behind them stand nearer.
#[derive(Clone, Copy)]
pub(crate) struct Due {
    pub(crate) ends: usize,
    pub(crate) sends: usize,
    pub(crate) passes: usize,
}

// What is due in haste. Whether a request may go down is asked when its turn comes, since what is ended before may make way.
fn due_in_haste<N: Naming<Plan, TlmLaw>, S: Sharing<N>>(net: &Net<N, S>, held: &[Stage]) -> Due {
    let mut due = Due {
        ends: 0,
        sends: 0,
        passes: 0,
    };
    for at in 0..held.len() {
        let stage = &held[at];
        match stage {
            Stage::Sent(_) => {
                if may_go(net, stage) {
                    due.ends = at + 1;
                }
            }
            Stage::Up(_, _) => {
                if may_go(net, stage) {
                    due.sends = at + 1;
                }
            }
            Stage::Down(_) => due.passes = at + 1,
            Stage::Below(_) => {}
        }
    }
    due
}

impl Due {
    /// By one look over the transactions that are held. Nobody asks for it but in haste.
    pub(crate) fn of<N: Naming<Plan, TlmLaw>, S: Sharing<N>>(
        net: &Net<N, S>,
        hasty: bool,
        held: &[Stage],
    ) -> Due {
        if hasty {
            return due_in_haste(net, held);
        }
        Due {
            ends: 0,
            sends: 0,
            passes: 0,
        }
    }
}

/// Whether a pump may move a transaction, by what the net tells of hops.
pub(crate) fn may_move<N: Naming<Plan, TlmLaw>, S: Sharing<N>>(
    router: &RouterNode,
    net: &Net<N, S>,
) -> bool {
    let back = hops_at(net, true, Wanted::Response, router.below.as_slice());
    if router.stray.is_none() && !back.is_empty() {
        return true;
    }
    let requests = hops_at(net, true, Wanted::Request, router.above.as_slice());
    if router.held.len() < router.room as usize && !requests.is_empty() {
        return true;
    }
    for at in 0..router.held.len() {
        if may_go(net, &router.held[at]) {
            return true;
        }
    }
    false
}
