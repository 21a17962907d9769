// A memory behind hops.
ghost use Rattle.std.specs.Prelude.{◌≡◌, ◌<◌, ◌++◌, true, length, None};
ghost use Rattle.std.specs.List.{AllByRecursion};
ghost use Rattle.view_lists.specs.Lists.{Within};
ghost use Rattle.one_history.specs.Lists.{StandBelow};
ghost use Rattle.shared_object.specs.Steps.{IsNote};
ghost use Rattle.tlm_model.specs.declared.platform.Target.TheVariants.{Memory};
ghost use Rattle.route_plan.specs.Valid.{hop_count};
ghost use Rattle.plat_net.specs.Places.{hop_place};
ghost use Rattle.node_hops.specs.Hops.{IsHopTo};
ghost use Rattle.node_hops.specs.Steps.{AddsAt, HasNew, IsByNode};
ghost use Rattle.node_hops.specs.Traits.{is_accepting};
ghost use Rattle.target_node.specs.Items.{IsFetchedWith, IsWaiting};
ghost use Rattle.target_node.specs.Node.{HasLooked, HasPumped, HasSent, HasServedFirst, HasTakenIn, IsTarget, end_looks};

use crate::items::{FromHop, MemoryRequest, MemoryResponse};
use crate::moves::{end, fetch, respond, serve};
use event_queue::EventQueue;
use node_hops::{Node, Pumped};
use plat_net::{Net, PlatNote, Sharing, TlmLaw};
use route_plan::Plan;
use shared_object::Naming;
use std::sync::Wait;
use tlm_types::Ps;
use token_book::Ticket;

/// A memory with the hops that lead to it, in order. What it fetched waits in a queue, by the times at which
/// the responses are due; a response that was refused is held.
pub struct TargetNode {
    pub(crate) memory: u32,
    pub(crate) hops: Vec<u32>,
    pub(crate) accepts: bool,
    pub(crate) latency: Ps,
    pub(crate) queue: EventQueue<MemoryRequest>,
    pub(crate) held: Option<MemoryResponse>,
}

// Written out, so that crates above call it and needn't prove again how each part is let go of.
impl Drop for TargetNode {
    fn drop(self) {
        let TargetNode {
            memory: _,
            hops: _hops,
            accepts: _,
            latency: _,
            queue: _queue,
            held: _held,
        } = self;
    }
}

// Fetches a request from the first of these hops at which one waits.
fn fetch_first<N: Naming<Plan, TlmLaw>, S: Sharing<N>, R: Wait>(
    net: &Net<N, S>,
    rt: &R,
    memory: u32,
    accepts: bool,
    hops: &[u32],
    note: PlatNote,
) -> (Option<FromHop>, PlatNote)
    requires memory { memory < length N.frame.world.platform.memories }
    requires hops { AllByRecursion (λ h. IsHopTo N.frame.world (Memory memory) h) hops.now }
    requires mode { accepts ≡ is_accepting N.frame.world.platform (Memory memory) }
    requires note { IsNote N.table note }
    requires below { StandBelow note.knows.known note.knows.seen }
    ensures note { IsNote N.table result.1 }
    ensures knew { Within note.knows.known result.1.knows.known }
    ensures below { StandBelow result.1.knows.known result.1.knows.seen }
    ensures looked { HasLooked N.frame N.tokens memory accepts hops.now note.knows result.1.knows result.0 }
{
    let mut note = note;
    for hop in hops {
        let (fetched, back) = fetch(net, rt, memory, accepts, *hop, note);
        note = back;
        if let Some(fetched) = fetched {
            return (Some(fetched), note);
        }
    }
    (None, note)
}

// Makes END_REQ for a request that was fetched, where it is owed.
fn end_owed<N: Naming<Plan, TlmLaw>, S: Sharing<N>, R: Wait>(
    net: &Net<N, S>,
    rt: &R,
    memory: u32,
    accepts: bool,
    note: PlatNote,
    request: MemoryRequest,
    ticket: Option<Ticket>,
) -> (MemoryRequest, PlatNote)
    requires memory { memory < length N.frame.world.platform.memories }
    requires hop { request.hop < hop_count N.frame.world.platform }
    requires note { IsNote N.table note }
    requires below { StandBelow note.knows.known note.knows.seen }
    requires fetched { IsFetchedWith N.frame N.tokens memory note.knows.known request.hop accepts request ticket }
    ensures note { IsNote N.table result.1 }
    ensures knew { Within note.knows.known result.1.knows.known }
    ensures below { StandBelow result.1.knows.known result.1.knows.seen }
    ensures looks { result.1.knows.looks ≡ note.knows.looks ++ end_looks N.frame.world request.hop accepts }
    ensures hop { result.0.hop ≡ request.hop }
    ensures waits { IsWaiting N.frame N.tokens memory result.1.knows.known result.0 }
    ensures adds { accepts ≡ true → AddsAt (hop_place N.frame.world request.hop) note.knows result.1.knows }
{
    let _ = accepts;
    let Some(ticket) = ticket else {
        return (request, note);
    };
    end(net, rt, memory, note, request, ticket)
}

impl TargetNode {
    // Whether a request may wait at one of its hops.
    fn may_have_request<N: Naming<Plan, TlmLaw>, S: Sharing<N>>(&self, net: &Net<N, S>) -> bool {
        for hop in &self.hops {
            if net.may_have_request(*hop) {
                return true;
            }
        }
        false
    }

    /// Tries the response that is held, if one is, with BEGIN_RESP (IEEE 1666-2011, clause 15.2). Whether it was
    /// sent: that is one entry, else there is none.
    pub fn send<N: Naming<Plan, TlmLaw>, S: Sharing<N>, R: Wait>(
        &mut self,
        net: &Net<N, S>,
        rt: &R,
        note: PlatNote,
    ) -> (bool, PlatNote)
        requires target { IsTarget N.frame N.tokens self.old note.knows.known }
        requires note { IsNote N.table note }
        requires below { StandBelow note.knows.known note.knows.seen }
        ensures target { IsTarget N.frame N.tokens self.new result.1.knows.known }
        ensures note { IsNote N.table result.1 }
        ensures knew { Within note.knows.known result.1.knows.known }
        ensures below { StandBelow result.1.knows.known result.1.knows.seen }
        ensures sent { HasSent N.frame N.tokens self.old self.new note.knows result.1.knows result.0 }
        ensures adds { result.0 ≡ true → HasNew (IsByNode N.frame.world (Memory self.old.memory)) note.knows.known result.1.knows.known }
    {
        if self.held.is_none() {
            return (false, note);
        }
        let Some(response) = self.held.take() else {
            unreachable!()
        };
        let (back, note) = respond(net, rt, note, response);
        let Some(back) = back else {
            return (true, note);
        };
        self.held = Some(back);
        (false, note)
    }

    /// Takes a request in, where the queue has room and one waits at a hop, in order of hops. Whether it did. Its
    /// END_REQ, where the memory's mode is so, is the one entry.
    pub fn take_in<N: Naming<Plan, TlmLaw>, S: Sharing<N>, R: Wait>(
        &mut self,
        net: &Net<N, S>,
        rt: &R,
        note: PlatNote,
    ) -> (bool, PlatNote)
        requires target { IsTarget N.frame N.tokens self.old note.knows.known }
        requires note { IsNote N.table note }
        requires below { StandBelow note.knows.known note.knows.seen }
        ensures target { IsTarget N.frame N.tokens self.new result.1.knows.known }
        ensures note { IsNote N.table result.1 }
        ensures knew { Within note.knows.known result.1.knows.known }
        ensures below { StandBelow result.1.knows.known result.1.knows.seen }
        ensures taken { HasTakenIn N.frame N.tokens self.old self.new note.knows result.1.knows result.0 }
        ensures adds { result.0 ≡ true → self.old.accepts ≡ true → HasNew (IsByNode N.frame.world (Memory self.old.memory)) note.knows.known result.1.knows.known }
    {
        if self.queue.len() >= self.queue.room() {
            return (false, note);
        }
        let (fetched, note) = fetch_first(
            net,
            rt,
            self.memory,
            self.accepts,
            self.hops.as_slice(),
            note,
        );
        let Some(FromHop { request, ticket }) = fetched else {
            return (false, note);
        };
        let (request, note) = end_owed(net, rt, self.memory, self.accepts, note, request, ticket);
        let at = request.at.saturating_add(self.latency);
        self.queue.notify(request, at);
        (true, note)
    }

    /// Serves the first request of the queue, where no response is held, and holds its response. Whether there was
    /// one: its access is one entry.
    pub fn serve_first<N: Naming<Plan, TlmLaw>, S: Sharing<N>, R: Wait>(
        &mut self,
        net: &Net<N, S>,
        rt: &R,
        note: PlatNote,
    ) -> (bool, PlatNote)
        requires target { IsTarget N.frame N.tokens self.old note.knows.known }
        requires free { self.old.held ≡ None }
        requires note { IsNote N.table note }
        requires below { StandBelow note.knows.known note.knows.seen }
        ensures target { IsTarget N.frame N.tokens self.new result.1.knows.known }
        ensures note { IsNote N.table result.1 }
        ensures knew { Within note.knows.known result.1.knows.known }
        ensures below { StandBelow result.1.knows.known result.1.knows.seen }
        ensures served { HasServedFirst N.frame N.tokens self.old self.new note.knows result.1.knows result.0 }
        ensures adds { result.0 ≡ true → HasNew (IsByNode N.frame.world (Memory self.old.memory)) note.knows.known result.1.knows.known }
    {
        let Some(now) = self.queue.next_time() else {
            return (false, note);
        };
        let Some((_, request)) = self.queue.pop(now) else {
            unreachable!()
        };
        let (response, note) = serve(net, rt, self.memory, self.latency, note, request);
        self.held = Some(response);
        (true, note)
    }
}

impl<N: Naming<Plan, TlmLaw>> Node<N> for TargetNode {
    ghost use Rattle.target_node.specs.Node.{IsTarget};

    ghost keeps = { IsTarget N.frame N.tokens };

    /// A pump does the first of these that applies. A response that is held is tried again; if it is sent, that
    /// is all. Where the queue has room and a request waits at a hop, in order of hops, the request is fetched,
    /// ended where the memory's mode is so, and put into the queue at its time plus the latency. Where no response
    /// is held and the queue isn't empty, its first request is served, and its response is tried. Else there is
    /// nothing to do. It takes no memory and can't fail.
    fn pump<S: Sharing<N>, R: Wait>(
        &mut self,
        net: &Net<N, S>,
        rt: &R,
        note: PlatNote,
    ) -> (Pumped, PlatNote)
        requires node { IsTarget N.frame N.tokens self.old note.knows.known }
        requires note { IsNote N.table note }
        requires below { StandBelow note.knows.known note.knows.seen }
        ensures node { IsTarget N.frame N.tokens self.new result.1.knows.known }
        ensures note { IsNote N.table result.1 }
        ensures knew { Within note.knows.known result.1.knows.known }
        ensures below { StandBelow result.1.knows.known result.1.knows.seen }
        ensures pumped { HasPumped N.frame N.tokens self.old self.new note.knows result.1.knows result.0 }
    {
        let (sent, note) = self.send(net, rt, note);
        if sent {
            return (Pumped::Did, note);
        }
        let (taken, note) = self.take_in(net, rt, note);
        if taken {
            return (Pumped::Did, note);
        }
        if self.held.is_some() {
            return (Pumped::Nothing, note);
        }
        let (served, note) = self.serve_first(net, rt, note);
        if !served {
            return (Pumped::Nothing, note);
        }
        let (_, note) = self.send(net, rt, note);
        (Pumped::Did, note)
    }

    /// Whether a pump may find something to do, by what the net tells of hops. No clause speaks of it.
    fn may_move<S: Sharing<N>>(&self, net: &Net<N, S>) -> bool {
        let tries = match &self.held {
            Some(response) => net.may_respond(response.hop),
            None => self.queue.len() > 0,
        };
        tries || self.queue.len() < self.queue.room() && self.may_have_request(net)
    }
}
