// The calls at the hops of a net, and at the memories behind them.
ghost use Rattle.std.specs.Prelude.{◌≡◌, ◌<◌, [], ◌∷◌, ◌++◌, length, slice_get, IfSome, IsSome};
ghost use Rattle.std.specs.Option.{option_map};
ghost use Rattle.view_lists.specs.Lists.{Within};
ghost use Rattle.one_history.specs.Lists.{StandBelow};
ghost use Rattle.shared_object.specs.Steps.{IsNote};
ghost use Rattle.token_book.specs.Ticket.{IsTicket};
ghost use Rattle.region_object.specs.declared.call.RegionReply.TheVariants.{Accessed};
ghost use Rattle.route_plan.specs.Routes.{ends_of};
ghost use Rattle.route_plan.specs.Valid.{hop_count};
ghost use Rattle.hop_object.specs.Objects.{look_of};
ghost use Rattle.hop_object.specs.declared.call.HopCall.TheVariants as Calls;
ghost use Rattle.hop_object.specs.declared.call.HopReply.TheVariants as Replies;
ghost use Rattle.flow_model.specs.Platform.{world_of};
ghost use Rattle.cargo_net.specs.Answered.{IsAnsweredAs, answered_note, responded_reply};
ghost use Rattle.cargo_net.specs.Ends.{HasEndedRequest, HasEndedResponse};
ghost use Rattle.cargo_net.specs.Fetched.{HasFetchedRequest, HasFetchedResponse, down_reply, ended_reply, up_reply};
ghost use Rattle.cargo_net.specs.Forwards.{HasForwarded, IsForwarded, forwarded_note};
ghost use Rattle.cargo_net.specs.Hops.{HasAnswered};
ghost use Rattle.cargo_net.specs.Memories.{HasServedCall};
ghost use Rattle.cargo_net.specs.Serves.{access_call};
ghost use Rattle.cargo_net.specs.Tried.{IsTried, begun_reply, tried_note};
ghost use Rattle.cargo_net.specs.Wallets.{item_given};
ghost use Rattle.plat_net.specs.HopCalls.{CanBegin, CanEndRequest, CanEndResponse, CanRespond};
ghost use Rattle.plat_net.specs.MemoryCalls.{CanServe, IsServedAt};
ghost use Rattle.plat_net.specs.Places.{hop_place, memory_behind, memory_place};

use crate::law::{PlatNote, SharedMemory, TlmLaw};
use crate::net::Net;
use crate::sharing::Sharing;
use cargo_model::Cargo;
use cargo_net::{Answered, FetchedRequest, FetchedResponse, Forwarded, Tried};
use hop_object::Leg;
use route_plan::{Down, HopEnds, Plan};
use shared_object::Naming;
use std::sync::Wait;
use tlm_types::{Ps, TxnId};
use token_book::Ticket;

impl<N: Naming<Plan, TlmLaw>, S: Sharing<N>> Net<N, S> {
    // What a hop leads to: the memory, if it is one, and the component's latency in picoseconds.
    fn behind(&self, hop: u32) -> (Option<&SharedMemory<N, S>>, Ps)
        requires hop { hop < hop_count self.now.platform }
        ensures there { IsSome (slice_get (ends_of self.now.platform) hop) }
        ensures memory { option_map (λ m. m.now.number) result.0 ≡ memory_behind self.now hop }
        ensures latency { result.1 ≡ ((world_of self.now).hop hop).latency }
    {
        let Some(HopEnds { up: _, down }) = self.plan().hop_ends(hop) else {
            unreachable!()
        };
        let platform = self.plan().platform();
        match down {
            Down::Memory(memory) => {
                let row = &platform.memories.as_slice()[memory as usize];
                (Some(self.memory(memory)), row.traits.latency)
            }
            Down::Router(router) => {
                let row = &platform.routers.as_slice()[router as usize];
                (None, row.latency)
            }
        }
    }

    /// Makes BEGIN_REQ on a hop with a payload, with a ticket of its own wallet (IEEE 1666-2011, clause
    /// 15.2). It is tried at `at` picoseconds. Where the hop leads to a memory that gives the response with
    /// its answer, its access is made in this call, after the hop's step; a router never answers so. `Busy`
    /// comes exactly where a request is open on the hop or no lane is free: no entry is made, and payload
    /// and tickets come back. It can't fail otherwise.
    pub fn forward<R: Wait>(
        &self,
        rt: &R,
        hop: u32,
        note: PlatNote,
        cargo: Cargo,
        at: Ps,
    ) -> Forwarded
        requires hop { hop < hop_count N.frame.world.platform }
        requires note { IsNote N.table note }
        requires can { CanBegin N.frame N.tokens hop cargo at note.knows.known }
        ensures note { IsNote N.table (forwarded_note result) }
        ensures knew { Within note.knows.known (forwarded_note result).knows.known }
        ensures below { StandBelow (forwarded_note result).knows.known (forwarded_note result).knows.seen }
        ensures answer { HasForwarded N.frame N.tokens (hop_place N.frame.world hop) hop cargo at note.knows (forwarded_note result).knows result }
        ensures forwarded { (can : CanBegin N.frame N.tokens hop cargo at note.knows.known) →
            IsForwarded N.frame N.tokens (hop_place N.frame.world hop) (memory_behind N.frame.world hop) ((world_of N.frame.world).hop hop).latency cargo at can.pass can.hop note.knows result }
    {
        let _ = self.plan().platform();
        let (memory, latency) = self.behind(hop);
        let forwarded = cargo_net::forward(
            self.hop(hop),
            memory,
            latency,
            rt,
            self.history(),
            self.tickets(),
            note,
            cargo,
            at,
        );
        self.signs().note_forwarded(hop, &forwarded);
        forwarded
    }

    /// Makes BEGIN_REQ on a hop with a payload, with a ticket of its own wallet (IEEE 1666-2011, clause
    /// 15.2), and leaves the access at the memory, where the response comes by return, to the caller. It is
    /// tried at `at` picoseconds. `Busy` comes exactly where a request is open on the hop or no lane is free:
    /// no entry is made, and payload and tickets come back. It can't fail otherwise.
    #[inline(always)]
    pub fn begin_req<R: Wait>(
        &self,
        rt: &R,
        hop: u32,
        note: PlatNote,
        cargo: Cargo,
        at: Ps,
    ) -> Tried
        requires hop { hop < hop_count N.frame.world.platform }
        requires note { IsNote N.table note }
        requires can { CanBegin N.frame N.tokens hop cargo at note.knows.known }
        ensures note { IsNote N.table (tried_note result) }
        ensures knew { Within note.knows.known (tried_note result).knows.known }
        ensures below { StandBelow (tried_note result).knows.known (tried_note result).knows.seen }
        ensures answer { HasAnswered N.frame N.tokens (hop_place N.frame.world hop) hop note.knows (tried_note result).knows
            (Calls.BeginReq cargo.baton.txn at (item_given N.tokens (hop_place N.frame.world hop) cargo)) (begun_reply (item_given N.tokens (hop_place N.frame.world hop) cargo) result) }
        ensures tried { (can : CanBegin N.frame N.tokens hop cargo at note.knows.known) →
            IsTried N.frame N.tokens (hop_place N.frame.world hop) cargo at can.pass can.hop note.knows result }
    {
        let _ = self.plan().platform();
        let tried = cargo_net::begin_req(
            self.hop(hop),
            rt,
            self.history(),
            self.tickets(),
            note,
            cargo,
            at,
        );
        self.signs().note_tried(hop, &tried);
        tried
    }

    /// Makes END_REQ on a hop, by the leg of a lane whose request is open and a ticket of the hop, which is
    /// spent (IEEE 1666-2011, clause 15.2). It is tried at `at` picoseconds, and answers the leg of the same
    /// lane, which waits for its response, and the time of the entry. It can't fail.
    #[inline(always)]
    pub fn end_req<R: Wait>(
        &self,
        rt: &R,
        hop: u32,
        note: PlatNote,
        leg: Leg,
        ticket: Ticket,
        at: Ps,
    ) -> (Leg, Ps, PlatNote)
        requires hop { hop < hop_count N.frame.world.platform }
        requires note { IsNote N.table note }
        requires ticket { IsTicket N.tokens (hop_place N.frame.world hop) ticket }
        requires can { CanEndRequest N.frame N.tokens hop leg at note.knows.known }
        ensures note { IsNote N.table result.2 }
        ensures knew { Within note.knows.known result.2.knows.known }
        ensures below { StandBelow result.2.knows.known result.2.knows.seen }
        ensures look { result.2.knows.looks ≡ note.knows.looks ++ (hop_place N.frame.world hop, 0) ∷ [] }
        ensures answer { HasAnswered N.frame N.tokens (hop_place N.frame.world hop) hop note.knows result.2.knows
            (Calls.EndReq leg at) (Replies.EndedReq result.0 result.1) }
        ensures ended { (can : CanEndRequest N.frame N.tokens hop leg at note.knows.known) →
            HasEndedRequest N.frame N.tokens (hop_place N.frame.world hop) at can.x can.pass can.hop result.0 result.1 result.2.knows.known }
    {
        let _ = self.plan();
        let ended = cargo_net::end_req(
            self.hop(hop),
            rt,
            self.history(),
            self.tickets(),
            note,
            leg,
            ticket,
            at,
        );
        self.signs().note_end_req(hop);
        ended
    }

    /// Makes BEGIN_RESP on a hop with a payload, by the leg of its lane and with a ticket of its own wallet
    /// (IEEE 1666-2011, clause 15.2). It is tried at `at` picoseconds. `Sent` spends the ticket and hands
    /// the payload to the component upstream. `Busy` comes exactly where a response is open on the hop: no
    /// entry is made, and leg, payload and tickets come back. It can't fail otherwise.
    #[inline(always)]
    pub fn backward<R: Wait>(
        &self,
        rt: &R,
        hop: u32,
        note: PlatNote,
        leg: Leg,
        cargo: Cargo,
        at: Ps,
    ) -> Answered
        requires hop { hop < hop_count N.frame.world.platform }
        requires note { IsNote N.table note }
        requires can { CanRespond N.frame N.tokens hop leg cargo at note.knows.known }
        ensures note { IsNote N.table (answered_note result) }
        ensures knew { Within note.knows.known (answered_note result).knows.known }
        ensures below { StandBelow (answered_note result).knows.known (answered_note result).knows.seen }
        ensures answer { HasAnswered N.frame N.tokens (hop_place N.frame.world hop) hop note.knows (answered_note result).knows
            (Calls.BeginResp leg at (item_given N.tokens (hop_place N.frame.world hop) cargo)) (responded_reply (item_given N.tokens (hop_place N.frame.world hop) cargo) result) }
        ensures responded { (can : CanRespond N.frame N.tokens hop leg cargo at note.knows.known) →
            IsAnsweredAs N.frame N.tokens (hop_place N.frame.world hop) leg cargo at can.pass can.hop note.knows result }
    {
        let _ = self.plan().platform();
        let was = leg.state();
        let answered = cargo_net::backward(
            self.hop(hop),
            rt,
            self.history(),
            self.tickets(),
            note,
            leg,
            cargo,
            at,
        );
        self.signs().note_answered(hop, was, &answered);
        answered
    }

    /// Makes END_RESP on a hop, by the leg of a lane whose response is open and a ticket of the hop, which
    /// is spent (IEEE 1666-2011, clause 15.2). It is tried at `at` picoseconds, and answers the time of the
    /// entry. It can't fail.
    #[inline(always)]
    pub fn end_resp<R: Wait>(
        &self,
        rt: &R,
        hop: u32,
        note: PlatNote,
        leg: Leg,
        ticket: Ticket,
        at: Ps,
    ) -> (Ps, PlatNote)
        requires hop { hop < hop_count N.frame.world.platform }
        requires note { IsNote N.table note }
        requires ticket { IsTicket N.tokens (hop_place N.frame.world hop) ticket }
        requires can { CanEndResponse N.frame N.tokens hop leg at note.knows.known }
        ensures note { IsNote N.table result.1 }
        ensures knew { Within note.knows.known result.1.knows.known }
        ensures below { StandBelow result.1.knows.known result.1.knows.seen }
        ensures look { result.1.knows.looks ≡ note.knows.looks ++ (hop_place N.frame.world hop, 0) ∷ [] }
        ensures answer { HasAnswered N.frame N.tokens (hop_place N.frame.world hop) hop note.knows result.1.knows
            (Calls.EndResp leg at) (Replies.EndedResp result.0) }
        ensures ended { (can : CanEndResponse N.frame N.tokens hop leg at note.knows.known) →
            HasEndedResponse N.frame at can.x can.pass can.hop result.0 result.1.knows.known }
    {
        let _ = self.plan();
        let ended = cargo_net::end_resp(
            self.hop(hop),
            rt,
            self.history(),
            self.tickets(),
            note,
            leg,
            ticket,
            at,
        );
        self.signs().note_end_resp(hop);
        ended
    }

    /// Fetches the request that waits on a hop with the least time, equal times in order of arrival; none
    /// exactly where none waits. It makes no entry and spends no ticket.
    #[inline(always)]
    pub fn fetch_request<R: Wait>(
        &self,
        rt: &R,
        hop: u32,
        note: PlatNote,
    ) -> (Option<FetchedRequest>, PlatNote)
        requires hop { hop < hop_count N.frame.world.platform }
        requires note { IsNote N.table note }
        ensures note { IsNote N.table result.1 }
        ensures knew { Within note.knows.known result.1.knows.known }
        ensures below { StandBelow result.1.knows.known result.1.knows.seen }
        ensures look { result.1.knows.looks ≡ note.knows.looks ++ (hop_place N.frame.world hop, look_of (down_reply result.0)) ∷ [] }
        ensures answer { HasAnswered N.frame N.tokens (hop_place N.frame.world hop) hop note.knows result.1.knows
            Calls.FetchDown (down_reply result.0) }
        ensures fetched { IfSome result.0 (λ r. HasFetchedRequest N.frame N.tokens (hop_place N.frame.world hop) r result.1.knows.known) }
    {
        let _ = self.plan();
        let fetched = cargo_net::fetch_request(
            self.hop(hop),
            rt,
            self.history(),
            self.tickets(),
            note,
        );
        self.signs().note_request(hop, &fetched.0);
        fetched
    }

    /// Fetches the response that waits on a hop with the least time, equal times in order of arrival; none
    /// exactly where none waits. The leg of END_RESP comes where the component upstream accepts responses.
    /// It makes no entry and spends no ticket.
    #[inline(always)]
    pub fn fetch_response<R: Wait>(
        &self,
        rt: &R,
        hop: u32,
        note: PlatNote,
    ) -> (Option<FetchedResponse>, PlatNote)
        requires hop { hop < hop_count N.frame.world.platform }
        requires note { IsNote N.table note }
        ensures note { IsNote N.table result.1 }
        ensures knew { Within note.knows.known result.1.knows.known }
        ensures below { StandBelow result.1.knows.known result.1.knows.seen }
        ensures look { result.1.knows.looks ≡ note.knows.looks ++ (hop_place N.frame.world hop, look_of (up_reply result.0)) ∷ [] }
        ensures answer { HasAnswered N.frame N.tokens (hop_place N.frame.world hop) hop note.knows result.1.knows
            Calls.FetchUp (up_reply result.0) }
        ensures fetched { IfSome result.0 (λ r. HasFetchedResponse N.frame N.tokens (hop_place N.frame.world hop) r result.1.knows.known) }
    {
        let _ = self.plan();
        let fetched = cargo_net::fetch_response(
            self.hop(hop),
            rt,
            self.history(),
            self.tickets(),
            note,
        );
        self.signs().note_response(hop, &fetched.0);
        fetched
    }

    /// Looks whether a transaction has ended on a hop: true exactly where no lane is held by it. It makes no
    /// entry and spends no ticket.
    #[inline(always)]
    pub fn has_ended<R: Wait>(
        &self,
        rt: &R,
        hop: u32,
        note: PlatNote,
        txn: TxnId,
    ) -> (bool, PlatNote)
        requires hop { hop < hop_count N.frame.world.platform }
        requires note { IsNote N.table note }
        ensures note { IsNote N.table result.1 }
        ensures knew { Within note.knows.known result.1.knows.known }
        ensures below { StandBelow result.1.knows.known result.1.knows.seen }
        ensures look { result.1.knows.looks ≡ note.knows.looks ++ (hop_place N.frame.world hop, look_of (ended_reply result.0)) ∷ [] }
        ensures answer { HasAnswered N.frame N.tokens (hop_place N.frame.world hop) hop note.knows result.1.knows
            (Calls.Ended txn) (ended_reply result.0) }
    {
        let _ = self.plan();
        cargo_net::has_ended(self.hop(hop), rt, self.history(), self.tickets(), note, txn)
    }

    /// Makes the access of a request at its memory, with a ticket of the payload's own wallet, for its bytes
    /// (IEEE 1666-2011, clause 14). Its entry has the time `at`, in picoseconds, of the BEGIN_REQ on the hop
    /// to the memory. The payload comes back with its status and, of a read, its bytes. It can't fail.
    #[inline(always)]
    pub fn serve<R: Wait>(
        &self,
        rt: &R,
        memory: u32,
        note: PlatNote,
        cargo: Cargo,
        at: Ps,
    ) -> (Cargo, PlatNote)
        requires memory { memory < length N.frame.world.platform.memories }
        requires note { IsNote N.table note }
        requires can { CanServe N.frame N.tokens memory cargo at note.knows.known }
        ensures note { IsNote N.table result.1 }
        ensures knew { Within note.knows.known result.1.knows.known }
        ensures below { StandBelow result.1.knows.known result.1.knows.seen }
        ensures look { result.1.knows.looks ≡ note.knows.looks ++ (memory_place N.frame.world memory, 0) ∷ [] }
        ensures answer { HasServedCall N.frame N.tokens (memory_place N.frame.world memory) memory note.knows result.1.knows
            (access_call cargo at) (Accessed result.0.baton.payload) }
        ensures served { (can : CanServe N.frame N.tokens memory cargo at note.knows.known) →
            IsServedAt N.frame N.tokens memory cargo at can.pass can.hop can.fetched.down.asked.access result.0 result.1.knows.known }
    {
        let _ = self.plan().platform();
        cargo_net::serve(
            self.memory(memory),
            rt,
            self.history(),
            self.tickets(),
            note,
            cargo,
            at,
        )
    }
}
