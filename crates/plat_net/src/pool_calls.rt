// The calls at the pools of initiators.
ghost use Rattle.std.specs.Prelude.{◌≡◌, ℕ, ◌+◌, ◌<◌, [], ◌∷◌, ◌++◌, IfSome};
ghost use Rattle.view_lists.specs.Lists.{Within};
ghost use Rattle.one_history.specs.Lists.{StandBelow};
ghost use Rattle.shared_object.specs.Steps.{IsNote};
ghost use Rattle.token_book.specs.Ticket.{IsTicket};
ghost use Rattle.route_plan.specs.Valid.{hop_count};
ghost use Rattle.payload_pool.specs.Calls.{look_of};
ghost use Rattle.payload_pool.specs.declared.call.PoolCall.TheVariants as Calls;
ghost use Rattle.payload_pool.specs.declared.call.PoolReply.TheVariants as Replies;
ghost use Rattle.flow_model.specs.Events.{FindsAt, IsAcquire};
ghost use Rattle.cargo_model.specs.Known.{Known};
ghost use Rattle.cargo_model.specs.Travel.{GoesDown, Ready};
ghost use Rattle.cargo_net.specs.Pools.{HasAcquired, HasAcquiredOne, HasPooled, HasReleased};
ghost use Rattle.cargo_net.specs.Taken.{IsTakenAs, taken_note, took_reply};
ghost use Rattle.cargo_net.specs.Wallets.{IsTicketAt};
ghost use Rattle.plat_net.specs.Net.{HasPool};
ghost use Rattle.plat_net.specs.Places.{own_pool};
ghost use Rattle.plat_net.specs.PoolCalls.{CanAcquire, CanDescend, CanRelease, CanStart, CanStow, CanTake, place_above};

use crate::law::{PlatNote, TlmLaw};
use crate::net::Net;
use crate::sharing::Sharing;
use cargo_model::Cargo;
use cargo_net::{Descended, Taken};
use payload_pool::{Baton, Hold};
use route_plan::Plan;
use shared_object::Naming;
use std::sync::Wait;
use tlm_types::{Ps, TxnId};
use token_book::Ticket;

impl<N: Naming<Plan, TlmLaw>, S: Sharing<N>> Net<N, S> {
    // Where a hop stands in the history, if there is one.
    fn place_above(&self, hop: Option<u32>) -> Option<u32>
        requires { IfSome hop (λ (h : ℕ). h < hop_count self.now.platform) }
        ensures { result ≡ place_above self.now hop }
    {
        match hop {
            Some(hop) => Some(self.hop(hop).number()),
            None => None,
        }
    }

    /// Takes a payload for a four-phase access from the pool of its initiator at `at` picoseconds, with a
    /// ticket of the pool (IEEE 1666-2011, clause 14.5). `Full` comes exactly where all slots are live: no
    /// entry is made, and the ticket comes back. It can't fail otherwise.
    #[inline(always)]
    pub fn take<R: Wait>(
        &self,
        rt: &R,
        initiator: u32,
        note: PlatNote,
        ticket: Ticket,
        txn: TxnId,
        at: Ps,
    ) -> Taken
        requires note { IsNote N.table note }
        requires ticket { IsTicket N.tokens (own_pool N.frame.world initiator) ticket }
        requires can { CanTake N.frame.world initiator txn }
        ensures note { IsNote N.table (taken_note result) }
        ensures knew { Within note.knows.known (taken_note result).knows.known }
        ensures below { StandBelow (taken_note result).knows.known (taken_note result).knows.seen }
        ensures answer { HasPooled N.frame N.tokens (own_pool N.frame.world initiator) initiator note.knows (taken_note result).knows
            (Calls.Take txn at) (took_reply result) }
        ensures taken { IsTakenAs N.frame N.tokens (own_pool N.frame.world initiator) ticket txn at note.knows result }
    {
        let _ = self.plan();
        let pool = self.pool(initiator);
        let taken = cargo_net::take(
            pool,
            rt,
            self.history(),
            self.tickets(),
            note,
            ticket,
            txn,
            at,
        );
        self.signs().note_taken(initiator, &taken);
        taken
    }

    /// Acquires the first reference of an access of an initiator, at the time in picoseconds of its Take,
    /// with a ticket of the payload's own wallet (IEEE 1666-2011, clause 14.5). The payload may then go down
    /// on the first hop. It can't fail.
    pub fn start<R: Wait>(
        &self,
        rt: &R,
        initiator: u32,
        note: PlatNote,
        baton: Baton,
        at: Ps,
    ) -> (Cargo, PlatNote)
        requires note { IsNote N.table note }
        requires can { CanStart N.frame N.tokens initiator baton at note.knows.known }
        ensures note { IsNote N.table result.1 }
        ensures knew { Within note.knows.known result.1.knows.known }
        ensures below { StandBelow result.1.knows.known result.1.knows.seen }
        ensures look { result.1.knows.looks ≡ note.knows.looks ++ (own_pool N.frame.world initiator, 0) ∷ [] }
        ensures answer { HasAcquiredOne N.frame N.tokens (own_pool N.frame.world initiator) initiator note.knows result.1.knows at }
        ensures acquired { FindsAt (Known N.frame.world.platform result.1.knows.known) (IsAcquire baton.txn 0) at }
        ensures started { (can : CanStart N.frame N.tokens initiator baton at note.knows.known) →
            GoesDown N.frame.world N.tokens (Known N.frame.world.platform result.1.knows.known) baton.txn can.pass Ready 0 result.0 }
    {
        let _ = self.plan().platform();
        let pool = self.pool(initiator);
        cargo_net::start(pool, rt, self.history(), self.tickets(), note, baton, at)
    }

    /// Acquires one reference more of an initiator's payload at `at` picoseconds, with a ticket of the
    /// baton's own wallet (IEEE 1666-2011, clause 14.5). The baton comes back as part of a cargo, with the
    /// new reference. It can't fail.
    pub fn acquire<R: Wait>(
        &self,
        rt: &R,
        initiator: u32,
        note: PlatNote,
        baton: Baton,
        at: Ps,
    ) -> (Cargo, PlatNote)
        requires note { IsNote N.table note }
        requires can { CanAcquire N.frame N.tokens initiator baton at note.knows.known }
        ensures note { IsNote N.table result.1 }
        ensures knew { Within note.knows.known result.1.knows.known }
        ensures below { StandBelow result.1.knows.known result.1.knows.seen }
        ensures look { result.1.knows.looks ≡ note.knows.looks ++ (own_pool N.frame.world initiator, 0) ∷ [] }
        ensures answer { HasAcquiredOne N.frame N.tokens (own_pool N.frame.world initiator) initiator note.knows result.1.knows at }
        ensures acquired { (can : CanAcquire N.frame N.tokens initiator baton at note.knows.known) →
            HasAcquired N.frame N.tokens (own_pool N.frame.world initiator) baton at can.position can.count result.0.baton result.0.hold result.1.knows.known }
    {
        let _ = self.plan();
        let pool = self.pool(initiator);
        cargo_net::acquire(pool, rt, self.history(), self.tickets(), note, baton, at)
    }

    /// Gives a reference to an initiator's payload up at `at` picoseconds, with a ticket of the pool (IEEE
    /// 1666-2011, clause 14.5), and answers whether it was the last one of its slot. It can't fail.
    #[inline(always)]
    pub fn release<R: Wait>(
        &self,
        rt: &R,
        initiator: u32,
        note: PlatNote,
        ticket: Ticket,
        hold: Hold,
        at: Ps,
    ) -> (bool, PlatNote)
        requires note { IsNote N.table note }
        requires ticket { IsTicket N.tokens (own_pool N.frame.world initiator) ticket }
        requires can { CanRelease N.frame N.tokens initiator hold at note.knows.known }
        ensures note { IsNote N.table result.1 }
        ensures knew { Within note.knows.known result.1.knows.known }
        ensures below { StandBelow result.1.knows.known result.1.knows.seen }
        ensures look { result.1.knows.looks ≡ note.knows.looks ++ (own_pool N.frame.world initiator, 0) ∷ [] }
        ensures answer { HasPooled N.frame N.tokens (own_pool N.frame.world initiator) initiator note.knows result.1.knows
            (Calls.Release hold at) (Replies.Released result.0) }
        ensures released { (can : CanRelease N.frame N.tokens initiator hold at note.knows.known) →
            HasReleased N.frame can.x can.count at result.0 result.1.knows.known }
    {
        let _ = self.plan();
        let pool = self.pool(initiator);
        let released = cargo_net::release(
            pool,
            rt,
            self.history(),
            self.tickets(),
            note,
            ticket,
            hold,
            at,
        );
        self.signs().note_released(initiator, released.0);
        released
    }

    /// Gives the initiator's own reference up at `at` picoseconds, with a ticket of the pool, and puts the
    /// payload back (IEEE 1666-2011, clause 14.5). The baton's wallet is empty. It answers whether this was
    /// the last reference of its slot. It can't fail.
    #[inline(always)]
    pub fn stow<R: Wait>(
        &self,
        rt: &R,
        initiator: u32,
        note: PlatNote,
        ticket: Ticket,
        baton: Baton,
        at: Ps,
    ) -> (bool, PlatNote)
        requires note { IsNote N.table note }
        requires ticket { IsTicket N.tokens (own_pool N.frame.world initiator) ticket }
        requires can { CanStow N.frame N.tokens initiator baton at note.knows.known }
        ensures note { IsNote N.table result.1 }
        ensures knew { Within note.knows.known result.1.knows.known }
        ensures below { StandBelow result.1.knows.known result.1.knows.seen }
        ensures look { result.1.knows.looks ≡ note.knows.looks ++ (own_pool N.frame.world initiator, 0) ∷ [] }
        ensures answer { HasPooled N.frame N.tokens (own_pool N.frame.world initiator) initiator note.knows result.1.knows
            (Calls.Stow baton at) (Replies.Released result.0) }
        ensures stowed { HasReleased N.frame baton.txn 15 at result.0 result.1.knows.known }
    {
        let _ = self.plan();
        let pool = self.pool(initiator);
        let stowed = cargo_net::stow(
            pool,
            rt,
            self.history(),
            self.tickets(),
            note,
            ticket,
            baton,
            at,
        );
        self.signs().note_released(initiator, stowed.0);
        stowed
    }

    /// Looks how many slots of the pool of an initiator are live. It makes no entry and spends no ticket.
    pub fn live<R: Wait>(&self, rt: &R, initiator: u32, note: PlatNote) -> (u32, PlatNote)
        requires note { IsNote N.table note }
        requires pool { HasPool N.frame.world.platform initiator }
        ensures note { IsNote N.table result.1 }
        ensures knew { Within note.knows.known result.1.knows.known }
        ensures below { StandBelow result.1.knows.known result.1.knows.seen }
        ensures look { result.1.knows.looks ≡ note.knows.looks ++ (own_pool N.frame.world initiator, look_of (Replies.Live result.0)) ∷ [] }
        ensures answer { HasPooled N.frame N.tokens (own_pool N.frame.world initiator) initiator note.knows result.1.knows
            Calls.Live (Replies.Live result.0) }
    {
        let _ = self.plan();
        let pool = self.pool(initiator);
        cargo_net::live(pool, rt, self.history(), self.tickets(), note)
    }

    /// Acquires the next reference for a request of an initiator that a router fetched, at `at`
    /// picoseconds, which is its arrival time and the router's latency, and sets the address behind the
    /// window, in bytes (IEEE 1666-2011, clauses 14.5 and 14.7). `above` is the hop that it was fetched
    /// from, where END_REQ is owed there. The tickets of both come from the payload's own wallet. The
    /// request may then go down on the next hop. It can't fail.
    #[inline(always)]
    pub fn descend<R: Wait>(
        &self,
        rt: &R,
        initiator: u32,
        note: PlatNote,
        cargo: Cargo,
        above: Option<u32>,
        address: u64,
        at: Ps,
    ) -> Descended
        requires note { IsNote N.table note }
        requires can { CanDescend N.frame N.tokens initiator cargo above address at note.knows.known }
        ensures note { IsNote N.table result.note }
        ensures knew { Within note.knows.known result.note.knows.known }
        ensures below { StandBelow result.note.knows.known result.note.knows.seen }
        ensures look { result.note.knows.looks ≡ note.knows.looks ++ (own_pool N.frame.world initiator, 0) ∷ [] }
        ensures answer { HasAcquiredOne N.frame N.tokens (own_pool N.frame.world initiator) initiator note.knows result.note.knows at }
        ensures kept { result.kept ≡ cargo.hold }
        ensures ticket { IsTicketAt N.tokens (place_above N.frame.world above) result.ticket }
        ensures descended { (can : CanDescend N.frame N.tokens initiator cargo above address at note.knows.known) →
            GoesDown N.frame.world N.tokens (Known N.frame.world.platform result.note.knows.known) cargo.baton.txn can.pass Ready (can.hop + 1) result.cargo }
    {
        let _ = self.plan().platform();
        let pool = self.pool(initiator);
        let above = self.place_above(above);
        cargo_net::descend(
            pool,
            rt,
            self.history(),
            self.tickets(),
            note,
            cargo,
            above,
            address,
            at,
        )
    }
}
