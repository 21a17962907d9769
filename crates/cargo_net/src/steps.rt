// One call of an object, which can't fail: no call of a hop, a memory or a pool takes memory.
ghost use Rattle.std.specs.Prelude.{◌≡◌, ℕ, [], ◌∷◌, ◌++◌, true, map};
ghost use Rattle.shared_object.specs.Standing.{place, AreVouched, IsBuiltFor};
ghost use Rattle.shared_object.specs.Steps.{HasTicket, IsNote};
ghost use Rattle.shared_object.specs.Written.{placed, wrote};
ghost use Rattle.numbered_log.specs.Logged.{written_by};
ghost use Rattle.hop_object.specs.View.{HopView};
ghost use Rattle.hop_object.specs.Objects.{brought_by, built_of as hop_built, content_by, is_admitted, look_of as hop_look, IsFit};
ghost use Rattle.cargo_model.specs.declared.cargo.Cargo.{Cargo};
ghost use Rattle.payload_pool.specs.Pool.{PoolView};
ghost use Rattle.payload_pool.specs.Calls.{admitted, built_of as pool_built, content_of, look_of as pool_look, Fits};
ghost use Rattle.cargo_net.specs.Traffic.{Backs, IsHopBuilt, IsPoolBuilt};
ghost use Rattle.cargo_net.specs.Carried.{IsCarried};
ghost use Rattle.cargo_net.specs.Hops.{HasStepped, MeetsHop};
ghost use Rattle.cargo_net.specs.Pools.{HasPooledWith, MeetsPool};

use crate::law::{LockedHop, LockedPool, TlmLaw};
use cargo_model::Cargo;
use hop_object::{Hop, HopCall, HopReply};
use one_history::{History, Note};
use payload_pool::{Pool, PoolCall, PoolReply};
use route_plan::Plan;
use shared_object::{Keeper, Naming, Shared, Stepped};
use std::sync::Wait;
use tlm_types::Content;
use token_book::{Ticket, Tokens};

// Makes a call of a pool, by what the note knows.
#[inline(always)]
pub(crate) fn step_pool<R: Wait, N: Naming<Plan, TlmLaw>, L: Keeper<LockedPool<N>>>(
    pool: &Shared<Pool, Plan, TlmLaw, N, L>,
    rt: &R,
    history: &History<Content, Plan, TlmLaw>,
    tickets: &Tokens,
    note: Note<Content, Plan, TlmLaw>,
    ticket: Option<Ticket>,
    call: PoolCall,
) -> (PoolReply, Note<Content, Plan, TlmLaw>, Option<Ticket>)
    requires history { (history.now.table ≡ N.table) × (history.now.frame ≡ N.frame) }
    requires tickets { tickets.now ≡ N.tokens }
    requires note { IsNote N.table note }
    requires ticket { (o : PoolView) → admitted o call ≡ true → HasTicket N.tokens pool.now.number 0 ticket }
    requires fits { (o : PoolView) →
        IsBuiltFor IsPoolBuilt (place N.frame N.tokens pool.now.number pool.now.own) (pool_built o) → Fits o call }
    requires backed { (o : PoolView) (q : ℕ) →
        MeetsPool N.frame N.tokens pool.now.number pool.now.own note.knows.known o → admitted o call ≡ true →
        Backs N.frame.world (map (placed pool.now.number) (map written_by o.log.events) ++ note.knows.known)
        (placed pool.now.number (wrote q (content_of o call))) }
    ensures note { IsNote N.table result.1 }
    ensures look { result.1.knows.looks ≡ note.knows.looks ++ (pool.now.number, pool_look result.0) ∷ [] }
    ensures pooled { HasPooledWith N.frame N.tokens pool.now.number pool.now.own note.knows result.1.knows call ticket result.0 result.2 }
{
    let stepped = pool.step(rt, history, tickets, note, ticket, call);
    let Stepped {
        reply,
        position: _,
        note,
        ticket,
    } = stepped;
    (reply, note, ticket)
}

// Makes a call of a hop, by what the note knows.
#[inline(always)]
pub(crate) fn step_hop<R: Wait, N: Naming<Plan, TlmLaw>, L: Keeper<LockedHop<N>>>(
    hop: &Shared<Hop<Cargo>, Plan, TlmLaw, N, L>,
    rt: &R,
    history: &History<Content, Plan, TlmLaw>,
    tickets: &Tokens,
    note: Note<Content, Plan, TlmLaw>,
    ticket: Option<Ticket>,
    call: HopCall<Cargo>,
) -> (HopReply<Cargo>, Note<Content, Plan, TlmLaw>, Option<Ticket>)
    requires history { (history.now.table ≡ N.table) × (history.now.frame ≡ N.frame) }
    requires tickets { tickets.now ≡ N.tokens }
    requires note { IsNote N.table note }
    requires ticket { (o : HopView Cargo) → is_admitted o call ≡ true → HasTicket N.tokens hop.now.number 0 ticket }
    requires fits { (o : HopView Cargo) →
        IsBuiltFor IsHopBuilt (place N.frame N.tokens hop.now.number hop.now.own) (hop_built o) → IsFit o call }
    requires backed { (o : HopView Cargo) (q : ℕ) →
        MeetsHop N.frame N.tokens hop.now.number hop.now.own note.knows.known o → is_admitted o call ≡ true →
        Backs N.frame.world (map (placed hop.now.number) (map written_by o.log.events) ++ note.knows.known)
        (placed hop.now.number (wrote q (content_by o call))) }
    requires vouched { (o : HopView Cargo) →
        MeetsHop N.frame N.tokens hop.now.number hop.now.own note.knows.known o →
        AreVouched (IsCarried N.frame.world N.tokens hop.now.number) (brought_by o call) note.knows.known }
    ensures note { IsNote N.table result.1 }
    ensures look { result.1.knows.looks ≡ note.knows.looks ++ (hop.now.number, hop_look result.0) ∷ [] }
    ensures stepped { HasStepped N.frame N.tokens hop.now.number hop.now.own note.knows result.1.knows call ticket result.0 result.2 }
{
    let stepped = hop.step(rt, history, tickets, note, ticket, call);
    let Stepped {
        reply,
        position: _,
        note,
        ticket,
    } = stepped;
    (reply, note, ticket)
}
