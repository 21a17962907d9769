// References to pooled payloads.
ghost use Rattle.std.specs.Prelude.{◌≡◌, [], ◌∷◌, ◌++◌};
ghost use Rattle.view_lists.specs.Lists.{Within};
ghost use Rattle.one_history.specs.Lists.{StandBelow};
ghost use Rattle.shared_object.specs.Steps.{IsNote};
ghost use Rattle.token_book.specs.Ticket.{IsTicket};
ghost use Rattle.payload_pool.specs.Calls.{look_of};
ghost use Rattle.payload_pool.specs.declared.call.PoolCall.TheVariants as Calls;
ghost use Rattle.payload_pool.specs.declared.call.PoolReply.TheVariants as Replies;
ghost use Rattle.cargo_net.specs.Pools.{HasAcquired, HasAcquiredOne, HasPooled, HasReleased, IsAcquiredReply, IsLiveReply, IsReleasedReply, IsTookReply, MayAcquire, MayRelease, MayStow, MayTake};
ghost use Rattle.cargo_net.specs.Taken.{IsTakenAs, taken_note, took_reply};

use crate::law::{LockedPool, TlmLaw};
use crate::steps::step_pool;
use cargo_model::Cargo;
use one_history::{History, Note};
use payload_pool::{Baton, Hold, Pool, PoolCall, PoolReply};
use route_plan::Plan;
use shared_object::{Keeper, Naming, Shared};
use std::sync::Wait;
use tlm_types::{Content, Ps, TxnId};
use token_book::{Ticket, Tokens};

/// What a pool answers to a Take.
pub enum Taken {
    /// A payload as new, with an empty wallet and the initiator's own reference.
    Took {
        baton: Baton,
        note: Note<Content, Plan, TlmLaw>,
    },
    /// All slots are live. The ticket comes back.
    Full {
        ticket: Ticket,
        note: Note<Content, Plan, TlmLaw>,
    },
}

// The answer to a Take.
#[inline(always)]
fn took(reply: PoolReply) -> Option<Baton>
    requires { IsTookReply reply }
    ensures { reply ≡ Replies.Took result }
{
    match reply {
        PoolReply::Took(baton) => baton,
        _ => unreachable!(),
    }
}

// The answer to an Acquire.
#[inline(always)]
fn acquired(reply: PoolReply) -> (Baton, Hold)
    requires { IsAcquiredReply reply }
    ensures { reply ≡ Replies.Acquired result.0 result.1 }
{
    match reply {
        PoolReply::Acquired(baton, hold) => (baton, hold),
        _ => unreachable!(),
    }
}

// The answer to a Release.
#[inline(always)]
fn released(reply: PoolReply) -> bool
    requires { IsReleasedReply reply }
    ensures { reply ≡ Replies.Released result }
{
    match reply {
        PoolReply::Released { freed } => freed,
        _ => unreachable!(),
    }
}

/// Takes a payload for a four-phase access from its initiator's pool at `at` picoseconds, with a ticket of
/// the pool (IEEE 1666-2011, clause 14.5). `Full` comes exactly where all slots are live: no entry is made,
/// and the ticket comes back. It can't fail otherwise.
#[inline(always)]
pub fn take<R: Wait, N: Naming<Plan, TlmLaw>, L: Keeper<LockedPool<N>>>(
    pool: &Shared<Pool, Plan, TlmLaw, N, L>,
    rt: &R,
    history: &History<Content, Plan, TlmLaw>,
    tickets: &Tokens,
    note: Note<Content, Plan, TlmLaw>,
    ticket: Ticket,
    txn: TxnId,
    at: Ps,
) -> Taken
    requires history { (history.now.table ≡ N.table) × (history.now.frame ≡ N.frame) }
    requires tickets { tickets.now ≡ N.tokens }
    requires note { IsNote N.table note }
    requires ticket { IsTicket N.tokens pool.now.number ticket }
    requires may { MayTake N.frame pool.now.number txn }
    ensures note { IsNote N.table (taken_note result) }
    ensures knew { Within note.knows.known (taken_note result).knows.known }
    ensures below { StandBelow (taken_note result).knows.known (taken_note result).knows.seen }
    ensures answer { HasPooled N.frame N.tokens pool.now.number pool.now.own note.knows (taken_note result).knows
        (Calls.Take txn at) (took_reply result) }
    ensures taken { IsTakenAs N.frame N.tokens pool.now.number ticket txn at note.knows result }
{
    let (reply, note, ticket) = step_pool(
        pool,
        rt,
        history,
        tickets,
        note,
        Some(ticket),
        PoolCall::Take { txn, at },
    );
    match took(reply) {
        Some(baton) => Taken::Took { baton, note },
        None => {
            let Some(ticket) = ticket else { unreachable!() };
            Taken::Full { ticket, note }
        }
    }
}

/// Acquires one reference more at `at` picoseconds, with a ticket of the pool from the baton's own wallet
/// (IEEE 1666-2011, clause 14.5). The baton comes back as part of a cargo, with the new reference. It can't
/// fail.
#[inline(always)]
pub fn acquire<R: Wait, N: Naming<Plan, TlmLaw>, L: Keeper<LockedPool<N>>>(
    pool: &Shared<Pool, Plan, TlmLaw, N, L>,
    rt: &R,
    history: &History<Content, Plan, TlmLaw>,
    tickets: &Tokens,
    note: Note<Content, Plan, TlmLaw>,
    baton: Baton,
    at: Ps,
) -> (Cargo, Note<Content, Plan, TlmLaw>)
    requires history { (history.now.table ≡ N.table) × (history.now.frame ≡ N.frame) }
    requires tickets { tickets.now ≡ N.tokens }
    requires note { IsNote N.table note }
    requires may { MayAcquire N.frame N.tokens pool.now.number baton at note.knows.known }
    ensures note { IsNote N.table result.1 }
    ensures knew { Within note.knows.known result.1.knows.known }
    ensures below { StandBelow result.1.knows.known result.1.knows.seen }
    ensures look { result.1.knows.looks ≡ note.knows.looks ++ (pool.now.number, 0) ∷ [] }
    ensures answer { HasAcquiredOne N.frame N.tokens pool.now.number pool.now.own note.knows result.1.knows at }
    ensures acquired { (may : MayAcquire N.frame N.tokens pool.now.number baton at note.knows.known) →
        HasAcquired N.frame N.tokens pool.now.number baton at may.position may.count result.0.baton result.0.hold result.1.knows.known }
{
    let mut baton = baton;
    let ticket = baton.wallet.pull(tickets, pool.number(), 0);
    let (reply, note, _) = step_pool(
        pool,
        rt,
        history,
        tickets,
        note,
        Some(ticket),
        PoolCall::Acquire { baton, at },
    );
    let (baton, hold) = acquired(reply);
    (Cargo { baton, hold }, note)
}

/// Gives a reference up at `at` picoseconds, with a ticket of the pool (IEEE 1666-2011, clause 14.5), and
/// answers whether it was the last one of its slot. It can't fail.
#[inline(always)]
pub fn release<R: Wait, N: Naming<Plan, TlmLaw>, L: Keeper<LockedPool<N>>>(
    pool: &Shared<Pool, Plan, TlmLaw, N, L>,
    rt: &R,
    history: &History<Content, Plan, TlmLaw>,
    tickets: &Tokens,
    note: Note<Content, Plan, TlmLaw>,
    ticket: Ticket,
    hold: Hold,
    at: Ps,
) -> (bool, Note<Content, Plan, TlmLaw>)
    requires history { (history.now.table ≡ N.table) × (history.now.frame ≡ N.frame) }
    requires tickets { tickets.now ≡ N.tokens }
    requires note { IsNote N.table note }
    requires ticket { IsTicket N.tokens pool.now.number ticket }
    requires may { MayRelease N.frame N.tokens pool.now.number hold at note.knows.known }
    ensures note { IsNote N.table result.1 }
    ensures knew { Within note.knows.known result.1.knows.known }
    ensures below { StandBelow result.1.knows.known result.1.knows.seen }
    ensures look { result.1.knows.looks ≡ note.knows.looks ++ (pool.now.number, 0) ∷ [] }
    ensures answer { HasPooled N.frame N.tokens pool.now.number pool.now.own note.knows result.1.knows
        (Calls.Release hold at) (Replies.Released result.0) }
    ensures released { (may : MayRelease N.frame N.tokens pool.now.number hold at note.knows.known) →
        HasReleased N.frame may.x may.count at result.0 result.1.knows.known }
{
    let (reply, note, _) = step_pool(
        pool,
        rt,
        history,
        tickets,
        note,
        Some(ticket),
        PoolCall::Release { hold, at },
    );
    (released(reply), note)
}

/// Gives the initiator's own reference up at `at` picoseconds, with a ticket of the pool, and puts the
/// payload back (IEEE 1666-2011, clause 14.5). The baton's wallet is empty. It answers whether this was the
/// last reference of its slot. It can't fail.
#[inline(always)]
pub fn stow<R: Wait, N: Naming<Plan, TlmLaw>, L: Keeper<LockedPool<N>>>(
    pool: &Shared<Pool, Plan, TlmLaw, N, L>,
    rt: &R,
    history: &History<Content, Plan, TlmLaw>,
    tickets: &Tokens,
    note: Note<Content, Plan, TlmLaw>,
    ticket: Ticket,
    baton: Baton,
    at: Ps,
) -> (bool, Note<Content, Plan, TlmLaw>)
    requires history { (history.now.table ≡ N.table) × (history.now.frame ≡ N.frame) }
    requires tickets { tickets.now ≡ N.tokens }
    requires note { IsNote N.table note }
    requires ticket { IsTicket N.tokens pool.now.number ticket }
    requires may { MayStow N.frame N.tokens pool.now.number baton at note.knows.known }
    ensures note { IsNote N.table result.1 }
    ensures knew { Within note.knows.known result.1.knows.known }
    ensures below { StandBelow result.1.knows.known result.1.knows.seen }
    ensures look { result.1.knows.looks ≡ note.knows.looks ++ (pool.now.number, 0) ∷ [] }
    ensures answer { HasPooled N.frame N.tokens pool.now.number pool.now.own note.knows result.1.knows
        (Calls.Stow baton at) (Replies.Released result.0) }
    ensures stowed { HasReleased N.frame baton.txn 15 at result.0 result.1.knows.known }
{
    let (reply, note, _) = step_pool(
        pool,
        rt,
        history,
        tickets,
        note,
        Some(ticket),
        PoolCall::Stow { baton, at },
    );
    (released(reply), note)
}

// The answer to how many slots are live.
#[inline(always)]
fn counted(reply: PoolReply) -> u32
    requires { IsLiveReply reply }
    ensures { reply ≡ Replies.Live result }
{
    match reply {
        PoolReply::Live(live) => live,
        _ => unreachable!(),
    }
}

/// Looks how many slots of a pool are live. It makes no entry and spends no ticket.
pub fn live<R: Wait, N: Naming<Plan, TlmLaw>, L: Keeper<LockedPool<N>>>(
    pool: &Shared<Pool, Plan, TlmLaw, N, L>,
    rt: &R,
    history: &History<Content, Plan, TlmLaw>,
    tickets: &Tokens,
    note: Note<Content, Plan, TlmLaw>,
) -> (u32, Note<Content, Plan, TlmLaw>)
    requires history { (history.now.table ≡ N.table) × (history.now.frame ≡ N.frame) }
    requires tickets { tickets.now ≡ N.tokens }
    requires note { IsNote N.table note }
    ensures note { IsNote N.table result.1 }
    ensures knew { Within note.knows.known result.1.knows.known }
    ensures below { StandBelow result.1.knows.known result.1.knows.seen }
    ensures look { result.1.knows.looks ≡ note.knows.looks ++ (pool.now.number, look_of (Replies.Live result.0)) ∷ [] }
    ensures answer { HasPooled N.frame N.tokens pool.now.number pool.now.own note.knows result.1.knows
        Calls.Live (Replies.Live result.0) }
{
    let (reply, note, _) = step_pool(pool, rt, history, tickets, note, None, PoolCall::Live);
    (counted(reply), note)
}
