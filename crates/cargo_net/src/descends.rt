// A router sends a request on.
ghost use Rattle.std.specs.Prelude.{◌≡◌, ◌+◌, [], ◌∷◌, ◌++◌};
ghost use Rattle.view_lists.specs.Lists.{Within};
ghost use Rattle.one_history.specs.Lists.{StandBelow};
ghost use Rattle.shared_object.specs.Steps.{IsNote};
ghost use Rattle.cargo_model.specs.Known.{Known};
ghost use Rattle.cargo_model.specs.Travel.{GoesDown, Ready};
ghost use Rattle.cargo_net.specs.Descends.{MayDescend};
ghost use Rattle.cargo_net.specs.Pools.{HasAcquiredOne};
ghost use Rattle.cargo_net.specs.Wallets.{IsTicketAt};

use crate::law::{LockedPool, TlmLaw};
use crate::pools::acquire;
use crate::wallets::pull_at;
use cargo_model::Cargo;
use one_history::{History, Note};
use payload_pool::{Hold, Pool};
use route_plan::Plan;
use shared_object::{Keeper, Naming, Shared};
use std::sync::Wait;
use tlm_types::{Content, Ps};
use token_book::{Ticket, Tokens};

/// A request that may go down on the next hop, with what its router keeps: the reference that it came
/// with, and the ticket of the END_REQ that is owed above, where one is.
pub struct Descended {
    pub cargo: Cargo,
    pub kept: Hold,
    pub ticket: Option<Ticket>,
    pub note: Note<Content, Plan, TlmLaw>,
}

/// Acquires the next reference for a request that a router fetched, at `at` picoseconds, which is its
/// arrival time and the router's latency, and sets the address behind the window, in bytes (IEEE
/// 1666-2011, clauses 14.5 and 14.7). `above` is the hop in the history that it was fetched from, where
/// END_REQ is owed there. The tickets of both come from the payload's own wallet. The request may then go
/// down on the next hop. It can't fail.
pub fn descend<R: Wait, N: Naming<Plan, TlmLaw>, L: Keeper<LockedPool<N>>>(
    pool: &Shared<Pool, Plan, TlmLaw, N, L>,
    rt: &R,
    history: &History<Content, Plan, TlmLaw>,
    tickets: &Tokens,
    note: Note<Content, Plan, TlmLaw>,
    cargo: Cargo,
    above: Option<u32>,
    address: u64,
    at: Ps,
) -> Descended
    requires history { (history.now.table ≡ N.table) × (history.now.frame ≡ N.frame) }
    requires tickets { tickets.now ≡ N.tokens }
    requires note { IsNote N.table note }
    requires may { MayDescend N.frame N.tokens pool.now.number cargo above address at note.knows.known }
    ensures note { IsNote N.table result.note }
    ensures knew { Within note.knows.known result.note.knows.known }
    ensures below { StandBelow result.note.knows.known result.note.knows.seen }
    ensures look { result.note.knows.looks ≡ note.knows.looks ++ (pool.now.number, 0) ∷ [] }
    ensures answer { HasAcquiredOne N.frame N.tokens pool.now.number pool.now.own note.knows result.note.knows at }
    ensures kept { result.kept ≡ cargo.hold }
    ensures ticket { IsTicketAt N.tokens above result.ticket }
    ensures descended { (may : MayDescend N.frame N.tokens pool.now.number cargo above address at note.knows.known) →
        GoesDown N.frame.world N.tokens (Known N.frame.world.platform result.note.knows.known) cargo.baton.txn may.pass Ready (may.hop + 1) result.cargo }
{
    let Cargo {
        mut baton,
        hold: kept,
    } = cargo;
    baton.payload.set_address(address);
    let (mut cargo, note) = acquire(pool, rt, history, tickets, note, baton, at);
    let ticket = pull_at(tickets, &mut cargo.baton.wallet, above);
    Descended {
        cargo,
        kept,
        ticket,
        note,
    }
}
