// An access starts.
ghost use Rattle.std.specs.Prelude.{◌≡◌, [], ◌∷◌, ◌++◌};
ghost use Rattle.view_lists.specs.Lists.{Within};
ghost use Rattle.one_history.specs.Lists.{StandBelow};
ghost use Rattle.shared_object.specs.Steps.{IsNote};
ghost use Rattle.flow_model.specs.Events.{FindsAt, IsAcquire};
ghost use Rattle.cargo_model.specs.Known.{Known};
ghost use Rattle.cargo_model.specs.Travel.{GoesDown, Ready};
ghost use Rattle.cargo_net.specs.Pools.{HasAcquiredOne};
ghost use Rattle.cargo_net.specs.Starts.{MayStart};

use crate::law::{LockedPool, TlmLaw};
use crate::pools::acquire;
use cargo_model::Cargo;
use one_history::{History, Note};
use payload_pool::{Baton, Pool};
use route_plan::Plan;
use shared_object::{Keeper, Naming, Shared};
use std::sync::Wait;
use tlm_types::{Content, Ps};
use token_book::Tokens;

/// Acquires the first reference of an access, at the time in picoseconds of its Take, with a ticket of the
/// payload's own wallet (IEEE 1666-2011, clause 14.5). The payload may then go down on the first hop. It
/// can't fail.
pub fn start<R: Wait, N: Naming<Plan, TlmLaw>, L: Keeper<LockedPool<N>>>(
    pool: &Shared<Pool, Plan, TlmLaw, N, L>,
    rt: &R,
    history: &History<Content, Plan, TlmLaw>,
    tickets: &Tokens,
    note: Note<Content, Plan, TlmLaw>,
    baton: Baton,
    at: Ps,
) -> (Cargo, Note<Content, Plan, TlmLaw>)
    requires history { (history.now.table ≡ N.table) × (history.now.frame ≡ N.frame) }
    requires tickets { tickets.now ≡ N.tokens }
    requires note { IsNote N.table note }
    requires may { MayStart N.frame N.tokens pool.now.number baton at note.knows.known }
    ensures note { IsNote N.table result.1 }
    ensures knew { Within note.knows.known result.1.knows.known }
    ensures below { StandBelow result.1.knows.known result.1.knows.seen }
    ensures look { result.1.knows.looks ≡ note.knows.looks ++ (pool.now.number, 0) ∷ [] }
    ensures answer { HasAcquiredOne N.frame N.tokens pool.now.number pool.now.own note.knows result.1.knows at }
    ensures acquired { FindsAt (Known N.frame.world.platform result.1.knows.known) (IsAcquire baton.txn 0) at }
    ensures started { (may : MayStart N.frame N.tokens pool.now.number baton at note.knows.known) →
        GoesDown N.frame.world N.tokens (Known N.frame.world.platform result.1.knows.known) baton.txn may.pass Ready 0 result.0 }
{
    acquire(pool, rt, history, tickets, note, baton, at)
}
