// The pools of a plan.
ghost use Rattle.std.specs.Prelude.{◌≡◌, ◌+◌, ◌≤◌, length, slice_get, IfOk, OnOk, IsSomeAnd, Some};
ghost use Rattle.tlm_types.specs.declared.words.ObjectNo.TheVariants.{Pool as PoolObject};
ghost use Rattle.tlm_model.specs.declared.platform.InitiatorRow.{InitiatorRow as Row};
ghost use Rattle.cargo_model.specs.Known.{has_pool, object_number};
ghost use Rattle.plat_net.specs.Net.{ArePools, ArePoolsTo, pool_numbers};
ghost use Rattle.plat_net.specs.Objects.{frame_of, HasObject, pools_start};
ghost use Rattle.plat_build.specs.Supplies.{IsSupply};

use crate::objects::has_pool;
use crate::supplies::{Supplies, Supply};
use payload_pool::Pool;
use plat_net::{SharedPool, Sharing, TlmLaw};
use route_plan::Plan;
use shared_object::{Naming, Shared};
use std::alloc::Global;
use tlm_model::InitiatorRow;
use tlm_types::{Memory, ObjectNo};
use token_book::Tokens;

// The pool of an initiator with so many slots, with room for what is planned. Each of its payloads has room
// for 4,096 bytes.
fn make_pool<N: Naming<Plan, TlmLaw>, S: Sharing<N>>(
    alloc: Global,
    plan: &Plan,
    initiator: u32,
    slots: u32,
    supply: Supply,
) -> Result<SharedPool<N, S>, Memory>
    requires frame { N.frame ≡ frame_of plan.now }
    requires row { IsSomeAnd (slice_get plan.now.platform.initiators initiator) (λ (row : Row). slots ≡ row.pool) }
    requires slots { (1 ≤ slots) × (slots ≤ 16) }
    requires there { HasObject plan.now.platform (object_number plan.now.platform (PoolObject initiator)) (PoolObject initiator) }
    requires supply { IsSupply N.table N.tokens N.frame (object_number plan.now.platform (PoolObject initiator)) (PoolObject initiator) supply }
    ensures { IfOk result (λ pool. pool ≡ pool_numbers plan.now.platform initiator) }
{
    let Supply { seat, book, second } = supply;
    let entries = plan.entries(ObjectNo::Pool(initiator));
    let pool = Pool::new(alloc, initiator, slots, 4096, entries, second)?;
    Ok(Shared::new(pool, seat, book))
}

// Makes the pool of the initiator with this number and row, if it has one.
fn push_pool<N: Naming<Plan, TlmLaw>, S: Sharing<N>>(
    alloc: Global,
    plan: &Plan,
    tickets: &Tokens,
    initiator: u32,
    row: &InitiatorRow,
    supplies: &mut Supplies<N>,
    pools: &mut Vec<SharedPool<N, S>>,
) -> Result<(), Memory>
    requires frame { N.frame ≡ frame_of plan.now }
    requires tickets { tickets.now ≡ N.tokens }
    requires row { slice_get plan.now.platform.initiators initiator ≡ Some row.now }
    requires supplies { supplies.old ≡ pools_start plan.now.platform + length pools.old.items }
    requires pools { ArePoolsTo plan.now.platform initiator pools.old.items }
    ensures supplies { OnOk result (supplies.new ≡ pools_start plan.now.platform + length pools.new.items) }
    ensures pools { OnOk result (ArePoolsTo plan.now.platform (initiator + 1) pools.new.items) }
{
    if !has_pool(row.style) {
        return Ok(());
    }
    let _ = plan.platform();
    let supply = supplies.hand_out(plan, tickets, ObjectNo::Pool(initiator));
    pools.push(make_pool::<N, S>(alloc, plan, initiator, row.pool, supply)?)?;
    Ok(())
}

/// The pools of a plan, which come after the hops: one for each four-phase initiator, in order. Its only
/// error is want of memory.
pub(crate) fn make_pools<N: Naming<Plan, TlmLaw>, S: Sharing<N>>(
    alloc: Global,
    plan: &Plan,
    tickets: &Tokens,
    supplies: &mut Supplies<N>,
) -> Result<Vec<SharedPool<N, S>>, Memory>
    requires frame { N.frame ≡ frame_of plan.now }
    requires tickets { tickets.now ≡ N.tokens }
    requires next { supplies.old ≡ pools_start plan.now.platform }
    ensures pools { IfOk result (λ pools. ArePools plan.now.platform pools.items) }
    ensures next { OnOk result (supplies.new ≡ length N.frame.planned) }
{
    let mut pools = Vec::new(alloc);
    for (number, row) in plan.platform().initiators.as_slice().iter().enumerate() {
        push_pool::<N, S>(
            alloc,
            plan,
            tickets,
            number as u32,
            row,
            supplies,
            &mut pools,
        )?;
    }
    Ok(pools)
}
