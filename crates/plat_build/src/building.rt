// The building of nets.
ghost use Rattle.std.specs.Prelude.{◌≡◌, ◌<◌, [], All, IfOk, OnOk, length};
ghost use Rattle.cargo_model.specs.Known.{objects_of};
ghost use Rattle.plat_net.specs.Net.{AreHops, AreMemories, ArePools};
ghost use Rattle.plat_net.specs.Objects.{frame_of};
ghost use Rattle.plat_build.specs.Kept.{all_waiting, IsBlank};
ghost use Rattle.plat_build.specs.Opened.{AreAllSupplies, IsFirstNote};

use crate::hops::make_hops;
use crate::kept::Kept;
use crate::memories::make_memories;
use crate::objects::notes_of;
use crate::opened::{Opened, OpenedParts};
use crate::pools::make_pools;
use crate::supplies::Supplies;
use crate::wallets::empty_wallets;
use net_signs::Signs;
use plat_net::{
    Net, PlatHistory, PlatNote, PlatSeat, SharedHop, SharedMemory, SharedPool, Sharing, TlmLaw,
};
use route_plan::Plan;
use shared_object::Naming;
use std::alloc::{AllocError, Global};
use tlm_types::Memory;
use token_book::{Book, Tokens};

/// What is built for a plan.
#[derive(Drop)]
pub struct Built<N: Naming<Plan, TlmLaw>, S: Sharing<N>> {
    /// What threads share.
    pub net: Net<N, S>,
    /// What waits to be handed out.
    pub kept: Kept<N>,
}

// So many notes of a note that stands for as many.
fn make_notes(
    alloc: Global,
    history: &PlatHistory,
    mut note: PlatNote,
    count: u32,
) -> Result<Vec<PlatNote>, AllocError>
    requires some { 0 < count }
    requires table { note.table ≡ history.now.table }
    requires fresh { (note.knows.notes ≡ count) × (note.knows.seen ≡ 0) × (note.knows.known ≡ []) × (note.knows.looks ≡ []) × (note.knows.stays ≡ []) }
    ensures blank { IfOk result (λ notes. All (IsBlank history.now.table) notes.items) }
    ensures count { IfOk result (λ notes. length notes.items ≡ count) }
{
    let mut notes = Vec::new(alloc);
    for _part in 1..count {
        notes.push(history.split(&mut note))?;
    }
    notes.push(note)?;
    Ok(notes)
}

// The seats, the books and empty wallets, before any object is made. Its only error is want of memory.
fn begin_supplies<N: Naming<Plan, TlmLaw>>(
    alloc: Global,
    plan: &Plan,
    tickets: &Tokens,
    seats: Vec<PlatSeat>,
    books: Vec<Book>,
) -> Result<Supplies<N>, Memory>
    requires plan { plan.now ≡ N.frame.world }
    requires tickets { tickets.now ≡ N.tokens }
    requires supplied { AreAllSupplies N.table N.tokens N.frame plan.now seats.items books.items }
    ensures { IfOk result (λ supplies. supplies ≡ 0) }
{
    let wallets = empty_wallets(alloc, tickets, plan, seats.len() as u32)?;
    Supplies::new(seats, books, wallets)
}

// All objects of a net, in order.
#[derive(Drop)]
struct Objects<N: Naming<Plan, TlmLaw>, S: Sharing<N>> {
    memories: Vec<SharedMemory<N, S>>,
    hops: Vec<SharedHop<N, S>>,
    pools: Vec<SharedPool<N, S>>,
}

// Makes all objects of a net. Its only error is want of memory.
fn make_objects<N: Naming<Plan, TlmLaw>, S: Sharing<N>>(
    alloc: Global,
    plan: &Plan,
    tickets: &Tokens,
    supplies: &mut Supplies<N>,
) -> Result<Objects<N, S>, Memory>
    requires frame { N.frame ≡ frame_of plan.now }
    requires tickets { tickets.now ≡ N.tokens }
    requires first { supplies.old ≡ 0 }
    ensures memories { IfOk result (λ objects. AreMemories plan.now objects.memories.items) }
    ensures hops { IfOk result (λ objects. AreHops plan.now.platform objects.hops.items) }
    ensures pools { IfOk result (λ objects. ArePools plan.now.platform objects.pools.items) }
    ensures next { OnOk result (supplies.new ≡ length N.frame.planned) }
{
    let memories = make_memories::<N, S>(alloc, plan, tickets, supplies)?;
    let hops = make_hops::<N, S>(alloc, plan, tickets, supplies)?;
    let pools = make_pools::<N, S>(alloc, plan, tickets, supplies)?;
    Ok(Objects {
        memories,
        hops,
        pools,
    })
}

// What waits to be handed out, once all objects are made. Its only error is want of memory.
fn make_kept<N: Naming<Plan, TlmLaw>>(
    alloc: Global,
    plan: &Plan,
    history: &PlatHistory,
    note: PlatNote,
    supplies: Supplies<N>,
) -> Result<Kept<N>, Memory>
    requires plan { plan.now ≡ N.frame.world }
    requires table { history.now.table ≡ N.table }
    requires note { IsFirstNote N.table plan.now.platform note }
    requires supplies { supplies ≡ length (objects_of plan.now.platform) }
    ensures { IfOk result (λ kept. kept ≡ all_waiting plan.now.platform) }
{
    let _ = plan.platform();
    let notes = make_notes(alloc, history, note, notes_of(plan))?;
    Kept::new(alloc, plan, notes, supplies.into_wallets())
}

// The net of a plan with these objects. Its only error is want of memory.
fn make_net<N: Naming<Plan, TlmLaw>, S: Sharing<N>>(
    alloc: Global,
    plan: &Plan,
    history: PlatHistory,
    tickets: Tokens,
    objects: Objects<N, S>,
) -> Result<Net<N, S>, Memory>
    requires plan { plan.now ≡ N.frame.world }
    requires frame { N.frame ≡ frame_of plan.now }
    requires history { (history.table ≡ N.table) × (history.frame ≡ N.frame) }
    requires tickets { tickets ≡ N.tokens }
    requires memories { AreMemories plan.now objects.memories.items }
    requires hops { AreHops plan.now.platform objects.hops.items }
    requires pools { ArePools plan.now.platform objects.pools.items }
    ensures { IfOk result (λ net. net ≡ plan.now) }
{
    let Objects {
        memories,
        hops,
        pools,
    } = objects;
    let initiators = plan.platform().initiators.as_slice().len();
    let signs = Signs::new(alloc, hops.len(), initiators)?;
    let plan = plan.copy(alloc)?;
    Ok(Net::of_parts(plan, history, tickets, memories, hops, pools, signs))
}

/// Builds the net of a plan: every memory, every hop, and the pool of each four-phase initiator, with room in
/// its log for all that is planned, and for each initiator an engine, a payload with room for 4,096 bytes, a
/// note and a wallet with its tickets, and a note for each router and memory. What was opened was opened for
/// this plan, and N names its history and its tokens. The history is empty. Its only error is want of
/// memory.
pub fn build<N: Naming<Plan, TlmLaw>, S: Sharing<N>>(
    alloc: Global,
    opened: Opened,
    plan: &Plan,
) -> Result<Built<N, S>, Memory>
    requires history { (opened.table ≡ N.table) × (opened.frame ≡ N.frame) }
    requires tickets { opened.tokens ≡ N.tokens }
    requires plan { plan.now ≡ N.frame.world }
    ensures net { IfOk result (λ built. built.net ≡ plan.now) }
    ensures kept { IfOk result (λ built. built.kept ≡ all_waiting plan.now.platform) }
{
    let OpenedParts {
        history,
        seats,
        note,
        tickets,
        books,
    } = opened.into_parts::<N>(plan);
    let mut supplies = begin_supplies::<N>(alloc, plan, &tickets, seats, books)?;
    let objects = make_objects::<N, S>(alloc, plan, &tickets, &mut supplies)?;
    let kept = make_kept::<N>(alloc, plan, &history, note, supplies)?;
    let net = make_net::<N, S>(alloc, plan, history, tickets, objects)?;
    Ok(Built { net, kept })
}
