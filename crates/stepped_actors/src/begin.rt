// All actors of a net, before their first steps.
ghost use Rattle.std.specs.Prelude.{◌≡◌, ◌≢◌, ◌+◌, ◌<◌, true, false, length, replicate, IfOk, OnOk, IsSomeAnd, Some, slice_get, slice_set};
ghost use Rattle.tlm_model.specs.declared.platform.Style.TheVariants as Styles;
ghost use Rattle.plat_build.specs.Kept.{IsBlank, IsStart, all_waiting};
ghost use Rattle.stepped_actors.specs.Begin.{HasBegun, HaveBegun, actors_of};

use crate::actor::SteppedActor;
use decoupled_run::{SteppedInitiator, initiators_stay};
use fourphase_port::SteppedPort;
use plat_build::{Kept, Start, style_of};
use plat_net::{Net, PlatNote, Sharing, TlmLaw};
use route_plan::Plan;
use router_node::RouterNode;
use router_steps::SteppedRouter;
use shared_object::Naming;
use std::alloc::Global;
use target_node::TargetNode;
use tlm_model::Style;
use tlm_types::Memory;

// The blocking or direct initiator with this number, with what it starts with, and its note. Its only error is want of
// memory.
fn begin_decoupled<N: Naming<Plan, TlmLaw>, S: Sharing<N>>(
    alloc: Global,
    net: &Net<N, S>,
    number: u32,
    start: Start,
) -> Result<(SteppedActor, PlatNote), Memory>
    requires number { number < length net.now.platform.initiators }
    requires start { IsStart N.table N.tokens N.frame.world number start }
    requires style { IsSomeAnd (slice_get net.now.platform.initiators number) (λ row. row.style ≢ Styles.FourPhase) }
    ensures actor { IfOk result (λ r. HasBegun N.table N.tokens N.frame number r.0) }
    ensures note { IfOk result (λ r. IsBlank N.table r.1) }
{
    initiators_stay();
    let _ = net.plan();
    let (initiator, note) = SteppedInitiator::begin(alloc, net, number, start)?;
    Ok((SteppedActor::Decoupled(initiator), note))
}

// The four-phase initiator with this number, with what it starts with, and its note. Its only error is want of memory.
fn begin_port<N: Naming<Plan, TlmLaw>, S: Sharing<N>>(
    alloc: Global,
    net: &Net<N, S>,
    number: u32,
    start: Start,
) -> Result<(SteppedActor, PlatNote), Memory>
    requires number { number < length net.now.platform.initiators }
    requires start { IsStart N.table N.tokens N.frame.world number start }
    requires style { IsSomeAnd (slice_get net.now.platform.initiators number) (λ row. row.style ≡ Styles.FourPhase) }
    ensures actor { IfOk result (λ r. HasBegun N.table N.tokens N.frame number r.0) }
    ensures note { IfOk result (λ r. IsBlank N.table r.1) }
{
    let _ = net.plan().platform();
    let Start {
        engine,
        payload,
        note,
        wallet,
    } = start;
    let port = SteppedPort::new(alloc, net, engine, payload, wallet)?;
    Ok((SteppedActor::FourPhase(port), note))
}

// The initiator with this number, by its style, with what it starts with, and its note. Its only error is want of memory.
fn begin_initiator<N: Naming<Plan, TlmLaw>, S: Sharing<N>>(
    alloc: Global,
    net: &Net<N, S>,
    number: u32,
    start: Start,
) -> Result<(SteppedActor, PlatNote), Memory>
    requires number { number < length net.now.platform.initiators }
    requires start { IsStart N.table N.tokens N.frame.world number start }
    ensures actor { IfOk result (λ r. HasBegun N.table N.tokens N.frame number r.0) }
    ensures note { IfOk result (λ r. IsBlank N.table r.1) }
{
    match style_of(net, number) {
        Style::Blocking | Style::Direct => begin_decoupled(alloc, net, number, start),
        Style::FourPhase => begin_port(alloc, net, number, start),
    }
}

// Adds the initiator that is next, and answers its note. Its only error is want of memory.
fn push_initiator<N: Naming<Plan, TlmLaw>, S: Sharing<N>>(
    alloc: Global,
    net: &Net<N, S>,
    kept: &mut Kept<N>,
    actors: &mut Vec<SteppedActor>,
    number: u32,
) -> Result<PlatNote, Memory>
    requires number { number < length net.now.platform.initiators }
    requires waits { slice_get kept.old.starts number ≡ Some true }
    requires begun { HaveBegun N.table N.tokens N.frame actors.old.items }
    requires count { length actors.old.items ≡ number }
    ensures begun { OnOk result (HaveBegun N.table N.tokens N.frame actors.new.items) }
    ensures count { OnOk result (length actors.new.items ≡ number + 1) }
    ensures note { IfOk result (IsBlank N.table) }
    ensures kept { kept.new ≡ record kept.old { starts = slice_set kept.old.starts number false } }
{
    let _ = net.plan();
    let start = kept.start(number);
    let (actor, note) = begin_initiator(alloc, net, number, start)?;
    actors.push(actor)?;
    Ok(note)
}

// All initiators of a net, in order, and the note of the last one. Its only error is want of memory.
fn begin_initiators<N: Naming<Plan, TlmLaw>, S: Sharing<N>>(
    alloc: Global,
    net: &Net<N, S>,
    kept: &mut Kept<N>,
    actors: &mut Vec<SteppedActor>,
) -> Result<PlatNote, Memory>
    requires some { 0 < length net.now.platform.initiators }
    requires kept { kept.old.starts ≡ replicate (length net.now.platform.initiators) true }
    requires none { length actors.old.items ≡ 0 }
    ensures begun { OnOk result (HaveBegun N.table N.tokens N.frame actors.new.items) }
    ensures count { OnOk result (length actors.new.items ≡ length net.now.platform.initiators) }
    ensures note { IfOk result (IsBlank N.table) }
    ensures routers { kept.new.routers ≡ kept.old.routers }
    ensures memories { kept.new.memories ≡ kept.old.memories }
{
    let mut note = push_initiator(alloc, net, kept, actors, 0)?;
    for number in 1..net.plan().platform().initiators.as_slice().len() {
        note = push_initiator(alloc, net, kept, actors, number as u32)?;
    }
    Ok(note)
}

// Adds the routers of a net behind these actors, of which there are so many. Its only error is want of memory.
fn begin_routers<N: Naming<Plan, TlmLaw>, S: Sharing<N>>(
    alloc: Global,
    net: &Net<N, S>,
    actors: &mut Vec<SteppedActor>,
) -> Result<(), Memory>
    requires begun { HaveBegun N.table N.tokens N.frame actors.old.items }
    requires count { length actors.old.items ≡ length net.now.platform.initiators }
    ensures begun { OnOk result (HaveBegun N.table N.tokens N.frame actors.new.items) }
    ensures count { OnOk result (length actors.new.items ≡ length net.now.platform.initiators + length net.now.platform.routers) }
{
    for router in 0..net.plan().platform().routers.as_slice().len() {
        let node = RouterNode::new(alloc, net, router as u32)?;
        actors.push(SteppedActor::Router(SteppedRouter::new(node)))?;
    }
    Ok(())
}

// Adds the memories of a net behind these actors. Its only error is want of memory.
fn begin_memories<N: Naming<Plan, TlmLaw>, S: Sharing<N>>(
    alloc: Global,
    net: &Net<N, S>,
    actors: &mut Vec<SteppedActor>,
) -> Result<(), Memory>
    requires begun { HaveBegun N.table N.tokens N.frame actors.old.items }
    requires count { length actors.old.items ≡ length net.now.platform.initiators + length net.now.platform.routers }
    ensures begun { OnOk result (HaveBegun N.table N.tokens N.frame actors.new.items) }
    ensures count { OnOk result (length actors.new.items ≡ actors_of net.now.platform) }
{
    for memory in 0..net.plan().platform().memories.as_slice().len() {
        let node = TargetNode::new(alloc, net, memory as u32)?;
        actors.push(SteppedActor::Memory(node))?;
    }
    Ok(())
}

/// All actors of a net that was just built: its initiators, its routers and its memories, numbered in this order, and the
/// note that they have in turn. The notes of the others are let go of. Its only error is want of memory.
pub fn begin_all<N: Naming<Plan, TlmLaw>, S: Sharing<N>>(
    alloc: Global,
    net: &Net<N, S>,
    kept: &mut Kept<N>,
) -> Result<(Vec<SteppedActor>, PlatNote), Memory>
    requires some { 0 < length net.now.platform.initiators }
    requires kept { kept.old ≡ all_waiting net.now.platform }
    ensures begun { IfOk result (λ r. HaveBegun N.table N.tokens N.frame r.0.items) }
    ensures count { IfOk result (λ r. length r.0.items ≡ actors_of net.now.platform) }
    ensures note { IfOk result (λ r. IsBlank N.table r.1) }
{
    let mut actors = Vec::new(alloc);
    let note = begin_initiators(alloc, net, kept, &mut actors)?;
    begin_routers(alloc, net, &mut actors)?;
    begin_memories(alloc, net, &mut actors)?;
    Ok((actors, note))
}
