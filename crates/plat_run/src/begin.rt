// The jobs of a net, before their first turns.
ghost use Rattle.std.specs.Prelude.{◌≡◌, ◌≢◌, ◌+◌, ◌<◌, ◌≤◌, ◌^◌, true, length, replicate, IfOk, OnOk, IsSomeAnd, Some, slice_get, slice_set, false};
ghost use Rattle.plat_build.specs.Kept.{all_waiting, IsStart};
ghost use Rattle.run_queue.specs.Queue.{AreNumbered};
ghost use Rattle.tlm_model.specs.declared.platform.Style.TheVariants as Styles;
ghost use Rattle.plat_run.specs.Actors.{number_of};

use crate::actor::Actor;
use crate::nodes::NodeJob;
use crate::port_job::PortJob;
use decoupled_run::DecoupledInitiator;
use fourphase_port::Port;
use plat_build::{Kept, Start, style_of};
use plat_net::{Net, Sharing, TlmLaw};
use route_plan::Plan;
use router_node::RouterNode;
use shared_object::Naming;
use std::alloc::Global;
use target_node::TargetNode;
use tlm_model::Style;
use tlm_types::Memory;

// The blocking or direct initiator with this number, with what it starts with. Its only error is want of memory.
fn begin_decoupled<N: Naming<Plan, TlmLaw>, S: Sharing<N>>(
    alloc: Global,
    net: &Net<N, S>,
    number: u32,
    start: Start,
) -> Result<Actor<N>, Memory>
    requires number { number < length net.now.platform.initiators }
    requires start { IsStart N.table N.tokens N.frame.world number start }
    requires style { IsSomeAnd (slice_get net.now.platform.initiators number) (λ row. row.style ≢ Styles.FourPhase) }
    ensures { IfOk result (λ job. number_of job ≡ number) }
{
    let job = DecoupledInitiator::begin(alloc, net, number, start)?;
    Ok(Actor::Decoupled(Box::new(alloc, job)?))
}

// The four-phase initiator with this number, with what it starts with. Its only error is want of memory.
fn begin_port<N: Naming<Plan, TlmLaw>, S: Sharing<N>>(
    alloc: Global,
    net: &Net<N, S>,
    number: u32,
    start: Start,
) -> Result<Actor<N>, Memory>
    requires number { number < length net.now.platform.initiators }
    requires start { IsStart N.table N.tokens N.frame.world number start }
    requires style { IsSomeAnd (slice_get net.now.platform.initiators number) (λ row. row.style ≡ Styles.FourPhase) }
    ensures { IfOk result (λ job. number_of job ≡ number) }
{
    let _ = net.plan().platform();
    let Start {
        engine,
        payload,
        note,
        wallet,
    } = start;
    let port = Port::new(alloc, net, engine, payload, note, wallet)?;
    let job = PortJob::new(number, port);
    Ok(Actor::FourPhase(Box::new(alloc, job)?))
}

// The initiator with this number, by its style, with what it starts with. Its only error is want of memory.
fn begin_initiator<N: Naming<Plan, TlmLaw>, S: Sharing<N>>(
    alloc: Global,
    net: &Net<N, S>,
    number: u32,
    start: Start,
) -> Result<Actor<N>, Memory>
    requires number { number < length net.now.platform.initiators }
    requires start { IsStart N.table N.tokens N.frame.world number start }
    ensures { IfOk result (λ job. number_of job ≡ number) }
{
    match style_of(net, number) {
        Style::Blocking | Style::Direct => begin_decoupled(alloc, net, number, start),
        Style::FourPhase => begin_port(alloc, net, number, start),
    }
}

// The jobs of all initiators of a net, in order. Its only error is want of memory.
fn begin_initiators<N: Naming<Plan, TlmLaw>, S: Sharing<N>>(
    alloc: Global,
    net: &Net<N, S>,
    kept: &mut Kept<N>,
) -> Result<Vec<Actor<N>>, Memory>
    requires kept { kept.old.starts ≡ replicate (length net.now.platform.initiators) true }
    ensures numbered { IfOk result (λ jobs. AreNumbered number_of jobs.items) }
    ensures count { IfOk result (λ jobs. length jobs.items ≡ length net.now.platform.initiators) }
    ensures routers { kept.new.routers ≡ kept.old.routers }
    ensures memories { kept.new.memories ≡ kept.old.memories }
{
    let mut jobs = Vec::new(alloc);
    for number in 0..net.plan().platform().initiators.as_slice().len() {
        let start = kept.start(number as u32);
        let job = begin_initiator(alloc, net, number as u32, start)?;
        jobs.push(job)?;
    }
    Ok(jobs)
}

// The job with this number, of this router of a net. Its only error is want of memory.
fn begin_router<N: Naming<Plan, TlmLaw>, S: Sharing<N>>(
    alloc: Global,
    net: &Net<N, S>,
    kept: &mut Kept<N>,
    router: u32,
    number: u32,
) -> Result<Actor<N>, Memory>
    requires router { router < length net.now.platform.routers }
    requires waits { slice_get kept.old.routers router ≡ Some true }
    ensures number { IfOk result (λ job. number_of job ≡ number) }
    ensures kept { kept.new ≡ record kept.old { routers = slice_set kept.old.routers router false } }
{
    let _ = net.plan();
    let note = kept.router_note(router);
    let node = RouterNode::new(alloc, net, router)?;
    let job = NodeJob::new(number, node, note);
    Ok(Actor::Router(Box::new(alloc, job)?))
}

// The job with this number, of this memory of a net. Its only error is want of memory.
fn begin_memory<N: Naming<Plan, TlmLaw>, S: Sharing<N>>(
    alloc: Global,
    net: &Net<N, S>,
    kept: &mut Kept<N>,
    memory: u32,
    number: u32,
) -> Result<Actor<N>, Memory>
    requires memory { memory < length net.now.platform.memories }
    requires waits { slice_get kept.old.memories memory ≡ Some true }
    ensures number { IfOk result (λ job. number_of job ≡ number) }
    ensures kept { kept.new ≡ record kept.old { memories = slice_set kept.old.memories memory false } }
{
    let _ = net.plan();
    let note = kept.memory_note(memory);
    let node = TargetNode::new(alloc, net, memory)?;
    let job = NodeJob::new(number, node, note);
    Ok(Actor::Memory(Box::new(alloc, job)?))
}

// Adds the routers of a net as jobs behind these, of which there are so many. Its only error is want of memory.
fn begin_routers<N: Naming<Plan, TlmLaw>, S: Sharing<N>>(
    alloc: Global,
    net: &Net<N, S>,
    kept: &mut Kept<N>,
    jobs: &mut Vec<Actor<N>>,
    first: u32,
) -> Result<(), Memory>
    requires kept { kept.old.routers ≡ replicate (length net.now.platform.routers) true }
    requires numbered { AreNumbered number_of jobs.old.items }
    requires first { length jobs.old.items ≡ first }
    requires few { first ≤ 2 ^ 16 }
    ensures numbered { OnOk result (AreNumbered number_of jobs.new.items) }
    ensures count { OnOk result (length jobs.new.items ≡ first + length net.now.platform.routers) }
    ensures memories { kept.new.memories ≡ kept.old.memories }
{
    for router in 0..net.plan().platform().routers.as_slice().len() {
        let number = first + router as u32;
        let job = begin_router(alloc, net, kept, router as u32, number)?;
        jobs.push(job)?;
    }
    Ok(())
}

// Adds the memories of a net as jobs behind these, of which there are so many. Its only error is want of memory.
fn begin_memories<N: Naming<Plan, TlmLaw>, S: Sharing<N>>(
    alloc: Global,
    net: &Net<N, S>,
    kept: &mut Kept<N>,
    jobs: &mut Vec<Actor<N>>,
    first: u32,
) -> Result<(), Memory>
    requires kept { kept.old.memories ≡ replicate (length net.now.platform.memories) true }
    requires numbered { AreNumbered number_of jobs.old.items }
    requires first { length jobs.old.items ≡ first }
    requires few { first ≤ 2 ^ 16 }
    ensures numbered { OnOk result (AreNumbered number_of jobs.new.items) }
    ensures count { OnOk result (length jobs.new.items ≡ first + length net.now.platform.memories) }
{
    for memory in 0..net.plan().platform().memories.as_slice().len() {
        let number = first + memory as u32;
        let job = begin_memory(alloc, net, kept, memory as u32, number)?;
        jobs.push(job)?;
    }
    Ok(())
}

// How many initiators a net has, and how many initiators and routers.
fn counts_of<N: Naming<Plan, TlmLaw>, S: Sharing<N>>(net: &Net<N, S>) -> (u32, u32)
    ensures initiators { result.0 ≡ length net.now.platform.initiators }
    ensures routers { result.1 ≡ length net.now.platform.initiators + length net.now.platform.routers }
    ensures few { result.1 ≤ 2 ^ 16 }
{
    let platform = net.plan().platform();
    let initiators = platform.initiators.as_slice().len() as u32;
    let routers = platform.routers.as_slice().len() as u32;
    (initiators, initiators + routers)
}

// Adds the routers and the memories of a net as jobs behind those of its initiators. Its only error is want of memory.
fn begin_nodes<N: Naming<Plan, TlmLaw>, S: Sharing<N>>(
    alloc: Global,
    net: &Net<N, S>,
    kept: &mut Kept<N>,
    jobs: &mut Vec<Actor<N>>,
) -> Result<(), Memory>
    requires routers { kept.old.routers ≡ replicate (length net.now.platform.routers) true }
    requires memories { kept.old.memories ≡ replicate (length net.now.platform.memories) true }
    requires numbered { AreNumbered number_of jobs.old.items }
    requires count { length jobs.old.items ≡ length net.now.platform.initiators }
    ensures numbered { OnOk result (AreNumbered number_of jobs.new.items) }
    ensures count { OnOk result (length net.now.platform.initiators ≤ length jobs.new.items) }
{
    let (initiators, routers) = counts_of(net);
    begin_routers(alloc, net, kept, jobs, initiators)?;
    begin_memories(alloc, net, kept, jobs, routers)
}

// Whether some initiator of a net is of four phases.
fn has_fourphase<N: Naming<Plan, TlmLaw>, S: Sharing<N>>(net: &Net<N, S>) -> bool {
    let rows = net.plan().platform().initiators.as_slice();
    rows.iter().any(|row| row.style == Style::FourPhase)
}

/// The jobs of a net, in order: those of all initiators, and behind them those of the routers and the
/// memories, where some initiator is of four phases. Its only error is want of memory.
pub(crate) fn begin_jobs<N: Naming<Plan, TlmLaw>, S: Sharing<N>>(
    alloc: Global,
    net: &Net<N, S>,
    kept: &mut Kept<N>,
) -> Result<Vec<Actor<N>>, Memory>
    requires kept { kept.old ≡ all_waiting net.now.platform }
    ensures numbered { IfOk result (λ jobs. AreNumbered number_of jobs.items) }
    ensures count { IfOk result (λ jobs. length net.now.platform.initiators ≤ length jobs.items) }
{
    let mut jobs = begin_initiators(alloc, net, kept)?;
    if !has_fourphase(net) {
        return Ok(jobs);
    }
    begin_nodes(alloc, net, kept, &mut jobs)?;
    Ok(jobs)
}
