// The memories of a plan.
ghost use Rattle.std.specs.Prelude.{◌≡◌, ◌+◌, ◌≤◌, slice_get, length, sum, take, IsSomeAnd, IfOk, OnOk};
ghost use Rattle.tlm_types.specs.declared.words.ObjectNo.TheVariants.{Memory as MemoryObject};
ghost use Rattle.tlm_model.specs.declared.platform.MemoryRow.{MemoryRow};
ghost use Rattle.cargo_net.specs.Gates.{gates_of};
ghost use Rattle.plat_net.specs.Net.{AreMemories, memory_numbers};
ghost use Rattle.plat_net.specs.Objects.{frame_of};
ghost use Rattle.plat_build.specs.Supplies.{IsSupply};

use crate::supplies::{Supplies, Supply};
use plat_net::{SharedMemory, Sharing, TlmLaw};
use region_object::Region;
use route_plan::Plan;
use shared_object::{Naming, Shared};
use std::alloc::Global;
use tlm_types::{Memory, MemoryTraits, ObjectNo};
use token_book::Tokens;

// Memory `number`, with room for what is planned.
fn make_memory<N: Naming<Plan, TlmLaw>, S: Sharing<N>>(
    alloc: Global,
    plan: &Plan,
    number: u32,
    traits: MemoryTraits,
    first_gate: u32,
    supply: Supply,
) -> Result<SharedMemory<N, S>, Memory>
    requires frame { N.frame ≡ frame_of plan.now }
    requires row { IsSomeAnd (slice_get plan.now.platform.memories number) (λ (row : MemoryRow). traits ≡ row.traits) }
    requires gates { first_gate ≡ sum (take number (gates_of plan.now.platform)) }
    requires few_gates { first_gate + traits.gates ≤ 4294967295 }
    requires supply { IsSupply N.table N.tokens N.frame number (MemoryObject number) supply }
    ensures { IfOk result (λ memory. memory ≡ memory_numbers number) }
{
    let Supply {
        seat,
        book,
        second: _,
    } = supply;
    let entries = plan.entries(ObjectNo::Memory(number));
    let logged = plan.logged(number);
    let region = Region::new(alloc, number, traits, entries, logged, first_gate)?;
    Ok(Shared::new(region, seat, book))
}

/// The memories of a plan, which are the first objects. Its only error is want of memory.
pub(crate) fn make_memories<N: Naming<Plan, TlmLaw>, S: Sharing<N>>(
    alloc: Global,
    plan: &Plan,
    tickets: &Tokens,
    supplies: &mut Supplies<N>,
) -> Result<Vec<SharedMemory<N, S>>, Memory>
    requires frame { N.frame ≡ frame_of plan.now }
    requires tickets { tickets.now ≡ N.tokens }
    requires first { supplies.old ≡ 0 }
    ensures memories { IfOk result (λ memories. AreMemories plan.now memories.items) }
    ensures next { OnOk result (supplies.new ≡ length plan.now.platform.memories) }
{
    let mut first_gate = 0u32;
    let mut memories = Vec::new(alloc);
    for (number, row) in plan.platform().memories.as_slice().iter().enumerate() {
        let number = number as u32;
        let supply = supplies.hand_out(plan, tickets, ObjectNo::Memory(number));
        let memory = make_memory::<N, S>(alloc, plan, number, row.traits, first_gate, supply)?;
        memories.push(memory)?;
        first_gate = first_gate.saturating_add(row.traits.gates);
    }
    Ok(memories)
}
