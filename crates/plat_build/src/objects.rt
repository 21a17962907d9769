// The objects of a plan's history, in the order of their numbers, and what is planned of each.
ghost use Rattle.std.specs.Prelude.{◌≡◌, ◌≤◌, [], ◌∷◌, ◌++◌, length, map, All, IfOk, OnOk, if◌then◌else◌};
ghost use Rattle.std.specs.List.{range_with_len};
ghost use Rattle.tlm_types.specs.declared.words.ObjectNo.TheVariants.{Memory as MemoryObject, Hop as HopObject, Pool as PoolObject};
ghost use Rattle.route_plan.specs.Planned.{planned_at};
ghost use Rattle.route_plan.specs.Valid.{hop_count, IsObject};
ghost use Rattle.cargo_model.specs.Known.{has_pool, objects_of};
ghost use Rattle.cargo_net.specs.Gates.{gates_at};
ghost use Rattle.plat_net.specs.Objects.{notes_of, pools_of};

use route_plan::Plan;
use std::alloc::{AllocError, Global};
use tlm_model::{Platform, Style};
use tlm_types::ObjectNo;

/// The objects of the history: the memories, then the hops, then the pools of the initiators that have
/// one.
pub(crate) fn objects_of(alloc: Global, plan: &Plan) -> Result<Vec<ObjectNo>, AllocError>
    ensures objects { IfOk result (λ objects. objects.items ≡ objects_of plan.now.platform) }
    ensures there { IfOk result (λ objects. All (IsObject plan.now.platform) objects.items) }
    ensures few { IfOk result (λ objects. length objects.items ≤ 336) }
{
    let _ = plan.platform();
    let mut objects = Vec::new(alloc);
    push_memories(&mut objects, plan)?;
    push_hops(&mut objects, plan)?;
    push_pools(&mut objects, plan)?;
    Ok(objects)
}

fn push_memories(objects: &mut Vec<ObjectNo>, plan: &Plan) -> Result<(), AllocError>
    ensures { OnOk result (objects.new.items ≡ objects.old.items
        ++ map MemoryObject (range_with_len 0 (length plan.now.platform.memories))) }
{
    for memory in 0..plan.platform().memories.as_slice().len() {
        objects.push(ObjectNo::Memory(memory as u32))?;
    }
    Ok(())
}

fn push_hops(objects: &mut Vec<ObjectNo>, plan: &Plan) -> Result<(), AllocError>
    ensures { OnOk result (objects.new.items ≡ objects.old.items
        ++ map HopObject (range_with_len 0 (hop_count plan.now.platform))) }
{
    let _ = plan.platform();
    let mut hop = 0u32;
    'hops: while plan.hop_ends(hop).is_some() {
        objects.push(ObjectNo::Hop(hop))?;
        hop += 1;
    }
    Ok(())
}

pub(crate) fn has_pool(style: Style) -> bool
    ensures { result ≡ has_pool style }
{
    match style {
        Style::Blocking | Style::Direct => false,
        Style::FourPhase => true,
    }
}

// The pool of the initiator with this number and style, if it has one.
fn push_pool(objects: &mut Vec<ObjectNo>, number: u32, style: Style) -> Result<(), AllocError>
    ensures { OnOk result (objects.new.items ≡ objects.old.items
        ++ (if has_pool style then PoolObject number ∷ [] else [])) }
{
    if !has_pool(style) {
        return Ok(());
    }
    objects.push(ObjectNo::Pool(number))?;
    Ok(())
}

fn push_pools(objects: &mut Vec<ObjectNo>, plan: &Plan) -> Result<(), AllocError>
    ensures { OnOk result (objects.new.items ≡ objects.old.items
        ++ pools_of plan.now.platform (length plan.now.platform.initiators)) }
{
    for (number, row) in plan.platform().initiators.as_slice().iter().enumerate() {
        push_pool(objects, number as u32, row.style)?;
    }
    Ok(())
}

/// The entries that are planned of each of these objects.
pub(crate) fn planned_of(
    alloc: Global,
    plan: &Plan,
    objects: &[ObjectNo],
) -> Result<Vec<u64>, AllocError>
    requires { All (IsObject plan.now.platform) objects.now }
    ensures { IfOk result (λ planned. planned.items ≡ map (planned_at plan.now) objects.now) }
{
    let mut planned = Vec::new(alloc);
    for object in objects {
        planned.push(plan.entries(*object))?;
    }
    Ok(planned)
}

/// How many gates an object has.
fn gates_at(platform: &Platform, object: ObjectNo) -> u32
    requires { IsObject platform.now object }
    ensures { result ≡ gates_at platform.now object }
{
    match object {
        ObjectNo::Memory(memory) => platform.memories.as_slice()[memory as usize].traits.gates,
        ObjectNo::Hop(_) | ObjectNo::Pool(_) => 0,
    }
}

/// The gates of each of these objects.
pub(crate) fn gates_of(
    alloc: Global,
    platform: &Platform,
    objects: &[ObjectNo],
) -> Result<Vec<u32>, AllocError>
    requires { All (IsObject platform.now) objects.now }
    ensures { IfOk result (λ gates. gates.items ≡ map (gates_at platform.now) objects.now) }
{
    let mut gates = Vec::new(alloc);
    for object in objects {
        gates.push(gates_at(platform, *object))?;
    }
    Ok(gates)
}

/// How many notes there are: one for each initiator, router and memory.
pub(crate) fn notes_of(plan: &Plan) -> u32
    ensures notes { result ≡ notes_of plan.now.platform }
    ensures few { result ≤ 64 }
{
    let platform = plan.platform();
    let initiators = platform.initiators.as_slice().len();
    let routers = platform.routers.as_slice().len();
    (initiators + routers + platform.memories.as_slice().len()) as u32
}
