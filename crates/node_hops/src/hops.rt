// The hops that lead to a component.
ghost use Rattle.std.specs.Prelude.{◌≡◌, ◌≤◌, [], ◌∷◌, ◌++◌, length, IfOk, OnOk, if◌then◌else◌};
ghost use Rattle.node_hops.specs.Hops.{hops_to, is_target, leads_to};

use route_plan::Plan;
use std::alloc::{AllocError, Global};
use tlm_model::Target;

// Whether these are the same component.
fn is_target(one: Target, other: Target) -> bool
    ensures { result ≡ is_target one other }
{
    match (one, other) {
        (Target::Memory(one), Target::Memory(other)) => one == other,
        (Target::Router(one), Target::Router(other)) => one == other,
        _ => false,
    }
}

// Whether a hop leads to this component.
fn leads_to(plan: &Plan, hop: u32, to: Target) -> bool
    ensures { result ≡ leads_to plan.now.platform hop to }
{
    match plan.hop_ends(hop) {
        Some(ends) => is_target(ends.down, to),
        None => false,
    }
}

// Adds the hop where it leads to this component.
fn push_leading(hops: &mut Vec<u32>, plan: &Plan, hop: u32, to: Target) -> Result<(), AllocError>
    ensures { OnOk result (hops.new.items ≡ hops.old.items ++ (if leads_to plan.now.platform hop to then hop ∷ [] else [])) }
{
    if !leads_to(plan, hop, to) {
        return Ok(());
    }
    hops.push(hop)?;
    Ok(())
}

/// The hops that lead to a component, in order. The only error is want of memory.
pub fn hops_to(alloc: Global, plan: &Plan, to: Target) -> Result<Vec<u32>, AllocError>
    ensures are { IfOk result (λ hops. hops.items ≡ hops_to plan.now.platform to) }
    ensures few { IfOk result (λ hops. length hops.items ≤ 288) }
{
    let _ = plan.platform();
    let mut hops = Vec::new(alloc);
    let mut hop = 0u32;
    'hops: while plan.hop_ends(hop).is_some() {
        push_leading(&mut hops, plan, hop, to)?;
        hop += 1;
    }
    Ok(hops)
}
