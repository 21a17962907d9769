// What each initiator may add to each object.
ghost use Rattle.std.specs.Prelude.{◌≡◌, ◌<◌, ◌≤◌, ◌^◌, All, IfOk, List, length, map, slice_index_or, sum_by};
ghost use Rattle.std.specs.List.{range_with_len};
ghost use Rattle.tlm_model.specs.declared.operation.Operation.{Operation};
ghost use Rattle.tlm_model.specs.declared.platform.Platform.{Platform};
ghost use Rattle.tlm_model.specs.Plan.{Plan};
ghost use Rattle.route_plan.specs.Counted.{is_granted_at};
ghost use Rattle.route_plan.specs.Counts.{capped};
ghost use Rattle.route_plan.specs.Shares.{entries_in, gates_in, logged_in, no_share, script_shares, share_in, shares_by_initiator, shares_of, with_scripts};

use crate::counts::{Count, counts};
use crate::routes::Routes;
use platform_shape::has_path_to_memory;
use std::alloc::{AllocError, Global};
use tlm_model::{Platform, Rows, Style};
use traffic_script::Script;

/// What an initiator may add to an object at most: entries, and bytes of logged data.
#[derive(Clone, Copy)]
pub struct Share {
    pub entries: u64,
    pub logged: u64,
}

/// Whether the initiator is direct and has a path to a memory. Its only error is want of memory.
fn is_granted(
    alloc: Global,
    platform: &Platform,
    initiator: u32,
    memory: usize,
) -> Result<bool, AllocError>
    requires { initiator < length platform.now.initiators }
    ensures { IfOk result (λ b. b ≡ is_granted_at platform.now initiator memory) }
{
    let row = &platform.initiators.as_slice()[initiator as usize];
    match row.style {
        Style::Direct => has_path_to_memory(alloc, platform, row, memory),
        Style::Blocking | Style::FourPhase => Ok(false),
    }
}

/// The entries of the gates of the memory at a place, if one is there: granted to the initiator, and
/// closed by its invalidations.
fn gates(
    alloc: Global,
    platform: &Platform,
    initiator: u32,
    place: usize,
    invalidations: u64,
) -> Result<u64, AllocError>
    requires { initiator < length platform.now.initiators }
    ensures gates { IfOk result (λ n. n ≡ gates_in platform.now initiator place invalidations) }
    ensures few { IfOk result (λ n. n < 2 ^ 33) }
{
    let Some(row) = platform.memories.as_slice().get(place) else {
        return Ok(0);
    };
    if !row.traits.dmi {
        return Ok(0);
    }
    let granted = is_granted(alloc, platform, initiator, place)?;
    let closed = invalidations > 0;
    Ok(row.traits.gates as u64 * (granted as u64 + closed as u64))
}

/// What an initiator may add at a place where this is counted of its script.
fn counted_share(
    alloc: Global,
    platform: &Platform,
    initiator: u32,
    place: usize,
    count: Count,
) -> Result<Share, AllocError>
    requires initiator { initiator < length platform.now.initiators }
    requires few { count.entries ≤ 1638400000 }
    ensures { IfOk result (λ share. share ≡ share_in platform.now initiator place count) }
{
    let gates = gates(alloc, platform, initiator, place, count.invalidations)?;
    Ok(Share {
        entries: count.entries + gates,
        logged: count.logged,
    })
}

/// What the initiator with this script may add at each place.
fn script_shares(
    alloc: Global,
    routes: &Routes,
    initiator: u32,
    script: &Script,
) -> Result<Rows<Share>, AllocError>
    requires { initiator < length routes.now.initiators }
    ensures { IfOk result (λ shares. shares ≡ script_shares routes.now initiator script.now) }
{
    let platform = routes.platform();
    let counts = counts(alloc, routes, initiator, script)?;
    let mut shares = Vec::new(alloc);
    for place in 0..routes.objects() {
        let share = counted_share(alloc, platform, initiator, place, counts[place])?;
        shares.push(share)?;
    }
    Ok(Rows::from_vec(shares))
}

/// What each initiator may add at each place, by the scripts in their order.
fn all_shares(
    alloc: Global,
    routes: &Routes,
    scripts: &[Script],
) -> Result<Vec<Rows<Share>>, AllocError>
    requires { length scripts.now ≡ length routes.now.initiators }
    ensures { IfOk result (λ rows. rows.items ≡ shares_by_initiator (with_scripts routes.now scripts.now)) }
{
    let mut rows = Vec::new(alloc);
    for initiator in 0..routes.platform().initiators.as_slice().len() {
        let row = script_shares(alloc, routes, initiator as u32, &scripts[initiator])?;
        rows.push(row)?;
    }
    Ok(rows)
}

/// What each initiator may add at this place.
fn object_shares(
    alloc: Global,
    rows: &[Rows<Share>],
    place: usize,
) -> Result<Rows<Share>, AllocError>
    requires { All (λ row. place < length row) rows.now }
    ensures { IfOk result (λ shares. shares ≡ map (λ row. slice_index_or row place no_share) rows.now) }
{
    let mut shares = Vec::new(alloc);
    for row in rows {
        shares.push(row.as_slice()[place])?;
    }
    Ok(Rows::from_vec(shares))
}

/// What each initiator may add to each object, place by place.
pub fn shares(
    alloc: Global,
    routes: &Routes,
    scripts: &[Script],
) -> Result<Rows<Rows<Share>>, AllocError>
    requires { length scripts.now ≡ length routes.now.initiators }
    ensures { IfOk result (λ shares. shares ≡ shares_of (with_scripts routes.now scripts.now)) }
{
    let rows = all_shares(alloc, routes, scripts)?;
    let mut shares = Vec::new(alloc);
    for place in 0..routes.objects() {
        let more = object_shares(alloc, rows.as_slice(), place)?;
        shares.push(more)?;
    }
    Ok(Rows::from_vec(shares))
}

/// The entries of some shares together. The sum stands still at the greatest number.
pub fn entries_in(shares: &[Share]) -> u64
    ensures { result ≡ capped (entries_in shares.now) }
{
    let mut sum: u64 = 0;
    for share in shares {
        sum = sum.saturating_add(share.entries);
    }
    sum
}

/// The bytes of some shares together. The sum stands still at the greatest number.
pub fn logged_in(shares: &[Share]) -> u64
    ensures { result ≡ capped (logged_in shares.now) }
{
    let mut sum: u64 = 0;
    for share in shares {
        sum = sum.saturating_add(share.logged);
    }
    sum
}

/// The entries of all objects together, as far as the greatest number.
pub fn entries_in_all(shares: &[Rows<Share>]) -> u64
    ensures { result ≡ capped (sum_by entries_in shares.now) }
{
    let mut sum: u64 = 0;
    for of_object in shares {
        sum = sum.saturating_add(entries_in(of_object.as_slice()));
    }
    sum
}

/// The bytes logged at all objects together, as far as the greatest number.
pub fn logged_in_all(shares: &[Rows<Share>]) -> u64
    ensures { result ≡ capped (sum_by logged_in shares.now) }
{
    let mut sum: u64 = 0;
    for of_object in shares {
        sum = sum.saturating_add(logged_in(of_object.as_slice()));
    }
    sum
}
