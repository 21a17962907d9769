// Where the bindings and windows of a platform lead.
ghost use Rattle.std.specs.Prelude.{◌≡◌, IfOk, length, nat_lt};
ghost use Rattle.std.specs.List.{list_any, range_with_len};
ghost use Rattle.platform_shape.specs.Paths.{is_target, is_named, is_on_cycle, is_deeper, has_path, paths_to};
ghost use Rattle.platform_shape.specs.Shape.{has_two_paths};
ghost use Rattle.platform_shape.specs.Walks.{seen, walks_of, AreCounts};

use crate::walks::{Component, Walks, count, counts, from_target};
use std::alloc::{AllocError, Global};
use tlm_model::{InitiatorRow, Platform, RouterRow, Target};

/// Whether a window of a router leads straight to a component.
fn leads_to(router: &RouterRow, to: Component) -> bool
    ensures { result ≡ list_any (λ w. is_target w.to (seen to)) router.now.windows }
{
    router
        .windows
        .as_slice()
        .iter()
        .any(|window| to.is(window.to))
}

/// Whether a binding leads straight to a component.
fn is_bound(initiators: &[InitiatorRow], to: Component) -> bool
    ensures { result ≡ list_any (λ i. is_target i.bind (seen to)) initiators.now }
{
    initiators.iter().any(|initiator| to.is(initiator.bind))
}

/// Whether a window leads straight to a component.
fn is_led_to(routers: &[RouterRow], to: Component) -> bool
    ensures { result ≡ list_any (λ r. list_any (λ w. is_target w.to (seen to)) r.windows) routers.now }
{
    routers.iter().any(|router| leads_to(router, to))
}

/// Whether a binding or a window leads straight to a component.
pub fn is_named(platform: &Platform, to: Component) -> bool
    ensures { result ≡ is_named platform.now (seen to) }
{
    let bound = is_bound(platform.initiators.as_slice(), to);
    let led_to = is_led_to(platform.routers.as_slice(), to);
    bound || led_to
}

/// Whether there is a walk from what a window of a router leads to.
fn walks_on(
    platform: &Platform,
    walks: Walks,
    windows: usize,
    counts: &[u32],
    router: &RouterRow,
) -> bool
    requires { AreCounts walks windows platform.now counts.now }
    ensures { result ≡ list_any (λ w. nat_lt 0 (walks_of walks windows platform.now w.to)) router.now.windows }
{
    let leading = router.windows.as_slice();
    for window in leading {
        if from_target(platform, walks, windows, counts, window.to) > 0 {
            return true;
        }
    }
    false
}

/// Whether a path leads from the router of this number back to it. Its only error is want of memory.
pub fn is_on_cycle(alloc: Global, platform: &Platform, number: usize) -> Result<bool, AllocError>
    ensures { IfOk result (λ b. b ≡ is_on_cycle platform.now number) }
{
    let routers = platform.routers.as_slice();
    let walks = Walks::To(Component::Router(number));
    let counts = counts(alloc, platform, walks, routers.len())?;
    match routers.get(number) {
        Some(router) => Ok(walks_on(platform, walks, routers.len(), counts.as_slice(), router)),
        None => Ok(false),
    }
}

/// Whether a path from a target visits more than so many routers. Its only error is want of memory.
pub fn is_deeper(
    alloc: Global,
    platform: &Platform,
    most: usize,
    from: Target,
) -> Result<bool, AllocError>
    ensures { IfOk result (λ b. b ≡ is_deeper most platform.now from) }
{
    let longer = count(alloc, platform, Walks::Long, most, from)?;
    Ok(longer > 0)
}

/// Whether two paths lead from a target to a component.
fn leads_twice(
    alloc: Global,
    platform: &Platform,
    from: Target,
    to: Component,
) -> Result<bool, AllocError>
    ensures { IfOk result (λ b. b ≡ nat_lt 1 (paths_to (length platform.now.routers) platform.now from (seen to))) }
{
    let windows = platform.routers.as_slice().len();
    let paths = count(alloc, platform, Walks::To(to), windows, from)?;
    Ok(paths > 1)
}

/// Whether two paths lead from a target to some router.
fn leads_twice_to_router(
    alloc: Global,
    platform: &Platform,
    from: Target,
) -> Result<bool, AllocError>
    ensures { IfOk result (λ b. b ≡ list_any (λ r. nat_lt 1 (paths_to (length platform.now.routers) platform.now from (Target.Router r))) (range_with_len 0 (length platform.now.routers))) }
{
    for number in 0..platform.routers.as_slice().len() {
        if leads_twice(alloc, platform, from, Component::Router(number))? {
            return Ok(true);
        }
    }
    Ok(false)
}

/// Whether two paths lead from a target to some memory.
fn leads_twice_to_memory(
    alloc: Global,
    platform: &Platform,
    from: Target,
) -> Result<bool, AllocError>
    ensures { IfOk result (λ b. b ≡ list_any (λ m. nat_lt 1 (paths_to (length platform.now.routers) platform.now from (Target.Memory m))) (range_with_len 0 (length platform.now.memories))) }
{
    for number in 0..platform.memories.as_slice().len() {
        if leads_twice(alloc, platform, from, Component::Memory(number))? {
            return Ok(true);
        }
    }
    Ok(false)
}

/// Whether two paths lead from an initiator to one component. Its only error is want of memory.
pub fn has_two_paths(
    alloc: Global,
    platform: &Platform,
    initiator: &InitiatorRow,
) -> Result<bool, AllocError>
    ensures { IfOk result (λ b. b ≡ has_two_paths platform.now initiator.now) }
{
    if leads_twice_to_router(alloc, platform, initiator.bind)? {
        return Ok(true);
    }
    leads_twice_to_memory(alloc, platform, initiator.bind)
}

/// Whether a path leads from an initiator to the memory with this number, whatever the addresses. Its
/// only error is want of memory.
pub fn has_path_to_memory(
    alloc: Global,
    platform: &Platform,
    initiator: &InitiatorRow,
    memory: usize,
) -> Result<bool, AllocError>
    ensures { IfOk result (λ b. b ≡ has_path platform.now initiator.now (Target.Memory memory)) }
{
    let windows = platform.routers.as_slice().len();
    let walks = Walks::To(Component::Memory(memory));
    let paths = count(alloc, platform, walks, windows, initiator.bind)?;
    Ok(paths > 0)
}
