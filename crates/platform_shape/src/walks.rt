// Walks along the windows of a platform, counted level by level and not one by one.
ghost use Rattle.std.specs.Prelude.{◌≡◌, ◌+◌, ◌<◌, ◌^◌, ℕ, Some, IfOk, map, slice_get};
ghost use Rattle.std.specs.List.{range_with_len};
ghost use Rattle.platform_shape.specs.Paths.{is_target};
ghost use Rattle.platform_shape.specs.Walks.{seen, standing, few, walks_of, AreCounts};

use std::alloc::{AllocError, Global};
use tlm_model::{Platform, RouterRow, Target};

/// A router or a memory by its number, which need not be one of the platform's.
#[derive(Clone, Copy)]
pub enum Component {
    Router(usize),
    Memory(usize),
}

impl Component {
    /// Whether a binding or a window with this target names it.
    pub fn is(self, target: Target) -> bool
        ensures { result ≡ is_target target (seen self) }
    {
        match (self, target) {
            (Component::Router(number), Target::Router(named)) => named as usize == number,
            (Component::Memory(number), Target::Memory(named)) => named as usize == number,
            (Component::Router(_), Target::Memory(_)) => false,
            (Component::Memory(_), Target::Router(_)) => false,
        }
    }
}

/// Walks of some windows each.
#[derive(Clone, Copy)]
pub enum Walks {
    /// Those of at most so many windows that lead to a component.
    To(Component),
    /// Those of just so many windows that lead to a router.
    Long,
}

impl Walks {
    /// How many of them, of a limit of so many windows, end at the router where they begin.
    fn at_router(self, windows: usize, router: usize) -> u32
        ensures { result ≡ standing self windows (Target.Router router) }
    {
        let ends = match self {
            Walks::To(Component::Router(number)) => router == number,
            Walks::To(Component::Memory(_)) => false,
            Walks::Long => windows == 0,
        };
        if ends { 1 } else { 0 }
    }

    /// How many of them end at the memory where they begin.
    fn at_memory(self, memory: usize) -> u32
        ensures { (windows : ℕ) → result ≡ standing self windows (Target.Memory memory) }
    {
        let ends = match self {
            Walks::To(Component::Memory(number)) => memory == number,
            Walks::To(Component::Router(_)) => false,
            Walks::Long => false,
        };
        if ends { 1 } else { 0 }
    }
}

/// How many walks there are from a target, by the counts of all routers. Two stand for any more.
pub fn from_target(
    platform: &Platform,
    walks: Walks,
    windows: usize,
    counts: &[u32],
    target: Target,
) -> u32
    requires { AreCounts walks windows platform.now counts.now }
    ensures { result ≡ few (walks_of walks windows platform.now target) }
{
    match target {
        Target::Memory(memory) => walks.at_memory(memory as usize),
        Target::Router(router) => {
            let router = router as usize;
            if router < counts.len() {
                counts[router]
            } else {
                walks.at_router(windows, router)
            }
        }
    }
}

/// How many walks of one window more there are from a router.
fn from_router(
    platform: &Platform,
    walks: Walks,
    windows: usize,
    counts: &[u32],
    router: usize,
    row: &RouterRow,
) -> u32
    requires counted { AreCounts walks windows platform.now counts.now }
    requires row { slice_get platform.now.routers router ≡ Some row.now }
    requires room { windows + 1 < 2 ^ 64 }
    ensures { result ≡ few (walks_of walks (windows + 1) platform.now (Target.Router router)) }
{
    let mut count = walks.at_router(windows + 1, router);
    let leading = row.windows.as_slice();
    for window in leading {
        let more = from_target(platform, walks, windows, counts, window.to);
        count = (count + more).min(2);
    }
    count
}

/// The counts of the walks of no window.
fn first_counts(alloc: Global, platform: &Platform, walks: Walks) -> Result<Vec<u32>, AllocError>
    ensures { IfOk result (λ v. AreCounts walks 0 platform.now v.items) }
{
    let mut counts = Vec::new(alloc);
    for router in 0..platform.routers.as_slice().len() {
        counts.push(walks.at_router(0, router))?;
    }
    Ok(counts)
}

/// The counts of the walks of one window more.
fn next_counts(
    alloc: Global,
    platform: &Platform,
    walks: Walks,
    windows: usize,
    counts: &[u32],
) -> Result<Vec<u32>, AllocError>
    requires counted { AreCounts walks windows platform.now counts.now }
    requires room { windows + 1 < 2 ^ 64 }
    ensures { IfOk result (λ v. AreCounts walks (windows + 1) platform.now v.items) }
{
    let mut next = Vec::new(alloc);
    let routers = platform.routers.as_slice();
    for (router, row) in routers.iter().enumerate() {
        next.push(from_router(platform, walks, windows, counts, router, row))?;
    }
    Ok(next)
}

/// The counts of the walks from each router, of a limit of so many windows: each level is made of
/// the one before it, in time in proportion to the windows of the platform.
pub fn counts(
    alloc: Global,
    platform: &Platform,
    walks: Walks,
    windows: usize,
) -> Result<Vec<u32>, AllocError>
    ensures { IfOk result (λ v. AreCounts walks windows platform.now v.items) }
{
    let mut counts = first_counts(alloc, platform, walks)?;
    for done in 0..windows {
        counts = next_counts(alloc, platform, walks, done, counts.as_slice())?;
    }
    Ok(counts)
}

/// How many walks there are from a target. Two stand for any more.
pub fn count(
    alloc: Global,
    platform: &Platform,
    walks: Walks,
    windows: usize,
    from: Target,
) -> Result<u32, AllocError>
    ensures { IfOk result (λ n. n ≡ few (walks_of walks windows platform.now from)) }
{
    let counts = counts(alloc, platform, walks, windows)?;
    Ok(from_target(platform, walks, windows, counts.as_slice(), from))
}
