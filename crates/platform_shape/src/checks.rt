// The tests of a platform's shape.
ghost use Rattle.std.specs.Prelude.{◌≡◌, ◌↔◌, true, IfOk, if◌then◌else◌};
ghost use Rattle.platform_model.specs.Bounded.{IsBounded};
ghost use Rattle.platform_model.specs.Reading.{Gives, GivesBy, refusal};
ghost use Rattle.platform_shape.specs.Shape.{checked_windowed, checked_router_named, checked_memory_named, checked_acyclic, checked_depth, checked_single, checked_shape, IsBlocking};

use crate::copies::copy_platform;
use crate::paths::{has_two_paths, is_deeper, is_named, is_on_cycle};
use crate::shapes::Shape;
use crate::walks::Component;
use platform_model::PlatformCode::{Cycle, TooDeep, TwoPaths, Unbound};
use platform_model::{Place, PlatformCode, PlatformFault, RowKind, rows};
use std::alloc::Global;
use tlm_model::{InitiatorRow, MemoryRow, Platform, RouterRow, Style};

/// The routers that may stand on a path.
const MOST_ROUTERS: usize = 8;

// What a test of rows answers: the refusal of this place, where its row has the fault.
fn refuse_if(
    has_fault: bool,
    alloc: Global,
    place: Place,
    code: PlatformCode,
    key: &str,
) -> Result<(), PlatformFault>
    ensures { Gives result (if has_fault then Err (refusal code place key.now) else Ok tt) }
{
    if has_fault {
        return Err(place.refuse(alloc, code, key));
    }
    Ok(())
}

/// The test that a router has a window.
#[derive(Drop)]
struct Windowed;

impl RowKind<RouterRow> for Windowed {
    type Row = ();

    ghost reads = { λ _. checked_windowed };

    fn read(&self, alloc: Global, index: usize, item: &RouterRow) -> Result<(), PlatformFault> {
        let is_empty = item.windows.as_slice().is_empty();
        refuse_if(is_empty, alloc, Place::Router(index), Unbound, "window")
    }
}

/// The test that something names a router or a memory of this platform.
#[derive(Drop)]
struct Named<'p> {
    platform: &'p Platform,
}

impl<'p> RowKind<RouterRow> for Named<'p> {
    type Row = ();

    ghost reads = { λ s. checked_router_named s.platform.now };

    fn read(&self, alloc: Global, index: usize, _item: &RouterRow) -> Result<(), PlatformFault> {
        let is_unnamed = !is_named(self.platform, Component::Router(index));
        refuse_if(is_unnamed, alloc, Place::Router(index), Unbound, "name")
    }
}

impl<'p> RowKind<MemoryRow> for Named<'p> {
    type Row = ();

    ghost reads = { λ s. checked_memory_named s.platform.now };

    fn read(&self, alloc: Global, index: usize, _item: &MemoryRow) -> Result<(), PlatformFault> {
        let is_unnamed = !is_named(self.platform, Component::Memory(index));
        refuse_if(is_unnamed, alloc, Place::Memory(index), Unbound, "name")
    }
}

/// The test that a router of this platform doesn't lead back to itself.
#[derive(Drop)]
struct Acyclic<'p> {
    platform: &'p Platform,
}

impl<'p> RowKind<RouterRow> for Acyclic<'p> {
    type Row = ();

    ghost reads = { λ s. checked_acyclic s.platform.now };

    fn read(&self, alloc: Global, index: usize, _item: &RouterRow) -> Result<(), PlatformFault> {
        let is_cyclic = is_on_cycle(alloc, self.platform, index)?;
        refuse_if(is_cyclic, alloc, Place::Router(index), Cycle, "window")
    }
}

/// The test that no path from an initiator of this platform has more than 8 routers.
#[derive(Drop)]
struct Shallow<'p> {
    platform: &'p Platform,
}

impl<'p> RowKind<InitiatorRow> for Shallow<'p> {
    type Row = ();

    ghost reads = { λ s. checked_depth s.platform.now };

    fn read(&self, alloc: Global, index: usize, item: &InitiatorRow) -> Result<(), PlatformFault> {
        let is_too_deep = is_deeper(alloc, self.platform, MOST_ROUTERS, item.bind)?;
        refuse_if(is_too_deep, alloc, Place::Initiator(index), TooDeep, "bind")
    }
}

/// The test that no two paths lead from an initiator of this platform to one component.
#[derive(Drop)]
struct Single<'p> {
    platform: &'p Platform,
}

impl<'p> RowKind<InitiatorRow> for Single<'p> {
    type Row = ();

    ghost reads = { λ s. checked_single s.platform.now };

    fn read(&self, alloc: Global, index: usize, item: &InitiatorRow) -> Result<(), PlatformFault> {
        let has_two = has_two_paths(alloc, self.platform, item)?;
        refuse_if(has_two, alloc, Place::Initiator(index), TwoPaths, "bind")
    }
}

/// The tests of a platform's shape, in this order: `Unbound` where a router has no window or where
/// nothing names a router or a memory, `Cycle`, `TooDeep` and `TwoPaths`.
#[tactic(auto, unfolding(crate::specs::Shape::checked_shape))]
fn check_shape(alloc: Global, platform: &Platform) -> Result<(), PlatformFault>
    ensures { Gives result (checked_shape platform.now) }
{
    let initiators = platform.initiators.as_slice();
    let routers = platform.routers.as_slice();
    rows(alloc, &Windowed, routers)?;
    rows(alloc, &Named { platform }, routers)?;
    rows(alloc, &Named { platform }, platform.memories.as_slice())?;
    rows(alloc, &Acyclic { platform }, routers)?;
    rows(alloc, &Shallow { platform }, initiators)?;
    rows(alloc, &Single { platform }, initiators)?;
    Ok(())
}

/// The shape of a platform, which it copies, or its first fault in the order of the codes: `Unbound`
/// where a router has no window or where nothing names a router or a memory, `Cycle`, `TooDeep`, and
/// `TwoPaths`. The only other error is want of memory. The platform keeps the limits of the format, as
/// each does that a file describes.
pub fn shape(alloc: Global, platform: &Platform) -> Result<Shape, PlatformFault>
    requires { IsBounded platform.now }
    ensures checked { GivesBy (λ _. tt) result (checked_shape platform.now) }
    ensures copied { IfOk result (λ s. s ≡ platform.now) }
{
    check_shape(alloc, platform)?;
    let platform = copy_platform(alloc, platform)?;
    Ok(Shape::of_checked(platform))
}

/// Whether all initiators of a platform are blocking.
pub fn is_blocking(platform: &Platform) -> bool
    ensures { (result ≡ true) ↔ IsBlocking platform.now }
{
    platform
        .initiators
        .as_slice()
        .iter()
        .all(|row| row.style == Style::Blocking)
}
