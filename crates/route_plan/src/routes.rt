// The routes of a platform.
ghost use Rattle.std.specs.Prelude.{◌≡◌, ◌<◌, ◌≤◌, Some, Ok, length, map, slice_get, IfOk};
ghost use Rattle.platform_model.specs.Reading.{Gives};
ghost use Rattle.tlm_model.specs.Route.{into_memory};
ghost use Rattle.platform_shape.specs.Shape.{IsShape};
ghost use Rattle.route_plan.specs.Places.{object_count, object_place};
ghost use Rattle.route_plan.specs.Routes.{ends_of, first_step, next_step, numbered_windows, route_by, bound_walk};

use crate::ends::{HopEnds, hop_ends};
use crate::numbering::{all_windows, first_hops};
use crate::step::{Route, Step};
use addr_router::Windows;
use platform_model::PlatformFault;
use platform_shape::{Shape, copy_platform};
use std::alloc::{AllocError, Global};
use std::marker::Model;
use tlm_model::{Platform, Target};
use tlm_types::ObjectNo;

/// The components that a walk visits at most: 8 routers and a memory.
pub(crate) const MOST_VISITED: u32 = 9;

/// A platform of a good shape, with tables of its windows and hops. Contracts see the platform.
pub struct Routes {
    platform: Platform,
    windows: Vec<Windows>,
    first_hops: Vec<u32>,
    ends: Vec<HopEnds>,
}

// Written out, so that each early return calls it.
impl Drop for Routes {
    fn drop(self) {
        let Routes {
            platform: _,
            windows: _,
            first_hops: _,
            ends: _,
        } = self;
    }
}

impl Model for Routes {
    ghost use Rattle.tlm_model.specs.declared.platform.Platform.{Platform};

    ghost Value = { Platform };

    ghost use Rattle.route_plan.specs.Kept.{AreKept};

    ghost view = { λ r. r.platform };

    ghost invariant = { AreKept };
}

impl Routes {
    /// The routes of a platform that was checked, which is not copied.
    fn of_checked(alloc: Global, platform: Platform) -> Result<Routes, AllocError>
        requires { IsShape platform }
        ensures { IfOk result (λ routes. routes ≡ platform) }
    {
        let windows = all_windows(alloc, &platform)?;
        let first_hops = first_hops(alloc, &platform)?;
        let ends = hop_ends(alloc, &platform)?;
        Ok(Routes {
            platform,
            windows,
            first_hops,
            ends,
        })
    }

    /// The routes of a shape, which is not copied.
    pub fn of_shape(alloc: Global, shape: Shape) -> Result<Routes, AllocError>
        ensures { IfOk result (λ routes. routes ≡ shape) }
    {
        Routes::of_checked(alloc, shape.into_platform())
    }

    /// Routes of the same platform. Its only error is want of memory.
    pub fn copy(&self, alloc: Global) -> Result<Routes, PlatformFault>
        ensures { Gives result (Ok self.now) }
    {
        let platform = copy_platform(alloc, &self.platform)?;
        let routes = Routes::of_checked(alloc, platform)?;
        Ok(routes)
    }

    pub fn platform(&self) -> &Platform
        ensures same { result.now ≡ self.now }
        ensures shape { IsShape self.now }
    {
        &self.platform
    }

    /// The windows of the router with this number. The port of a window is its index.
    pub fn windows(&self, router: u32) -> &Windows
        requires { router < length self.now.routers }
        ensures { slice_get (map numbered_windows self.now.routers) router ≡ Some result.now }
    {
        &self.windows[router as usize]
    }

    /// The ends of the hop with this number, if there is one.
    pub fn hop_ends(&self, hop: u32) -> Option<HopEnds>
        ensures { result ≡ slice_get (ends_of self.now) hop }
    {
        self.ends.as_slice().get(hop as usize).copied()
    }

    /// How many objects there are: memories, hops and pools.
    pub fn objects(&self) -> usize
        ensures { result ≡ object_count self.now }
    {
        let nodes = self.platform.memories.as_slice().len() + self.ends.len();
        nodes + self.platform.initiators.as_slice().len()
    }

    /// The place of an object in their row: the memories come first, then the hops, then the pools.
    pub fn place(&self, object: ObjectNo) -> usize
        ensures { result ≡ object_place self.now object }
    {
        let memories = self.platform.memories.as_slice().len();
        match object {
            ObjectNo::Memory(memory) => memory as usize,
            ObjectNo::Hop(hop) => memories + hop as usize,
            ObjectNo::Pool(initiator) => memories + self.ends.len() + initiator as usize,
        }
    }

    /// The step over the binding of the initiator with this number.
    pub(crate) fn first_step(&self, initiator: u32, address: u64) -> Step
        requires { initiator < length self.now.initiators }
        ensures step { Some result ≡ first_step (slice_get self.now.initiators initiator) initiator address }
        ensures few { length (bound_walk self.now initiator address).hops ≤ 9 }
    {
        let row = &self.platform.initiators.as_slice()[initiator as usize];
        Step {
            hop: initiator,
            target: row.bind,
            address,
            before: 0,
        }
    }

    /// The step through the router that a step leads to. `None` where it leads to a memory, and where
    /// no window of the router has the address.
    #[inline(always)]
    pub(crate) fn next_step(&self, step: Step) -> Option<Step>
        ensures { result ≡ next_step self.now step }
    {
        let Target::Router(number) = step.target else {
            return None;
        };
        let router = number as usize;
        let row = self.platform.routers.as_slice().get(router)?;
        let (port, address) = self.windows[router].decode(step.address)?;
        Some(Step {
            hop: self.first_hops[router] + port,
            target: row.windows.as_slice()[port as usize].to,
            address,
            before: step.before.saturating_add(row.latency),
        })
    }

    /// The end of a walk at the memory with this number, if it is there.
    fn arrival(&self, memory: u32, step: Step) -> Option<Route>
        ensures { result ≡ route_by (into_memory (slice_get self.now.memories memory) memory step.address step.before) }
    {
        let row = self.platform.memories.as_slice().get(memory as usize)?;
        Some(Route {
            memory,
            offset: step.address,
            before: step.before,
            latency: step.before.saturating_add(row.traits.latency),
        })
    }

    /// Where an address of the initiator with this number leads. `None` exactly where a router on the
    /// way has no window for it.
    #[inline(always)]
    pub fn route(&self, initiator: u32, address: u64) -> Option<Route>
        requires { initiator < length self.now.initiators }
        ensures { result ≡ route_by (bound_walk self.now initiator address) }
    {
        let mut step = self.first_step(initiator, address);
        for _visited in 0..MOST_VISITED {
            if let Target::Memory(memory) = step.target {
                return self.arrival(memory, step);
            }
            step = self.next_step(step)?;
        }
        None
    }

    /// The hop with this index, from 0, of those that an address of the initiator with this number
    /// passes, as far as windows lead.
    pub fn hop(&self, initiator: u32, address: u64, index: u32) -> Option<u32>
        requires { initiator < length self.now.initiators }
        ensures hop { result ≡ slice_get (bound_walk self.now initiator address).hops index }
        ensures few { length (bound_walk self.now initiator address).hops ≤ 9 }
    {
        let mut step = self.first_step(initiator, address);
        for passed in 0..MOST_VISITED {
            if passed == index {
                return Some(step.hop);
            }
            step = self.next_step(step)?;
        }
        None
    }
}
