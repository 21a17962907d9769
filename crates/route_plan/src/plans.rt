// Plans.
ghost use Rattle.std.specs.Prelude.{◌≡◌, ◌<◌, ◌≤◌, ◌↔◌, List, Some, Ok, IsSome, length, map, slice_get, sum_by, IfOk};
ghost use Rattle.std.specs.List.{range_with_len};
ghost use Rattle.platform_model.specs.Reading.{Gives};
ghost use Rattle.route_plan.specs.Counted.{logged_share_at, share_at};
ghost use Rattle.route_plan.specs.Planned.{logged_bytes, planned_at};
ghost use Rattle.route_plan.specs.Plans.{walk_at};
ghost use Rattle.route_plan.specs.Routes.{ends_of, numbered_windows, route_by};
ghost use Rattle.route_plan.specs.Shares.{shares_of, with_scripts};
ghost use Rattle.route_plan.specs.Valid.{hop_count, IsObject, IsValid};

use crate::copies::{copy_scripts, copy_shares};
use crate::ends::HopEnds;
use crate::routes::Routes;
use crate::shares::{Share, entries_in, logged_in};
use crate::step::Route;
use addr_router::Windows;
use platform_model::PlatformFault;
use std::alloc::Global;
use std::marker::Model;
use tlm_model::{Platform, Rows};
use tlm_types::{Memory, ObjectNo, Ps};
use traffic_script::Script;

/// A platform with the script of each of its initiators in order, ready to be run. Contracts see the
/// plan of the definitions. Numbers count from 0.
pub struct Plan {
    routes: Routes,
    scripts: Rows<Script>,
    /// What each initiator may add to each object, place by place.
    shares: Rows<Rows<Share>>,
}

// Written out, so that the crates above call it: how each part is let go of is proved here alone.
impl Drop for Plan {
    fn drop(self) {
        let Plan {
            routes: _,
            scripts: _,
            shares: _,
        } = self;
    }
}

impl Model for Plan {
    ghost use Rattle.tlm_model.specs.Plan as model;

    ghost Value = { model.Plan };

    ghost use Rattle.route_plan.specs.Ready.{IsReady};

    ghost view = { λ p. record { platform = p.routes; scripts = p.scripts } };

    ghost invariant = { IsReady };
}

impl Plan {
    /// The plan of a platform with the script of each initiator and what was counted of them.
    pub(crate) fn of_parts(routes: Routes, scripts: Rows<Script>, shares: Rows<Rows<Share>>) -> Plan
        requires valid { IsValid (with_scripts routes scripts) }
        requires shares { shares ≡ shares_of (with_scripts routes scripts) }
        ensures { result ≡ with_scripts routes scripts }
    {
        Plan {
            routes,
            scripts,
            shares,
        }
    }

    /// The platform. The plan is valid: its platform is of a good shape, there is a script for each
    /// initiator, as a text gives one, and what is counted of them is within the limits. Its initiators
    /// may have every style.
    pub fn platform(&self) -> &Platform
        ensures same { result.now ≡ self.now.platform }
        ensures valid { IsValid self.now }
    {
        self.routes.platform()
    }

    /// The windows of the router with this number. The port of a window is its index.
    pub fn windows(&self, router: u32) -> &Windows
        requires { router < length self.now.platform.routers }
        ensures { slice_get (map numbered_windows self.now.platform.routers) router ≡ Some result.now }
    {
        self.routes.windows(router)
    }

    /// The script of the initiator with this number.
    pub fn script(&self, initiator: u32) -> &Script
        requires { initiator < length self.now.platform.initiators }
        ensures script { slice_get self.now.scripts initiator ≡ Some result.now }
        ensures each { length self.now.scripts ≡ length self.now.platform.initiators }
    {
        &self.scripts.as_slice()[initiator as usize]
    }

    /// The two ends of the hop with this number: the bindings come first, in the order of the
    /// initiators, and then the windows of each router in order. `None` exactly where there is none.
    pub fn hop_ends(&self, hop: u32) -> Option<HopEnds>
        ensures ends { result ≡ slice_get (ends_of self.now.platform) hop }
        ensures there { IsSome result ↔ (hop < hop_count self.now.platform) }
    {
        self.routes.hop_ends(hop)
    }

    /// Where an address of the initiator with this number leads. `None` exactly where a router on the
    /// way has no window for it.
    #[inline(always)]
    pub fn route(&self, initiator: u32, address: u64) -> Option<Route>
        requires { initiator < length self.now.platform.initiators }
        ensures { result ≡ route_by (walk_at self.now initiator address) }
    {
        self.routes.route(initiator, address)
    }

    /// The latency of the walk of an address of the initiator with this number: that of its route, or
    /// where there is none the time at which the last router has refused it.
    pub fn latency(&self, initiator: u32, address: u64) -> Ps
        requires { initiator < length self.now.platform.initiators }
        ensures { result ≡ (walk_at self.now initiator address).latency }
    {
        self.routes.latency(initiator, address)
    }

    /// The hop with this index, from 0, of those that an address of the initiator with this number
    /// passes: its binding, and then windows, as far as they lead. There are at most 9.
    pub fn hops(&self, initiator: u32, address: u64, index: u32) -> Option<u32>
        requires { initiator < length self.now.platform.initiators }
        ensures hop { result ≡ slice_get (walk_at self.now initiator address).hops index }
        ensures few { length (walk_at self.now initiator address).hops ≤ 9 }
    {
        self.routes.hop(initiator, address, index)
    }

    /// The entries that the scripts of all initiators may add to an object at most: the sum of the
    /// shares of the initiators. A four-phase access counts at each hop that it passes and at its
    /// initiator's pool, too. A plan has at most 1,000,000 entries in all.
    pub fn entries(&self, object: ObjectNo) -> u64
        requires { IsObject self.now.platform object }
        ensures planned { result ≡ planned_at self.now object }
        ensures shares { result ≡ sum_by (λ n. share_at self.now n object) (range_with_len 0 (length self.now.platform.initiators)) }
        ensures few { result ≤ 1000000 }
    {
        let place = self.routes.place(object);
        entries_in(self.shares.as_slice()[place].as_slice())
    }

    /// The entries that the script of the initiator with this number may add to an object at most.
    pub fn share(&self, initiator: u32, object: ObjectNo) -> u64
        requires initiator { initiator < length self.now.platform.initiators }
        requires object { IsObject self.now.platform object }
        ensures share { result ≡ share_at self.now initiator object }
        ensures few { result ≤ 1000000 }
    {
        let place = self.routes.place(object);
        self.shares.as_slice()[place].as_slice()[initiator as usize].entries
    }

    /// The bytes that the scripts of all initiators may log at a memory at most: the sum of what
    /// each may log there. A plan logs at most 67,108,864 bytes in all.
    pub fn logged(&self, memory: u32) -> u64
        requires { memory < length self.now.platform.memories }
        ensures logged { result ≡ logged_bytes self.now memory }
        ensures shares { result ≡ sum_by (λ n. logged_share_at self.now n memory) (range_with_len 0 (length self.now.platform.initiators)) }
        ensures few { result ≤ 67108864 }
    {
        logged_in(self.shares.as_slice()[memory as usize].as_slice())
    }

    /// The bytes that the script of the initiator with this number may log at a memory at most.
    pub fn logged_by(&self, initiator: u32, memory: u32) -> u64
        requires initiator { initiator < length self.now.platform.initiators }
        requires memory { memory < length self.now.platform.memories }
        ensures share { result ≡ logged_share_at self.now initiator memory }
        ensures few { result ≤ 67108864 }
    {
        self.shares.as_slice()[memory as usize].as_slice()[initiator as usize].logged
    }

    fn copied(&self, alloc: Global) -> Result<Plan, PlatformFault>
        ensures { Gives result (Ok self.now) }
    {
        let scripts = copy_scripts(alloc, self.scripts.as_slice())?;
        let shares = copy_shares(alloc, self.shares.as_slice())?;
        let routes = self.routes.copy(alloc)?;
        Ok(Plan {
            routes,
            scripts,
            shares,
        })
    }

    /// A plan that is the same. Its only error is want of memory.
    pub fn copy(&self, alloc: Global) -> Result<Plan, Memory>
        ensures { IfOk result (λ plan. plan ≡ self.now) }
    {
        match self.copied(alloc) {
            Ok(plan) => Ok(plan),
            Err(_) => Err(Memory),
        }
    }
}
