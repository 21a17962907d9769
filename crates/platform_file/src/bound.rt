// Rows with what their names lead to.
ghost use Rattle.std.specs.Prelude.{◌≤◌, length};
ghost use Rattle.platform_model.specs.Reading.{Gives};
ghost use Rattle.platform_file.specs.Bound.{bound_rows};
ghost use Rattle.platform_file.specs.NamesView.{names_view};
ghost use Rattle.platform_file.specs.Platform.{bound_initiator, bound_window, bound_router};

use crate::initiators::InitiatorKeys;
use crate::names::{NameMap, names, target};
use crate::routers::{RouterKeys, WindowKeys};
use crate::top::PlatformKeys;
use crate::windows::RouterWindows;
use platform_model::{Place, PlatformFault, RowKind, rows};
use std::alloc::Global;
use tlm_model::{InitiatorRow, RouterRow, Rows, WindowRow};
use tlm_types::Text;

/// Initiators with what their sockets are bound to.
#[derive(Drop)]
pub struct BoundInitiators<'n> {
    pub names: &'n NameMap,
}

impl<'n> RowKind<InitiatorKeys> for BoundInitiators<'n> {
    type Row = InitiatorRow;

    ghost reads = { λ s. bound_initiator (names_view s.names.now) };

    #[tactic(auto, unfolding(crate::specs::Platform::bound_initiator))]
    fn read(
        &self,
        alloc: Global,
        index: usize,
        item: &InitiatorKeys,
    ) -> Result<InitiatorRow, PlatformFault> {
        let place = Place::Initiator(index);
        let bind = target(alloc, self.names, place, "bind", item.bind.as_text())?;
        let name = Text::from_text(alloc, item.name.as_text())?;
        let script = Text::from_text(alloc, item.script.as_text())?;
        Ok(InitiatorRow {
            name,
            style: item.style,
            script,
            bind,
            pool: item.pool,
            response: item.response,
        })
    }
}

/// The windows of the router with this number, with what they lead to.
#[derive(Drop)]
struct BoundWindows<'n> {
    names: &'n NameMap,
    router: usize,
}

impl<'n> RowKind<WindowKeys> for BoundWindows<'n> {
    type Row = WindowRow;

    ghost reads = { λ s. bound_window (names_view s.names.now) s.router };

    #[tactic(auto, unfolding(crate::specs::Platform::bound_window))]
    fn read(
        &self,
        alloc: Global,
        index: usize,
        item: &WindowKeys,
    ) -> Result<WindowRow, PlatformFault> {
        let router = self.router;
        let place = Place::Window { router, index };
        let to = target(alloc, self.names, place, "to", item.to.as_text())?;
        Ok(WindowRow {
            first: item.first,
            last: item.last,
            to,
            base: item.base,
        })
    }
}

/// Routers with what their windows lead to.
#[derive(Drop)]
pub struct BoundRouters<'n> {
    pub names: &'n NameMap,
}

impl<'n> RowKind<RouterKeys> for BoundRouters<'n> {
    type Row = RouterRow;

    ghost reads = { λ s. bound_router (names_view s.names.now) };

    #[tactic(auto, unfolding(crate::specs::Platform::bound_router))]
    fn read(
        &self,
        alloc: Global,
        index: usize,
        item: &RouterKeys,
    ) -> Result<RouterRow, PlatformFault> {
        let kind = BoundWindows {
            names: self.names,
            router: index,
        };
        let windows = rows(alloc, &kind, item.windows.as_slice())?;
        let name = Text::from_text(alloc, item.name.as_text())?;
        Ok(RouterRow {
            name,
            latency: item.latency,
            accept: item.accept,
            lanes: item.lanes,
            windows,
        })
    }
}

/// The initiators and the routers of a platform with what they lead to.
#[derive(Drop)]
pub struct BoundRows {
    pub initiators: Rows<InitiatorRow>,
    pub routers: Rows<RouterRow>,
}

/// The names of a platform, what its initiators and its routers lead to by them, and then the test of the routers' windows.
#[tactic(auto, unfolding(crate::specs::Bound::bound_rows))]
pub fn bound_rows(alloc: Global, keys: &PlatformKeys) -> Result<BoundRows, PlatformFault>
    requires initiators { length keys.now.initiators ≤ 32 }
    requires routers { length keys.now.routers ≤ 16 }
    requires memories { length keys.now.memories ≤ 16 }
    ensures { Gives result (bound_rows keys.now) }
{
    let names = names(alloc, keys)?;
    let kind = BoundInitiators { names: &names };
    let initiators = rows(alloc, &kind, keys.initiators.as_slice())?;
    let kind = BoundRouters { names: &names };
    let routers = rows(alloc, &kind, keys.routers.as_slice())?;
    rows(alloc, &RouterWindows, routers.as_slice())?;
    Ok(BoundRows {
        initiators,
        routers,
    })
}
