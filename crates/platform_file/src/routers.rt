// Tables of routers and of their windows.
ghost use Rattle.platform_file.specs.Tables.{window_keys, router_keys};

use crate::keys::Keys;
use crate::kinds::{AnyText, Name, Number, PartCount};
use crate::reading::{TableKind, table_rows};
use crate::words::{RouterModes, Word};
use platform_model::{Place, PlatformFault};
use std::alloc::Global;
use tlm_model::Rows;
use tlm_types::{Ps, ReqMode, Text};
use toml::Table;

/// An address: it is below 2^63.
const ADDRESS: Number = Number {
    least: 0,
    most: 0x7fff_ffff_ffff_ffff,
};

/// A latency in picoseconds, at most one second.
pub const LATENCY: Number = Number {
    least: 0,
    most: 1_000_000_000_000,
};

/// The lanes of a hop.
pub const LANES: PartCount = PartCount { least: 1, most: 16 };

/// A window as its keys say it: what it leads to is a name yet.
#[derive(Drop)]
pub struct WindowKeys {
    pub first: u64,
    pub last: u64,
    pub to: Text,
    pub base: u64,
}

/// A router as its keys say it.
#[derive(Drop)]
pub struct RouterKeys {
    pub name: Text,
    pub latency: Ps,
    pub accept: ReqMode,
    pub lanes: u32,
    pub windows: Rows<WindowKeys>,
}

/// The tables of the windows of the router with this number.
#[derive(Drop)]
struct Windows {
    router: usize,
}

impl TableKind for Windows {
    type Row = WindowKeys;

    ghost reads = { λ k. window_keys k.router };

    #[tactic(auto, unfolding(crate::specs::Tables::window_keys))]
    fn read(
        &self,
        alloc: Global,
        index: usize,
        table: &Table,
    ) -> Result<WindowKeys, PlatformFault> {
        let router = self.router;
        let place = Place::Window { router, index };
        let keys = Keys {
            alloc,
            place,
            table,
        };
        keys.known(&["first", "last", "to", "base"])?;
        let first = keys.required("first", ADDRESS)?;
        let last = keys.required("last", ADDRESS)?;
        let to = keys.required("to", AnyText)?;
        let base = keys.optional("base", ADDRESS, 0)?;
        Ok(WindowKeys {
            first,
            last,
            to,
            base,
        })
    }
}

/// The tables of routers.
#[derive(Drop)]
pub struct Routers;

impl TableKind for Routers {
    type Row = RouterKeys;

    ghost reads = { λ _. router_keys };

    #[tactic(auto, unfolding(crate::specs::Tables::router_keys))]
    fn read(
        &self,
        alloc: Global,
        index: usize,
        table: &Table,
    ) -> Result<RouterKeys, PlatformFault> {
        let place = Place::Router(index);
        let keys = Keys {
            alloc,
            place,
            table,
        };
        keys.known(&["name", "latency", "accept", "lanes", "window"])?;
        let name = keys.required("name", Name)?;
        let latency = keys.optional("latency", LATENCY, 0)?;
        let accept = keys.optional("accept", Word(RouterModes), ReqMode::Accept)?;
        let lanes = keys.optional("lanes", LANES, 4)?;
        let windows = keys.optional_tables("window", 16)?;
        let windows = table_rows(alloc, &Windows { router: index }, windows.as_slice())?;
        Ok(RouterKeys {
            name,
            latency,
            accept,
            lanes,
            windows,
        })
    }
}
