// The top table of a platform file, and the tables in it.
ghost use Rattle.std.specs.Prelude.{◌≤◌, length, IfOk};
ghost use Rattle.toml.specs.View.{table_view};
ghost use Rattle.platform_model.specs.Reading.{Gives};
ghost use Rattle.platform_file.specs.Tables.{platform_keys};

use crate::initiators::{InitiatorKeys, Initiators};
use crate::keys::Keys;
use crate::kinds::{Number, PartCount};
use crate::memories::Memories;
use crate::reading::table_rows;
use crate::routers::{RouterKeys, Routers};
use platform_model::{Place, PlatformFault};
use std::alloc::Global;
use tlm_model::{MemoryRow, Rows};
use tlm_types::Ps;
use toml::Table;

/// The version of the format.
const VERSION: PartCount = PartCount { least: 1, most: 2 };

/// A global quantum in picoseconds, at most 1,000 seconds.
const QUANTUM: Number = Number {
    least: 0,
    most: 1_000_000_000_000_000,
};

/// A platform as its keys say it: targets are names yet.
#[derive(Drop)]
pub struct PlatformKeys {
    pub version: u32,
    pub quantum: Ps,
    pub initiators: Rows<InitiatorKeys>,
    pub routers: Rows<RouterKeys>,
    pub memories: Rows<MemoryRow>,
}

/// The keys of the top table, and then those of the initiators, of the routers, each followed by its
/// windows, and of the memories.
#[tactic(auto, unfolding(crate::specs::Tables::platform_keys))]
pub fn platform_keys(alloc: Global, table: &Table) -> Result<PlatformKeys, PlatformFault>
    ensures read { Gives result (platform_keys (table_view table.now)) }
    ensures initiators { IfOk result (λ p. length p.initiators ≤ 32) }
    ensures routers { IfOk result (λ p. length p.routers ≤ 16) }
    ensures memories { IfOk result (λ p. length p.memories ≤ 16) }
{
    let place = Place::Top;
    let keys = Keys {
        alloc,
        place,
        table,
    };
    keys.known(&["version", "quantum", "initiator", "router", "memory"])?;
    let version = keys.required("version", VERSION)?;
    let quantum = keys.optional("quantum", QUANTUM, 0)?;
    let initiators = keys.required_tables("initiator", 1, 32)?;
    let routers = keys.optional_tables("router", 16)?;
    let memories = keys.required_tables("memory", 1, 16)?;
    let initiators = table_rows(alloc, &Initiators, initiators.as_slice())?;
    let routers = table_rows(alloc, &Routers, routers.as_slice())?;
    let memories = table_rows(alloc, &Memories { version }, memories.as_slice())?;
    Ok(PlatformKeys {
        version,
        quantum,
        initiators,
        routers,
        memories,
    })
}
