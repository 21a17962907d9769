// Tables of memories.
ghost use Rattle.toml.specs.View.{table_view};
ghost use Rattle.platform_model.specs.Reading.{Gives};
ghost use Rattle.platform_file.specs.Keys.{known_keys};
ghost use Rattle.platform_file.specs.Tables.{fetch_add_key, memory_key_names, memory_traits, memory_row};

use crate::keys::Keys;
use crate::kinds::{Name, Number, PartCount, Truth};
use crate::reading::TableKind;
use crate::routers::{LANES, LATENCY};
use crate::words::{MemoryModes, Word};
use platform_model::{Place, PlatformCode, PlatformFault};
use std::alloc::Global;
use tlm_model::MemoryRow;
use tlm_types::{MemoryTraits, ReqMode};
use toml::Table;

/// The size of a memory in bytes, at most 16 MiB.
const SIZE: Number = Number {
    least: 1,
    most: 16_777_216,
};

/// The gates of a memory.
const GATES: PartCount = PartCount {
    least: 1,
    most: 256,
};

/// Whether the memory allows a fetch_add: version 2 has a key for it.
fn fetch_add(keys: &Keys, version: u32) -> Result<bool, PlatformFault>
    ensures { Gives result (fetch_add_key version keys.now.place (table_view keys.now.table.now)) }
{
    if version == 2 {
        return keys.optional("fetch_add", Truth, true);
    }
    Ok(false)
}

/// The keys of a memory's traits.
#[tactic(auto, unfolding(crate::specs::Tables::memory_traits))]
fn memory_traits(keys: &Keys, version: u32) -> Result<MemoryTraits, PlatformFault>
    ensures { Gives result (memory_traits version keys.now.place (table_view keys.now.table.now)) }
{
    let size = keys.required("size", SIZE)?;
    let latency = keys.optional("latency", LATENCY, 0)?;
    let readable = keys.optional("read", Truth, true)?;
    let writable = keys.optional("write", Truth, true)?;
    let fetch_add = fetch_add(keys, version)?;
    let enables = keys.optional("byte_enables", Truth, true)?;
    let streaming = keys.optional("streaming", Truth, true)?;
    let dmi = keys.optional("dmi", Truth, true)?;
    let gates = keys.optional("gates", GATES, 16)?;
    Ok(MemoryTraits {
        size,
        latency,
        readable,
        writable,
        fetch_add,
        enables,
        streaming,
        dmi,
        gates,
    })
}

/// That the table of a memory has no other keys than those of its version.
fn known(keys: &Keys, version: u32) -> Result<(), PlatformFault>
    ensures { Gives result
        (known_keys (memory_key_names version) keys.now.place (table_view keys.now.table.now)) }
{
    let names = [
        "name",
        "size",
        "latency",
        "read",
        "write",
        "byte_enables",
        "streaming",
        "dmi",
        "gates",
        "reply",
        "lanes",
        "fetch_add",
    ];
    if version == 2 {
        return keys.known(&names);
    }
    keys.known(&names[..11])
}

/// The tables of memories of a file of this version.
#[derive(Drop)]
pub struct Memories {
    pub version: u32,
}

impl TableKind for Memories {
    type Row = MemoryRow;

    ghost reads = { λ m. memory_row m.version };

    #[tactic(auto, unfolding(crate::specs::Tables::memory_row))]
    fn read(&self, alloc: Global, index: usize, table: &Table) -> Result<MemoryRow, PlatformFault> {
        let place = Place::Memory(index);
        let keys = Keys {
            alloc,
            place,
            table,
        };
        known(&keys, self.version)?;
        let name = keys.required("name", Name)?;
        let traits = memory_traits(&keys, self.version)?;
        let reply = keys.optional("reply", Word(MemoryModes), ReqMode::Accept)?;
        let lanes = keys.optional("lanes", LANES, 4)?;
        if !traits.readable && !traits.writable {
            return Err(place.refuse(alloc, PlatformCode::NoAccess, "read"));
        }
        Ok(MemoryRow {
            name,
            traits,
            reply,
            lanes,
        })
    }
}
