// The platform of some bytes.
ghost use Rattle.std.specs.Prelude.{IfOk};
ghost use Rattle.toml.specs.View.{table_view};
ghost use Rattle.platform_model.specs.Bounded.{IsBounded};
ghost use Rattle.platform_model.specs.Reading.{Gives};
ghost use Rattle.platform_file.specs.Platform.{platform_of, platform_of_table, document_of};
ghost use Rattle.platform_file.specs.Document.{GivesDocument};

use crate::bound::bound_rows;
use crate::sums::check_sums;
use crate::top::platform_keys;
use platform_model::{Place, PlatformCode, PlatformFault};
use std::alloc::{AllocError, Global};
use tlm_model::Platform;
use toml::Table;

/// The platform of a document's table: its keys, its names, what these lead to, its windows, and the
/// sums over its memories.
#[tactic(auto, unfolding(crate::specs::Platform::platform_of_table))]
fn platform(alloc: Global, table: &Table) -> Result<Platform, PlatformFault>
    ensures { Gives result (platform_of_table (table_view table.now)) }
{
    let keys = platform_keys(alloc, table)?;
    let bound = bound_rows(alloc, &keys)?;
    check_sums(alloc, keys.memories.as_slice())?;
    Ok(Platform {
        version: keys.version,
        quantum: keys.quantum,
        initiators: bound.initiators,
        routers: bound.routers,
        memories: keys.memories,
    })
}

/// The document that some bytes are, if they are one.
fn document(alloc: Global, bytes: &[u8]) -> Result<Option<Table>, AllocError>
    ensures { GivesDocument result (document_of bytes.now) }
{
    match toml::table_from_slice(alloc, bytes) {
        Ok(table) => Ok(Some(table)),
        Err(error) if error.is_memory() => Err(AllocError),
        Err(_) => Ok(None),
    }
}

/// The platform that some bytes describe, with times in picoseconds and sizes in bytes, or the first
/// fault of the bytes: `Syntax` where they are no TOML document, and then, in this order, the faults
/// of tables and keys, of names, of targets, of windows, and of the sums over the memories. The only
/// other error is want of memory.
///
/// Each platform that is read keeps the limits of the format, its targets are there, its windows are
/// those of routers, and its components have names, of which no two are the same.
pub fn read_platform(alloc: Global, bytes: &[u8]) -> Result<Platform, PlatformFault>
    ensures read { Gives result (platform_of bytes.now) }
    ensures bounded { IfOk result IsBounded }
{
    match document(alloc, bytes)? {
        Some(table) => platform(alloc, &table),
        None => Err(Place::Top.refuse(alloc, PlatformCode::Syntax, "-")),
    }
}
