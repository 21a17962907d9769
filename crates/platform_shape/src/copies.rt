// Copies of platforms.
ghost use Rattle.std.specs.Prelude.{Ok};
ghost use Rattle.platform_model.specs.Reading.{Gives};

use platform_model::{PlatformFault, RowKind, rows};
use std::alloc::Global;
use tlm_model::{InitiatorRow, MemoryRow, Platform, RouterRow, WindowRow};
use tlm_types::Text;

/// A row that can be copied.
trait Copied {
    /// A copy of the row. Its only error is want of memory.
    fn copied(&self, alloc: Global) -> Result<Self, PlatformFault>
        ensures { Gives result (Ok self.now) };
}

impl Copied for InitiatorRow {
    fn copied(&self, alloc: Global) -> Result<InitiatorRow, PlatformFault> {
        let name = Text::from_text(alloc, self.name.as_text())?;
        let script = Text::from_text(alloc, self.script.as_text())?;
        Ok(InitiatorRow {
            name,
            style: self.style,
            script,
            bind: self.bind,
            pool: self.pool,
            response: self.response,
        })
    }
}

impl Copied for WindowRow {
    fn copied(&self, _alloc: Global) -> Result<WindowRow, PlatformFault> {
        Ok(*self)
    }
}

impl Copied for RouterRow {
    fn copied(&self, alloc: Global) -> Result<RouterRow, PlatformFault> {
        let name = Text::from_text(alloc, self.name.as_text())?;
        let windows = rows(alloc, &Copies, self.windows.as_slice())?;
        Ok(RouterRow {
            name,
            latency: self.latency,
            accept: self.accept,
            lanes: self.lanes,
            windows,
        })
    }
}

impl Copied for MemoryRow {
    fn copied(&self, alloc: Global) -> Result<MemoryRow, PlatformFault> {
        let name = Text::from_text(alloc, self.name.as_text())?;
        Ok(MemoryRow {
            name,
            traits: self.traits,
            reply: self.reply,
            lanes: self.lanes,
        })
    }
}

/// The copies of rows, each of which is the row.
#[derive(Drop)]
struct Copies;

impl<I: Copied> RowKind<I> for Copies {
    type Row = I;

    ghost reads = { λ _ _ row. Ok row };

    fn read(&self, alloc: Global, _index: usize, item: &I) -> Result<I, PlatformFault> {
        item.copied(alloc)
    }
}

/// A copy of a platform, the same in each row. Its only error is want of memory.
pub fn copy_platform(alloc: Global, platform: &Platform) -> Result<Platform, PlatformFault>
    ensures { Gives result (Ok platform.now) }
{
    let initiators = rows(alloc, &Copies, platform.initiators.as_slice())?;
    let routers = rows(alloc, &Copies, platform.routers.as_slice())?;
    let memories = rows(alloc, &Copies, platform.memories.as_slice())?;
    Ok(Platform {
        version: platform.version,
        quantum: platform.quantum,
        initiators,
        routers,
        memories,
    })
}
