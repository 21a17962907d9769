// The platform of a lone script.
ghost use Rattle.std.specs.Prelude.{◌≡◌, [], ◌∷◌, IfOk, IfErr};
ghost use Rattle.plan_loads.specs.BuiltIn.{ram, ram_row, cpu_row, built_in_platform};
ghost use Rattle.plan_loads.specs.declared.exit.Exit.TheVariants.{NoMemory};

use crate::exit::Exit;
use platform_shape::{Shape, shape};
use std::alloc::Global;
use tlm_model::{InitiatorRow, MemoryRow, Platform, Rows, Style, Target};
use tlm_types::{Memory, MemoryTraits, ReqMode, RespMode, Text};

fn ram_traits() -> MemoryTraits
    ensures { result ≡ ram }
{
    MemoryTraits {
        size: 256,
        latency: 10,
        readable: true,
        writable: true,
        fetch_add: false,
        enables: true,
        streaming: true,
        dmi: true,
        gates: 16,
    }
}

// The one row of a list.
fn lone<T: Drop>(alloc: Global, row: T) -> Result<Rows<T>, Memory>
    ensures { IfOk result (λ rows. rows ≡ row ∷ []) }
{
    let mut rows = Vec::new(alloc);
    rows.push(row)?;
    Ok(Rows::from_vec(rows))
}

fn memories(alloc: Global) -> Result<Rows<MemoryRow>, Memory>
    ensures { IfOk result (λ rows. rows ≡ ram_row ∷ []) }
{
    let row = MemoryRow {
        name: Text::from_text(alloc, "ram")?,
        traits: ram_traits(),
        reply: ReqMode::Accept,
        lanes: 4,
    };
    lone(alloc, row)
}

fn initiators(alloc: Global, file: &str) -> Result<Rows<InitiatorRow>, Memory>
    ensures { IfOk result (λ rows. rows ≡ cpu_row file.now ∷ []) }
{
    let row = InitiatorRow {
        name: Text::from_text(alloc, "cpu")?,
        style: Style::Blocking,
        script: Text::from_text(alloc, file)?,
        bind: Target::Memory(0),
        pool: 4,
        response: RespMode::Accept,
    };
    lone(alloc, row)
}

fn platform(alloc: Global, file: &str) -> Result<Platform, Memory>
    ensures { IfOk result (λ p. p ≡ built_in_platform file.now) }
{
    Ok(Platform {
        version: 1,
        quantum: 0,
        initiators: initiators(alloc, file)?,
        routers: Rows::from_vec(Vec::new(alloc)),
        memories: memories(alloc)?,
    })
}

/// The built-in platform whose one script is this file's.
pub fn built_in(alloc: Global, file: &str) -> Result<Shape, Exit>
    ensures platform { IfOk result (λ s. s ≡ built_in_platform file.now) }
    ensures fault { IfErr result (λ exit. exit ≡ NoMemory) }
{
    let platform = platform(alloc, file)?;
    Ok(shape(alloc, &platform)?)
}
