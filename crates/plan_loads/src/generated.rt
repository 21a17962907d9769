// The files that are generated of a number.
ghost use Rattle.std.specs.Prelude.{◌≡◌, IfOk};
ghost use Rattle.plan_loads.specs.Generated.{generated_files};

use outside::{NamedFile, WillingLibrary};
use std::alloc::Global;
use tlm_types::{Bytes, Memory, Text};
use traffic_gen::{Generated, generate};

/// The name under which the generated platform is loaded.
pub const PLATFORM_NAME: &str = "platform.toml";

// The names that it gives the scripts of its initiators.
const SCRIPT_NAMES: [&str; 4] = ["c0.txt", "c1.txt", "d0.txt", "f0.txt"];

fn named(alloc: Global, name: &str, bytes: Bytes) -> Result<NamedFile, Memory>
    ensures { IfOk result (λ f. f ≡ record { name = name.now; bytes = bytes }) }
{
    let name = Text::from_text(alloc, name)?;
    Ok(NamedFile { name, bytes })
}

/// A library that holds the platform and the scripts of a number, under the names that the platform gives
/// them. Its only error is want of memory.
pub fn generated(alloc: Global, seed: u64) -> Result<WillingLibrary, Memory>
    ensures { IfOk result (λ files. files ≡ generated_files seed) }
{
    let Generated { platform, scripts } = generate(alloc, seed)?;
    let mut files = Vec::new(alloc);
    files.push(named(alloc, PLATFORM_NAME, platform)?)?;
    for (name, script) in SCRIPT_NAMES.iter().zip(scripts) {
        files.push(named(alloc, name, script)?)?;
    }
    Ok(WillingLibrary::new(files))
}
