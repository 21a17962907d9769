// Loads what a command line asks for: a platform, and the scripts of its initiators.
ghost use Rattle.std.specs.Prelude.{◌≡◌, ◌≤◌, ℕ, List, IfOk, IfErr};
ghost use Rattle.plan_loads.specs.Files.{shaped_platform, IsText, IsFilePlatform, IsScript, AreScripts};
ghost use Rattle.plan_loads.specs.Loads.{IsLoadAnswer, IsLoadFault, IsFileFault, IsScriptAnswer, IsScriptFault, IsFirstFault};
ghost use Rattle.platform_model.specs.Reading.{Gives};
ghost use Rattle.std.specs.Prelude.{length};

use crate::exit::Exit;
use outside::{Library, LoadFault};
use platform_file::{PlatformFault, read_platform};
use platform_shape::{Shape, shape};
use std::alloc::Global;
use tlm_model::InitiatorRow;
use tlm_types::Text;
use traffic_script::{Script, ScriptFault, read_script};

const FILE_LIMIT: u64 = 4_194_304;

// What a load that failed is answered with.
fn load_failed(alloc: Global, name: &str, fault: LoadFault) -> Exit
    ensures { IsLoadAnswer name.now fault result }
{
    if let LoadFault::Memory = fault {
        return Exit::NoMemory;
    }
    let Ok(name) = Text::from_text(alloc, name) else {
        return Exit::NoMemory;
    };
    match fault {
        LoadFault::Failed => Exit::ReadFault { name },
        _ => Exit::TooLong { name },
    }
}

// The bytes of a file.
fn load<L: Library>(alloc: Global, lib: &mut L, name: &str) -> Result<Vec<u8>, Exit>
    ensures same { (n : List ℕ) → L.holds lib.new n ≡ L.holds lib.old n }
    ensures later { (n : List ℕ) → L.faults lib.old n ≤ L.faults lib.new n }
    ensures text { IfOk result (λ v. IsText (L.holds lib.old) name.now v.items) }
    ensures fault { IfErr result (IsLoadFault (record {
      holds = L.holds lib.old;
      faults_before = L.faults lib.old;
      faults_after = L.faults lib.new;
    }) name.now) }
{
    match lib.load(alloc, name, FILE_LIMIT) {
        Ok(bytes) => Ok(bytes),
        Err(fault) => Err(load_failed(alloc, name, fault)),
    }
}

// The shape of the platform that some bytes describe.
fn read_shape(alloc: Global, bytes: &[u8]) -> Result<Shape, PlatformFault>
    ensures { Gives result (shaped_platform bytes.now) }
{
    let platform = read_platform(alloc, bytes)?;
    shape(alloc, &platform)
}

/// The platform of a file, whose shape is good.
pub fn load_platform<L: Library>(alloc: Global, lib: &mut L, file: &str) -> Result<Shape, Exit>
    ensures same { (n : List ℕ) → L.holds lib.new n ≡ L.holds lib.old n }
    ensures later { (n : List ℕ) → L.faults lib.old n ≤ L.faults lib.new n }
    ensures platform { IfOk result (λ s. IsFilePlatform (L.holds lib.old) file.now s) }
    ensures fault { IfErr result (IsFileFault (record {
      holds = L.holds lib.old;
      faults_before = L.faults lib.old;
      faults_after = L.faults lib.new;
    }) file.now) }
{
    let bytes = load(alloc, lib, file)?;
    Ok(read_shape(alloc, &bytes)?)
}

// What a fault of an initiator's script is answered with.
fn script_failed(alloc: Global, number: u32, row: &InitiatorRow, fault: ScriptFault) -> Exit
    ensures { IsScriptAnswer number row.now.name fault result }
{
    let ScriptFault::Refused { line, code } = fault else {
        return Exit::NoMemory;
    };
    let Ok(name) = Text::from_text(alloc, row.name.as_text()) else {
        return Exit::NoMemory;
    };
    Exit::ScriptRefused {
        initiator: number,
        name,
        line,
        code,
    }
}

// The script of the initiator of this number, in this version.
fn load_script<L: Library>(
    alloc: Global,
    lib: &mut L,
    version: u32,
    number: u32,
    row: &InitiatorRow,
) -> Result<Script, Exit>
    ensures same { (n : List ℕ) → L.holds lib.new n ≡ L.holds lib.old n }
    ensures later { (n : List ℕ) → L.faults lib.old n ≤ L.faults lib.new n }
    ensures script { IfOk result (λ s. IsScript (L.holds lib.old) version row.now.script s) }
    ensures fault { IfErr result (IsScriptFault (record {
      holds = L.holds lib.old;
      faults_before = L.faults lib.old;
      faults_after = L.faults lib.new;
    }) version number row.now) }
{
    let bytes = load(alloc, lib, row.script.as_text())?;
    match read_script(alloc, &bytes, version) {
        Ok(script) => Ok(script),
        Err(fault) => Err(script_failed(alloc, number, row, fault)),
    }
}

/// The scripts of these initiators, in order, of the version of their platform. Each is loaded and read
/// before the next is loaded.
pub fn load_scripts<L: Library>(
    alloc: Global,
    lib: &mut L,
    version: u32,
    rows: &[InitiatorRow],
) -> Result<Vec<Script>, Exit>
    requires few { length rows.now ≤ 32 }
    ensures same { (n : List ℕ) → L.holds lib.new n ≡ L.holds lib.old n }
    ensures later { (n : List ℕ) → L.faults lib.old n ≤ L.faults lib.new n }
    ensures scripts { IfOk result (λ v. AreScripts (L.holds lib.old) version rows.now v.items) }
    ensures fault { IfErr result (IsFirstFault (record {
      holds = L.holds lib.old;
      faults_before = L.faults lib.old;
      faults_after = L.faults lib.new;
    }) version rows.now) }
{
    let mut scripts = Vec::new(alloc);
    for (number, row) in rows.iter().enumerate() {
        let script = load_script(alloc, lib, version, number as u32, row)?;
        scripts.push(script)?;
    }
    Ok(scripts)
}
