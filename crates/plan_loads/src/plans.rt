// The plan that a command line asks for.
ghost use Rattle.std.specs.Prelude.{◌≡◌, ◌≤◌, ℕ, List, IfOk, IfErr};
ghost use Rattle.command_words.specs.Commands.{line_of};
ghost use Rattle.plan_loads.specs.Files.{IsPlan, IsPlatform, files_read, generated_library};
ghost use Rattle.plan_loads.specs.Generated.{generated};
ghost use Rattle.plan_loads.specs.Plans.{IsRefusal, workers_of};
ghost use Rattle.route_plan.specs.Valid.{IsValid};

use crate::built_in::built_in;
use crate::exit::Exit;
use crate::generated::{PLATFORM_NAME, generated};
use crate::loads::{load_platform, load_scripts};
use command_words::Command;
use outside::Library;
use platform_shape::Shape;
use route_plan::{Plan, plan};
use std::alloc::Global;

// The platform that a command line asks for, of the files that it reads.
fn shape_of<L: Library>(alloc: Global, lib: &mut L, command: Command) -> Result<Shape, Exit>
    ensures same { (n : List ℕ) → L.holds lib.new n ≡ L.holds lib.old n }
    ensures later { (n : List ℕ) → L.faults lib.old n ≤ L.faults lib.new n }
    ensures platform { IfOk result (λ s. IsPlatform (L.holds lib.old) (line_of command.entry) s) }
    ensures refused { IfErr result (λ exit. IsRefusal exit (record {
      holds = L.holds lib.old;
      faults_before = L.faults lib.old;
      faults_after = L.faults lib.new;
    }) (line_of command.entry)) }
{
    match command {
        Command::Run { file, .. } => load_platform(alloc, lib, file),
        Command::Script { file } => built_in(alloc, file),
        Command::Gen { .. } => load_platform(alloc, lib, PLATFORM_NAME),
    }
}

// The plan that a command line asks for, of the files that it reads.
fn plan_over<L: Library>(alloc: Global, lib: &mut L, command: Command) -> Result<Plan, Exit>
    ensures plan { IfOk result (λ p. IsPlan (L.holds lib.old) (line_of command.entry) p) }
    ensures valid { IfOk result IsValid }
    ensures refused { IfErr result (λ exit. IsRefusal exit (record {
      holds = L.holds lib.old;
      faults_before = L.faults lib.old;
      faults_after = L.faults lib.new;
    }) (line_of command.entry)) }
{
    let shape = shape_of(alloc, lib, command)?;
    let scripts = load_scripts(
        alloc,
        lib,
        shape.platform().version,
        shape.platform().initiators.as_slice(),
    )?;
    Ok(plan(alloc, shape, scripts.as_slice())?)
}

// The plan that a command line asks for, of the files that are generated of this number. They are read as those
// of a library are.
fn generated_plan(alloc: Global, seed: u64, command: Command) -> Result<Plan, Exit>
    ensures plan { IfOk result (λ p. IsPlan (generated seed) (line_of command.entry) p) }
    ensures valid { IfOk result IsValid }
    ensures refused { IfErr result (λ exit. IsRefusal exit (generated_library seed) (line_of command.entry)) }
{
    let mut files = generated(alloc, seed)?;
    plan_over(alloc, &mut files, command)
}

/// The plan that a command line asks for, of the files that it reads: those of the library, or for `gen` those
/// that are generated of its number. It is refused by its first fault, or for want of memory.
pub fn plan_of<L: Library>(alloc: Global, lib: &mut L, command: Command) -> Result<Plan, Exit>
    ensures plan { IfOk result (λ p. IsPlan (files_read (record {
      holds = L.holds lib.old;
      faults_before = L.faults lib.old;
      faults_after = L.faults lib.new;
    }) (line_of command.entry)).holds (line_of command.entry) p) }
    ensures valid { IfOk result IsValid }
    ensures refused { IfErr result (λ exit. IsRefusal exit (files_read (record {
      holds = L.holds lib.old;
      faults_before = L.faults lib.old;
      faults_after = L.faults lib.new;
    }) (line_of command.entry)) (line_of command.entry)) }
{
    match command {
        Command::Gen { seed, .. } => generated_plan(alloc, seed, command),
        _ => plan_over(alloc, lib, command),
    }
}

/// How many workers run it.
pub fn workers_of(command: Command) -> u32
    ensures { result ≡ workers_of (line_of command.entry) }
{
    match command {
        Command::Run { workers, .. } => workers,
        Command::Script { .. } => 1,
        Command::Gen { workers, .. } => workers,
    }
}
