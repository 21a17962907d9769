// The top call: from the words to the report.
ghost use Rattle.std.specs.Prelude.{◌≡◌, ◌≤◌, true};
ghost use Rattle.command_words.specs.Commands.{line_of, texts};
ghost use Rattle.trace_print.specs.Writes.{Tells};
ghost use Rattle.run_outcome.specs.Outcome.{IsReportable};
ghost use Rattle.trace_print.specs.Writes.{IsPrinted};
ghost use Rattle.route_plan.specs.Valid.{IsValid};
ghost use Rattle.tlm_top.specs.Headline.{IsAnswer, IsExplained, IsRunOf, written_of};
ghost use Rattle.tlm_top.specs.Kept.{logs_for, logs_of};
ghost use Rattle.plan_loads.specs.Exits.{told_of};

use command_words::{Command, read_words};
use outside::{Library, Pace, Sink};
use plan_loads::{Exit, plan_of, print_totals, tell, workers_of};
use plat_run::{Logs, run_plan};
use route_plan::Plan;
use run_outcome::Outcome;
use std::alloc::Global;
use std::sync::Wait;
use std::thread::Threads;
use tlm_model::Trace;
use tlm_types::Memory;
use trace_print::{PrintFault, print};

// Whether a report with this trace reads the logs.
fn logs_for(trace: Trace) -> Logs
    ensures { result ≡ logs_for trace }
{
    match trace {
        Trace::All | Trace::Accesses => Logs::Kept,
        Trace::None => Logs::Forgotten,
    }
}

// Whether what a command line wants of a run reads the logs.
fn logs_of(command: Command) -> Logs
    ensures { result ≡ logs_of (line_of command.entry) }
{
    match command {
        Command::Run { trace, .. } => logs_for(trace),
        Command::Script { .. } | Command::Gen { .. } => Logs::Kept,
    }
}

// Writes what a command line wants of a run: its report, or the line of its totals.
fn print_asked<K: Sink>(
    alloc: Global,
    out: &mut K,
    command: Command,
    plan: &Plan,
    outcome: &Outcome,
) -> Result<(), PrintFault>
    requires valid { IsValid plan.now }
    requires reportable { IsReportable plan.now outcome.now }
    requires kept { logs_of (line_of command) ≡ Logs.Kept → outcome.now.history.whole ≡ true }
    ensures printed { IsPrinted result (record {
      taken_before = K.taken out.old;
      taken_after = K.taken out.new;
      faults_before = K.faults out.old;
      faults_after = K.faults out.new;
    }) (written_of (line_of command.entry) plan.now outcome.now.history.entries) }
    ensures later { K.faults out.old ≤ K.faults out.new }
{
    match command {
        Command::Run { trace, .. } => print(alloc, out, plan, outcome, trace),
        Command::Script { .. } => print(alloc, out, plan, outcome, Trace::All),
        Command::Gen { seed, .. } => print_totals(alloc, out, seed, outcome),
    }
}

// Runs a plan by the workers of a command line, and writes what it wants of the run. Logs that nobody will read aren't kept.
fn run_and_print<R: Threads + Wait + Sync, K: Sink, P: Pace + Sync>(
    rt: &R,
    alloc: Global,
    plan: &Plan,
    command: Command,
    out: &mut K,
    pace: &P,
) -> Exit
    requires { IsValid plan.now }
    ensures outcome { IsRunOf result (record {
      taken_before = K.taken out.old;
      taken_after = K.taken out.new;
      faults_before = K.faults out.old;
      faults_after = K.faults out.new;
    }) (line_of command.entry) plan.now }
    ensures later { K.faults out.old ≤ K.faults out.new }
{
    let logs = logs_of(command);
    let Ok((outcome, sealed)) = run_plan(rt, alloc, plan, workers_of(command), pace, logs) else {
        return Exit::NoMemory;
    };
    match print_asked(alloc, out, command, plan, &outcome) {
        Ok(()) => Exit::Done(sealed),
        Err(PrintFault::Failed) => Exit::WriteFault(sealed),
        Err(PrintFault::Memory) => Exit::NoMemory,
    }
}

// What comes of a command line.
fn answer<R: Threads + Wait + Sync, L: Library, K: Sink, P: Pace + Sync>(
    rt: &R,
    alloc: Global,
    command: Command,
    lib: &mut L,
    out: &mut K,
    pace: &P,
) -> Exit
    ensures answer { IsAnswer result (record {
      files = record {
        holds = L.holds lib.old;
        faults_before = L.faults lib.old;
        faults_after = L.faults lib.new;
      };
      out = record {
        taken_before = K.taken out.old;
        taken_after = K.taken out.new;
        faults_before = K.faults out.old;
        faults_after = K.faults out.new;
      };
    }) (line_of command.entry) }
    ensures later { K.faults out.old ≤ K.faults out.new }
{
    let plan = match plan_of(alloc, lib, command) {
        Ok(plan) => plan,
        Err(exit) => return exit,
    };
    run_and_print(rt, alloc, &plan, command, out, pace)
}

// The answer, before `diag` is told of it.
fn explain<R: Threads + Wait + Sync, L: Library, K: Sink, P: Pace + Sync>(
    rt: &R,
    alloc: Global,
    words: &[String],
    lib: &mut L,
    out: &mut K,
    pace: &P,
) -> Exit
    ensures answer { IsExplained result (record {
      files = record {
        holds = L.holds lib.old;
        faults_before = L.faults lib.old;
        faults_after = L.faults lib.new;
      };
      out = record {
        taken_before = K.taken out.old;
        taken_after = K.taken out.new;
        faults_before = K.faults out.old;
        faults_after = K.faults out.new;
      };
    }) (texts words.now) }
    ensures later { K.faults out.old ≤ K.faults out.new }
{
    match read_words(alloc, words) {
        Ok(Some(command)) => answer(rt, alloc, command, lib, out, pace),
        Ok(None) => Exit::Usage,
        Err(Memory) => Exit::NoMemory,
    }
}

/// Does what the words ask for: `run FILE` loads a platform and the scripts of its initiators, `script
/// FILE` a script for the built-in platform, and `gen SEED` generates a platform with its scripts and
/// doesn't ask the library; it runs them by as many workers as the words say, a script by one, and
/// writes the report of the run to `out`, or for `gen` one line: how many sequence numbers were taken, how
/// many accesses there were, how many payloads were taken, and how many syncs. `diag` is told of every
/// answer but Done by one line; a fault of `diag` changes no answer. Nothing is kept between calls.
pub fn run<R: Threads + Wait + Sync, L: Library, K: Sink, D: Sink, P: Pace + Sync>(
    rt: &R,
    alloc: Global,
    words: &[String],
    lib: &mut L,
    out: &mut K,
    diag: &mut D,
    pace: &P,
) -> Exit
    ensures answer { IsExplained result (record {
      files = record {
        holds = L.holds lib.old;
        faults_before = L.faults lib.old;
        faults_after = L.faults lib.new;
      };
      out = record {
        taken_before = K.taken out.old;
        taken_after = K.taken out.new;
        faults_before = K.faults out.old;
        faults_after = K.faults out.new;
      };
    }) (texts words.now) }
    ensures told { Tells (record {
      taken_before = D.taken diag.old;
      taken_after = D.taken diag.new;
      faults_before = D.faults diag.old;
      faults_after = D.faults diag.new;
    }) (told_of result) }
    // The counts of faults never fall.
    ensures later { K.faults out.old ≤ K.faults out.new }
    ensures told_later { D.faults diag.old ≤ D.faults diag.new }
{
    let exit = explain(rt, alloc, words, lib, out, pace);
    tell(diag, &exit);
    exit
}
