//! The report of a run.
//!
//! - `print` writes the report of an outcome to a sink, with the entries that a `Trace` shows. Where it
//!   shows some, the history has to be in store.
//! - `PrintFault` tells why it didn't: the sink failed, or memory was refused.
//!
//! Promises: on Ok the sink took the report of the definitions, byte for byte. Where the sink fails it
//! took a prefix of the report, its count of faults rose, and nothing is written after that. Memory is
//! taken before the first write, for one line and for names, so where it is refused the sink took nothing. A line is
//! one piece for the sink. Every kind of entry is printed, whatever its numbers.
//!
//! `laws` says what a report tells: of a good history of a valid plan, the report with all entries names
//! the history.
#![tactic(auto)]

ghost use Rattle.std.specs.Prelude.{◌≡◌, ◌≢◌, ◌≤◌, ◌∷◌, [], codes, true, IfOk, IfSome, IfNone};
ghost use Rattle.std.specs.Fmt.{decimal};
ghost use Rattle.report_model.specs.Report.{report_of};
ghost use Rattle.tlm_model.specs.Text.{line_of};
ghost use Rattle.tlm_model.specs.declared.trace.Trace.TheVariants as Traces;
ghost use Rattle.trace_print.specs.Putting.{Puts, page};
ghost use Rattle.run_outcome.specs.Outcome.{IsReportable};
ghost use Rattle.trace_print.specs.Writes.{IsPrinted};

mod ends;
mod entries;
pub mod laws;
mod line;
mod memories;
mod names;
mod words;

use crate::ends::put_initiators;
use crate::entries::put_shown;
use crate::line::{Line, end_line, flush, put};
use crate::memories::put_memories;
use crate::names::Names;
use crate::words::put_number;
use outside::Sink;
use route_plan::Plan;
use run_outcome::{LogReader, MergedLog, Outcome};
use std::alloc::Global;
use thiserror::Error;
use tlm_model::Trace;
use tlm_types::Memory;

/// Why a report wasn't printed whole: the sink failed, or memory was refused.
#[derive(Clone, Copy, Debug, PartialEq, Eq, Error)]
pub enum PrintFault {
    #[error("the report could not be written")]
    Failed,
    #[error("out of memory")]
    Memory,
}

impl From<Memory> for PrintFault {
    ghost use Rattle.std.specs.Prelude.{◌≡◌};
    ghost use Rattle.trace_print.specs.declared.PrintFault.TheVariants as faults;

    ghost from_gives = { λ _ fault. fault ≡ faults.Memory };

    fn from(_: Memory) -> PrintFault {
        PrintFault::Memory
    }
}

// The first line.
fn put_title<K: Sink>(out: &mut K, line: &mut Line)
    ensures { Puts (page (K.taken out.old) (K.faults out.old) line.old)
        (page (K.taken out.new) (K.faults out.new) line.new)
        (line_of (codes "tlm-report" ∷ codes "1" ∷ [])) }
{
    put(out, line, b"tlm-report 1");
    end_line(out, line);
}

// The last line: how many entries the history has.
fn put_count<K: Sink>(out: &mut K, line: &mut Line, count: u64)
    ensures { Puts (page (K.taken out.old) (K.faults out.old) line.old)
        (page (K.taken out.new) (K.faults out.new) line.new)
        (line_of (codes "end" ∷ decimal count ∷ [])) }
{
    put(out, line, b"end ");
    put_number(out, line, count);
    end_line(out, line);
}

// A reader of a history, unless the trace shows none of its entries. Its only error is want of memory.
fn reader_for(
    alloc: Global,
    history: &MergedLog,
    trace: Trace,
) -> Result<Option<LogReader<'_>>, Memory>
    requires { trace ≢ Traces.None → history.now.whole ≡ true }
    ensures some { IfOk result (λ reader. IfSome reader (λ r. r ≡ history.now)) }
    ensures none { IfOk result (λ reader. IfNone reader (trace ≡ Traces.None)) }
{
    match trace {
        Trace::None => Ok(None),
        Trace::All | Trace::Accesses => Ok(Some(history.reader(alloc)?)),
    }
}

// The whole report, of which the end of the last line may still wait.
fn put_report<K: Sink>(
    out: &mut K,
    line: &mut Line,
    names: &mut Names<'_>,
    outcome: &Outcome,
    reader: Option<LogReader<'_>>,
    trace: Trace,
)
    requires reportable { IsReportable names.old outcome.now }
    requires reader { IfSome reader (λ r. r ≡ outcome.now.history) }
    requires none { IfNone reader (trace ≡ Traces.None) }
    ensures { Puts (page (K.taken out.old) (K.faults out.old) line.old)
        (page (K.taken out.new) (K.faults out.new) line.new)
        (report_of trace names.old outcome.now.history.entries) }
{
    let platform = names.platform();
    put_title(out, line);
    put_shown(out, line, names, reader, trace);
    put_initiators(
        out,
        line,
        platform.initiators.as_slice(),
        outcome.ends.as_slice(),
    );
    put_memories(
        out,
        line,
        platform.memories.as_slice(),
        outcome.stores.as_slice(),
    );
    put_count(out, line, outcome.history.len());
}

/// Prints the report of an outcome of this plan: its head, a line for each entry that the trace shows,
/// how each initiator ended with what was refused to it, the bytes of each memory that aren't zeros, 16
/// a line, and the number of entries. Times are in picoseconds; addresses, offsets and lengths in
/// bytes. Where the trace shows no entry, the history needn't be in store. After Failed the sink took a
/// prefix of the report, and after Memory nothing.
pub fn print<K: Sink>(
    alloc: Global,
    out: &mut K,
    plan: &Plan,
    outcome: &Outcome,
    trace: Trace,
) -> Result<(), PrintFault>
    requires reportable { IsReportable plan.now outcome.now }
    requires whole { trace ≢ Traces.None → outcome.now.history.whole ≡ true }
    ensures printed { IsPrinted result (record {
      taken_before = K.taken out.old;
      taken_after = K.taken out.new;
      faults_before = K.faults out.old;
      faults_after = K.faults out.new;
    }) (report_of trace plan.now outcome.now.history.entries) }
    ensures later { K.faults out.old ≤ K.faults out.new }
{
    let mut line = Line::with_room(alloc)?;
    let mut names = Names::of_plan(alloc, plan)?;
    let reader = reader_for(alloc, &outcome.history, trace)?;
    put_report(out, &mut line, &mut names, outcome, reader, trace);
    flush(out, &mut line);
    if line.has_failed() {
        return Err(PrintFault::Failed);
    }
    Ok(())
}
