// What a run counts in all.
ghost use Rattle.std.specs.Prelude.{◌≡◌, ◌<◌, ◌≤◌, ◌^◌, ◌++◌, true, Some, IfOk, OnOk, length, slice_get, string_bytes};
ghost use Rattle.tlm_types.specs.declared.entry.Entry.{Entry};
ghost use Rattle.tlm_types.specs.Entries.{is_access};
ghost use Rattle.trace_print.specs.Writes.{IsPrinted};
ghost use Rattle.plan_loads.specs.Totals.{accesses_in, counted, is_take, syncs_in, takes_in, totals_in, totals_line, transactions_in, HasSmallTotals};

use entry_log::Log;
use outside::Sink;
use run_outcome::{LogReader, Outcome};
use std::alloc::{AllocError, Global};
use std::fmt::Write;
use tlm_types::{EndOf, Memory, What};
use trace_print::PrintFault;

/// What a run counts in all: the sequence numbers that its initiators took, the accesses in its history
/// and the payloads taken there, and the syncs of its initiators.
#[derive(Clone, Copy)]
pub struct Totals {
    pub transactions: u64,
    pub accesses: u64,
    pub payloads: u64,
    pub syncs: u64,
}

// There is an access at this place of a log.
fn is_access(log: &Log, index: u64) -> bool
    requires whole { log.now.whole ≡ true }
    requires index { index < length log.now.entries }
    ensures { (e : Entry) → slice_get log.now.entries index ≡ Some e → result ≡ is_access e.what }
{
    log.facts(index).is_some()
}

// A payload is taken at this place of a log.
fn is_take(log: &Log, index: u64) -> bool
    requires whole { log.now.whole ≡ true }
    requires index { index < length log.now.entries }
    ensures { (e : Entry) → slice_get log.now.entries index ≡ Some e → result ≡ is_take e.what }
{
    matches!(log.what(index), Some(What::Take { .. }))
}

// How many accesses a history has, and how many payloads were taken in it.
fn counts(reader: &mut LogReader<'_>) -> (u64, u64)
    ensures accesses { result.0 ≡ accesses_in reader.old.entries }
    ensures payloads { result.1 ≡ takes_in reader.old.entries }
{
    let mut accesses = 0;
    let mut payloads = 0;
    for position in 0..reader.len() {
        let (log, index) = reader.at(position);
        accesses += u64::from(is_access(log, index));
        payloads += u64::from(is_take(log, index));
    }
    (accesses, payloads)
}

fn transactions(ends: &[EndOf]) -> u64
    requires { transactions_in ends.now < 2 ^ 64 }
    ensures { result ≡ transactions_in ends.now }
{
    ends.iter().map(|end| end.transactions).sum()
}

fn syncs(ends: &[EndOf]) -> u64
    requires { syncs_in ends.now < 2 ^ 64 }
    ensures { result ≡ syncs_in ends.now }
{
    ends.iter().map(|end| end.syncs).sum()
}

fn count_totals(alloc: Global, outcome: &Outcome) -> Result<Totals, Memory>
    requires small { HasSmallTotals outcome.now }
    requires whole { outcome.now.history.whole ≡ true }
    ensures { IfOk result (λ t. t ≡ totals_in outcome.now) }
{
    let mut reader = outcome.history.reader(alloc)?;
    let (accesses, payloads) = counts(&mut reader);
    let ends = outcome.ends.as_slice();
    Ok(Totals {
        transactions: transactions(ends),
        accesses,
        payloads,
        syncs: syncs(ends),
    })
}

// Puts a word and a count, each after a space.
fn put_count(text: &mut String, word: &str, count: u64) -> Result<(), AllocError>
    ensures { OnOk result (string_bytes text.new ≡ string_bytes text.old ++ counted word.now count) }
{
    write!(text, " {word} {count}")
}

// The line of what was generated of a seed.
fn line(alloc: Global, seed: u64, totals: Totals) -> Result<String, Memory>
    ensures { IfOk result (λ text. string_bytes text ≡ totals_line seed totals) }
{
    let mut text = String::new(alloc);
    write!(text, "gen {seed}")?;
    put_count(&mut text, "transactions", totals.transactions)?;
    put_count(&mut text, "accesses", totals.accesses)?;
    put_count(&mut text, "payloads", totals.payloads)?;
    put_count(&mut text, "syncs", totals.syncs)?;
    writeln!(text)?;
    Ok(text)
}

/// Writes the line of what was generated of a seed, with the totals of this outcome, as one piece. After
/// Failed the sink took a prefix of it, and after Memory nothing.
pub fn print_totals<K: Sink>(
    alloc: Global,
    out: &mut K,
    seed: u64,
    outcome: &Outcome,
) -> Result<(), PrintFault>
    requires small { HasSmallTotals outcome.now }
    requires whole { outcome.now.history.whole ≡ true }
    ensures printed { IsPrinted result (record {
      taken_before = K.taken out.old;
      taken_after = K.taken out.new;
      faults_before = K.faults out.old;
      faults_after = K.faults out.new;
    }) (totals_line seed (totals_in outcome.now)) }
    ensures later { K.faults out.old ≤ K.faults out.new }
{
    let totals = count_totals(alloc, outcome)?;
    let text = line(alloc, seed, totals)?;
    match out.write(text.as_bytes()) {
        Ok(()) => Ok(()),
        Err(_) => Err(PrintFault::Failed),
    }
}
