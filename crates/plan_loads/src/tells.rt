// The line that tells of an answer.
ghost use Rattle.std.specs.Prelude.{◌≡◌, ◌≤◌, ◌++◌, ◌∷◌, [], is_ok, codes};
ghost use Rattle.std.specs.List.{concat};
ghost use Rattle.trace_print.specs.Writes.{Writes, Tells};
ghost use Rattle.plan_loads.specs.Exits.{told_of, told_after, answer_after};

use crate::exit::Exit;
use itoa::Buffer;
use outside::{Failed, Sink};

const USAGE: &[u8] =
    b"usage: tlmrun run FILE [--workers N] [--trace all|accesses|none]; tlmrun gen SEED [--workers N]; tlmrun script FILE\n";

fn write<S: Sink>(sink: &mut S, bytes: &[u8]) -> Result<(), Failed>
    ensures { Writes (record {
      taken_before = S.taken sink.old;
      taken_after = S.taken sink.new;
      faults_before = S.faults sink.old;
      faults_after = S.faults sink.new;
    }) bytes.now (is_ok result) }
{
    sink.write(bytes)
}

// Writes three pieces in order, up to the first that fails.
fn write_three<S: Sink>(
    sink: &mut S,
    first: &[u8],
    second: &[u8],
    third: &[u8],
) -> Result<(), Failed>
    ensures { Writes (record {
      taken_before = S.taken sink.old;
      taken_after = S.taken sink.new;
      faults_before = S.faults sink.old;
      faults_after = S.faults sink.new;
    }) (first.now ++ (second.now ++ third.now)) (is_ok result) }
{
    write(sink, first)?;
    write(sink, second)?;
    write(sink, third)
}

// Writes the line of a name.
fn write_named<S: Sink>(sink: &mut S, front: &[u8], name: &str) -> Result<(), Failed>
    ensures { Writes (record {
      taken_before = S.taken sink.old;
      taken_after = S.taken sink.new;
      faults_before = S.faults sink.old;
      faults_after = S.faults sink.new;
    }) (concat (front.now ∷ name.now ∷ codes "\n" ∷ [])) (is_ok result) }
{
    write_three(sink, front, name.as_bytes(), b"\n")
}

// Writes the line of a refusal: three words, and what stands before each.
fn write_refused<S: Sink>(
    sink: &mut S,
    front: &[u8],
    first: &str,
    between: &[u8],
    second: &str,
    gap: &[u8],
    third: &str,
) -> Result<(), Failed>
    ensures { Writes (record {
      taken_before = S.taken sink.old;
      taken_after = S.taken sink.new;
      faults_before = S.faults sink.old;
      faults_after = S.faults sink.new;
    }) (concat (front.now ∷ first.now ∷ between.now ∷ second.now ∷ gap.now ∷ third.now ∷ codes "\n" ∷ []))
        (is_ok result) }
{
    write_three(sink, front, first.as_bytes(), between)?;
    write_three(sink, second.as_bytes(), gap, third.as_bytes())?;
    write(sink, b"\n")
}

fn write_told<S: Sink>(sink: &mut S, exit: &Exit) -> Result<(), Failed>
    ensures { Writes (record {
      taken_before = S.taken sink.old;
      taken_after = S.taken sink.new;
      faults_before = S.faults sink.old;
      faults_after = S.faults sink.new;
    }) (told_of exit.now) (is_ok result) }
{
    let mut number = Buffer::new();
    match exit {
        Exit::Done(_) => Ok(()),
        Exit::Usage => write(sink, USAGE),
        Exit::PlatformRefused { code, table, key } => write_refused(
            sink,
            b"platform refused: ",
            code.name(),
            b" ",
            table.as_text(),
            b" ",
            key.as_text(),
        ),
        Exit::ScriptRefused {
            name,
            line,
            code,
            ..
        } => write_refused(
            sink,
            b"script refused: ",
            name.as_text(),
            b" line ",
            number.format(*line),
            b": ",
            code.name(),
        ),
        Exit::ReadFault { name } => write_named(sink, b"read fault: ", name.as_text()),
        Exit::WriteFault(_) => write(sink, b"write fault\n"),
        Exit::NoMemory => write(sink, b"no memory\n"),
        Exit::TooLong { name } => write_named(sink, b"too long: ", name.as_text()),
    }
}

/// Writes the line that tells of an answer. A sink that fails is left alone.
pub fn tell<S: Sink>(sink: &mut S, exit: &Exit)
    ensures told { Tells (record {
      taken_before = S.taken sink.old;
      taken_after = S.taken sink.new;
      faults_before = S.faults sink.old;
      faults_after = S.faults sink.new;
    }) (told_of exit.now) }
    ensures later { S.faults sink.old ≤ S.faults sink.new }
{
    let _ = write_told(sink, exit);
}

/// The answer after the rest of what a sink collected was written, or wasn't. A report that was done and
/// then couldn't be written whole is a write fault, of which `diag` is told; every other answer stays.
pub fn after_flush<D: Sink>(exit: Exit, is_flushed: bool, diag: &mut D) -> Exit
    ensures answer { result ≡ answer_after is_flushed exit }
    ensures told { Tells (record {
      taken_before = D.taken diag.old;
      taken_after = D.taken diag.new;
      faults_before = D.faults diag.old;
      faults_after = D.faults diag.new;
    }) (told_after is_flushed exit) }
    ensures later { D.faults diag.old ≤ D.faults diag.new }
{
    match exit {
        Exit::Done(sealed) if !is_flushed => {
            let fault = Exit::WriteFault(sealed);
            tell(diag, &fault);
            fault
        }
        exit => exit,
    }
}
