// The top call over two streams.
ghost use Rattle.std.specs.Prelude.{◌≡◌, ◌≤◌, [], ℕ, true, false};
ghost use Rattle.command_words.specs.Commands.{texts};
ghost use Rattle.outside.specs.Causes.{Rose};
ghost use Rattle.outside.specs.StreamState.{collected, told_by};
ghost use Rattle.trace_print.specs.Writes.{Tells};
ghost use Rattle.tlm_top.specs.Headline.{IsExplained};
ghost use Rattle.plan_loads.specs.Exits.{told_of};
ghost use Rattle.tlm_top.specs.Serving.{stream_change, IsWritten};

use crate::top::run;
use outside::{Library, Pace, Stream, StreamSink};
use plan_loads::{Exit, after_flush};
use std::alloc::Global;
use std::sync::Wait;
use std::thread::Threads;

// Writes what a sink let wait, and answers whether all of it was taken.
fn finish<W: Stream + Drop>(sink: &mut StreamSink<W>) -> bool
    ensures same { told_by W.tells (collected sink.new) ≡ told_by W.tells (collected sink.old) }
    ensures empty { result ≡ true → sink.new.waiting ≡ [] }
    ensures failed { result ≡ false → Rose sink.old.faults sink.new.faults }
    ensures later { sink.old.faults ≤ sink.new.faults }
{
    match sink.finish() {
        Ok(()) => true,
        Err(_) => false,
    }
}

/// All that the program does with its words, its files and its two streams: `run` with two sinks that
/// collect, then the rest of what they collected is written. A report that couldn't be written whole is a
/// write fault, of which the second stream is told; its own failure changes no answer.
pub fn serve<R, L, O, D, P>(
    rt: &R,
    alloc: Global,
    words: &[String],
    lib: &mut L,
    out: &mut StreamSink<O>,
    diag: &mut StreamSink<D>,
    pace: &P,
) -> Exit
where
    R: Threads + Wait + Sync,
    L: Library,
    O: Stream + Drop,
    D: Stream + Drop,
    P: Pace + Sync,
    // What `run` promises, of what the streams hold and what still waits for them.
    ensures answer { IsExplained result (record {
      files = record {
        holds = L.holds lib.old;
        faults_before = L.faults lib.old;
        faults_after = L.faults lib.new;
      };
      out = stream_change O.tells out.old out.new;
    }) (texts words.now) }
    ensures told { Tells (stream_change D.tells diag.old diag.new) (told_of result) }

    // Nothing waits of a report that is done, nor of the line on a stream that didn't fail.
    ensures written { IsWritten result out.new }
    ensures flushed { (¬ Rose diag.old.faults diag.new.faults) → diag.new.waiting ≡ [] }
{
    let exit = run(rt, alloc, words, lib, out, diag, pace);
    let is_flushed = finish(out);
    let exit = after_flush(exit, is_flushed, diag);
    finish(diag);
    exit
}
