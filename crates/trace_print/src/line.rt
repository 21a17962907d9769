// The line that is made for a sink.
ghost use Rattle.std.specs.Prelude.{◌≡◌, ◌+◌, ◌≤◌, ◌∷◌, [], false, length, IfOk};
ghost use Rattle.tlm_model.specs.Text.{hex_of};
ghost use Rattle.line_text.specs.Pieces.{piece_text};
ghost use Rattle.trace_print.specs.Putting.{Puts, page};

use line_text::{LinePiece, PIECE_MAX, write_bytes, write_data, write_piece};
use outside::{Piece, Sink};
use std::alloc::Global;
use std::marker::Model;
use tlm_types::Memory;

// The longest line of a run: an access of 4,096 bytes with as many enables, two digits each, and 512 more
// bytes for its numbers, names and words, and for a piece behind them.
const ROOM: usize = 16896;

/// How many bytes are put as digits at once: as many as an access has at most.
pub const CHUNK: usize = 4096;

/// A line that is made for a sink, and whether a write to the sink has failed. After a failure nothing
/// more is written.
// The buffer keeps its length, so that a piece changes nothing else but how much of it waits.
#[derive(Drop)]
pub struct Line {
    bytes: Vec<u8>,
    len: usize,
    failed: bool,
}

impl Model for Line {
    ghost use Rattle.std.specs.Prelude.{◌≡◌, ◌≤◌, take, vec_len};
    ghost use Rattle.trace_print.specs.LineView.{LineView};

    ghost Value = { LineView };

    ghost view = { λ l. record {
      waiting = take l.len l.bytes.items;
      failed = l.failed;
    } };

    ghost invariant = { λ l. (vec_len l.bytes ≡ 16896) × (l.len ≤ 16896) };
}

impl Line {
    /// An empty line with room for the longest line of a run. Its only error is want of memory.
    pub fn with_room(alloc: Global) -> Result<Line, Memory>
        ensures { IfOk result (λ l. (l.waiting ≡ []) × (l.failed ≡ false)) }
    {
        Ok(Line {
            bytes: vec![in alloc; 0; ROOM]?,
            len: 0,
            failed: false,
        })
    }

    /// A write to the sink has failed.
    pub fn has_failed(&self) -> bool
        ensures { result ≡ self.now.failed }
    {
        self.failed
    }
}

/// Writes what waits in the line as one piece.
pub fn flush<K: Sink>(out: &mut K, line: &mut Line)
    ensures puts { Puts (page (K.taken out.old) (K.faults out.old) line.old)
        (page (K.taken out.new) (K.faults out.new) line.new) [] }
    ensures empty { line.new.waiting ≡ [] }
{
    if !line.failed && line.len > 0 {
        line.failed = out.write(&line.bytes[..line.len]).is_err();
    }
    line.len = 0;
}

// Writes these bytes as a piece of their own, where nothing waits.
fn write_through<K: Sink>(out: &mut K, line: &mut Line, bytes: &[u8])
    requires { line.old.waiting ≡ [] }
    ensures { Puts (page (K.taken out.old) (K.faults out.old) line.old)
        (page (K.taken out.new) (K.faults out.new) line.new) bytes.now }
{
    if !line.failed {
        line.failed = out.write(bytes).is_err();
    }
}

// Writes what waits, and then these bytes.
#[cold]
fn put_through<K: Sink>(out: &mut K, line: &mut Line, bytes: &[u8])
    ensures { Puts (page (K.taken out.old) (K.faults out.old) line.old)
        (page (K.taken out.new) (K.faults out.new) line.new) bytes.now }
{
    flush(out, line);
    write_through(out, line, bytes);
}

// Writes what waits, where there is no room for so many bytes behind it.
#[inline(always)]
fn make_room<K: Sink>(out: &mut K, line: &mut Line, count: usize)
    requires { count ≤ 16896 }
    ensures puts { Puts (page (K.taken out.old) (K.faults out.old) line.old)
        (page (K.taken out.new) (K.faults out.new) line.new) [] }
    ensures roomy { length line.new.waiting + count ≤ 16896 }
{
    if line.len > ROOM - count {
        flush(out, line);
    }
}

/// Puts a piece.
// The kind of the piece is known where this is inlined.
#[inline(always)]
pub fn put_piece<K: Sink>(out: &mut K, line: &mut Line, piece: LinePiece)
    ensures { Puts (page (K.taken out.old) (K.faults out.old) line.old)
        (page (K.taken out.new) (K.faults out.new) line.new) (piece_text piece) }
{
    make_room(out, line, PIECE_MAX);
    line.len = write_piece(&mut line.bytes, line.len, piece);
}

/// Puts a line that writes itself, as one piece, behind all that waits.
#[inline(always)]
pub fn put_whole<K: Sink, P: Piece>(out: &mut K, line: &mut Line, piece: &P)
    requires writable { P.writable piece.now }
    requires room { P.most piece.now ≤ 16896 }
    ensures { Puts (page (K.taken out.old) (K.faults out.old) line.old)
        (page (K.taken out.new) (K.faults out.new) line.new) (P.text piece.now) }
{
    settle(out, line);
    write_whole(out, line, piece);
}

// Writes what waits, where something does.
#[inline(always)]
fn settle<K: Sink>(out: &mut K, line: &mut Line)
    ensures puts { Puts (page (K.taken out.old) (K.faults out.old) line.old)
        (page (K.taken out.new) (K.faults out.new) line.new) [] }
    ensures empty { line.new.waiting ≡ [] }
{
    if line.len > 0 {
        flush(out, line);
    }
}

// Has a sink take a line that writes itself, where nothing waits.
#[inline(always)]
fn write_whole<K: Sink, P: Piece>(out: &mut K, line: &mut Line, piece: &P)
    requires writable { P.writable piece.now }
    requires room { P.most piece.now ≤ 16896 }
    requires empty { line.old.waiting ≡ [] }
    ensures { Puts (page (K.taken out.old) (K.faults out.old) line.old)
        (page (K.taken out.new) (K.faults out.new) line.new) (P.text piece.now) }
{
    if !line.failed && out.write_piece(&mut line.bytes, piece).is_err() {
        line.failed = true;
    }
}

/// Puts each of at most 4,096 bytes as two digits.
pub fn put_chunk<K: Sink>(out: &mut K, line: &mut Line, source: &[u8])
    requires { length source.now ≤ 4096 }
    ensures { Puts (page (K.taken out.old) (K.faults out.old) line.old)
        (page (K.taken out.new) (K.faults out.new) line.new) (hex_of source.now) }
{
    make_room(out, line, 2 * source.len());
    line.len = write_data(&mut line.bytes, line.len, source);
}

/// Puts these bytes into the line. It has room for each line of a run; a line that grows past it is
/// written in several pieces.
// Most pieces are words of the report, whose lengths are known where this is inlined.
#[inline(always)]
pub fn put<K: Sink>(out: &mut K, line: &mut Line, bytes: &[u8])
    ensures { Puts (page (K.taken out.old) (K.faults out.old) line.old)
        (page (K.taken out.new) (K.faults out.new) line.new) bytes.now }
{
    if bytes.len() <= ROOM && line.len <= ROOM - bytes.len() {
        line.len = write_bytes(&mut line.bytes, line.len, bytes);
        return;
    }
    put_through(out, line, bytes);
}

/// Ends the line with a line feed, and writes it.
pub fn end_line<K: Sink>(out: &mut K, line: &mut Line)
    ensures { Puts (page (K.taken out.old) (K.faults out.old) line.old)
        (page (K.taken out.new) (K.faults out.new) line.new) (10 ∷ []) }
{
    put(out, line, b"\n");
    flush(out, line);
}
