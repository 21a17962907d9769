// A sink over a stream, which collects small pieces.
ghost use Rattle.std.specs.Prelude.{◌≡◌, ◌+◌, ◌-◌, ◌≤◌, ◌↔◌, ℕ, List, [], ◌++◌, length, take, drop, Option, None, Some, IsTrue, IfOk, IsOk, IsErr, OnOk, OnErr, is_ok, is_err, true, false, ◌||◌, if◌then◌else◌, vec_len, vec_capacity};
ghost use Rattle.std.specs.Bool.{OnTrue};
ghost use Rattle.std.specs.Io.KnownBytes.{Appends, Keeps};
ghost use Rattle.outside.specs.Causes.{next_count, Rose};
ghost use Rattle.outside.specs.Pieces.{TakesAll, TakesPrefix};
ghost use Rattle.outside.specs.declared.traits.TheConstants.{PIECE_ROOM};
ghost use Rattle.outside.specs.StreamState.{StreamState, collected, told_by, AppendsPrefix, HasStopped, Wrote};

use crate::streams::Stream;
use crate::traits::{Failed, PIECE_ROOM, Piece, Sink};
use std::alloc::Global;
use std::io::{ErrorKind, Write};
use std::marker::Model;
use tlm_types::Memory;

/// How many bytes a `StreamSink` lets wait: 64 KiB.
pub const STREAM_ROOM: usize = 65_536;

/// A sink over a stream. It collects what it is given and writes it to the stream when its buffer is
/// full and at `finish`, so that a small piece costs no call of the system. After `new` none of
/// its calls can fail for want of memory. Once the stream has failed nothing more is handed to it, so that it holds a prefix of what
/// was given. What waits when the sink is dropped is lost: call `finish` first.
// The buffer keeps its length, so that a piece can be made in it.
#[derive(Drop)]
pub struct StreamSink<W: Write + Drop> {
    inner: W,
    buffer: Vec<u8>,
    len: usize,
    failed: bool,
    faults: u64,
}

impl<W: Write + Drop> Model for StreamSink<W> {
    ghost use Rattle.std.specs.Prelude.{◌≡◌, ◌≤◌, take, vec_len};
    ghost use Rattle.outside.specs.StreamState.{StreamState};
    ghost use Rattle.outside.specs.declared.stream.TheConstants.{STREAM_ROOM};

    ghost Value = { StreamState };

    ghost view = { λ s. record { held = W.contents s.inner; waiting = take s.len s.buffer.items; failed = s.failed; faults = s.faults } };

    ghost invariant = { λ s. (vec_len s.buffer ≡ STREAM_ROOM) × (s.len ≤ STREAM_ROOM) };
}

// One write, tried again where a signal interrupted it. It answers how many bytes the stream took,
// none where it failed.
fn write_once<W: Write>(stream: &mut W, bytes: &[u8]) -> usize
    ensures bound { result ≤ length bytes.now }
    ensures taken { Appends (W.contents stream.old) (W.contents stream.new) (take result bytes.now) }
{
    for _ in 0..u64::MAX {
        match stream.write(bytes) {
            Ok(count) => return count,
            Err(e) if e.kind() == ErrorKind::Interrupted => {}
            Err(_) => return 0,
        }
    }
    0
}

// Hands the bytes to the stream in order, and answers how many it took: all, unless it failed or took
// nothing of what was left.
fn hand_over<W: Write>(stream: &mut W, bytes: &[u8]) -> usize
    ensures bound { result ≤ length bytes.now }
    ensures taken { Appends (W.contents stream.old) (W.contents stream.new) (take result bytes.now) }
{
    let mut taken = 0;
    while taken < bytes.len() {
        let count = write_once(stream, &bytes[taken..]);
        if count == 0 {
            return taken;
        }
        taken += count;
    }
    taken
}

// Of the first `len` bytes, moves those behind the first `count` to the front.
fn remove_front(bytes: &mut [u8], len: usize, count: usize)
    requires count { count ≤ len }
    requires len { len ≤ length bytes.old }
    ensures { take (len - count) bytes.new ≡ drop count (take len bytes.old) }
{
    bytes.copy_within(count..len, 0);
}

impl<W: Write + Drop> StreamSink<W> {
    /// A sink over this stream, with an empty buffer of `STREAM_ROOM` bytes. Its only error is want of
    /// memory, and it drops the stream then.
    pub fn new(alloc: Global, inner: W) -> Result<StreamSink<W>, Memory>
        ensures { IfOk result (λ s. s
            ≡ record { held = W.contents inner; waiting = []; failed = false; faults = 0 }) }
    {
        let buffer = vec![in alloc; 0; STREAM_ROOM]?;
        Ok(StreamSink {
            inner,
            buffer,
            len: 0,
            failed: false,
            faults: 0,
        })
    }

    /// How many calls have failed.
    pub fn faults(&self) -> u64
        ensures { result ≡ self.now.faults }
    {
        self.faults
    }

    /// The stream, without what waits.
    pub fn into_inner(self) -> W
        ensures { W.contents result ≡ self.held }
    {
        self.inner
    }

    // Hands what waits to the stream, unless that has failed, and answers whether all was taken. The rest goes on waiting.
    #[cold]
    #[inline(never)]
    fn pour(&mut self) -> bool
        ensures empty { OnTrue result (self.new.waiting ≡ []) }
        ensures kept { Keeps (collected self.old) (collected self.new) }
        ensures bounded { length self.new.waiting ≤ STREAM_ROOM }
        ensures failed { self.new.failed ≡ self.old.failed }
        ensures faults { self.new.faults ≡ self.old.faults }
        ensures stopped { IsTrue self.old.failed → (result ≡ false) × HasStopped self.old self.new }
    {
        if self.failed {
            return false;
        }
        let taken = hand_over(&mut self.inner, &self.buffer[..self.len]);
        remove_front(&mut self.buffer, self.len, taken);
        self.len -= taken;
        self.len == 0
    }

    fn flush(&mut self) -> bool
        ensures kept { Keeps self.old.held self.new.held }
        ensures rest { self.new ≡ record self.old { held = self.new.held } }
    {
        self.inner.flush().is_ok()
    }

    fn fail(&mut self) -> Result<(), Failed>
        ensures err { IsErr result }
        ensures after { self.new
            ≡ record self.old { failed = true; faults = next_count self.old.faults } }
    {
        self.failed = true;
        self.faults = self.faults.saturating_add(1);
        Err(Failed)
    }

    // There is room for so many bytes behind what waits.
    fn has_room(&self, count: usize) -> bool
        ensures { IsTrue result ↔ (length self.now.waiting + count ≤ STREAM_ROOM) }
    {
        count <= STREAM_ROOM - self.len
    }

    // Lets a piece wait.
    fn collect(&mut self, bytes: &[u8])
        requires { length self.old.waiting + length bytes.now ≤ STREAM_ROOM }
        ensures { self.new ≡ record self.old { waiting = self.old.waiting ++ bytes.now } }
    {
        let end = self.len + bytes.len();
        self.buffer[self.len..end].copy_from_slice(bytes);
        self.len = end;
    }

    // Hands a piece to the stream, while nothing waits.
    fn pass(&mut self, bytes: &[u8]) -> Result<(), Failed>
        requires { self.old.waiting ≡ [] }
        ensures all { OnOk result (Appends self.old.held self.new.held bytes.now) }
        ensures part { OnErr result (AppendsPrefix self.old.held self.new.held bytes.now) }
        ensures rest { self.new ≡ record self.old {
          held = self.new.held;
          failed = self.old.failed || is_err result;
          faults = if is_ok result then self.old.faults else next_count self.old.faults;
        } }
    {
        let taken = hand_over(&mut self.inner, bytes);
        if taken < bytes.len() {
            return self.fail();
        }
        Ok(())
    }

    // Writes a piece that can't wait as it is: what waits goes to the stream first. After a failure it is refused, unless
    // it is empty.
    #[cold]
    #[inline(never)]
    fn write_on(&mut self, bytes: &[u8]) -> Result<(), Failed>
        ensures wrote { Wrote self.old self.new bytes.now (is_ok result) }
        ensures refused { IsTrue self.old.failed → (IsOk result ↔ (bytes.now ≡ [])) }
    {
        if self.failed && bytes.is_empty() {
            return Ok(());
        }
        if !self.pour() {
            return self.fail();
        }
        if bytes.len() > STREAM_ROOM {
            return self.pass(bytes);
        }
        self.collect(bytes);
        Ok(())
    }
}

impl<W: Stream + Drop> StreamSink<W> {
    /// Writes what waits to the stream and flushes it. After a failure, of this call or an earlier one,
    /// it fails each time.
    pub fn finish(&mut self) -> Result<(), Failed>
        ensures all { OnOk result (Keeps (collected self.old) self.new.held) }
        ensures empty { OnOk result (self.new.waiting ≡ []) }
        ensures kept { OnErr result (Keeps (collected self.old) (collected self.new)) }
        ensures same { told_by W.tells (collected self.new) ≡ told_by W.tells (collected self.old) }
        ensures stopped { IsTrue self.old.failed → IsErr result × HasStopped self.old self.new }
        ensures counted { self.new.faults
            ≡ (if is_ok result then self.old.faults else next_count self.old.faults) }
        ensures marked { self.new.failed ≡ is_err result }
        ensures later { self.old.faults ≤ self.new.faults }
        ensures failed { OnErr result (Rose self.old.faults self.new.faults) }
    {
        if self.failed || !self.pour() || !self.flush() {
            return self.fail();
        }
        Ok(())
    }
}

impl<W: Stream + Drop> Sink for StreamSink<W> {
    ghost taken = { λ s. told_by W.tells (collected s) };

    ghost faults = { λ s. s.faults };

    /// Lets the piece wait if there is room. Else it first writes what waits to the stream, and then,
    /// if the piece is larger than the whole buffer, the piece too. Once the stream has failed, each
    /// piece that isn't empty is refused.
    fn write(&mut self, bytes: &[u8]) -> Result<(), Failed>
        ensures wrote { Wrote self.old self.new bytes.now (is_ok result) }
        ensures refused { IsTrue self.old.failed → (IsOk result ↔ (bytes.now ≡ [])) }
        ensures waits { self.old.failed ≡ false → length self.old.waiting + length bytes.now ≤ STREAM_ROOM
            → IsOk result × (self.new ≡ record self.old { waiting = self.old.waiting ++ bytes.now }) }

        // What every sink promises.
        ensures all { OnOk result (TakesAll (told_by W.tells (collected self.old))
            (told_by W.tells (collected self.new)) bytes.now) }
        ensures part { OnErr result (TakesPrefix (told_by W.tells (collected self.old))
            (told_by W.tells (collected self.new)) bytes.now) }
        ensures later { self.old.faults ≤ self.new.faults }
        ensures failed { OnErr result (Rose self.old.faults self.new.faults) }
    {
        if self.failed || !self.has_room(bytes.len()) {
            return self.write_on(bytes);
        }
        self.collect(bytes);
        Ok(())
    }

    /// Makes the piece behind what waits. If there may not be room, it first writes what waits to the stream. Once the
    /// stream has failed, each piece is refused.
    #[inline(always)]
    fn write_piece<P: Piece>(&mut self, _lent: &mut [u8], piece: &P) -> Result<(), Failed>
        requires writable { P.writable piece.now }
        requires room { P.most piece.now ≤ length _lent.old }
        requires few { P.most piece.now ≤ PIECE_ROOM }
        ensures wrote { Wrote self.old self.new (P.text piece.now) (is_ok result) }
        ensures refused { IsTrue self.old.failed → IsErr result }

        // What every sink promises.
        ensures all { OnOk result (TakesAll (told_by W.tells (collected self.old))
            (told_by W.tells (collected self.new)) (P.text piece.now)) }
        ensures part { OnErr result (TakesPrefix (told_by W.tells (collected self.old))
            (told_by W.tells (collected self.new)) (P.text piece.now)) }
        ensures later { self.old.faults ≤ self.new.faults }
        ensures failed { OnErr result (Rose self.old.faults self.new.faults) }
    {
        if (self.failed || !self.has_room(piece.most())) && !self.pour() {
            return self.fail();
        }
        self.len = piece.write_at(&mut self.buffer, self.len);
        Ok(())
    }
}
