// Streams that tell what they hold, and those that don't.
ghost use Rattle.std.specs.Prelude.{Bool, true, false};
ghost use Rattle.outside.specs.StreamState.{IsToldBy};

use std::io;
use std::io::Write;

/// A stream of which it is settled whether it tells what it holds: at all times, or never.
pub trait Stream: Write {
    /// Whether it tells what it holds.
    ghost tells: { Bool };

    ghost told: { (s : Self) → IsToldBy tells (Self.contents s) };
}

impl Stream for Vec<u8> {
    ghost tells = { true };

    ghost told = { λ _. tt };
}

/// A stream of the system: no contract says what it holds.
#[derive(Drop)]
pub struct Untold<W: Write + Drop> {
    inner: W,
}

impl<W: Write + Drop> Untold<W> {
    /// A stream that writes to this one, and of which nothing is told.
    pub fn new(inner: W) -> Untold<W> {
        Untold { inner }
    }
}

impl<W: Write + Drop> Write for Untold<W> {
    fn write(&mut self, buf: &[u8]) -> io::Result<usize> {
        self.inner.write(buf)
    }

    fn flush(&mut self) -> io::Result<()> {
        self.inner.flush()
    }
}

impl<W: Write + Drop> Stream for Untold<W> {
    ghost tells = { false };

    ghost told = { λ _. tt };
}
