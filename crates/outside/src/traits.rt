// What the program asks of the outside.
ghost use Rattle.std.specs.Prelude.{◌≡◌, ◌+◌, ◌<◌, ◌≤◌, ◌++◌, ℕ, List, length, take, Option, IfSome, IfOk, OnOk, OnErr, IsErrOf, vec_len};
ghost use Rattle.outside.specs.Causes.{Rose};
ghost use Rattle.outside.specs.Pieces.{TakesAll, TakesPrefix};
ghost use Rattle.outside.specs.declared.traits.TheConstants.{PIECE_ROOM};

use std::alloc::Global;
use thiserror::Error;

/// Why a file was not loaded: it could not be read, it has more bytes than allowed, or memory was
/// refused.
#[derive(Clone, Copy, Debug, PartialEq, Eq, Error)]
pub enum LoadFault {
    #[error("the file could not be read")]
    Failed,
    #[error("the file is too long")]
    TooLong,
    #[error("out of memory")]
    Memory,
}

/// A sink failed.
#[derive(Clone, Copy, Debug, PartialEq, Eq, Error)]
#[error("the bytes could not be written")]
pub struct Failed;

/// Files that are loaded by name.
pub trait Library {
    /// What it holds under a name, where it tells that.
    ghost holds: { Self → List ℕ → Option (List ℕ) };

    /// How often loads under a name have failed. It stands still at the greatest `u64`.
    ghost faults: { Self → List ℕ → ℕ };

    /// The bytes of the file of this name, of which there are at most `limit`. TooLong is exact: it
    /// comes only where more are held, and a load of such a file can only fail or be refused memory
    /// beside it.
    fn load(&mut self, alloc: Global, name: &str, limit: u64) -> Result<Vec<u8>, LoadFault>
        ensures same { (n : List ℕ) → holds self.new n ≡ holds self.old n }
        ensures later { (n : List ℕ) → faults self.old n ≤ faults self.new n }
        ensures loaded { IfOk result
            (λ v. IfSome (holds self.old name.now) (λ bytes. v.items ≡ bytes)) }
        ensures within { IfOk result (λ v. vec_len v ≤ limit) }
        ensures failed { IsErrOf result LoadFault.Failed
            → Rose (faults self.old name.now) (faults self.new name.now) }
        ensures too_long { IsErrOf result LoadFault.TooLong
            → IfSome (holds self.old name.now) (λ bytes. limit < length bytes) };
}

/// How many bytes a piece has at most that a sink takes by `write_piece`: 64 KiB.
pub const PIECE_ROOM: usize = 65_536;

/// A piece that writes itself, at a place of some bytes.
pub trait Piece {
    /// Its bytes.
    ghost text: { Self → List ℕ };

    /// How many bytes it takes at most.
    ghost most: { Self → ℕ };

    /// What holds of it where it can be written.
    ghost writable: { Self → Type 0 };

    /// How many bytes it takes at most.
    fn most(&self) -> usize
        requires { writable self.now }
        ensures { result ≡ most self.now };

    /// Writes it from a place on, and answers the place behind it. What stands before it stays, and what stands behind
    /// it doesn't matter.
    fn write_at(&self, bytes: &mut [u8], start: usize) -> usize
        requires writable { writable self.now }
        requires room { start + most self.now ≤ length bytes.old }
        ensures end { result ≡ start + length (text self.now) }
        ensures holds { take result bytes.new ≡ take start bytes.old ++ text self.now }
        ensures within { result ≤ start + most self.now };
}

/// What takes bytes, piece by piece.
pub trait Sink {
    /// The bytes that it has taken, where it tells them. A sink may fall silent.
    ghost taken: { Self → Option (List ℕ) };

    /// How often it has failed. It stands still at the greatest `u64`.
    ghost faults: { Self → ℕ };

    /// Takes the whole piece. Where it fails it has taken a prefix of the piece.
    fn write(&mut self, bytes: &[u8]) -> Result<(), Failed>
        ensures all { OnOk result (TakesAll (taken self.old) (taken self.new) bytes.now) }
        ensures part { OnErr result (TakesPrefix (taken self.old) (taken self.new) bytes.now) }
        ensures later { faults self.old ≤ faults self.new }
        ensures failed { OnErr result (Rose (faults self.old) (faults self.new)) };

    /// Takes a piece that writes itself, as `write` takes its bytes. Where the sink has no place of its own for it, the
    /// piece is made in the bytes that are lent. It has at most `PIECE_ROOM` bytes.
    fn write_piece<P: Piece>(&mut self, lent: &mut [u8], piece: &P) -> Result<(), Failed>
        requires writable { P.writable piece.now }
        requires room { P.most piece.now ≤ length lent.old }
        requires few { P.most piece.now ≤ PIECE_ROOM }
        ensures all { OnOk result (TakesAll (taken self.old) (taken self.new) (P.text piece.now)) }
        ensures part { OnErr result (TakesPrefix (taken self.old) (taken self.new) (P.text piece.now)) }
        ensures later { faults self.old ≤ faults self.new }
        ensures failed { OnErr result (Rose (faults self.old) (faults self.new)) }
    {
        let end = piece.write_at(lent, 0);
        self.write(&lent[..end])
    }
}

/// What delays the run, so that it can be watched. It can do nothing else.
pub trait Pace {
    /// Called before each scripted access and each scripted debug read, with the number of its
    /// initiator and its own number there, both from 0.
    fn before(&self, initiator: u32, seq: u64);
}

/// No delay.
#[derive(Clone, Copy, Debug, PartialEq, Eq)]
pub struct NoPace;

impl Pace for NoPace {
    fn before(&self, _initiator: u32, _seq: u64) {}
}
