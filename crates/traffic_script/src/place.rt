// A place in the pieces of a script.
ghost use Rattle.std.specs.Prelude.{◌≡◌, ◌<◌, length, drop, slice_get};
ghost use Rattle.std.specs.Option.{option_copied};
ghost use Rattle.traffic_script.specs.Pieces.{written_out};
ghost use Rattle.traffic_script.specs.Progress.{left_from, IsWithin};

use crate::piece::Piece;
use tlm_model::Operation;

/// An operation of a piece, with so many rounds of that piece after this one.
#[derive(Clone, Copy)]
pub struct ScriptPlace {
    pub piece: usize,
    pub operation: usize,
    pub rounds: u32,
}

/// The operation at a place.
pub fn operation_at(pieces: &[Piece], at: ScriptPlace) -> Option<&Operation>
    requires { IsWithin at pieces.now }
    ensures { option_copied result ≡ slice_get (left_from at pieces.now) 0 }
{
    let piece = pieces.get(at.piece)?;
    piece.operations.as_slice().get(at.operation)
}

/// The first operation of a piece.
pub fn first_place(pieces: &[Piece], piece: usize) -> ScriptPlace
    ensures within { IsWithin result pieces.now }
    ensures rest { left_from result pieces.now ≡ written_out (drop piece pieces.now) }
{
    let rounds = match pieces.get(piece) {
        Some(first) => first.times - 1,
        None => 0,
    };
    ScriptPlace {
        piece,
        operation: 0,
        rounds,
    }
}

/// The operation after this one.
pub fn next_place(pieces: &[Piece], at: ScriptPlace) -> ScriptPlace
    requires there { at.piece < length pieces.now }
    requires within { IsWithin at pieces.now }
    ensures within { IsWithin result pieces.now }
    ensures rest { left_from result pieces.now ≡ drop 1 (left_from at pieces.now) }
{
    let operations = pieces[at.piece].operations.as_slice();
    if at.operation + 1 < operations.len() {
        return ScriptPlace {
            piece: at.piece,
            operation: at.operation + 1,
            rounds: at.rounds,
        };
    }
    if at.rounds > 0 {
        return ScriptPlace {
            piece: at.piece,
            operation: 0,
            rounds: at.rounds - 1,
        };
    }
    first_place(pieces, at.piece + 1)
}
