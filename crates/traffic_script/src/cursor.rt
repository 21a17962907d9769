// A script that is walked through.
ghost use Rattle.std.specs.Prelude.{◌≡◌, slice_get, IfSome};
ghost use Rattle.std.specs.Option.{option_copied};
ghost use Rattle.traffic_script.specs.Progress.{Progress, advanced, IsProperProgress};
ghost use Rattle.traffic_script.specs.Proper.{AreProper, IsProper};

use crate::piece::Piece;
use crate::place::{ScriptPlace, first_place, next_place, operation_at};
use crate::script::Script;
use std::alloc::Global;
use std::marker::Model;
use std::sync::Arc;
use tlm_model::Operation;

/// A script with the number of its operations that are done. Each step takes constant time.
#[derive(Drop)]
pub struct Cursor {
    pieces: Arc<Vec<Piece>, Global>,
    place: ScriptPlace,
    count: u64,
    done: u64,
}

impl Model for Cursor {
    ghost use Rattle.std.specs.Arc.{arc_value};
    ghost use Rattle.traffic_script.specs.Pieces.{written_out};
    ghost use Rattle.traffic_script.specs.Progress.{Progress, IsReached};

    ghost Value = { Progress };

    ghost view = { λ c. record { operations = written_out (arc_value c.pieces).items; done = c.done } };

    ghost invariant = { λ c. IsReached (arc_value c.pieces).items c.place c.count c.done };
}

impl Cursor {
    /// A script of which nothing is done.
    pub fn new(script: Script) -> Cursor
        ensures begun { result ≡ record { operations = script; done = 0 } }
        ensures proper { AreProper script }
    {
        let count = script.len();
        let pieces = script.into_pieces();
        let place = first_place(pieces.as_slice(), 0);
        Cursor {
            pieces,
            place,
            count,
            done: 0,
        }
    }

    /// The operation that is to be done next; none where all are done.
    pub fn current(&self) -> Option<&Operation>
        ensures next { option_copied result ≡ slice_get self.now.operations self.now.done }
        ensures asked { IfSome result (λ operation. IsProper operation.now) }
        ensures proper { IsProperProgress self.now }
    {
        operation_at(self.pieces.as_slice(), self.place)
    }

    /// One more operation is done, where one is left.
    pub fn advance(&mut self)
        ensures { self.new ≡ advanced self.old }
    {
        if self.done < self.count {
            self.place = next_place(self.pieces.as_slice(), self.place);
            self.done += 1;
        }
    }
}
