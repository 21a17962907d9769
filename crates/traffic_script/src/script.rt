// A script.
use crate::piece::Piece;
use std::alloc::Global;
use std::marker::Model;
use std::sync::Arc;
use tlm_model::Operation;
use tlm_types::Memory;

/// The operations that an initiator is asked for, in order, which contracts see as a list. Memory is
/// taken for the text's lines, not for each round of a repeat; copies share it, also between threads.
pub struct Script {
    pieces: Arc<Vec<Piece>, Global>,
    count: u64,
}

// Written out, so that crates above call it and needn't prove again how each part is let go of.
impl Drop for Script {
    fn drop(self) {
        let Script {
            pieces: _pieces,
            count: _,
        } = self;
    }
}

impl Model for Script {
    ghost use Rattle.std.specs.Prelude.{◌≡◌, List, length};
    ghost use Rattle.tlm_model.specs.declared.operation.Operation.{Operation};

    ghost Value = { List Operation };

    ghost use Rattle.std.specs.Arc.{arc_value};
    ghost use Rattle.traffic_script.specs.Pieces.{written_out};
    ghost use Rattle.traffic_script.specs.Proper.{IsCounted};

    ghost view = { λ s. written_out (arc_value s.pieces).items };

    ghost invariant = { λ s. IsCounted s.count (written_out (arc_value s.pieces).items) };
}

impl Script {
    ghost use Rattle.std.specs.Prelude.{◌≡◌, ◌==◌, length, IfOk};
    ghost use Rattle.std.specs.Arc.{arc_value};
    ghost use Rattle.traffic_script.specs.Pieces.{written_out};
    ghost use Rattle.traffic_script.specs.Proper.{AreProper, IsCounted};

    /// The script of some pieces with their number of operations.
    pub(crate) fn of_pieces(alloc: Global, pieces: Vec<Piece>, count: u64) -> Result<Script, Memory>
        requires { IsCounted count (written_out pieces.items) }
        ensures { IfOk result (λ script. script ≡ written_out pieces.items) }
    {
        let pieces = Arc::new(alloc, pieces)?;
        Ok(Script { pieces, count })
    }

    /// The pieces that make up the script.
    pub fn pieces(&self) -> &[Piece]
        ensures written { written_out result.now ≡ self.now }
        ensures proper { AreProper self.now }
    {
        self.pieces.as_slice()
    }

    /// The pieces that make up the script, which isn't used any more. Copies of it may share them.
    pub(crate) fn into_pieces(self) -> Arc<Vec<Piece>, Global>
        ensures written { written_out (arc_value result).items ≡ self }
        ensures proper { AreProper self }
    {
        let Script { pieces, count: _ } = self;
        pieces
    }

    /// The number of operations, with each round of a repeat counted: at most 100,000.
    pub fn len(&self) -> u64
        ensures counted { result ≡ length self.now }
        ensures proper { AreProper self.now }
    {
        self.count
    }

    pub fn is_empty(&self) -> bool
        ensures { result ≡ (length self.now == 0) }
    {
        self.count == 0
    }

    /// A script of the same operations, which both share, so that none of them is copied. Its only error
    /// is want of memory, where no more owners can be counted.
    pub fn copy(&self, _alloc: Global) -> Result<Script, Memory>
        ensures same { IfOk result (λ script. script ≡ self.now) }
        ensures proper { AreProper self.now }
    {
        let pieces = Arc::try_clone(&self.pieces)?;
        Ok(Script {
            pieces,
            count: self.count,
        })
    }
}
