// Operations that are repeated.
ghost use Rattle.std.specs.Prelude.{◌<◌, length};

use tlm_model::{Operation, Rows};

/// One or more operations that are asked for in order, one or more times.
#[derive(Drop)]
pub struct Piece {
    pub operations: Rows<Operation>,
    pub times: u32,
    ghost filled: { 0 < length operations },
    ghost repeated: { 0 < times },
}
