// Which plans the core can run.
ghost use Rattle.std.specs.Prelude.{◌≡◌, ◌↔◌, true, false, All};
ghost use Rattle.std.specs.List.{AllByRecursion};
ghost use Rattle.good_history.specs.GrantLaws.{HasNoInvalidation, IsNoInvalidation};
ghost use Rattle.platform_shape.specs.Shape.{IsBlocking};
ghost use Rattle.traffic_script.specs.declared.piece.Piece.{Piece as PieceView};

use platform_shape::is_blocking;
use route_plan::Plan;
use tlm_model::Operation;
use traffic_script::{Piece, Script};

/// Whether the core can run a plan: all its initiators are blocking, and no script invalidates.
pub fn can_run(plan: &Plan) -> bool
    ensures { (result ≡ true) ↔ (IsBlocking plan.now.platform × HasNoInvalidation plan.now) }
{
    is_blocking(plan.platform()) && are_quiet(plan)
}

// Whether no script of a plan invalidates.
fn are_quiet(plan: &Plan) -> bool
    ensures { (result ≡ true) ↔ HasNoInvalidation plan.now }
{
    for number in 0..plan.platform().initiators.as_slice().len() {
        if !is_quiet(plan.script(number as u32)) {
            return false;
        }
    }
    true
}

// Whether a script doesn't invalidate.
fn is_quiet(script: &Script) -> bool
    ensures { (result ≡ true) ↔ AllByRecursion IsNoInvalidation script.now }
{
    is_quiet_by(script.pieces())
}

// Whether no operation of these pieces is an invalidation.
fn is_quiet_by(pieces: &[Piece]) -> bool
    ensures { (result ≡ true) ↔ All (λ (piece : PieceView). All IsNoInvalidation piece.operations) pieces.now }
{
    pieces
        .iter()
        .all(|piece| has_no_invalidation(piece.operations.as_slice()))
}

fn has_no_invalidation(operations: &[Operation]) -> bool
    ensures { (result ≡ true) ↔ All IsNoInvalidation operations.now }
{
    operations
        .iter()
        .all(|operation| !is_invalidation(operation))
}

fn is_invalidation(operation: &Operation) -> bool
    ensures { (result ≡ false) ↔ IsNoInvalidation operation.now }
{
    matches!(operation, Operation::Invalidate { .. })
}
