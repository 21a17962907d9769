//! A law of what a memory keeps.
ghost use Rattle.target_node.specs.Laws.{MoreIsKnown};

/// What a memory keeps by what is known it keeps while others move.
pub fn more_is_known()
    ensures { MoreIsKnown }
{}
