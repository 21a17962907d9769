//! Laws of what a router holds.
ghost use Rattle.router_node.specs.Laws.{EndedHoldsOn, MoreIsKnown, RoutersKeep};

/// What a router knows of the transactions that it holds stays known while it makes moves for others.
pub fn more_is_known()
    ensures { MoreIsKnown }
{}

/// END_REQ above changes nothing below.
pub fn ended_holds_on()
    ensures { EndedHoldsOn }
{}

/// A router is one by whatever is known besides: others may have moved in between.
pub fn routers_keep()
    ensures { RoutersKeep }
{}
