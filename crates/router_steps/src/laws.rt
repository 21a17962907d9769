//! Laws of a router that is stepped.
ghost use Rattle.router_steps.specs.Laws.{SteppedRoutersKeep};

/// A router is one between two steps, with what is due, by whatever is known besides: others may have moved in between.
pub fn stepped_routers_keep()
    ensures { SteppedRoutersKeep }
{}
