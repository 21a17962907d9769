//! Laws of the ways of a plan.
ghost use Rattle.plat_net.specs.Laws.{AccessesAreApart, EndsAreStops, ShapesHaveNoCycle};

/// A platform of a good shape has no cycle.
pub fn shapes_have_no_cycle()
    ensures { ShapesHaveNoCycle }
{}

/// Each hop of a way leads to the component where the access comes to.
pub fn ends_are_stops()
    ensures { EndsAreStops }
{}

/// The objects to which an access adds entries have different numbers in the history.
pub fn accesses_are_apart()
    ensures { AccessesAreApart }
{}
