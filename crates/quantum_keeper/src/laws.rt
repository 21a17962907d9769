//! Laws over the definitions.
ghost use Rattle.quantum_keeper.specs.Laws.{AsksWhereScriptsSync, SyncsAreNotDoubled};
ghost use Rattle.quantum_keeper.specs.Laws.{NextPointIsFirst, NextPointIsLater, NextPointIsMultiple};

/// After an operation that is no sync, a keeper asks for a sync just where the definitions put one.
pub fn keepers_ask_where_scripts_sync()
    ensures { AsksWhereScriptsSync }
{}

/// The next point of a quantum that is not 0 is the first multiple that is later than the time that it
/// is asked for. Where that is beyond the greatest time, it is the greatest time.
pub fn next_point_is_the_first_multiple()
    ensures later { NextPointIsLater }
    ensures multiple { NextPointIsMultiple }
    ensures first { NextPointIsFirst }
{}

/// Under a quantum that is not 0, and before the greatest time, no sync is needed right after a sync.
pub fn syncs_are_not_doubled()
    ensures { SyncsAreNotDoubled }
{}
