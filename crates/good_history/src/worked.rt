//! The runs that were made by hand, by the whole definitions.
ghost use Rattle.good_history.specs.Worked.{GrantsCount, WorkedAreGood, WrongAreNotGood};

/// The history of each worked run is good.
pub fn worked_runs_are_good()
    ensures { WorkedAreGood }
{}

/// No history that misses a point is good.
pub fn wrong_histories_are_not_good()
    ensures { WrongAreNotGood }
{}

/// No history that misses a point of grants is sound, and none that misses one of the end is good.
pub fn histories_without_their_grants_are_not_good()
    ensures { GrantsCount }
{}
