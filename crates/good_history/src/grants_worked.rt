//! Runs of a direct initiator, made by hand.
ghost use Rattle.good_history.specs.GrantsWorked.{EachEndCounts, EachPointCounts, IsDirectRun, revoked, revoked_plan, revoked_text, spent, spent_plan, spent_text, windowed, windowed_plan, windowed_text};

/// An invalidation ends the grant that it overlaps, and the initiator gets another.
pub fn invalidation_ends_a_grant()
    ensures { IsDirectRun revoked_plan revoked revoked_text }
{}

/// A grant serves the addresses of a router's window.
pub fn grant_serves_a_window()
    ensures { IsDirectRun windowed_plan windowed windowed_text }
{}

/// Once its one gate is closed a memory gives none, and each access of its initiator is blocking.
pub fn closed_gate_is_not_given_again()
    ensures { IsDirectRun spent_plan spent spent_text }
{}

/// For each point there is a history that misses it alone.
pub fn each_point_counts()
    ensures { EachPointCounts }
{}

/// Histories that miss the points of the end alone.
pub fn each_end_counts()
    ensures { EachEndCounts }
{}
