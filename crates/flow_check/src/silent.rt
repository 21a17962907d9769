//! What the law asks of a platform where the standard is silent: without it the law is wrong.
ghost use Rattle.std.specs.Prelude.{◌^◌};
ghost use Rattle.flow_model.specs.Events.{entries, numbered};
ghost use Rattle.flow_model.specs.Points.{HasTable, IsTimed};
ghost use Rattle.flow_check.specs.Premises.{HasLogs, four_slots, issued_at, late, late_world, looping, looping_world};

/// Times are at most the greatest `u64`, at which sums stand still: past it a response would be there before its
/// request.
pub fn late_times_miss_their_numbers()
    ensures logs { HasLogs late_world four_slots (issued_at (2 ^ 64)) late }
    ensures wrong { ¬ IsTimed late_world (issued_at (2 ^ 64)) (numbered (entries late)) }
{}

/// No access passes a hop twice: the hop would have two rows of the table.
pub fn looping_way_misses_the_table()
    ensures logs { HasLogs looping_world four_slots (issued_at 0) looping }
    ensures wrong { ¬ HasTable looping_world (entries looping) }
{}
