//! Small walks, made by hand.
ghost use Rattle.std.specs.Prelude.{◌≡◌, ◌-◌, ◌^◌, true, false};
ghost use Rattle.tlm_model.specs.Rounds.{next_point};
ghost use Rattle.quantum_keeper.specs.Keeper.{new_keeper, current_time, needs_sync, stepped, synced};

/// Under a quantum of 100 ps seven steps of 30 ps: the first sync is needed at 120 ps.
pub fn first_sync_of_seven_steps()
    ensures point { next_point 100 0 ≡ 100 }
    ensures at_90 { needs_sync (stepped (stepped (stepped (new_keeper 100) 30) 30) 30) ≡ false }
    ensures at_120 { needs_sync (stepped (stepped (stepped (stepped (new_keeper 100) 30) 30) 30) 30) ≡ true }
    ensures synced { synced (stepped (stepped (stepped (stepped (new_keeper 100) 30) 30) 30) 30)
        ≡ record { quantum = 100; last_sync = 120; local = 0 } }
    ensures next { next_point 100 120 ≡ 200 }
{}

/// The second sync is needed at 210 ps.
pub fn second_sync_of_seven_steps()
    ensures at_180 { needs_sync (record { quantum = 100; last_sync = 120; local = 60 }) ≡ false }
    ensures at_210 { needs_sync (record { quantum = 100; last_sync = 120; local = 90 }) ≡ true }
    ensures synced { synced (record { quantum = 100; last_sync = 120; local = 90 })
        ≡ record { quantum = 100; last_sync = 210; local = 0 } }
    ensures next { next_point 100 210 ≡ 300 }
{}

/// A time on the point needs a sync, and the next point is later than a time on a point.
pub fn points_are_reached_by_equality()
    ensures before { needs_sync (stepped (new_keeper 100) 99) ≡ false }
    ensures on { needs_sync (stepped (new_keeper 100) 100) ≡ true }
    ensures later { next_point 100 100 ≡ 200 }
{}

/// A quantum of 0 needs a sync at each test, and its next point is now.
pub fn no_quantum_always_needs_a_sync()
    ensures at_0 { needs_sync (new_keeper 0) ≡ true }
    ensures at_30 { needs_sync (stepped (new_keeper 0) 30) ≡ true }
    ensures next { next_point 0 30 ≡ 30 }
{}

/// At the greatest time the sums stand still, and a sync is needed again at once.
pub fn sums_stand_still_at_the_greatest_time()
    ensures offset { stepped (stepped (new_keeper 100) (2 ^ 64 - 1)) 10 ≡ stepped (new_keeper 100) (2 ^ 64 - 1) }
    ensures current { current_time (record { quantum = 100; last_sync = 2 ^ 64 - 1; local = 10 }) ≡ 2 ^ 64 - 1 }
    ensures next { next_point 100 (2 ^ 64 - 1) ≡ 2 ^ 64 - 1 }
    ensures needed { needs_sync (record { quantum = 100; last_sync = 2 ^ 64 - 1; local = 10 }) ≡ true }
{}
