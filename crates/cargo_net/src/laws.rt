//! A law of the ways of accesses.
ghost use Rattle.cargo_net.specs.Forwards.{MemoriesEndWays};

/// Where a hop leads an access to a memory of the plan, its way ends there, and that is its route.
pub fn memories_end_ways()
    ensures { MemoriesEndWays }
{}
