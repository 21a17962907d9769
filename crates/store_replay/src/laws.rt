// A law of stores that were made anew.
ghost use Rattle.store_replay.specs.Replay.{StoresFollow};

/// From the opening stores of a platform on, all entries of a history lead to the stores that the history leaves.
pub fn stores_are_those_after()
    ensures { StoresFollow }
{}
