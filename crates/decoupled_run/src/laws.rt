// What stays as a note learns more.
ghost use Rattle.decoupled_run.specs.More.{JobStays};
ghost use Rattle.decoupled_run.specs.Stepped.{SteppedStays};

/// What an initiator keeps by its note, it keeps by one of the same history that knows and has seen more: others may make
/// entries between two of its own.
pub fn initiators_stay()
    ensures job { JobStays }
    ensures stepped { SteppedStays }
{}
