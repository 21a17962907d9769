// That the records of the end of a run can be met.
ghost use Rattle.part_tests.specs.Worked.{CompletingHasEnded};

/// A run by hand leaves all that the law of ended runs wants: one access, which its memory completes with its answer.
pub fn a_completed_access_has_ended()
    ensures { CompletingHasEnded }
{}
