//! Laws over how initiators end.
ghost use Rattle.report_model.specs.Laws.{EndsByLatencies, EndsByAccesses};

/// How a blocking or direct initiator ends follows from its script and what was refused to it: its end is the sum of its
/// latencies, and each refused request has its local time.
pub fn decoupled_initiators_end_by_latencies()
    ensures { EndsByLatencies }
{}

/// A four-phase initiator has no syncs, ends at the greatest of its current time and the ends of all its accesses, and each refused
/// request has its current time at issue.
pub fn four_phase_initiators_end_by_accesses()
    ensures { EndsByAccesses }
{}
