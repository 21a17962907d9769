//! Worked runs. Each function says of a plan and a history, both made by hand, that the history has the
//! points of requests for the plan, or that it misses one.
ghost use Rattle.std.specs.Prelude.{[]};
ghost use Rattle.tlm_model.specs.Kept.{KeepsRequests, EndsRequests};
ghost use Rattle.tlm_model.specs.Worked.{IsWorked, cut_short, debug_plan, debugged, doubled, empty_plan, enables, enables_plan, fetch_plan, fetched, fetched_by_two, hasty, ignore_plan, ignored, operand_answered, past_end, past_end_plan, quantum_plan, readback, readback_plan, routed, routed_plan, seven_reads, streaming, streaming_plan, sum_plan, summed, swapped, wrong_byte, wrong_status};

/// Four bytes are written and read back.
pub fn reads_back()
    ensures { IsWorked readback_plan readback }
{}

/// An empty script asks for nothing.
pub fn runs_an_empty_script()
    ensures { IsWorked empty_plan [] }
{}

/// A write that goes past the end of the memory is refused, and takes its time.
pub fn refuses_past_the_end()
    ensures { IsWorked past_end_plan past_end }
{}

/// A disabled byte is not written, and the enables repeat.
pub fn writes_enabled_bytes()
    ensures { IsWorked enables_plan enables }
{}

/// Of the bytes that stream to one place the last stays.
pub fn streams()
    ensures { IsWorked streaming_plan streaming }
{}

/// An ignore command is always OK.
pub fn ignores()
    ensures { IsWorked ignore_plan ignored }
{}

/// A debug read takes no time, and moves what there is.
pub fn reads_by_debug_transport()
    ensures { IsWorked debug_plan debugged }
{}

/// `add` and `copy` write what depends on their read.
pub fn adds_and_copies()
    ensures { IsWorked sum_plan summed }
{}

/// `fetch_add` answers what it found and writes the sum in one access, and nothing where it is refused.
pub fn fetches_and_adds()
    ensures { IsWorked fetch_plan fetched }
{}

/// A router adds its latency, and refuses an address without a window.
pub fn passes_a_router()
    ensures { IsWorked routed_plan routed }
{}

/// Under a quantum of 100 ps seven reads of 30 ps sync at 120 ps and at 210 ps.
pub fn syncs_by_the_quantum()
    ensures { IsWorked (quantum_plan 100) seven_reads }
{}

/// Without a quantum each operation is one sync.
pub fn syncs_without_a_quantum()
    ensures { IsWorked (quantum_plan 0) seven_reads }
{}

/// A read of other bytes than the store has is not right.
pub fn wrong_byte_is_not_right()
    ensures { ¬ KeepsRequests readback_plan wrong_byte }
{}

/// A read and a write in the place of a `fetch_add` are not right.
pub fn fetch_add_by_two_entries_is_not_right()
    ensures { ¬ KeepsRequests fetch_plan fetched_by_two }
{}

/// A `fetch_add` that answers its operand in the place of what it found is not right.
pub fn answered_operand_is_not_right()
    ensures { ¬ KeepsRequests fetch_plan operand_answered }
{}

/// A status that the memory does not give is not right.
pub fn wrong_status_is_not_right()
    ensures { ¬ KeepsRequests readback_plan wrong_status }
{}

/// Entries against the order of the script are not right.
pub fn swapped_entries_are_not_right()
    ensures { ¬ KeepsRequests readback_plan swapped }
{}

/// A request that is answered twice is not right.
pub fn doubled_entry_is_not_right()
    ensures { ¬ KeepsRequests readback_plan doubled }
{}

/// A request that is not answered is not right.
pub fn missing_entry_is_not_right()
    ensures { ¬ EndsRequests readback_plan cut_short }
{}

/// An access at another time than its request gives it is not right.
pub fn early_entry_is_not_right()
    ensures { ¬ KeepsRequests readback_plan hasty }
{}
