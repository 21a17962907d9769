//! Reports of worked runs. Each function says of a plan, a history and a text, all made by hand, that the text is the report of the
//! history with all its entries.
ghost use Rattle.std.specs.Prelude.{[], codes};
ghost use Rattle.tlm_model.specs.Worked.{debug_plan, debugged, empty_plan, enables, enables_plan, ignore_plan, ignored, past_end, past_end_plan, quantum_plan, readback, readback_plan, routed, routed_plan, seven_reads, streaming, streaming_plan, sum_plan, summed};
ghost use Rattle.report_model.specs.Worked.{HasReport, debug_text, empty_text, enables_text, ignore_text, past_end_text, readback_text, routed_text, seven_reads_text, streaming_text, sum_text};

/// Four bytes are written and read back.
pub fn reads_back()
    ensures { HasReport readback_plan readback readback_text }
{}

/// An empty script asks for nothing.
pub fn runs_an_empty_script()
    ensures { HasReport empty_plan [] empty_text }
{}

/// A write that goes past the end of the memory is refused, and takes its time.
pub fn refuses_past_the_end()
    ensures { HasReport past_end_plan past_end past_end_text }
{}

/// A disabled byte is not written, and the enables repeat.
pub fn writes_enabled_bytes()
    ensures { HasReport enables_plan enables enables_text }
{}

/// Of the bytes that stream to one place the last stays.
pub fn streams()
    ensures { HasReport streaming_plan streaming streaming_text }
{}

/// An ignore command is always OK.
pub fn ignores()
    ensures { HasReport ignore_plan ignored ignore_text }
{}

/// A debug read takes no time, and moves what there is.
pub fn reads_by_debug_transport()
    ensures { HasReport debug_plan debugged debug_text }
{}

/// `add` and `copy` write what depends on their read.
pub fn adds_and_copies()
    ensures { HasReport sum_plan summed sum_text }
{}

/// A router adds its latency, and refuses an address without a window.
pub fn passes_a_router()
    ensures { HasReport routed_plan routed routed_text }
{}

/// Under a quantum of 100 ps seven reads of 30 ps sync at 120 ps and at 210 ps.
pub fn syncs_by_the_quantum()
    ensures { HasReport (quantum_plan 100) seven_reads (seven_reads_text (codes "2")) }
{}

/// Without a quantum each operation is one sync.
pub fn syncs_without_a_quantum()
    ensures { HasReport (quantum_plan 0) seven_reads (seven_reads_text (codes "7")) }
{}
