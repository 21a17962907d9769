//! Reports of four-phase histories. Each function says of a plan, a history and a text, all made by hand, that the text is the
//! report of the history with all its entries.
ghost use Rattle.tlm_types.specs.declared.words.ReqMode.TheVariants as Req;
ghost use Rattle.tlm_types.specs.declared.words.RespMode.TheVariants as Resp;
ghost use Rattle.flow_model.specs.Events.{entries};
ghost use Rattle.report_model.specs.Worked.{HasReport};
ghost use Rattle.flow_check.specs.Reported.{accepting_text, completing_text, overlapping, overlapping_plan, overlapping_text, turned_away, turned_away_plan, turned_away_text};
ghost use Rattle.flow_check.specs.Worked.{accepting, completing, lone};

/// A write with four calls ends with its END_RESP.
pub fn a_write_is_reported()
    ensures { HasReport (lone Req.Accept Resp.Accept) (entries accepting) accepting_text }
{}

/// A write that is completed with its BEGIN_REQ ends after the memory's latency, though no call stands there.
pub fn a_completed_write_is_reported()
    ensures { HasReport (lone Req.Complete Resp.Accept) (entries completing) completing_text }
{}

/// Two writes of 10 ps that are under way at once end at 10, and not at the sum of their latencies.
pub fn writes_that_overlap_are_reported()
    ensures { HasReport overlapping_plan (entries overlapping) overlapping_text }
{}

/// What had no window is told with the time at which it was issued: with the first write, and after a fence.
pub fn refused_writes_are_reported()
    ensures { HasReport turned_away_plan turned_away turned_away_text }
{}
