//! Wrong histories: each misses the point that is named.
ghost use Rattle.tlm_types.specs.declared.words.ReqMode.TheVariants as Req;
ghost use Rattle.tlm_types.specs.declared.words.RespMode.TheVariants as Resp;
ghost use Rattle.flow_model.specs.Events.{entries};
ghost use Rattle.tlm_model.specs.Kept.{KeepsRequests};
ghost use Rattle.flow_model.specs.Plans.{HasBackedTraffic};
ghost use Rattle.good_history.specs.Good.{IsGood, IsSound};
ghost use Rattle.flow_model.specs.Traffic.{FollowsPhases, HasFreedPayloads, HasPhaseTimes, HasWholeSequences, IsExclusive, KeepsPools, PassesHops};
ghost use Rattle.flow_check.specs.Worked.{debug_plan, early_access, ended_below_first, fenced_plan, freed_twice, hasty_response, kept, late_debug, lone, miswritten, request_doubled, request_unended, routed_plan, unended, unfenced, unreferenced, unreleased, wrongly_answered};

/// The access stands before its BEGIN_REQ.
pub fn early_access_misses_its_order()
    ensures { ¬ PassesHops (lone Req.Accept Resp.Accept) (entries early_access) }
{}

/// A BEGIN_REQ without a reference.
pub fn unreferenced_request_misses_its_order()
    ensures { ¬ PassesHops (lone Req.Accept Resp.Accept) (entries unreferenced) }
{}

/// The END_RESP below a router stands before the one above.
pub fn early_end_below_misses_its_turn()
    ensures { ¬ PassesHops routed_plan (entries ended_below_first) }
{}

/// The END_REQ of a memory that accepts is left out.
pub fn missing_end_req_misses_the_table()
    ensures { ¬ FollowsPhases (lone Req.Accept Resp.Accept) (entries request_unended) }
{}

/// A BEGIN_REQ is answered as by another memory.
pub fn wrong_answer_misses_the_modes()
    ensures { ¬ FollowsPhases (lone Req.Accept Resp.Accept) (entries wrongly_answered) }
{}

/// A BEGIN_REQ stands twice.
pub fn doubled_request_is_not_exclusive()
    ensures { ¬ IsExclusive (lone Req.Accept Resp.Accept) (entries request_doubled) }
{}

/// A payload is freed twice.
pub fn freed_payload_is_not_live()
    ensures { ¬ KeepsPools (lone Req.Accept Resp.Accept) (entries freed_twice) }
{}

/// The last Release of a payload does not free it.
pub fn last_release_frees()
    ensures { ¬ KeepsPools (lone Req.Accept Resp.Accept) (entries kept) }
{}

/// A response that stands 1 ps before the memory can have it.
pub fn hasty_response_misses_its_time()
    ensures { ¬ HasPhaseTimes (lone Req.Accept Resp.Accept) (entries hasty_response) }
{}

/// An access that stops before its END_RESP.
pub fn unended_access_is_not_whole()
    ensures sequence { ¬ HasWholeSequences (lone Req.Accept Resp.Accept) (entries unended) }
    ensures payload { ¬ HasFreedPayloads (lone Req.Accept Resp.Accept) (entries unended) }
{}

/// An access whose last Release is left out: the history is right as far as it has come, and isn't good.
pub fn unreleased_access_is_not_good()
    ensures sound { IsSound (lone Req.Accept Resp.Accept) (entries unreleased) }
    ensures wrong { ¬ IsGood (lone Req.Accept Resp.Accept) (entries unreleased) }
{}

/// An access that writes another byte than its request.
pub fn wrong_byte_is_not_good()
    ensures { ¬ IsGood (lone Req.Accept Resp.Accept) (entries miswritten) }
{}

/// A debug read that stands after the current time of its initiator: no other point tells.
pub fn late_debug_misses_its_time()
    ensures requests { KeepsRequests debug_plan (entries late_debug) }
    ensures backed { HasBackedTraffic debug_plan (entries late_debug) }
    ensures wrong { ¬ HasPhaseTimes debug_plan (entries late_debug) }
{}

/// A write after a fence that doesn't wait for the one before: no other point tells.
pub fn unfenced_write_misses_its_turn()
    ensures requests { KeepsRequests fenced_plan (entries unfenced) }
    ensures backed { HasBackedTraffic fenced_plan (entries unfenced) }
    ensures wrong { ¬ HasPhaseTimes fenced_plan (entries unfenced) }
{}
