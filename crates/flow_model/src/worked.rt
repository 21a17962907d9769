//! Worked logs, made by hand.
ghost use Rattle.std.specs.Prelude.{◌≡◌, true, false};
ghost use Rattle.tlm_types.specs.declared.words.Phase.TheVariants.{BeginReq, EndReq, BeginResp, EndResp};
ghost use Rattle.tlm_types.specs.declared.words.TlmSync.TheVariants.{Accepted, Updated, Completed};
ghost use Rattle.flow_model.specs.Board.{request_end_after, response_end_after, start};
ghost use Rattle.flow_model.specs.ByRules.{KeepsRules, request_end, response_end};
ghost use Rattle.flow_model.specs.Protocol.{IsExclusive};
ghost use Rattle.flow_model.specs.Worked.{Passes, by_return, crowded, hasty_request, returned, second_request, second_response, slow_response, taking_turns, turns, two_lanes};

/// Three transactions on a hop of two lanes, and the board after each of their calls.
pub fn transactions_take_turns()
    ensures { Passes two_lanes start taking_turns turns }
{}

/// The log of three transactions that take turns keeps the rules; its last request ended at 6 ps, and its last response at 7 ps.
pub fn turns_keep_rules()
    ensures rules { KeepsRules two_lanes taking_turns }
    ensures request { request_end taking_turns ≡ 6 }
    ensures response { response_end taking_turns ≡ 7 }
{}

/// A response that comes with the answer to a request, and a request that finds it open.
pub fn responses_by_return_keep_rules()
    ensures { KeepsRules by_return returned }
{}

/// The greatest time of an ended response is not that of the last one, and a request that is answered
/// otherwise than by ACCEPTED has ended.
pub fn slow_response_is_waited_for()
    ensures rules { KeepsRules by_return slow_response }
    ensures request { request_end slow_response ≡ 3 }
    ensures response { response_end slow_response ≡ 100 }
{}

/// Which calls at 9 ps end a request, where the last one ended at 4 ps.
pub fn calls_end_requests()
    ensures accepted { request_end_after 4 false BeginReq Accepted 9 ≡ 4 }
    ensures by_return { request_end_after 4 false BeginReq (Updated EndReq) 9 ≡ 9 }
    ensures at_once { request_end_after 4 false BeginReq Completed 9 ≡ 9 }
    ensures called { request_end_after 4 true EndReq Accepted 9 ≡ 9 }
    ensures implied { request_end_after 4 true BeginResp Accepted 9 ≡ 9 }
    ensures ended_before { request_end_after 4 false BeginResp Accepted 9 ≡ 4 }
    ensures response_end { request_end_after 4 false EndResp Completed 9 ≡ 4 }
{}

/// Which calls end a response, where the greatest time of those before is 4 ps.
pub fn calls_end_responses()
    ensures request { response_end_after 4 BeginReq Completed 9 ≡ 4 }
    ensures request_end { response_end_after 4 EndReq Accepted 9 ≡ 4 }
    ensures accepted { response_end_after 4 BeginResp Accepted 9 ≡ 4 }
    ensures by_return { response_end_after 4 BeginResp (Updated EndResp) 9 ≡ 9 }
    ensures at_once { response_end_after 4 BeginResp Completed 9 ≡ 9 }
    ensures called { response_end_after 4 EndResp Completed 9 ≡ 9 }
    ensures earlier { response_end_after 4 EndResp Completed 3 ≡ 4 }
{}

/// A request at 3 ps, where the last one ended at 4 ps.
pub fn hasty_request_breaks_rules()
    ensures { ¬ KeepsRules two_lanes hasty_request }
{}

/// A second request while one is open.
pub fn second_request_is_not_exclusive()
    ensures { ¬ IsExclusive 2 second_request }
{}

/// A second response, given with the answer to a request, while one is open.
pub fn second_response_is_not_exclusive()
    ensures { ¬ IsExclusive 2 second_response }
{}

/// Two transactions under way on one lane.
pub fn crowded_lane_is_not_exclusive()
    ensures { ¬ IsExclusive 1 crowded }
{}
