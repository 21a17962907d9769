//! Small walks, made by hand.
ghost use Rattle.std.specs.Prelude.{◌≡◌, [], ◌∷◌, Some, None};
ghost use Rattle.tlm_types.specs.declared.words.Phase.TheVariants.{BeginReq, EndReq, BeginResp, EndResp};
ghost use Rattle.tlm_types.specs.declared.words.TlmSync.TheVariants.{Accepted, Updated, Completed};
ghost use Rattle.base_phases.specs.declared.phases.LaneState.TheVariants.{Free, Requested, Waiting, Responding};
ghost use Rattle.base_phases.specs.Walks.{state_after};

/// Four calls, each with its own phase.
pub fn four_calls_make_a_round()
    ensures requested { state_after ((BeginReq, Accepted) ∷ []) ≡ Some Requested }
    ensures waiting { state_after ((BeginReq, Accepted) ∷ (EndReq, Accepted) ∷ []) ≡ Some Waiting }
    ensures responding { state_after ((BeginReq, Accepted) ∷ (EndReq, Accepted) ∷ (BeginResp, Accepted) ∷ []) ≡ Some Responding }
    ensures free { state_after ((BeginReq, Accepted) ∷ (EndReq, Accepted) ∷ (BeginResp, Accepted) ∷ (EndResp, Completed) ∷ []) ≡ Some Free }
{}

/// A response that comes with the answer to the request, and one that ends a request which is open.
pub fn responses_may_come_early()
    ensures by_return { state_after ((BeginReq, Updated BeginResp) ∷ []) ≡ Some Responding }
    ensures implied { state_after ((BeginReq, Accepted) ∷ (BeginResp, Accepted) ∷ []) ≡ Some Responding }
    ensures at_once { state_after ((BeginReq, Completed) ∷ []) ≡ Some Free }
{}

/// Calls out of phase.
pub fn calls_out_of_phase_are_no_walk()
    ensures second_request { state_after ((BeginReq, Accepted) ∷ (BeginReq, Accepted) ∷ []) ≡ None }
    ensures response_first { state_after ((BeginResp, Accepted) ∷ []) ≡ None }
    ensures request_ends_twice { state_after ((BeginReq, Updated EndReq) ∷ (EndReq, Accepted) ∷ []) ≡ None }
    ensures open_end { state_after ((BeginReq, Updated BeginResp) ∷ (EndResp, Accepted) ∷ []) ≡ None }
{}
