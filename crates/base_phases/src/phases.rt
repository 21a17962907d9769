// The states of a lane, and the steps between them.
ghost use Rattle.std.specs.Prelude.{◌≡◌};
ghost use Rattle.base_phases.specs.Phases.{next_state};

use tlm_types::{Phase, TlmSync};

/// Where a transaction stands on a hop.
#[derive(Clone, Copy, Debug, PartialEq, Eq)]
pub enum LaneState {
    /// No transaction has begun, or the one that had has ended.
    Free,
    /// The request has begun and not ended.
    Requested,
    /// The request has ended, and the response has not begun.
    Waiting,
    /// The response has begun and not ended.
    Responding,
}

/// The state after a call and its answer, or None where this state does not allow them (clause 15.2).
pub fn may(state: LaneState, call: Phase, answer: TlmSync) -> Option<LaneState>
    ensures { result ≡ next_state state call answer }
{
    use LaneState::{Free, Requested, Responding, Waiting};
    use Phase::{BeginReq, BeginResp, EndReq, EndResp};
    use TlmSync::{Accepted, Completed, Updated};
    match (state, call, answer) {
        (Free, BeginReq, Accepted) => Some(Requested),
        (Free, BeginReq, Updated(EndReq)) => Some(Waiting),
        (Free, BeginReq, Updated(BeginResp)) => Some(Responding),
        (Free, BeginReq, Completed) => Some(Free),
        (Requested, EndReq, Accepted) => Some(Waiting),
        (Requested | Waiting, BeginResp, Accepted) => Some(Responding),
        (Requested | Waiting, BeginResp, Updated(EndResp)) => Some(Free),
        (Requested | Waiting, BeginResp, Completed) => Some(Free),
        (Responding, EndResp, Completed) => Some(Free),
        _ => None,
    }
}
