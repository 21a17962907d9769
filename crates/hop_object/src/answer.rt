// What the modes of a hop's two ends answer, and what a call ends.
ghost use Rattle.std.specs.Prelude.{◌≡◌, false};
ghost use Rattle.tlm_types.specs.declared.words.Phase.TheVariants.{BeginReq, BeginResp};
ghost use Rattle.flow_model.specs.Answers.{is_requested, is_responding, request_answer, response_answer};
ghost use Rattle.flow_model.specs.Board.{request_end_after, response_end_after};
ghost use Rattle.flow_model.specs.Marked.{mark_of};
ghost use Rattle.hop_object.specs.States.{number_of_state, state_by, is_down};

use base_phases::LaneState;
use tlm_types::{Phase, Ps, ReqMode, RespMode, TlmSync};

pub(crate) fn number_of(state: LaneState) -> u32
    ensures { result ≡ number_of_state state }
{
    match state {
        LaneState::Free => 0,
        LaneState::Requested => 1,
        LaneState::Waiting => 2,
        LaneState::Responding => 3,
    }
}

pub(crate) fn requested(state: LaneState) -> bool
    ensures { result ≡ is_requested state }
{
    matches!(state, LaneState::Requested)
}

// The mark of a BEGIN_RESP on a lane of this state.
pub(crate) fn mark_of(state: LaneState) -> u8
    ensures { result ≡ mark_of state }
{
    if requested(state) { 1 } else { 0 }
}

pub(crate) fn responding(state: LaneState) -> bool
    ensures { result ≡ is_responding state }
{
    matches!(state, LaneState::Responding)
}

pub(crate) fn down(state: LaneState) -> bool
    ensures { result ≡ is_down state }
{
    matches!(state, LaneState::Requested | LaneState::Waiting)
}

pub(crate) fn request_answer(mode: ReqMode, open_response: bool) -> TlmSync
    ensures { result ≡ request_answer mode open_response }
{
    match mode {
        ReqMode::Accept | ReqMode::Short => TlmSync::Accepted,
        ReqMode::EndReq => TlmSync::Updated(Phase::EndReq),
        ReqMode::BeginResp => {
            if open_response {
                TlmSync::Updated(Phase::EndReq)
            } else {
                TlmSync::Updated(Phase::BeginResp)
            }
        }
        ReqMode::Complete => TlmSync::Completed,
    }
}

pub(crate) fn response_answer(mode: RespMode) -> TlmSync
    ensures { result ≡ response_answer mode }
{
    match mode {
        RespMode::Accept => TlmSync::Accepted,
        RespMode::EndResp => TlmSync::Updated(Phase::EndResp),
        RespMode::Complete => TlmSync::Completed,
    }
}

// The state after a BEGIN_RESP with this answer.
pub(crate) fn state_by(answer: TlmSync) -> LaneState
    ensures { result ≡ state_by answer }
{
    match answer {
        TlmSync::Accepted => LaneState::Responding,
        _ => LaneState::Free,
    }
}

// The time of the last end of a request, after a BEGIN_REQ with this answer.
pub(crate) fn request_end_begun(old: Ps, answer: TlmSync, time: Ps) -> Ps
    ensures { result ≡ request_end_after old false BeginReq answer time }
{
    match answer {
        TlmSync::Accepted => old,
        _ => time,
    }
}

// The same, after a BEGIN_RESP on a lane of this state.
pub(crate) fn request_end_responded(old: Ps, state: LaneState, answer: TlmSync, time: Ps) -> Ps
    ensures { result ≡ request_end_after old (is_requested state) BeginResp answer time }
{
    if requested(state) { time } else { old }
}

// The greatest time of an end of a response, after a BEGIN_RESP with this answer.
pub(crate) fn response_end_responded(old: Ps, answer: TlmSync, time: Ps) -> Ps
    ensures { result ≡ response_end_after old BeginResp answer time }
{
    match answer {
        TlmSync::Accepted => old,
        _ => old.max(time),
    }
}
