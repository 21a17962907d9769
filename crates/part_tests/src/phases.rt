// The calls of the base protocol on a lane.
use base_phases::{LaneState, may};
use tlm_types::{Phase, TlmSync};

const FREE: Option<LaneState> = Some(LaneState::Free);

const REQUESTED: Option<LaneState> = Some(LaneState::Requested);

const WAITING: Option<LaneState> = Some(LaneState::Waiting);

const RESPONDING: Option<LaneState> = Some(LaneState::Responding);

// A call's six answers: ACCEPTED, UPDATED with each phase in order, COMPLETED.
static ANSWERS: [TlmSync; 6] = [
    TlmSync::Accepted,
    TlmSync::Updated(Phase::BeginReq),
    TlmSync::Updated(Phase::EndReq),
    TlmSync::Updated(Phase::BeginResp),
    TlmSync::Updated(Phase::EndResp),
    TlmSync::Completed,
];

// The state of a lane, a call there, and the state after each of its answers, where there is one.
type Row = (LaneState, Phase, [Option<LaneState>; 6]);

const ROWS: [Row; 6] = [
    (
        LaneState::Free,
        Phase::BeginReq,
        [REQUESTED, None, WAITING, RESPONDING, None, FREE],
    ),
    (
        LaneState::Requested,
        Phase::EndReq,
        [WAITING, None, None, None, None, None],
    ),
    (
        LaneState::Requested,
        Phase::BeginResp,
        [RESPONDING, None, None, None, FREE, FREE],
    ),
    (
        LaneState::Waiting,
        Phase::BeginResp,
        [RESPONDING, None, None, None, FREE, FREE],
    ),
    (
        LaneState::Responding,
        Phase::EndResp,
        [None, None, None, None, None, FREE],
    ),
    (LaneState::Waiting, Phase::EndReq, [None; 6]),
];

// Whether each answer leads to the state of the row.
fn leads_on(row: &Row) -> bool {
    let (state, call, next) = row;
    for k in 0..6 {
        if may(*state, *call, ANSWERS[k]) != next[k] {
            return false;
        }
    }
    true
}

#[test]
fn states_allow_their_calls_and_answers(rt: HostRuntime) {
    let rows = ROWS;
    for place in 0..rows.len() {
        assert!(rt; leads_on(&rows[place]), "at {place}");
    }
}
