// The calls of a transaction on a hop, and the times of responses.
use flow_check::checks::{
    begins_row, is_whole, may_end_below, response_end, response_time, row_of, up_time,
};
use tlm_types::{Entry, ObjectNo, Phase, ReqMode, RespMode, TlmSync, TxnId, What};

static ENDED: [(Phase, TlmSync); 2] = [
    (Phase::BeginReq, TlmSync::Updated(Phase::BeginResp)),
    (Phase::EndResp, TlmSync::Completed),
];

#[test]
fn calls_are_held_against_their_rows(rt: HostRuntime) {
    assert!(rt; begins_row(ReqMode::BeginResp, RespMode::Complete, &ENDED));
    assert!(rt; !begins_row(ReqMode::Accept, RespMode::Accept, &ENDED));
    assert!(rt; is_whole(&ENDED));
}

#[test]
fn routers_end_responses_in_turn(rt: HostRuntime) {
    assert!(rt; !may_end_below(&[(Phase::BeginReq, TlmSync::Accepted)]));
    assert!(rt; row_of(ReqMode::Accept, true) == ReqMode::Short);
}

#[test]
fn responses_wait_for_the_greatest_end(rt: HostRuntime) {
    assert!(rt; up_time(5, 10) == 15 && up_time(u64::MAX, 10) == u64::MAX);
    assert!(rt; response_time(15, 5, 100) == 100);
}

fn end_of_response(seq: u64, time: u64) -> Entry {
    Entry {
        position: seq,
        object: ObjectNo::Hop(0),
        txn: TxnId { initiator: 0, seq },
        time,
        what: What::Call {
            phase: Phase::EndResp,
            answer: TlmSync::Completed,
        },
    }
}

#[test]
fn greatest_end_is_not_the_last(rt: HostRuntime) {
    let log = [end_of_response(0, 100), end_of_response(1, 5)];
    assert!(rt; response_end(&log) == 100);
}
