// A hop by itself: its calls one after another.
use crate::hop_steps::{Bench, Step, Told};
use tlm_types::{ReqMode, RespMode};

// Transaction 0 holds the request, then transaction 1, whose response implies its end. Transaction 2
// waits for a lane, and the response of transaction 0 for the end of the other.
static ROW: [(Step, Told); 14] = [
    (Step::BeginReq(0, 0), ("accepted", 0, 0)),
    (Step::BeginReq(1, 0), ("held", 0, 1)),
    (Step::FetchDown, ("requested", 0, 0)),
    (Step::EndReq(0, 4), ("ended", 0, 4)),
    (Step::BeginReq(1, 0), ("accepted", 1, 4)),
    (Step::BeginReq(2, 9), ("held", 1, 2)),
    (Step::FetchDown, ("requested", 1, 4)),
    (Step::BeginResp(1, 6), ("accepted", 1, 6)),
    (Step::BeginResp(0, 5), ("held", 1, 0)),
    (Step::BeginReq(2, 5), ("full", 2, 2)),
    (Step::FetchUp, ("owed", 1, 6)),
    (Step::EndResp(1, 7), ("ended", 1, 7)),
    (Step::BeginReq(2, 5), ("accepted", 2, 6)),
    (Step::BeginResp(0, 5), ("accepted", 0, 7)),
];

#[test]
fn two_lanes_take_turns(rt: HostRuntime) {
    let mut bench = Bench::new(&rt, rt.alloc(), 2, ReqMode::Accept, RespMode::Accept);
    for (step, told) in &ROW {
        assert!(rt; bench.ask(&rt, step) == *told, "not {told:?}");
    }
}
