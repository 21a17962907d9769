// Runs by a schedule, compared with rows that were made by hand.
use crate::bench::plan_of;
use entry_log::Log;
use plat_core::{run_net_in_order, run_schedule};
use route_plan::Plan;
use run_outcome::Outcome;
use std::alloc::Global;
use std::process::Abort;
use std::sync::Wait;
use tlm_types::{Facts, ObjectNo, Phase, TlmSync, Way, What};

/// An entry: what it was, the number of its memory, hop or pool, the gate or the slot that it names, or 0, its initiator, its
/// number there, and its time in picoseconds.
pub(crate) type Row = (&'static str, u32, u32, u32, u64, u64);

/// How an initiator ended: its transactions, its syncs, its end time, and how many of its requests were refused.
pub(crate) type End = (u64, u64, u64, u32);

// A call and its answer, as a report has them.
fn call_text(phase: Phase, answer: TlmSync) -> &'static str {
    match (phase, answer) {
        (Phase::BeginReq, TlmSync::Accepted) => "BEGIN_REQ ACCEPTED",
        (Phase::BeginReq, TlmSync::Updated(Phase::EndReq)) => "BEGIN_REQ UPDATED END_REQ",
        (Phase::BeginReq, TlmSync::Updated(Phase::BeginResp)) => "BEGIN_REQ UPDATED BEGIN_RESP",
        (Phase::BeginReq, TlmSync::Completed) => "BEGIN_REQ COMPLETED",
        (Phase::EndReq, TlmSync::Accepted) => "END_REQ ACCEPTED",
        (Phase::BeginResp, TlmSync::Accepted) => "BEGIN_RESP ACCEPTED",
        (Phase::BeginResp, TlmSync::Updated(Phase::EndResp)) => "BEGIN_RESP UPDATED END_RESP",
        (Phase::BeginResp, TlmSync::Completed) => "BEGIN_RESP COMPLETED",
        (Phase::EndResp, TlmSync::Completed) => "END_RESP COMPLETED",
        _ => "none of the base protocol's",
    }
}

// What an entry was, and the gate or slot that it names.
fn event_of(what: What) -> (&'static str, u32) {
    match what {
        What::Granted { gate, .. } => ("granted", gate),
        What::Invalidated { .. } => ("invalidated", 0),
        What::Closed { gate } => ("closed", gate),
        What::Call { phase, answer } => (call_text(phase, answer), 0),
        What::Take { slot } => ("take", slot),
        What::Acquire { slot } => ("acquire", slot),
        What::Release { slot, freed } => (if freed { "freed" } else { "release" }, slot),
        What::Access { .. } => ("access", 0),
    }
}

// The way of an access, and the gate that it names.
fn way_of(facts: Facts) -> (&'static str, u32) {
    match facts.way {
        Way::Blocking => ("blocking", 0),
        Way::FourPhase => ("fourphase", 0),
        Way::Direct(gate) => ("direct", gate),
        Way::Debug => ("debug", 0),
    }
}

fn number_of(object: ObjectNo) -> u32 {
    match object {
        ObjectNo::Memory(number) | ObjectNo::Hop(number) | ObjectNo::Pool(number) => number,
    }
}

// The entry of a log at this index.
fn row_at(rt: &impl Abort, log: &Log, index: u64) -> Row {
    assert!(rt; log.is_whole() && index < log.len());
    let head = log.head(index);
    let (kind, named) = match log.facts(index) {
        Some(facts) => way_of(facts),
        None => event_of(log.what(index).expect(rt, "an event")),
    };
    let object = number_of(head.object);
    (
        kind,
        object,
        named,
        head.txn.initiator,
        head.txn.seq,
        head.time,
    )
}

// The history has just these entries.
fn expect_rows(rt: &impl Abort, alloc: Global, outcome: &Outcome, rows: &[Row]) {
    assert!(rt; outcome.history.len() == rows.len() as u64);
    assert!(rt; outcome.history.is_whole());
    let mut reader = outcome.history.reader(alloc).expect(rt, "a reader");
    for (position, row) in rows.iter().enumerate() {
        assert!(rt; (position as u64) < reader.len());
        let (log, index) = reader.at(position as u64);
        assert!(rt; row_at(rt, log, index) == *row, "at {position}");
    }
}

// Each initiator has ended so.
fn expect_ends(rt: &impl Abort, outcome: &Outcome, want: &[End]) {
    let ends = outcome.ends.as_slice();
    assert!(rt; ends.len() == want.len());
    for (end, row) in ends.iter().zip(want.iter()) {
        let found = (end.transactions, end.syncs, end.end, end.refused.len());
        assert!(rt; found == *row);
    }
}

// The only memory has these bytes from this offset on, none of which is 0, and zeros beside them.
fn expect_bytes(rt: &impl Abort, outcome: &Outcome, offset: usize, want: &[u8]) {
    let [store] = outcome.stores.as_slice() else {
        panic!(rt; "not one memory");
    };
    let bytes = store.as_slice();
    assert!(rt; offset <= bytes.len());
    assert!(rt; bytes[offset..].starts_with(want));
    let set = bytes.iter().filter(|byte| **byte != 0).count();
    assert!(rt; set == want.len());
}

/// A plan that is run by schedules.
#[derive(Drop)]
pub(crate) struct Bench<'a, R> {
    rt: &'a R,
    alloc: Global,
    plan: Plan,
}

impl<'a, R: Abort + Wait> Bench<'a, R> {
    /// The plan of this platform with these scripts, one for each initiator.
    pub(crate) fn new(rt: &'a R, alloc: Global, platform: &str, scripts: &[&str]) -> Bench<'a, R> {
        let plan = plan_of(alloc, platform, scripts).expect(rt, "a plan");
        Bench { rt, alloc, plan }
    }

    /// By this schedule the history is just these entries, and it is complete or not.
    pub(crate) fn expect(&self, schedule: &[u32], rows: &[Row], complete: bool) -> Outcome {
        let rt = self.rt;
        let outcome = run_schedule(rt, self.alloc, &self.plan, schedule).expect(rt, "a run");
        assert!(rt; outcome.complete == complete);
        expect_rows(rt, self.alloc, &outcome, rows);
        outcome
    }

    /// By this schedule, which leaves initiators on their way, the history is just these entries, and the only memory has
    /// these bytes from its beginning on.
    pub(crate) fn expect_cut(&self, schedule: &[u32], rows: &[Row], bytes: &[u8]) {
        let outcome = self.expect(schedule, rows, false);
        expect_bytes(self.rt, &outcome, 0, bytes);
    }

    /// By each beginning of this schedule the history is as many of these entries as the beginning is long, all once it is
    /// longer, and it is complete by the whole schedule alone. So each number makes an entry, and the last ones finish the
    /// initiators. Then these are the ends, and the only memory has these bytes from this offset on. In turn all finish, too.
    pub(crate) fn expect_each(
        &self,
        schedule: &[u32],
        rows: &[Row],
        ends: &[End],
        offset: usize,
        bytes: &[u8],
    ) {
        for steps in 0..schedule.len() {
            let made = steps.min(rows.len());
            self.expect(&schedule[..steps], &rows[..made], false);
        }
        let outcome = self.expect(schedule, rows, true);
        expect_ends(self.rt, &outcome, ends);
        expect_bytes(self.rt, &outcome, offset, bytes);
        let in_turn = run_net_in_order(self.rt, self.alloc, &self.plan).expect(self.rt, "a run");
        assert!(self.rt; in_turn.complete);
    }
}
