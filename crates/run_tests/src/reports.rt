// The report of a run: its lines as the sink gets them.
ghost use Rattle.run_outcome.specs.Outcome.{IsReportable};

use crate::bench::plan_of;
use crate::phases::MIXED;
use outside::{FailingWrite, NoPace, VecSink};
use plat_core::{can_run, run_in_order, run_net_in_order};
use plat_run::{Logs, run_plan};
use route_plan::Plan;
use run_outcome::Outcome;
use std::alloc::Global;
use std::process::Abort;
use std::str::from_utf8;
use tlm_model::Trace;
use trace_print::{PrintFault, print};

/// A blocking initiator at a memory of 256 bytes and 10 ps.
const PLATFORM: &str = "version = 1\n\
                        [[initiator]]\nname = 'cpu'\nstyle = 'blocking'\nscript = 'a.txt'\nbind = 'ram'\n\
                        [[memory]]\nname = 'ram'\nlatency = 10\nsize = 256\n";

const SCRIPT: &str = "write 0x10 deadbeef\nread 0x10 4\n";

/// Runs that script and prints the report to the sink.
fn print_run<R: Abort>(rt: &R, alloc: Global, out: &mut VecSink) -> Result<(), PrintFault> {
    let plan = plan_of(alloc, PLATFORM, &[SCRIPT]).expect(rt, "a plan");
    assert!(rt; can_run(&plan));
    let outcome = run_in_order(alloc, &plan, &NoPace).expect(rt, "a run");
    assert!(rt; outcome.history.is_whole());
    print(alloc, out, &plan, &outcome, Trace::All)
}

const FIRST_LINES: &str = "tlm-report 1\n\
                           0 0 cpu.0 ram blocking write 0x10 4 be=- sw=4 deadbeef ok\n\
                           1 10 cpu.1 ram blocking read 0x10 4 be=- sw=4 deadbeef ok\n";

const REPORT: &str = "tlm-report 1\n\
                      0 0 cpu.0 ram blocking write 0x10 4 be=- sw=4 deadbeef ok\n\
                      1 10 cpu.1 ram blocking read 0x10 4 be=- sw=4 deadbeef ok\n\
                      initiator cpu blocking transactions 2 refused 0 syncs 2 end 20\n\
                      memory ram 256\n\
                      00000010 deadbeef000000000000000000000000\n\
                      end 2\n";

/// The report of seven lines takes seven writes.
#[test]
fn each_line_is_one_piece(rt: HostRuntime) {
    let mut out = VecSink::new(rt.alloc(), Vec::new(rt.alloc()));
    let printed = print_run(&rt, rt.alloc(), &mut out);
    assert!(rt; printed.is_ok());
    assert!(rt; out.bytes() == REPORT.as_bytes());
    assert!(rt; out.writes() == 7);
}

/// Where the fourth write fails and takes nothing, the sink has three lines.
#[test]
fn lines_before_a_failure_stand(rt: HostRuntime) {
    let fourth = FailingWrite { write: 3, takes: 0 };
    let failing = vec![in rt.alloc(); fourth].expect(&rt, "room");
    let mut out = VecSink::new(rt.alloc(), failing);
    let printed = print_run(&rt, rt.alloc(), &mut out);
    assert!(rt; matches!(printed, Err(PrintFault::Failed)));
    assert!(rt; out.bytes() == FIRST_LINES.as_bytes());
    assert!(rt; out.writes() > 3);
}

/// Each initiator has bytes of its own. The last one's memory hasn't the address that it copies to and reads.
const APART: [&str; 4] = [
    "write 0x0 aa\ncopy 0x0 0x100 1\nread 0x100 1\nread 0x200 1\ndebug 0x0 2\n",
    "write 0x2 bb\ncopy 0x2 0x102 1\nread 0x102 1\nread 0x200 1\ndebug 0x2 2\n",
    "write 0x4 cc\ncopy 0x4 0x104 1\nread 0x104 1\nread 0x200 1\ndebug 0x4 2\n",
    "write 0x6 dd\ncopy 0x6 0x106 1\nread 0x106 1\nread 0x200 1\ndebug 0x6 2\n",
];

// A report with the accesses alone.
fn report_of(rt: &impl Abort, alloc: Global, plan: &Plan, outcome: &Outcome) -> VecSink
    requires { IsReportable plan.now outcome.now }
{
    let mut out = VecSink::new(alloc, Vec::new(alloc));
    assert!(rt; outcome.history.is_whole());
    print(alloc, &mut out, plan, outcome, Trace::Accesses).expect(rt, "a report");
    out
}

// What a report tells of accesses, but for their positions, times and order, and its lines of memories.
fn told_in<'a>(rt: &impl Abort, alloc: Global, report: &'a VecSink) -> (Vec<&'a str>, &'a str) {
    let text = from_utf8(report.bytes()).expect(rt, "text");
    let (entries, rest) = text.split_once("\ninitiator ").expect(rt, "initiators");
    let (_, memories) = rest.split_once("\nmemory ").expect(rt, "memories");
    let mut accesses = Vec::new(alloc);
    for line in entries.lines().skip(1) {
        let told = line.splitn(3, ' ').last().expect(rt, "an access");
        accesses.push(told).expect(rt, "room");
    }
    accesses.sort_unstable();
    (accesses, memories)
}

// Two reports tell of so many accesses, and the same of them and of memories.
fn expect_alike(rt: &impl Abort, alloc: Global, one: &VecSink, other: &VecSink, accesses: usize) {
    let told = told_in(rt, alloc, one);
    assert!(rt; told.0.len() == accesses);
    assert!(rt; told == told_in(rt, alloc, other));
}

/// By a core, all actors in turn, and by one worker each access has the same bytes and status, and the memories end alike. Who is
/// behind the router makes no entry where it has no window.
#[test]
fn a_core_and_a_worker_read_the_same(rt: HostRuntime) {
    let (rt, alloc) = (&rt, rt.alloc());
    let plan = plan_of(alloc, MIXED, &APART).expect(rt, "a plan");
    let by_core = run_net_in_order(rt, alloc, &plan).expect(rt, "a run");
    let core = report_of(rt, alloc, &plan, &by_core);
    let (by_worker, _) = run_plan(rt, alloc, &plan, 1, &NoPace, Logs::Kept).expect(rt, "a run");
    let worker = report_of(rt, alloc, &plan, &by_worker);
    expect_alike(rt, alloc, &core, &worker, 3 * 5 + 6);
}
