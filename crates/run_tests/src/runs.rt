// Runs by worker threads.
use crate::bench::plan_of;
use crate::paces::{Holding, InTurn, Pacing, Watching};
use outside::NoPace;
use plat_run::{Logs, run_plan};
use route_plan::Plan;
use run_outcome::{MergedLog, Outcome};
use std::alloc::Global;
use std::process::Abort;
use std::sync::Wait;
use std::thread::Threads;
use tlm_types::TxnId;

/// Two initiators before a router of 5 ps with two memories of 10 and 20 ps, with a quantum of 50 ps.
pub(crate) const BUS: &str = "version = 1\nquantum = 50\n\
                   [[initiator]]\nname = 'one'\nstyle = 'blocking'\nscript = 'a'\nbind = 'bus'\n\
                   [[initiator]]\nname = 'two'\nstyle = 'blocking'\nscript = 'b'\nbind = 'bus'\n\
                   [[router]]\nname = 'bus'\nlatency = 5\n\
                   [[router.window]]\nfirst = 0\nlast = 0xff\nto = 'ram'\n\
                   [[router.window]]\nfirst = 0x100\nlast = 0x1ff\nto = 'far'\n\
                   [[memory]]\nname = 'ram'\nsize = 16\nlatency = 10\n\
                   [[memory]]\nname = 'far'\nsize = 16\nlatency = 20\n";

/// A write, a copy of it to the far memory, a read without a route, and a debug read: four entries.
const ONE: &str = "write 0x0 aabb\ncopy 0x0 0x100 2\nread 0x200 2\ndebug 0x100 2\n";

/// An addition at a place of its own, which is two entries, a wait and a sync.
const TWO: &str = "add 0x8 1\nwait 40\nsync\n";

// What came of a run by so many workers, which is complete; the sealed history has just its entries.
pub(crate) fn run_of<R: Threads + Wait + Abort + Sync>(
    rt: &R,
    alloc: Global,
    plan: &Plan,
    workers: u32,
    pace: Pacing<'_>,
) -> Outcome {
    let (outcome, sealed) = run_plan(rt, alloc, plan, workers, &pace, Logs::Kept).expect(
        rt, "a run",
    );
    assert!(rt; outcome.complete);
    assert!(rt; sealed.len() == outcome.history.len());
    outcome
}

// There are six entries. Two initiators have ended, of which the first took five numbers and the second two,
// and the far of two memories has the copy.
fn expect_bus(rt: &impl Abort, outcome: &Outcome) {
    assert!(rt; outcome.history.len() == 6);
    let [one, two] = outcome.ends.as_slice() else {
        panic!(rt; "not two ends");
    };
    assert!(rt; one.transactions == 5 && two.transactions == 2);
    let [_, far] = outcome.stores.as_slice() else {
        panic!(rt; "not two memories");
    };
    assert!(rt; far.as_slice().starts_with(&[0xaa, 0xbb]));
}

#[test]
fn workers_run_two_initiators(rt: HostRuntime) {
    let plan = plan_of(rt.alloc(), BUS, &[ONE, TWO]).expect(&rt, "a plan");
    for workers in 1..4 {
        let outcome = run_of(&rt, rt.alloc(), &plan, workers, Pacing::Free);
        expect_bus(&rt, &outcome);
    }
}

/// A script with every operation, and with each access, debug read and invalidation once more where nothing is.
const EVERYTHING: &str = "write 0x0 aa\nread 0x0 1 be=ff\nignore 0x0\ndebug 0x0 1\n\
                          copy 0x0 0x100 1\nadd 0x8 1\nwait 7\nsync\nfence\n\
                          write 0x200 aa\nread 0x200 1\nignore 0x200\ndebug 0x200 1\n\
                          copy 0x200 0x0 1\ncopy 0x0 0x200 1\nadd 0x200 1\n\
                          repeat 2\nread 0x0 1\nend\ninvalidate 0x0 1\ninvalidate 0x200 1\n";

/// How many accesses and debug reads that script has: a copy and an add have two each.
const ACCESSES: u64 = 4 + 4 + 4 + 6 + 2;

// By one worker, the pace is told of the two initiators in turn, and of each access and debug read, but of no
// invalidation: those are last, since each takes a number of its own.
#[test]
fn the_pace_is_told_of_every_access(rt: HostRuntime) {
    let plan = plan_of(rt.alloc(), BUS, &[EVERYTHING, EVERYTHING]).expect(&rt, "a plan");
    let pace = InTurn::of(2);
    let _ = run_of(&rt, rt.alloc(), &plan, 1, Pacing::InTurn(&pace));
    assert!(rt; pace.told() == 2 * ACCESSES && pace.wrong() == 0);
}

// With logs that are forgotten the same comes of a run, by one worker and by several, but its history can't be read.
#[test]
fn what_is_forgotten_is_counted(rt: HostRuntime) {
    let plan = plan_of(rt.alloc(), BUS, &[ONE, TWO]).expect(&rt, "a plan");
    for workers in 1..4 {
        let run = run_plan(&rt, rt.alloc(), &plan, workers, &NoPace, Logs::Forgotten);
        let (outcome, _) = run.expect(&rt, "a run");
        expect_bus(&rt, &outcome);
        assert!(rt; !outcome.history.is_whole());
    }
}

// The plan of as many blocking initiators on one memory as there are scripts, with this quantum.
fn side_by_side(rt: &impl Abort, alloc: Global, quantum: u32, scripts: &[&str]) -> Plan {
    let mut platform = format!(in alloc;
        "version = 1\nquantum = {quantum}\n[[memory]]\nname = 'ram'\nsize = 16\n"
    ).expect(rt, "room");
    for number in 0..scripts.len() {
        write!(
            platform,
            "[[initiator]]\nname = 'i{number}'\nstyle = 'blocking'\nscript = 'a'\nbind = 'ram'\n"
        )
        .expect(rt, "room");
    }
    plan_of(alloc, platform.as_str(), scripts).expect(rt, "a plan")
}

// The initiator of the entry at position 0, which is that one's first access.
fn first_of(rt: &impl Abort, alloc: Global, history: &MergedLog) -> u32 {
    assert!(rt; history.is_whole());
    let mut reader = history.reader(alloc).expect(rt, "a reader");
    assert!(rt; reader.len() > 0);
    let (log, place) = reader.at(0);
    let TxnId { initiator, seq } = log.head(place).txn;
    assert!(rt; seq == 0);
    initiator
}

// Runs initiators that make two accesses each and run far ahead of one another, by as many workers. All but one are held
// until that one has announced its second: then its first comes before theirs.
fn expect_first<R: Threads + Wait + Abort + Sync>(
    rt: &R,
    alloc: Global,
    scripts: &[&str],
    free: u32,
) {
    let plan = side_by_side(rt, alloc, 1_000_000, scripts);
    assert!(rt; scripts.len() <= 4);
    let count = scripts.len() as u32;
    let pace = Holding::all_but(free);
    let outcome = run_of(rt, alloc, &plan, count, Pacing::Holding(&pace));
    assert!(rt; pace.gave_up() == 0);
    assert!(rt; outcome.history.len() == 2 * u64::from(count));
    assert!(rt; first_of(rt, alloc, &outcome.history) == free);
}

// With two workers, each initiator can be held while the other one goes on.
#[test]
fn two_at_once(rt: HostRuntime) {
    let one = "write 0x0 aa\nfence\nread 0x1 1\n";
    let two = "write 0x1 bb\nfence\nread 0x0 1\n";
    expect_first(&rt, rt.alloc(), &[one, two], 1);
    expect_first(&rt, rt.alloc(), &[one, two], 0);
}

// With four workers, three initiators can be held while the fourth goes on.
#[test]
fn four_at_once(rt: HostRuntime) {
    let script = "read 0x0 1\nread 0x0 1\n";
    expect_first(&rt, rt.alloc(), &[script; 4], 3);
}

const FOUR_READS: &str = "read 0x0 1\nread 0x0 1\nread 0x0 1\nread 0x0 1\n";

// Runs initiators that sync after each access, of which the first is held: each other one is held back after its second.
fn expect_held<R: Threads + Wait + Abort + Sync>(rt: &R, alloc: Global, scripts: &[&str]) {
    let plan = side_by_side(rt, alloc, 0, scripts);
    assert!(rt; scripts.len() <= 4);
    let count = scripts.len() as u32;
    let others = u64::from(count.saturating_sub(1));
    let pace = Watching::others(others);
    let outcome = run_of(rt, alloc, &plan, count, Pacing::Watching(&pace));
    assert!(rt; pace.released());
    assert!(rt; pace.early() == 0 && pace.second() == others);
    assert!(rt; outcome.history.len() == 4 * u64::from(count));
}

#[test]
fn rounds_hold(rt: HostRuntime) {
    expect_held(&rt, rt.alloc(), &[FOUR_READS; 2]);
    expect_held(&rt, rt.alloc(), &[FOUR_READS; 3]);
}

// Runs two initiators that sync after each access, which make four accesses in all, by one worker and by two.
fn expect_four<R: Threads + Wait + Abort + Sync>(rt: &R, alloc: Global, scripts: &[&str]) {
    let plan = side_by_side(rt, alloc, 0, scripts);
    for workers in 1..3 {
        let outcome = run_of(rt, alloc, &plan, workers, Pacing::Free);
        assert!(rt; outcome.history.len() == 4);
    }
}

// An initiator that has nothing to do holds nobody back.
#[test]
fn who_has_finished_is_not_waited_for(rt: HostRuntime) {
    expect_four(&rt, rt.alloc(), &["", FOUR_READS]);
    expect_four(&rt, rt.alloc(), &[FOUR_READS, ""]);
}
