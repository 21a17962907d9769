// Words, loads and writes that fail.
use crate::bench::{Came, answer, call, call_over, check, failing_sink, fails_at_load, library};
use crate::paces::Pacing;
use crate::runs::{LONE, LONE_REPORT, LONE_SCRIPT};
use outside::{FailingWrite, VecSink};
use std::process::Abort;
use std::sync::Wait;
use std::thread::Threads;

static FILES: [(&str, &str); 5] = [
    ("a.txt", "write 0x10 deadbeef\nread 0x10 4\n"),
    ("b.txt", "syncs\n"),
    ("q.toml", ""),
    ("p.toml", LONE),
    ("d.txt", LONE_SCRIPT),
];

const USAGE: &str =
    "usage: tlmrun run FILE [--workers N] [--trace all|accesses|none]; tlmrun gen SEED [--workers N]; tlmrun script FILE\n";

static OTHER_WORDS: [&str; 5] = [
    "",
    "run",
    "run p.toml --workers 0",
    "run p.toml --workers 17",
    "gen p",
];

#[test]
fn other_words_are_refused(rt: HostRuntime) {
    for words in &OTHER_WORDS {
        let loads = answer(&rt, words, &FILES, 1, "", USAGE);
        assert!(rt; loads == 0);
    }
}

// A script; and the platform of a direct initiator, and then its script.
#[test]
fn each_load_may_fail(rt: HostRuntime) {
    fails_at_load(&rt, "script a.txt", &FILES, 0, "read fault: a.txt\n");
    fails_at_load(&rt, "run p.toml", &FILES, 0, "read fault: p.toml\n");
    fails_at_load(&rt, "run p.toml", &FILES, 1, "read fault: d.txt\n");
}

#[test]
fn writes_may_fail(rt: HostRuntime) {
    let third = FailingWrite { write: 2, takes: 0 };
    let failing = vec![in rt.alloc(); third].expect(&rt, "room");
    let lib = library(&rt, rt.alloc(), &FILES, &[]);
    let came = call(&rt, "script a.txt", lib, failing, Pacing::Free);
    let lines = "tlm-report 1\n0 0 cpu.0 ram blocking write 0x10 4 be=- sw=4 deadbeef ok\n";
    check(&rt, &came, 5, lines, "write fault\n");
}

// A run of the direct initiator over these two sinks.
fn run_lone<R: AllocGlobal + Threads + Wait + Abort + Sync>(
    rt: &R,
    out: VecSink,
    diag: VecSink,
) -> Came {
    let lib = library(rt, rt.alloc(), &FILES, &[]);
    call_over(rt, "run p.toml", lib, out, diag, Pacing::Free)
}

// Where the write of this number fails after it took some bytes, just these bytes of the report are taken.
fn expect_prefix<R: AllocGlobal + Threads + Wait + Abort + Sync>(
    rt: &R,
    write: u64,
    takes: usize,
    taken: usize,
) {
    let out = failing_sink(rt, rt.alloc(), write, takes);
    let came = run_lone(rt, out, VecSink::new(rt.alloc(), Vec::new(rt.alloc())));
    let prefix = LONE_REPORT.get(..taken).expect(rt, "a prefix");
    check(rt, &came, 5, prefix, "write fault\n");
}

// Each line of the report is written in one piece. Its write fails before its first byte, after it, and
// before its last byte, which ends the line.
#[test]
fn each_write_may_fail(rt: HostRuntime) {
    let mut before = 0usize;
    for (number, line) in LONE_REPORT.lines().enumerate() {
        for &takes in &[0, 1, line.len()] {
            expect_prefix(&rt, number as u64, takes, before.saturating_add(takes));
        }
        before = before.saturating_add(line.len()).saturating_add(1);
    }
    assert!(rt; before == LONE_REPORT.len());
}

// Words, the number of their answer where their report can't be written, and its line.
static LINES: [(&str, u8, &str); 6] = [
    ("", 1, USAGE),
    (
        "run q.toml",
        2,
        "platform refused: missing_key platform version\n",
    ),
    (
        "script b.txt",
        3,
        "script refused: cpu line 1: unknown_operation\n",
    ),
    ("run none", 4, "read fault: none\n"),
    ("script none", 4, "read fault: none\n"),
    ("run p.toml", 5, "write fault\n"),
];

// Where a write of the line fails, the answer is still this one. A report, where there is one, is lost.
fn expect_cut<R: AllocGlobal + Threads + Wait + Abort + Sync>(
    rt: &R,
    words: &str,
    number: u8,
    line: &str,
    takes: usize,
) {
    let alloc = rt.alloc();
    let lib = library(rt, alloc, &FILES, &[]);
    let out = failing_sink(rt, alloc, 0, 0);
    let diag = failing_sink(rt, alloc, 0, takes);
    let came = call_over(rt, words, lib, out, diag, Pacing::Free);
    let taken = line.get(..takes).expect(rt, "a prefix");
    check(rt, &came, number, "", taken);
    assert!(rt; came.diag.faults() == 1);
}

#[test]
fn a_lost_line_changes_no_answer(rt: HostRuntime) {
    for &(words, number, line) in &LINES {
        for takes in [0, 1, 11] {
            expect_cut(&rt, words, number, line, takes);
        }
    }
}

// A second sink that fails isn't asked for where a run is done.
#[test]
fn a_run_that_is_done_tells_nothing(rt: HostRuntime) {
    let alloc = rt.alloc();
    let out = VecSink::new(alloc, Vec::new(alloc));
    let came = run_lone(&rt, out, failing_sink(&rt, alloc, 0, 0));
    check(&rt, &came, 0, LONE_REPORT, "");
    assert!(rt; came.diag.writes() == 0);
}

// Words whose file is longer than that are refused.
fn expect_too_long<R: AllocGlobal + Threads + Wait + Abort + Sync>(rt: &R, words: &str) {
    let feeds = vec![in rt.alloc(); b'\n'; 4_194_305].expect(rt, "room");
    let text = str::from_utf8(&feeds).expect(rt, "a text");
    answer(rt, words, &[("f", text)], 7, "", "too long: f\n");
}

// A file of more than 4,194,304 bytes isn't read, be it a platform or a script.
#[test]
fn longer_files_are_not_read(rt: HostRuntime) {
    expect_too_long(&rt, "script f");
    expect_too_long(&rt, "run f");
}
