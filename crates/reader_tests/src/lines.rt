// Words of the command line.
use command_words::{Command, read_words};
use std::alloc::Global;
use std::process::Abort;
use tlm_model::Trace;

// The words of a line are parted by spaces, and `''` is the empty word.
fn words_of(rt: &impl Abort, alloc: Global, line: &str) -> Vec<String> {
    let mut words = Vec::new(alloc);
    for part in line.split(' ') {
        if !part.is_empty() {
            let word = if part == "''" { "" } else { part };
            let word = String::from_str(alloc, word).expect(rt, "memory");
            words.push(word).expect(rt, "memory");
        }
    }
    words
}

// Whether this is what the line asks for.
fn asks_for(rt: &impl Abort, alloc: Global, line: &str, wanted: Option<Command>) -> bool {
    let words = words_of(rt, alloc, line);
    read_words(alloc, &words).expect(rt, "memory") == wanted
}

// Lines with the file, the number of workers and the trace of their run.
static RUNS: [(&str, &str, u32, Trace); 5] = [
    ("run p", "p", 4, Trace::All),
    ("run --workers 1 p", "p", 1, Trace::All),
    ("run p --workers=16", "p", 16, Trace::All),
    (
        "run --workers=3 p --trace accesses",
        "p",
        3,
        Trace::Accesses,
    ),
    ("run run --trace=none", "run", 4, Trace::None),
];

// Lines with the seed and the number of workers of what they generate.
static SEEDS: [(&str, u64, u32); 4] = [
    ("gen 7", 7, 4),
    ("gen --workers 1 0", 0, 1),
    ("gen 18446744073709551615 --workers=16", u64::MAX, 16),
    ("gen --workers=3 100", 100, 3),
];

static REFUSED: [&str; 23] = [
    "",
    "run",
    "run ''",
    "run -p",
    "run p --",
    "run p --workers 0",
    "run p --workers=17",
    "run p --workers=+4",
    "run p --trace any",
    "run p --trac=all",
    "gen",
    "gen p",
    "gen ''",
    "gen 01",
    "gen +1",
    "gen -1",
    "gen 0x1",
    "gen 18446744073709551616",
    "gen 1 2",
    "gen 1 --trace=all",
    "gen 1 --workers 1 --workers=1",
    "gen --workers=0 1",
    "--help",
];

#[test]
fn runs_are_read(rt: HostRuntime) {
    for (line, file, workers, trace) in &RUNS {
        let run = Command::Run {
            file,
            workers: *workers,
            trace: *trace,
        };
        assert!(rt; asks_for(&rt, rt.alloc(), line, Some(run)), "{line}");
    }
    let script = Command::Script { file: "a-b" };
    assert!(rt; asks_for(&rt, rt.alloc(), "script a-b", Some(script)));
}

#[test]
fn seeds_are_read(rt: HostRuntime) {
    for (line, seed, workers) in &SEEDS {
        let seeded = Command::Gen {
            seed: *seed,
            workers: *workers,
        };
        assert!(rt; asks_for(&rt, rt.alloc(), line, Some(seeded)), "{line}");
    }
}

#[test]
fn other_lines_are_refused(rt: HostRuntime) {
    for line in &REFUSED {
        assert!(rt; asks_for(&rt, rt.alloc(), line, None), "{line}");
    }
}
