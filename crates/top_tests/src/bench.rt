// Calls of the top call over files and sinks in memory.
use crate::paces::Pacing;
use outside::{FailingWrite, MapLibrary, NamedFile, VecSink};
use std::alloc::Global;
use std::process::Abort;
use std::sync::Wait;
use std::thread::Threads;
use tlm_top::run;
use tlm_types::{Bytes, Text};

/// What came of a call: its number, how many files were loaded, and what the two sinks took.
#[derive(Drop)]
pub struct Came {
    pub number: u8,
    pub loads: u64,
    pub out: VecSink,
    pub diag: VecSink,
}

/// Words that are parted by spaces.
pub fn words_of(rt: &impl Abort, alloc: Global, line: &str) -> Vec<String> {
    let mut words = Vec::new(alloc);
    for word in line.split_whitespace() {
        let word = String::from_str(alloc, word).expect(rt, "room");
        words.push(word).expect(rt, "room");
    }
    words
}

/// A text of these parts.
pub fn text_of(rt: &impl Abort, alloc: Global, parts: &[&str]) -> String {
    let mut text = String::new(alloc);
    for part in parts {
        text.push_str(part).expect(rt, "room");
    }
    text
}

fn named_file(rt: &impl Abort, alloc: Global, name: &str, text: &str) -> NamedFile {
    NamedFile {
        name: Text::from_text(alloc, name).expect(rt, "room"),
        bytes: Bytes::from_slice(alloc, text.as_bytes()).expect(rt, "room"),
    }
}

/// A library that holds these files, whose loads of these numbers fail.
pub fn library(
    rt: &impl Abort,
    alloc: Global,
    files: &[(&str, &str)],
    failing: &[u64],
) -> MapLibrary {
    let mut named = Vec::new(alloc);
    for (name, text) in files {
        let file = named_file(rt, alloc, name, text);
        named.push(file).expect(rt, "room");
    }
    let failing = Vec::from_slice(alloc, failing).expect(rt, "room");
    MapLibrary::new(named, failing)
}

/// A call with these words over a library and two sinks.
pub fn call_over<R: AllocGlobal + Threads + Wait + Abort + Sync>(
    rt: &R,
    words: &str,
    mut lib: MapLibrary,
    mut out: VecSink,
    mut diag: VecSink,
    pace: Pacing<'_>,
) -> Came {
    let alloc = rt.alloc();
    let words = words_of(rt, alloc, words);
    let exit = run(rt, alloc, &words, &mut lib, &mut out, &mut diag, &pace);
    Came {
        number: exit.number(),
        loads: lib.loads(),
        out,
        diag,
    }
}

/// The same, where these writes of the report fail, and none of the line.
pub fn call<R: AllocGlobal + Threads + Wait + Abort + Sync>(
    rt: &R,
    words: &str,
    lib: MapLibrary,
    failing: Vec<FailingWrite>,
    pace: Pacing<'_>,
) -> Came {
    let alloc = rt.alloc();
    let out = VecSink::new(alloc, failing);
    let diag = VecSink::new(alloc, Vec::new(alloc));
    call_over(rt, words, lib, out, diag, pace)
}

/// The same, where nothing fails and nobody is held.
pub fn calm<R: AllocGlobal + Threads + Wait + Abort + Sync>(
    rt: &R,
    words: &str,
    files: &[(&str, &str)],
) -> Came {
    let lib = library(rt, rt.alloc(), files, &[]);
    call(rt, words, lib, Vec::new(rt.alloc()), Pacing::Free)
}

/// A sink whose write of this number fails after it took some bytes.
pub fn failing_sink(rt: &impl Abort, alloc: Global, write: u64, takes: usize) -> VecSink {
    let failing = vec![in alloc; FailingWrite { write, takes }].expect(rt, "room");
    VecSink::new(alloc, failing)
}

/// What came is this number, this report and this line.
pub fn check(rt: &impl Abort, came: &Came, number: u8, out: &str, diag: &str) {
    assert!(rt; came.number == number, "not the answer {number}: {diag}");
    assert!(rt; came.out.bytes() == out.as_bytes());
    assert!(rt; came.diag.bytes() == diag.as_bytes());
}

/// Where the load of this number fails, the answer to these words has this line, and nothing is loaded after it.
pub fn fails_at_load<R: AllocGlobal + Threads + Wait + Abort + Sync>(
    rt: &R,
    words: &str,
    files: &[(&str, &str)],
    load: u64,
    line: &str,
) {
    let lib = library(rt, rt.alloc(), files, &[load]);
    let came = call(rt, words, lib, Vec::new(rt.alloc()), Pacing::Free);
    check(rt, &came, 4, "", line);
    assert!(rt; came.loads == load.saturating_add(1));
}

/// Where nothing fails, this number, this report and this line come of these words. The result is how many
/// files were loaded.
pub fn answer<R: AllocGlobal + Threads + Wait + Abort + Sync>(
    rt: &R,
    words: &str,
    files: &[(&str, &str)],
    number: u8,
    out: &str,
    diag: &str,
) -> u64 {
    let came = calm(rt, words, files);
    check(rt, &came, number, out, diag);
    came.loads
}
