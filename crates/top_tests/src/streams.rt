// What the program writes to its two streams.
ghost use Rattle.std.specs.Prelude.{false};

use crate::bench::{library, words_of};
use crate::paces::Pacing;
use outside::{MapLibrary, Stream, StreamSink};
use std::io;
use std::io::Write;
use std::process::Abort;
use std::sync::Wait;
use std::thread::Threads;
use tlm_top::serve;

// The number of an answer, and what the second stream holds; and the first stream.
#[derive(Drop)]
struct Served<O: Drop> {
    number: u8,
    out: O,
    diag: Vec<u8>,
}

fn serve_over<R: AllocGlobal + Threads + Wait + Abort + Sync, O: Stream + Drop>(
    rt: &R,
    words: &str,
    mut lib: MapLibrary,
    out: O,
) -> Served<O> {
    let alloc = rt.alloc();
    let words = words_of(rt, alloc, words);
    let mut out = StreamSink::new(alloc, out).expect(rt, "room");
    let mut diag = StreamSink::new(alloc, Vec::new(alloc)).expect(rt, "room");
    let exit = serve(
        rt,
        alloc,
        &words,
        &mut lib,
        &mut out,
        &mut diag,
        &Pacing::Free,
    );
    Served {
        number: exit.number(),
        out: out.into_inner(),
        diag: diag.into_inner(),
    }
}

const OVERLAP: &str = "version = 1
[[initiator]]
name = 'cpu'
style = 'blocking'
script = 'a.txt'
bind = 'bus'
[[router]]
name = 'bus'
[[router.window]]
first = 0
last = 0xfff
to = 'ram'
[[router.window]]
first = 0x800
last = 0x8ff
to = 'ram'
[[memory]]
name = 'ram'
size = 16
";

const REPORT: &str =
    "tlm-report 1\n0 0 cpu.0 ram blocking write 0x10 4 be=- sw=4 deadbeef ok\n1 10 cpu.1 ram blocking read 0x10 4 be=- sw=4 deadbeef ok\ninitiator cpu blocking transactions 2 refused 0 syncs 2 end 20\nmemory ram 256\n00000010 deadbeef000000000000000000000000\nend 2\n";

const USAGE: &str =
    "usage: tlmrun run FILE [--workers N] [--trace all|accesses|none]; tlmrun gen SEED [--workers N]; tlmrun script FILE\n";

// Words, the number of the answer, and what the two streams hold.
static ANSWERS: [(&str, u8, &str, &str); 5] = [
    ("script a.txt", 0, REPORT, ""),
    ("script", 1, "", USAGE),
    (
        "run p.toml",
        2,
        "",
        "platform refused: overlap router[0].window[1] window[0]\n",
    ),
    (
        "script b.txt",
        3,
        "",
        "script refused: cpu line 1: bad_hex\n",
    ),
    ("script c.txt", 4, "", "read fault: c.txt\n"),
];

// A script, one that is refused, and a platform that is.
static FILES: [(&str, &str); 3] = [
    ("a.txt", "write 0x10 deadbeef\nread 0x10 4\n"),
    ("b.txt", "write 0x0 abc\n"),
    ("p.toml", OVERLAP),
];

// Of these words and files come this number, this report and this line.
fn expect_streams<R: AllocGlobal + Threads + Wait + Abort + Sync>(
    rt: &R,
    files: &[(&str, &str)],
    words: &str,
    number: u8,
    out: &str,
    diag: &str,
) {
    let lib = library(rt, rt.alloc(), files, &[]);
    let came = serve_over(rt, words, lib, Vec::new(rt.alloc()));
    assert!(rt; came.number == number, "not the answer {number}: {words}");
    assert!(rt; came.out.as_slice() == out.as_bytes());
    assert!(rt; came.diag.as_slice() == diag.as_bytes());
}

#[test]
fn streams_hold_the_report_or_the_line(rt: HostRuntime) {
    for &(words, number, out, diag) in &ANSWERS {
        expect_streams(&rt, &FILES, words, number, out, diag);
    }
}

// A stream that takes all, and whose flush fails.
#[derive(Drop)]
struct Closed;

impl Write for Closed {
    fn write(&mut self, buf: &[u8]) -> io::Result<usize> {
        Ok(buf.len())
    }

    fn flush(&mut self) -> io::Result<()> {
        Err(io::Error::from(io::ErrorKind::Other))
    }
}

impl Stream for Closed {
    ghost tells = { false };

    ghost told = { λ _. tt };
}

// The report was collected whole, and is lost when it is written in the end.
#[test]
fn a_lost_report_is_a_write_fault(rt: HostRuntime) {
    let lib = library(&rt, rt.alloc(), &FILES, &[]);
    let came = serve_over(&rt, "script a.txt", lib, Closed);
    assert!(rt; came.number == 5);
    assert!(rt; came.diag.as_slice() == b"write fault\n".as_slice());
}
