// Runs by two worker threads.
use crate::bench::{Came, call, calm, library, text_of};
use crate::paces::{Holding, Pacing};
use std::alloc::Global;
use std::process::Abort;
use std::sync::Wait;
use std::thread::Threads;

// Two initiators that raise one counter far ahead of one another.
const COUNTER: &str = "version = 1
quantum = 1000000
[[initiator]]
name = 'i0'
style = 'blocking'
script = 'a.txt'
bind = 'ram'
[[initiator]]
name = 'i1'
style = 'blocking'
script = 'a.txt'
bind = 'ram'
[[memory]]
name = 'ram'
size = 4096
latency = 10
";

// What stands at 0 by the last write of a report, and by its memory, as little-endian numbers.
fn counters(report: &str) -> Option<(u32, u32)> {
    let mut written = None;
    let mut kept = None;
    for line in report.lines() {
        if line.contains(" write ") {
            written = little_endian(line.split(' ').nth(10)?);
        }
        if let Some(row) = line.strip_prefix("00000000 ") {
            kept = little_endian(row.get(..8)?);
        }
    }
    Some((written?, kept?))
}

fn little_endian(digits: &str) -> Option<u32> {
    let number = u32::from_str_radix(digits, 16).ok()?;
    Some(number.swap_bytes())
}

// The lines of the initiators and the first ones of the memory.
const COUNTER_ENDS: &str =
    "\ninitiator i0 blocking transactions 2000 refused 0 syncs 0 end 20000\ninitiator i1 blocking transactions 2000 refused 0 syncs 0 end 20000\nmemory ram 4096\n00000000 ";

// The initiators have ended so, there are as many lines as that takes, and what was written last is kept.
fn expect_counter(rt: &impl Abort, report: &str) {
    assert!(rt; report.contains(COUNTER_ENDS));
    assert!(rt; report.ends_with("\nend 4000\n"));
    assert!(rt; report.lines().count() == 4006);
    let (written, kept) = counters(report).expect(rt, "no counter");
    assert!(rt; written == kept && 2 <= kept && kept <= 2000);
}

#[test]
fn two_initiators_raise_one_counter(rt: HostRuntime) {
    let files = [
        ("p.toml", COUNTER),
        ("a.txt", "repeat 1000\nadd 0x0 1\nend\n"),
    ];
    let came = calm(&rt, "run p.toml --workers 2", &files);
    assert!(rt; came.number == 0);
    expect_counter(&rt, str::from_utf8(came.out.bytes()).expect(&rt, "a text"));
}

// What comes of two workers with this initiator held until the other one is at this access. It isn't held in vain.
fn held_run<R: AllocGlobal + Threads + Wait + Abort + Sync>(
    rt: &R,
    files: &[(&str, &str)],
    held: u32,
    enough: u64,
) -> Came {
    let pace = Holding::of(held, enough);
    let lib = library(rt, rt.alloc(), files, &[]);
    let came = call(
        rt,
        "run p.toml --workers 2",
        lib,
        Vec::new(rt.alloc()),
        Pacing::Holding(&pace),
    );
    assert!(rt; came.number == 0 && pace.gave_up() == 0);
    came
}

// Two initiators on one memory that run far ahead of one another. The second has this style.
fn mixed(rt: &impl Abort, alloc: Global, style: &str) -> String {
    let parts = [
        "version = 1\nquantum = 1000000\n",
        "[[initiator]]\nname = 'one'\nstyle = 'blocking'\nscript = 'one.txt'\nbind = 'ram'\n",
        "[[initiator]]\nname = 'two'\nstyle = '",
        style,
        "'\nscript = 'two.txt'\nbind = 'ram'\n",
        "[[memory]]\nname = 'ram'\nsize = 16\n",
    ];
    text_of(rt, alloc, &parts)
}

// With this initiator held, these accesses come in this order, and the report ends so.
fn expect_accesses<R: AllocGlobal + Threads + Wait + Abort + Sync>(
    rt: &R,
    platform: &str,
    held: u32,
    texts: [&str; 2],
    end: &str,
) {
    let files = [
        ("p.toml", platform),
        ("one.txt", "write 0x0 aa\nfence\nread 0x1 1\n"),
        ("two.txt", "write 0x1 bb\nfence\nread 0x0 1\n"),
    ];
    let came = held_run(rt, &files, held, 1);
    let report = str::from_utf8(came.out.bytes()).expect(rt, "a text");
    let mut lines = report.lines();
    for text in texts {
        assert!(rt; lines.any(|line| line.contains(text)));
    }
    assert!(rt; report.ends_with(end));
}

// With two workers, a blocking initiator can be held while one of another style goes on, and the other way round.
// There are 2 entries of the blocking one, and 18 of four phases, or 3 with a grant.
#[test]
fn two_styles_at_once(rt: HostRuntime) {
    let blocking = " one.0 ram blocking write 0x0 1 ";
    let rows = [
        (
            "fourphase",
            " two.0 ram fourphase write 0x1 1 ",
            "\nend 20\n",
        ),
        ("direct", " two.0 ram blocking write 0x1 1 ", "\nend 5\n"),
    ];
    for (style, other, end) in rows {
        let platform = mixed(&rt, rt.alloc(), style);
        expect_accesses(&rt, platform.as_str(), 0, [other, blocking], end);
        expect_accesses(&rt, platform.as_str(), 1, [blocking, other], end);
    }
}

// A direct initiator that reads by a grant, and one that invalidates it, far ahead of one another.
const GRANTED: &str = "version = 1
quantum = 1000000
[[initiator]]
name = 'user'
style = 'direct'
script = 'user.txt'
bind = 'ram'
[[initiator]]
name = 'ender'
style = 'blocking'
script = 'ender.txt'
bind = 'ram'
[[memory]]
name = 'ram'
size = 16
gates = 1
";

// Direct accesses come before the closing of their gate, and none after it.
fn expect_closing(rt: &impl Abort, report: &str) {
    let mut lines = report.lines();
    assert!(rt; lines.any(|line| line.contains(" direct:0 ")));
    assert!(rt; lines.any(|line| line.ends_with(" closed 0")));
    assert!(rt; lines.all(|line| !line.contains(" direct:0 ")));
}

// One worker makes direct accesses while another one invalidates. Beside all accesses there are the grant, the
// invalidation and the closing.
#[test]
fn no_direct_access_comes_after_a_closing(rt: HostRuntime) {
    let files = [
        ("p.toml", GRANTED),
        ("user.txt", "repeat 2000\nread 0x0 4\nend\n"),
        ("ender.txt", "read 0x8 1\ninvalidate 0xf 1\n"),
    ];
    let came = held_run(&rt, &files, 1, 50);
    let report = str::from_utf8(came.out.bytes()).expect(&rt, "a text");
    expect_closing(&rt, report);
    assert!(rt; report.ends_with("\nend 2004\n"));
}
