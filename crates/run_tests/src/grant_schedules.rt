// Initiators with grants and rounds that are stepped by a schedule.
use crate::step_bench::{Bench, Row};

const IN_WINDOW: &str = "version = 1\nquantum = 0\n\
    [[initiator]]\nname = 'd'\nstyle = 'direct'\nscript = 'a'\nbind = 'bus'\n\
    [[router]]\nname = 'bus'\nlatency = 5\n\
    [[router.window]]\nfirst = 0x100\nlast = 0x17f\nto = 'ram'\nbase = 0x40\n\
    [[memory]]\nname = 'ram'\nsize = 256\nlatency = 10\n";

const GRANTED: [Row; 4] = [
    ("blocking", 0, 0, 0, 0, 5),
    ("granted", 0, 0, 0, 0, 15),
    ("direct", 0, 0, 0, 1, 15),
    ("direct", 0, 0, 0, 2, 30),
];

/// The access is a step, and so is the grant that it led to.
#[test]
fn a_grant_is_a_step(rt: HostRuntime) {
    let script = "write 0x100 aa\nread 0x100 1\nread 0x17f 1\n";
    let bench = Bench::new(&rt, rt.alloc(), IN_WINDOW, &[script]);
    bench.expect(&[1, 2, 0, 1, 2], &GRANTED[..1], false);
    bench.expect_each(&[0; 5], &GRANTED, &[(3, 3, 45, 0)], 0x40, &[0xaa]);
}

const ALONE: &str = "version = 1\nquantum = 0\n\
    [[initiator]]\nname = 'd'\nstyle = 'direct'\nscript = 'a'\nbind = 'ram'\n\
    [[memory]]\nname = 'ram'\nsize = 256\nlatency = 10\ngates = 2\n";

const CLOSED: [Row; 8] = [
    ("blocking", 0, 0, 0, 0, 0),
    ("granted", 0, 0, 0, 0, 10),
    ("direct", 0, 0, 0, 1, 10),
    ("invalidated", 0, 0, 0, 2, 20),
    ("closed", 0, 0, 0, 2, 20),
    ("blocking", 0, 0, 0, 3, 20),
    ("granted", 0, 1, 0, 3, 30),
    ("direct", 0, 1, 0, 4, 30),
];

/// An invalidation is a step, and so is each grant that it ends.
#[test]
fn each_closing_is_a_step(rt: HostRuntime) {
    let script = "write 0x0 aa\nread 0x0 1\ninvalidate 0x80 0x80\nread 0x0 1\nread 0x0 1\n";
    let bench = Bench::new(&rt, rt.alloc(), ALONE, &[script]);
    bench.expect_each(&[0; 9], &CLOSED, &[(5, 5, 40, 0)], 0, &[0xaa]);
}

const THREE: &str = "version = 1\nquantum = 1000\n\
    [[initiator]]\nname = 'd'\nstyle = 'direct'\nscript = 'a'\nbind = 'ram'\n\
    [[initiator]]\nname = 'e'\nstyle = 'direct'\nscript = 'b'\nbind = 'ram'\n\
    [[initiator]]\nname = 'dma'\nstyle = 'fourphase'\nscript = 'b'\nbind = 'ram'\n\
    [[memory]]\nname = 'ram'\nsize = 16\nlatency = 10\n";

const USED_BETWEEN: [Row; 13] = [
    ("blocking", 0, 0, 0, 0, 0),
    ("granted", 0, 0, 0, 0, 10),
    ("direct", 0, 0, 0, 1, 10),
    ("invalidated", 0, 0, 1, 0, 0),
    ("direct", 0, 0, 0, 2, 20),
    ("closed", 0, 0, 1, 0, 0),
    ("blocking", 0, 0, 0, 3, 30),
    ("granted", 0, 1, 0, 3, 40),
    ("invalidated", 0, 0, 2, 0, 0),
    ("direct", 0, 1, 0, 4, 40),
    ("closed", 0, 1, 2, 0, 0),
    ("blocking", 0, 0, 0, 5, 50),
    ("granted", 0, 2, 0, 5, 60),
];

/// The grants of the first initiator are used after another one has told its invalidation, until they are closed. A
/// four-phase initiator invalidates in steps, too.
#[test]
fn a_grant_serves_until_it_is_closed(rt: HostRuntime) {
    let reads = "write 0x0 aa\nrepeat 5\nread 0x0 1\nend\n";
    let scripts = [reads, "invalidate 0x0 1\n", "invalidate 0x0 1\n"];
    let bench = Bench::new(&rt, rt.alloc(), THREE, &scripts);
    let whole = [0, 0, 0, 1, 0, 1, 0, 0, 2, 0, 2, 0, 0, 0, 1, 2];
    let ends = [(6, 0, 60, 0), (1, 0, 0, 0), (1, 0, 0, 0)];
    bench.expect_each(&whole, &USED_BETWEEN, &ends, 0, &[0xaa]);
}

/// Two blocking initiators and a four-phase one between them.
const MIXED: &str = "version = 1\nquantum = 0\n\
    [[initiator]]\nname = 'a'\nstyle = 'blocking'\nscript = 'a'\nbind = 'ram'\n\
    [[initiator]]\nname = 'dma'\nstyle = 'fourphase'\nscript = 'b'\nbind = 'ram'\n\
    [[initiator]]\nname = 'c'\nstyle = 'blocking'\nscript = 'c'\nbind = 'ram'\n\
    [[memory]]\nname = 'ram'\nsize = 16\nlatency = 10\nreply = 'complete'\n";

const IN_ROUNDS: [Row; 11] = [
    ("blocking", 0, 0, 0, 0, 0),
    ("blocking", 0, 0, 0, 1, 10),
    ("take", 1, 0, 1, 0, 0),
    ("acquire", 1, 0, 1, 0, 0),
    ("BEGIN_REQ COMPLETED", 1, 0, 1, 0, 0),
    ("fourphase", 0, 0, 1, 0, 0),
    ("release", 1, 0, 1, 0, 10),
    ("freed", 1, 0, 1, 0, 10),
    ("blocking", 0, 0, 2, 0, 0),
    ("blocking", 0, 0, 2, 1, 10),
    ("blocking", 0, 0, 0, 2, 20),
];

/// The blocking initiator that is ahead waits for the other one, at each entry and at its end. The four-phase one neither
/// waits for them nor holds them back.
#[test]
fn rounds_hold_back_the_one_ahead(rt: HostRuntime) {
    let (three, two) = ("repeat 3\nread 0x0 1\nend\n", "repeat 2\nread 0x0 1\nend\n");
    let scripts = [three, "write 0x1 aa\n", two];
    let bench = Bench::new(&rt, rt.alloc(), MIXED, &scripts);
    let ahead = [0, 0, 0, 1, 1, 0, 1, 1, 1, 1, 1, 0, 2, 0, 0, 2];
    bench.expect(&ahead, &IN_ROUNDS[..10], false);
    let at_end = [0, 0, 1, 1, 1, 1, 1, 1, 2, 2, 0, 0, 1, 0];
    bench.expect(&at_end, &IN_ROUNDS, false);
    let whole = [0, 0, 1, 1, 1, 1, 1, 1, 2, 2, 0, 2, 0, 1];
    let ends = [(3, 3, 30, 0), (1, 0, 10, 0), (2, 2, 20, 0)];
    bench.expect_each(&whole, &IN_ROUNDS, &ends, 1, &[0xaa]);
}

const DIRECT_IN_ROUNDS: &str = "version = 1\nquantum = 0\n\
    [[initiator]]\nname = 'd'\nstyle = 'direct'\nscript = 'a'\nbind = 'ram'\n\
    [[initiator]]\nname = 'e'\nstyle = 'direct'\nscript = 'b'\nbind = 'ram'\n\
    [[memory]]\nname = 'ram'\nsize = 16\nlatency = 10\n";

const HELD_AFTER_GRANT: [Row; 6] = [
    ("debug", 0, 0, 0, 0, 0),
    ("blocking", 0, 0, 0, 1, 0),
    ("granted", 0, 0, 0, 1, 10),
    ("debug", 0, 0, 1, 0, 0),
    ("debug", 0, 0, 1, 1, 0),
    ("direct", 0, 0, 0, 2, 10),
];

/// The grant belongs to the round of its access. The sync after it is held back until the other one is in that round.
#[test]
fn a_grant_comes_before_the_sync(rt: HostRuntime) {
    let script = "debug 0x0 1\nwrite 0x0 aa\nread 0x0 1\n";
    let scripts = [script, "debug 0x0 1\ndebug 0x0 1\n"];
    let bench = Bench::new(&rt, rt.alloc(), DIRECT_IN_ROUNDS, &scripts);
    let held = [0, 0, 0, 0, 1, 0, 0, 1];
    bench.expect(&held, &HELD_AFTER_GRANT[..5], false);
    let whole = [0, 0, 0, 1, 1, 0, 1, 0];
    let ends = [(3, 3, 20, 0), (2, 2, 0, 0)];
    bench.expect_each(&whole, &HELD_AFTER_GRANT, &ends, 0, &[0xaa]);
}
