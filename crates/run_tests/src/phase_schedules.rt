// Four-phase initiators that are stepped by a schedule: each entry is a step of who makes it.
use crate::step_bench::{Bench, Row};
use std::alloc::Global;
use std::process::Abort;
use std::sync::Wait;

/// One write, whose transaction takes slot 0.
const WRITE: &str = "write 0x0 aa\n";

// The entries that its transaction can have at a memory of 10 ps.
const TAKE: Row = ("take", 0, 0, 0, 0, 0);

const ACQUIRE: Row = ("acquire", 0, 0, 0, 0, 0);

const BEGIN_REQ: Row = ("BEGIN_REQ ACCEPTED", 0, 0, 0, 0, 0);

const REQ_TAKEN: Row = ("BEGIN_REQ UPDATED END_REQ", 0, 0, 0, 0, 0);

const REQ_BACK: Row = ("BEGIN_REQ UPDATED BEGIN_RESP", 0, 0, 0, 0, 0);

const REQ_DONE: Row = ("BEGIN_REQ COMPLETED", 0, 0, 0, 0, 0);

const END_REQ: Row = ("END_REQ ACCEPTED", 0, 0, 0, 0, 0);

const ACCESS: Row = ("fourphase", 0, 0, 0, 0, 0);

const BEGIN_RESP: Row = ("BEGIN_RESP ACCEPTED", 0, 0, 0, 0, 10);

const RESP_TAKEN: Row = ("BEGIN_RESP UPDATED END_RESP", 0, 0, 0, 0, 10);

const RESP_DONE: Row = ("BEGIN_RESP COMPLETED", 0, 0, 0, 0, 10);

const END_RESP: Row = ("END_RESP COMPLETED", 0, 0, 0, 0, 10);

const RELEASE: Row = ("release", 0, 0, 0, 0, 10);

const FREED: Row = ("freed", 0, 0, 0, 0, 10);

const BY_ACCEPT: [Row; 9] = [
    TAKE, ACQUIRE, BEGIN_REQ, END_REQ, ACCESS, BEGIN_RESP, END_RESP, RELEASE, FREED,
];

const BY_SHORT: [Row; 7] = [TAKE, ACQUIRE, BEGIN_REQ, ACCESS, RESP_DONE, RELEASE, FREED];

const BY_END_REQ: [Row; 7] = [TAKE, ACQUIRE, REQ_TAKEN, ACCESS, RESP_TAKEN, RELEASE, FREED];

const BY_BEGIN_RESP: [Row; 7] = [TAKE, ACQUIRE, REQ_BACK, ACCESS, END_RESP, RELEASE, FREED];

const BY_COMPLETE: [Row; 6] = [TAKE, ACQUIRE, REQ_DONE, ACCESS, RELEASE, FREED];

// An initiator that answers BEGIN_RESP so at a memory of 16 bytes and 10 ps that answers BEGIN_REQ so.
fn dma_on_ram<'a, R: Abort + Wait>(
    rt: &'a R,
    alloc: Global,
    (reply, response): (&str, &str),
    script: &str,
) -> Bench<'a, R> {
    let platform = format!(in alloc;
        "version = 1\n[[initiator]]\nname = 'dma'\nstyle = 'fourphase'\nscript = 'a'\nbind = 'ram'\nresponse = '{response}'\n[[memory]]\nname = 'ram'\nsize = 16\nlatency = 10\nreply = '{reply}'\n"
    ).expect(rt, "room");
    Bench::new(rt, alloc, platform.as_str(), &[script])
}

// The write of such an initiator.
fn expect_write<R: Abort + Wait>(
    rt: &R,
    alloc: Global,
    modes: (&str, &str),
    schedule: &[u32],
    rows: &[Row],
) {
    let bench = dma_on_ram(rt, alloc, modes, WRITE);
    bench.expect_each(schedule, rows, &[(1, 0, 10, 0)], 0, &[0xaa]);
}

const ACCEPT: (&str, &str) = ("accept", "accept");

/// Number 0 is the initiator, 1 the memory.
#[test]
fn each_entry_is_a_step(rt: HostRuntime) {
    let (rt, alloc) = (&rt, rt.alloc());
    let by_memory = [0, 0, 0, 1, 1, 1, 0, 0, 0, 0];
    expect_write(rt, alloc, ACCEPT, &by_memory, &BY_ACCEPT);
    let (short, implied) = (("short", "complete"), [0, 0, 0, 1, 1, 0, 0, 0]);
    expect_write(rt, alloc, short, &implied, &BY_SHORT);
    let updated = ("end_req", "end_resp");
    expect_write(rt, alloc, updated, &implied, &BY_END_REQ);
    let by_return = ("begin_resp", "accept");
    expect_write(rt, alloc, by_return, &[0; 8], &BY_BEGIN_RESP);
    let complete = ("complete", "accept");
    expect_write(rt, alloc, complete, &[0; 7], &BY_COMPLETE);
}

/// Who finds nothing to do waits, numbers of no actor are passed over, and a memory has finished once its initiator has.
#[test]
fn other_steps_make_no_entry(rt: HostRuntime) {
    let bench = dma_on_ram(&rt, rt.alloc(), ACCEPT, WRITE);
    bench.expect(&[1, 1], &[], false);
    bench.expect(&[2, 0, u32::MAX, 0], &BY_ACCEPT[..2], false);
    bench.expect(&[0, 0, 0, 0, 0], &BY_ACCEPT[..3], false);
    let ahead = [0, 0, 0, 1, 0, 1, 0, 1, 1, 1];
    bench.expect(&ahead, &BY_ACCEPT[..6], false);
    let behind = [0, 0, 0, 1, 1, 1, 0, 0, 0, 0, 1, 0, 2, 1];
    bench.expect(&behind, &BY_ACCEPT, true);
}

/// An initiator without operations has finished by its first step.
#[test]
fn an_empty_script_takes_a_step(rt: HostRuntime) {
    let bench = dma_on_ram(&rt, rt.alloc(), ACCEPT, "");
    bench.expect(&[1], &[], false);
    bench.expect_each(&[0], &[], &[(0, 0, 0, 0)], 0, &[]);
}

const ONE_LANE: &str = "version = 1\n\
    [[initiator]]\nname = 'dma'\nstyle = 'fourphase'\nscript = 'a'\nbind = 'ram'\npool = 2\n\
    [[memory]]\nname = 'ram'\nsize = 16\nlatency = 10\nlanes = 1\n";

const TWO_WRITES: [Row; 18] = [
    ("take", 0, 0, 0, 0, 0),
    ("acquire", 0, 0, 0, 0, 0),
    ("BEGIN_REQ ACCEPTED", 0, 0, 0, 0, 0),
    ("take", 0, 1, 0, 1, 0),
    ("acquire", 0, 1, 0, 1, 0),
    ("END_REQ ACCEPTED", 0, 0, 0, 0, 0),
    ("fourphase", 0, 0, 0, 0, 0),
    ("BEGIN_RESP ACCEPTED", 0, 0, 0, 0, 10),
    ("END_RESP COMPLETED", 0, 0, 0, 0, 10),
    ("release", 0, 0, 0, 0, 10),
    ("freed", 0, 0, 0, 0, 10),
    ("BEGIN_REQ ACCEPTED", 0, 0, 0, 1, 0),
    ("END_REQ ACCEPTED", 0, 0, 0, 1, 0),
    ("fourphase", 0, 0, 0, 1, 0),
    ("BEGIN_RESP ACCEPTED", 0, 0, 0, 1, 10),
    ("END_RESP COMPLETED", 0, 0, 0, 1, 10),
    ("release", 0, 1, 0, 1, 10),
    ("freed", 0, 1, 0, 1, 10),
];

/// The second BEGIN_REQ is asked for before each step of the memory, and waits for the first END_RESP.
#[test]
fn a_lane_is_free_after_end_resp(rt: HostRuntime) {
    let scripts = ["write 0x0 aa\nwrite 0x1 bb\n"];
    let bench = Bench::new(&rt, rt.alloc(), ONE_LANE, &scripts);
    let asked = [0, 0, 0, 0, 0, 0, 1, 0, 1, 0, 1];
    bench.expect_cut(&asked, &TWO_WRITES[..8], &[0xaa]);
    // A write beyond the cut isn't in the memory.
    bench.expect_cut(&asked[..7], &TWO_WRITES[..6], &[]);
    let whole = [0, 0, 0, 0, 0, 1, 1, 1, 0, 0, 0, 0, 1, 1, 1, 0, 0, 0, 0];
    bench.expect_each(&whole, &TWO_WRITES, &[(2, 0, 10, 0)], 0, &[0xaa, 0xbb]);
}

/// A four-phase initiator before a router and a memory. Hop 0 leads to the router, hop 1 from it to the memory.
pub(crate) const ON_BUS: &str = "version = 1\n\
    [[initiator]]\nname = 'dma'\nstyle = 'fourphase'\nscript = 'a'\nbind = 'bus'\n\
    [[router]]\nname = 'bus'\nlatency = 5\n\
    [[router.window]]\nfirst = 0\nlast = 0xff\nto = 'ram'\n\
    [[memory]]\nname = 'ram'\nsize = 256\nlatency = 10\n";

/// The memory makes its entries before the router has made END_REQ above.
const THROUGH: [Row; 15] = [
    ("take", 0, 0, 0, 0, 0),
    ("acquire", 0, 0, 0, 0, 0),
    ("BEGIN_REQ ACCEPTED", 0, 0, 0, 0, 0),
    ("acquire", 0, 0, 0, 0, 5),
    ("BEGIN_REQ ACCEPTED", 1, 0, 0, 0, 5),
    ("END_REQ ACCEPTED", 1, 0, 0, 0, 5),
    ("fourphase", 0, 0, 0, 0, 5),
    ("BEGIN_RESP ACCEPTED", 1, 0, 0, 0, 15),
    ("END_REQ ACCEPTED", 0, 0, 0, 0, 5),
    ("BEGIN_RESP ACCEPTED", 0, 0, 0, 0, 15),
    ("END_RESP COMPLETED", 0, 0, 0, 0, 15),
    ("END_RESP COMPLETED", 1, 0, 0, 0, 15),
    ("release", 0, 0, 0, 0, 15),
    ("release", 0, 0, 0, 0, 15),
    ("freed", 0, 0, 0, 0, 15),
];

/// Number 0 is the initiator, 1 the router, 2 the memory. The initiator gives up its references between END_RESP and the
/// Release below, or after them.
#[test]
fn a_router_passes_an_entry_at_a_time(rt: HostRuntime) {
    let bench = Bench::new(&rt, rt.alloc(), ON_BUS, &[WRITE]);
    let between = [0, 0, 0, 1, 1, 2, 2, 2, 1, 1, 0, 1, 0, 0, 1, 0];
    bench.expect_each(&between, &THROUGH, &[(1, 0, 15, 0)], 0, &[0xaa]);
    let after = [0, 0, 0, 1, 1, 2, 2, 2, 1, 1, 0, 1, 1, 0, 0, 0];
    bench.expect_each(&after, &THROUGH, &[(1, 0, 15, 0)], 0, &[0xaa]);
    // All wait after BEGIN_REQ without a step of the router, and the initiator at its end until the Release below.
    let never = [0, 2, 0, 2, 0, 2, 0, 0, 2, 0];
    bench.expect(&never, &THROUGH[..3], false);
    let before = [0, 0, 0, 1, 1, 2, 2, 2, 1, 1, 0, 1, 0, 0, 0, 2, 0];
    bench.expect(&before, &THROUGH[..14], false);
}

/// No window holds the address, so the router answers itself.
const REFUSED: [Row; 7] = [
    ("take", 0, 0, 0, 0, 0),
    ("acquire", 0, 0, 0, 0, 0),
    ("BEGIN_REQ ACCEPTED", 0, 0, 0, 0, 0),
    ("BEGIN_RESP ACCEPTED", 0, 0, 0, 0, 5),
    ("END_RESP COMPLETED", 0, 0, 0, 0, 5),
    ("release", 0, 0, 0, 0, 5),
    ("freed", 0, 0, 0, 0, 5),
];

/// A step of the router afterwards adds nothing, though it still holds the transaction.
#[test]
fn a_router_answers_without_a_window(rt: HostRuntime) {
    let bench = Bench::new(&rt, rt.alloc(), ON_BUS, &["write 0x1000 aa\n"]);
    let whole = [0, 0, 0, 1, 0, 0, 0, 0];
    bench.expect_each(&whole, &REFUSED, &[(1, 0, 5, 1)], 0, &[]);
    bench.expect(&[0, 0, 0, 1, 0, 0, 0, 1], &REFUSED, false);
    bench.expect(&[0, 0, 0, 1, 0, 0, 0, 0, 1], &REFUSED, true);
}

const IN_HASTE: &str = "version = 1\n\
    [[initiator]]\nname = 'dma'\nstyle = 'fourphase'\nscript = 'a'\nbind = 'bus'\nresponse = 'complete'\n\
    [[router]]\nname = 'bus'\nlatency = 5\naccept = 'end_req'\n\
    [[router.window]]\nfirst = 0\nlast = 0xff\nto = 'ram'\n\
    [[memory]]\nname = 'ram'\nsize = 256\nlatency = 10\nreply = 'complete'\n";

/// The router makes the access below, and gives up its reference after the transaction has ended above.
const ENDED_BELOW: [Row; 10] = [
    ("take", 0, 0, 0, 0, 0),
    ("acquire", 0, 0, 0, 0, 0),
    ("BEGIN_REQ UPDATED END_REQ", 0, 0, 0, 0, 0),
    ("acquire", 0, 0, 0, 0, 5),
    ("BEGIN_REQ COMPLETED", 1, 0, 0, 0, 5),
    ("fourphase", 0, 0, 0, 0, 5),
    ("BEGIN_RESP COMPLETED", 0, 0, 0, 0, 15),
    ("release", 0, 0, 0, 0, 15),
    ("release", 0, 0, 0, 0, 15),
    ("freed", 0, 0, 0, 0, 15),
];

#[test]
fn a_router_serves_what_ends_below(rt: HostRuntime) {
    let bench = Bench::new(&rt, rt.alloc(), IN_HASTE, &[WRITE]);
    let whole = [0, 0, 0, 1, 1, 1, 1, 0, 0, 1, 0];
    bench.expect_each(&whole, &ENDED_BELOW, &[(1, 0, 15, 0)], 0, &[0xaa]);
}

/// Hop 0 leads to the bus, 1 from it to the bridge, 2 to the memory.
const ON_BRIDGE: &str = "version = 1\n\
    [[initiator]]\nname = 'dma'\nstyle = 'fourphase'\nscript = 'a'\nbind = 'bus'\npool = 1\n\
    [[router]]\nname = 'bus'\nlatency = 5\n\
    [[router.window]]\nfirst = 0\nlast = 0xff\nto = 'bridge'\n\
    [[router]]\nname = 'bridge'\nlatency = 7\n\
    [[router.window]]\nfirst = 0\nlast = 0xff\nto = 'ram'\n\
    [[memory]]\nname = 'ram'\nsize = 16\nlatency = 10\n";

/// The first of two writes, and the second take.
const ONE_SLOT: [Row; 22] = [
    ("take", 0, 0, 0, 0, 0),
    ("acquire", 0, 0, 0, 0, 0),
    ("BEGIN_REQ ACCEPTED", 0, 0, 0, 0, 0),
    ("acquire", 0, 0, 0, 0, 5),
    ("BEGIN_REQ ACCEPTED", 1, 0, 0, 0, 5),
    ("END_REQ ACCEPTED", 0, 0, 0, 0, 5),
    ("acquire", 0, 0, 0, 0, 12),
    ("BEGIN_REQ ACCEPTED", 2, 0, 0, 0, 12),
    ("END_REQ ACCEPTED", 1, 0, 0, 0, 12),
    ("END_REQ ACCEPTED", 2, 0, 0, 0, 12),
    ("fourphase", 0, 0, 0, 0, 12),
    ("BEGIN_RESP ACCEPTED", 2, 0, 0, 0, 22),
    ("BEGIN_RESP ACCEPTED", 1, 0, 0, 0, 22),
    ("BEGIN_RESP ACCEPTED", 0, 0, 0, 0, 22),
    ("END_RESP COMPLETED", 0, 0, 0, 0, 22),
    ("release", 0, 0, 0, 0, 22),
    ("release", 0, 0, 0, 0, 22),
    ("END_RESP COMPLETED", 1, 0, 0, 0, 22),
    ("release", 0, 0, 0, 0, 22),
    ("END_RESP COMPLETED", 2, 0, 0, 0, 22),
    ("freed", 0, 0, 0, 0, 22),
    ("take", 0, 0, 0, 1, 0),
];

/// The only slot is free again after the Release of the last router.
#[test]
fn a_second_write_waits_for_the_slot(rt: HostRuntime) {
    let scripts = ["write 0x0 aa\nwrite 0x1 bb\n"];
    let bench = Bench::new(&rt, rt.alloc(), ON_BRIDGE, &scripts);
    let next = [
        0, 0, 0, 1, 1, 1, 2, 2, 2, 3, 3, 3, 2, 1, 0, 0, 0, 0, 1, 1, 0, 2, 0,
    ];
    bench.expect(&next, &ONE_SLOT[..20], false);
    let next = [
        0, 0, 0, 1, 1, 1, 2, 2, 2, 3, 3, 3, 2, 1, 0, 0, 0, 1, 1, 2, 2, 0,
    ];
    bench.expect(&next, &ONE_SLOT, false);
}
