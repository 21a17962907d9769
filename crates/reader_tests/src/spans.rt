// Windows of routers.
use addr_router::{Window, WindowFault, Windows};
use std::alloc::Global;
use std::process::Abort;

const LOW: Window = Window {
    first: 0x100,
    last: 0x17f,
    port: 0,
    base: 0x40,
};

const HIGH: Window = Window {
    first: 0x200,
    last: 0x200,
    port: 1,
    base: 0,
};

// A bus with a hole between its two windows.
fn bus(rt: &impl Abort, alloc: Global) -> Windows {
    let rows = vec![in alloc; LOW, HIGH].expect(rt, "memory");
    Windows::new(rows).expect(rt, "windows")
}

// A range below the only window of port 0, as it is above.
fn up(rt: &impl Abort, bus: &Windows, first: u64, last: u64) -> Option<(u64, u64)> {
    let count = bus.rows().iter().filter(|window| window.port == 0).count();
    assert!(rt; count == 1);
    bus.translate_up(first, last, 0)
}

#[test]
fn addresses_go_down_and_ranges_up(rt: HostRuntime) {
    let bus = bus(&rt, rt.alloc());
    assert!(rt; bus.rows().len() == 2);
    assert!(rt; bus.decode(0x17f) == Some((0, 0xbf)) && bus.decode(0x180).is_none());
    assert!(rt; up(&rt, &bus, 0x50, 0x60) == Some((0x110, 0x120)));
}

static FAULTS: [(WindowFault, &str); 4] = [
    (WindowFault::Empty { row: 3 }, "window 3 is empty"),
    (
        WindowFault::PastEnd { row: 4 },
        "window 4 goes past the greatest address",
    ),
    (
        WindowFault::Overlap { a: 1, b: 2 },
        "windows 1 and 2 overlap",
    ),
    (WindowFault::Memory, "out of memory"),
];

#[test]
fn faults_name_their_rows(rt: HostRuntime) {
    for (fault, text) in &FAULTS {
        let said = format!(in rt.alloc(); "{fault}").expect(&rt, "memory");
        assert!(rt; said.as_str() == *text, "{text}");
    }
}
