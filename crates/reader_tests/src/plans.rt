// Shapes of platforms, and plans.
ghost use Rattle.std.specs.Prelude.{◌≡◌, length};

use platform_file::read_platform;
use platform_shape::{Shape, shape};
use route_plan::{Down, HopEnds, Plan, Route, Up, plan};
use std::alloc::Global;
use std::process::Abort;
use tlm_types::ObjectNo;
use traffic_script::{Script, read_script};

// How the shape of a platform is answered.
fn shape_answer(rt: &impl Abort, alloc: Global, text: &str) -> String {
    let platform = read_platform(alloc, text.as_bytes()).expect(rt, "a platform");
    let said = match shape(alloc, &platform) {
        Ok(_) => String::from_str(alloc, "ok"),
        Err(fault) => format!(in alloc; "{fault}"),
    };
    said.expect(rt, "memory")
}

// A window of one address.
fn window(rt: &impl Abort, alloc: Global, at: u32, to: &str) -> String {
    let text = format!(in alloc; "[[router.window]]\nfirst = {at}\nlast = {at}\nto = '{to}'\n");
    text.expect(rt, "memory")
}

// Adds a router of this number whose windows all lead to one component.
fn add_router(
    rt: &impl Abort,
    alloc: Global,
    text: &mut String,
    number: u32,
    windows: u32,
    to: &str,
) {
    let head = format!(in alloc; "[[router]]\nname = 'r{number}'\n").expect(rt, "memory");
    text.push_str(head.as_str()).expect(rt, "memory");
    for at in 0..windows {
        let row = window(rt, alloc, at, to);
        text.push_str(row.as_str()).expect(rt, "memory");
    }
}

// Adds a chain of so many routers, at whose end is a memory.
fn add_routers(rt: &impl Abort, alloc: Global, text: &mut String, routers: u32, windows: u32) {
    for number in 1..routers {
        let next = format!(in alloc; "r{}", number + 1).expect(rt, "memory");
        add_router(rt, alloc, text, number, windows, next.as_str());
    }
    add_router(rt, alloc, text, routers, windows, "ram");
}

// An initiator before a chain of routers of so many windows each.
const HEAD: &str = "version = 1
[[initiator]]
name = 'cpu'
style = 'blocking'
script = 'a'
bind = 'r1'
";

const RAM: &str = "[[memory]]
name = 'ram'
size = 16
";

// How such a chain is answered.
fn chain_answer(rt: &impl Abort, alloc: Global, routers: u32, windows: u32) -> String {
    let mut text = String::from_str(alloc, HEAD).expect(rt, "memory");
    add_routers(rt, alloc, &mut text, routers, windows);
    text.push_str(RAM).expect(rt, "memory");
    shape_answer(rt, alloc, text.as_str())
}

// Nine routers in a row are too deep, which is told before their 16 to the 9th paths.
#[test]
fn paths_have_at_most_eight_routers(rt: HostRuntime) {
    assert!(rt; chain_answer(&rt, rt.alloc(), 8, 1).as_str() == "ok");
    let nine = chain_answer(&rt, rt.alloc(), 9, 16);
    assert!(rt; nine.as_str() == "platform refused: too_deep initiator[0] bind");
}

// Two initiators: one on a bus that leads to a memory and to a second router, one on that router.
const BUSES: &str = "version = 1
[[initiator]]
name = 'cpu'
style = 'blocking'
script = 'a'
bind = 'bus'
[[initiator]]
name = 'dma'
style = 'blocking'
script = 'b'
bind = 'io'
[[router]]
name = 'bus'
latency = 5
[[router.window]]
first = 0
last = 0xfff
to = 'ram'
[[router.window]]
first = 0x1000
last = 0x1fff
to = 'io'
base = 0x100
[[router]]
name = 'io'
latency = 7
[[router.window]]
first = 0x100
last = 0x1ff
to = 'rom'
base = 0x10
[[memory]]
name = 'ram'
size = 4096
latency = 20
[[memory]]
name = 'rom'
size = 512
latency = 30
";

fn shape_of(rt: &impl Abort, alloc: Global, text: &str) -> Shape {
    let platform = read_platform(alloc, text.as_bytes()).expect(rt, "a platform");
    shape(alloc, &platform).expect(rt, "a shape")
}

// The buses with this style of the first initiator.
fn buses_with(rt: &impl Abort, alloc: Global, style: &str) -> String {
    BUSES
        .replacen(alloc, "'blocking'", style, 1)
        .expect(rt, "memory")
}

// Two scripts.
fn two_scripts(rt: &impl Abort, alloc: Global, first: &str, second: &str) -> Vec<Script>
    ensures { length result.items ≡ 2 }
{
    let first = read_script(alloc, first.as_bytes(), 1).expect(rt, "a script");
    let second = read_script(alloc, second.as_bytes(), 1).expect(rt, "a script");
    vec![in alloc; first, second].expect(rt, "memory")
}

// Buses, which have two initiators.
fn buses_shape(rt: &impl Abort, alloc: Global, text: &str) -> Shape
    ensures { length result.initiators ≡ 2 }
{
    let shape = shape_of(rt, alloc, text);
    assert!(rt; shape.platform().initiators.as_slice().len() == 2);
    shape
}

// The plan of buses with these scripts.
fn buses_plan(rt: &impl Abort, alloc: Global, text: &str, first: &str, second: &str) -> Plan
    ensures initiators { length result.platform.initiators ≡ 2 }
    ensures memories { length result.platform.memories ≡ 2 }
    ensures routers { length result.platform.routers ≡ 2 }
{
    let shape = buses_shape(rt, alloc, text);
    let scripts = two_scripts(rt, alloc, first, second);
    let plan = plan(alloc, shape, scripts.as_slice()).expect(rt, "a plan");
    assert!(rt; plan.platform().initiators.as_slice().len() == 2);
    assert!(rt; plan.platform().memories.as_slice().len() == 2);
    assert!(rt; plan.platform().routers.as_slice().len() == 2);
    plan.copy(alloc).expect(rt, "memory")
}

// The same of the buses as they are.
fn buses(rt: &impl Abort, alloc: Global, first: &str, second: &str) -> Plan
    ensures initiators { length result.platform.initiators ≡ 2 }
    ensures memories { length result.platform.memories ≡ 2 }
    ensures routers { length result.platform.routers ≡ 2 }
{
    buses_plan(rt, alloc, BUSES, first, second)
}

const NEAR: Route = Route {
    memory: 0,
    offset: 0xfff,
    before: 5,
    latency: 25,
};

const FAR: Route = Route {
    memory: 1,
    offset: 0x10f,
    before: 12,
    latency: 42,
};

#[test]
fn addresses_lead_through_windows(rt: HostRuntime) {
    let plan = buses(&rt, rt.alloc(), "read 0x10 4\n", "");
    assert!(rt; plan.route(0, 0xfff) == Some(NEAR) && plan.route(0, 0x10ff) == Some(FAR));
    assert!(rt; plan.hops(0, 0xfff, 2).is_none() && plan.hops(0, 0x10ff, 2) == Some(4));
    assert!(rt; plan.route(0, 0x1100).is_none() && plan.route(0, 0x2000).is_none());
}

// From the second window of the first router to the second router.
const ENDS: HopEnds = HopEnds {
    up: Up::Router {
        router: 0,
        window: 1,
    },
    down: Down::Router(1),
};

#[test]
fn plans_keep_what_they_were_made_of(rt: HostRuntime) {
    let plan = buses(&rt, rt.alloc(), "read 0x10 4\n", "");
    assert!(rt; plan.hop_ends(3) == Some(ENDS) && plan.hop_ends(5).is_none());
    assert!(rt; plan.script(0).len() == 1 && plan.script(1).len() == 0);
    assert!(rt; plan.windows(0).decode(0x1001) == Some((1, 0x101)));
}

// It asks 8 times for the memory `ram`: a write of 4 bytes with 2 enables, a debug read of 10 bytes, a
// copy of 8 bytes, which go to `rom`, an addition, which reads 4 bytes and writes them, and three reads
// of 16 bytes. An address in a hole counts nothing.
const MIXED: &str = "write 0x10 deadbeef be=ff00
debug 0x20 10
copy 0x0 0x1000 8
add 0x4 1
read 0x2000 4
repeat 3
read 0x8 16
end
wait 5
sync
fence
";

// It asks twice for the memory `rom`: a read of 4 bytes with 4 enables, and an ignored access.
const SMALL: &str = "read 0x100 4 be=ffffffff
ignore 0x104
debug 0x0 10
";

#[test]
fn plans_are_counted(rt: HostRuntime) {
    let plan = buses(&rt, rt.alloc(), MIXED, SMALL);
    let (ram, rom) = (ObjectNo::Memory(0), ObjectNo::Memory(1));
    assert!(rt; plan.share(0, ram) == 8 && plan.logged_by(0, 0) == 80);
    assert!(rt; plan.share(1, ram) == 0 && plan.logged_by(1, 1) == 8);
    assert!(rt; plan.entries(rom) == 3 && plan.logged(1) == 16);
}

// Blocking initiators pass no hops, and have no use for a pool.
#[test]
fn hops_and_pools_of_blocking_initiators_have_no_entries(rt: HostRuntime) {
    let plan = buses(&rt, rt.alloc(), MIXED, SMALL);
    assert!(rt; plan.hop_ends(4).is_some());
    assert!(rt; plan.entries(ObjectNo::Hop(4)) == 0);
    assert!(rt; plan.share(1, ObjectNo::Pool(0)) == 0);
}

// The buses where the first initiator is four-phase, with the mixed script. It makes nine accesses: a
// write, the two of the copy, the two of the addition, the read in a hole, and three reads. All nine pass
// its binding, hop 0. Seven go on to `ram` by hop 2, and the write of the copy to `rom` by hops 3 and 4;
// the read in the hole goes no further. That is 4 entries for each passage, and at its pool 2 for each
// access and 2 for each of the 18 passages. The memory has as many as with a blocking initiator.
fn fourphase_buses(rt: &impl Abort, alloc: Global) -> Plan
    ensures initiators { length result.platform.initiators ≡ 2 }
    ensures memories { length result.platform.memories ≡ 2 }
{
    let text = buses_with(rt, alloc, "'fourphase'");
    buses_plan(rt, alloc, text.as_str(), MIXED, SMALL)
}

#[test]
fn hops_are_counted(rt: HostRuntime) {
    let plan = fourphase_buses(&rt, rt.alloc());
    assert!(rt; plan.hop_ends(4).is_some());
    assert!(rt; plan.entries(ObjectNo::Hop(0)) == 36 && plan.entries(ObjectNo::Hop(1)) == 0);
    assert!(rt; plan.entries(ObjectNo::Hop(2)) == 28 && plan.entries(ObjectNo::Hop(3)) == 4);
    assert!(rt; plan.share(0, ObjectNo::Hop(4)) == 4 && plan.share(1, ObjectNo::Hop(4)) == 0);
}

#[test]
fn pools_are_counted(rt: HostRuntime) {
    let plan = fourphase_buses(&rt, rt.alloc());
    assert!(rt; plan.share(0, ObjectNo::Pool(0)) == 54 && plan.share(1, ObjectNo::Pool(0)) == 0);
    assert!(rt; plan.entries(ObjectNo::Pool(0)) == 54 && plan.entries(ObjectNo::Pool(1)) == 0);
    assert!(rt; plan.share(0, ObjectNo::Memory(0)) == 8 && plan.entries(ObjectNo::Memory(1)) == 3);
}

// How the plan of the buses with this script is answered.
fn planned(rt: &impl Abort, alloc: Global, text: &str) -> String {
    let shape = buses_shape(rt, alloc, BUSES);
    let scripts = two_scripts(rt, alloc, text, "");
    let said = match plan(alloc, shape, scripts.as_slice()) {
        Ok(_) => String::from_str(alloc, "ok"),
        Err(fault) => format!(in alloc; "{fault}"),
    };
    said.expect(rt, "memory")
}

// A plan may log 67,108,864 bytes: 16,384 times 4,096. What isn't routed logs nothing.
#[test]
fn logged_data_is_limited(rt: HostRuntime) {
    let most = "repeat 16384\nread 0x0 4096\nend\nread 0x2000 1\n";
    assert!(rt; planned(&rt, rt.alloc(), most).as_str() == "ok");
    let more = "repeat 16384\nread 0x0 4096\nend\nread 0x0 1\n";
    let said = planned(&rt, rt.alloc(), more);
    assert!(rt; said.as_str() == "platform refused: too_much_data platform -");
}
