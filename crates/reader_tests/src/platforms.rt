// Platform files.
use platform_file::read_platform;
use std::alloc::Global;
use std::process::Abort;
use tlm_model::{InitiatorRow, MemoryRow, Platform, RouterRow, Style, Target, WindowRow};
use tlm_types::{ReqMode, RespMode};

// A platform with a value of each key that is no default.
const BASE: &str = "# One initiator, which reaches a memory through a router.
version = 1
quantum = 7
[[initiator]]
name = 'cpu'
style = 'direct'
script = 'a.txt'
bind = 'bus'
pool = 2
response = 'end_resp'
[[router]]
name = 'bus'
latency = 5
accept = 'end_req'
lanes = 3
[[router.window]]
first = 1000
last = 1255
to = 'ram'
base = 16
[[memory]]
name = 'ram'
size = 512
latency = 9
read = true
write = false
byte_enables = false
streaming = false
dmi = false
gates = 32
reply = 'short'
lanes = 6
";

fn is_the_initiator(row: &InitiatorRow) -> bool {
    row.name.as_text() == "cpu"
        && row.style == Style::Direct
        && row.bind == Target::Router(0)
        && row.script.as_text() == "a.txt"
        && row.pool == 2
        && row.response == RespMode::EndResp
}

fn is_the_window(row: &WindowRow) -> bool {
    row.first == 1000 && row.last == 1255 && row.base == 16 && row.to == Target::Memory(0)
}

fn is_the_router(row: &RouterRow) -> bool {
    row.name.as_text() == "bus"
        && row.latency == 5
        && row.accept == ReqMode::EndReq
        && row.lanes == 3
        && matches!(row.windows.as_slice(), [window] if is_the_window(window))
}

fn is_the_memory(row: &MemoryRow) -> bool {
    row.name.as_text() == "ram"
        && row.traits.size == 512
        && row.traits.latency == 9
        && row.reply == ReqMode::Short
        && row.lanes == 6
}

fn is_the_platform(platform: &Platform) -> bool {
    platform.quantum == 7
        && matches!(platform.initiators.as_slice(), [row] if is_the_initiator(row))
        && matches!(platform.routers.as_slice(), [row] if is_the_router(row))
        && matches!(platform.memories.as_slice(), [row] if is_the_memory(row))
}

// Whether the text is read, as the base.
fn is_base(alloc: Global, text: &str) -> bool {
    match read_platform(alloc, text.as_bytes()) {
        Ok(platform) => is_the_platform(&platform),
        Err(_) => false,
    }
}

#[test]
fn a_platform_is_read(rt: HostRuntime) {
    assert!(rt; is_base(rt.alloc(), BASE));
}

// What is changed in the base, what stands in its place, and the answer behind `platform refused: `.
static CHANGES: [(&str, &str, &str); 20] = [
    ("quantum = 7", "b = 1\nB = 2", "unknown_key platform B"),
    ("version = 1", "", "missing_key platform version"),
    (
        "version = 1",
        "version = 3",
        "out_of_range platform version",
    ),
    (
        "read = true",
        "read = true\nfetch_add = true",
        "unknown_key memory[0] fetch_add",
    ),
    (
        "latency = 5",
        "latency = '5'",
        "wrong_type router[0] latency",
    ),
    (
        "quantum = 7",
        "quantum = -1",
        "out_of_range platform quantum",
    ),
    ("'cpu'", "'Cpu'", "bad_name initiator[0] name"),
    (
        "'end_resp'",
        "'end_req'",
        "unknown_word initiator[0] response",
    ),
    ("'end_req'", "'short'", "unknown_word router[0] accept"),
    ("'end_req'", "'begin_resp'", "unknown_word router[0] accept"),
    ("'end_req'", "'complete'", "unknown_word router[0] accept"),
    ("read = true", "read = false", "no_access memory[0] read"),
    ("name = 'bus'", "name = 'cpu'", "name_twice router[0] name"),
    (
        "bind = 'bus'",
        "bind = 'x'",
        "unknown_target initiator[0] bind",
    ),
    (
        "last = 1255",
        "last = 999",
        "empty_window router[0].window[0] first",
    ),
    (
        "base = 16",
        "base = 9223372036854775553",
        "past_end router[0].window[0] base",
    ),
    (
        "base = 16",
        "base = 16\n[[router.window]]\nfirst = 1255\nlast = 1255\nto = 'ram'",
        "overlap router[0].window[1] window[0]",
    ),
    (
        "size = 512",
        "size = 16777217",
        "out_of_range memory[0] size",
    ),
    (
        "last = 1255",
        "last = 9223372036854775808",
        "syntax platform -",
    ),
    ("quantum = 7", "version = 1", "syntax platform -"),
];

fn answer(rt: &impl Abort, alloc: Global, bytes: &[u8]) -> String {
    let said = match read_platform(alloc, bytes) {
        Ok(_) => String::from_str(alloc, "ok"),
        Err(fault) => format!(in alloc; "{fault}"),
    };
    said.expect(rt, "memory")
}

// How the base is answered with a change.
fn changed_answer(rt: &impl Abort, alloc: Global, old: &str, new: &str) -> String {
    let text = BASE.replacen(alloc, old, new, 1).expect(rt, "memory");
    answer(rt, alloc, text.as_str().as_bytes())
}

#[test]
fn platforms_are_refused(rt: HostRuntime) {
    for (old, new, wanted) in &CHANGES {
        let said = changed_answer(&rt, rt.alloc(), old, new);
        let code = said.as_str().strip_prefix("platform refused: ");
        assert!(rt; code == Some(*wanted), "{new}");
    }
}

// Bytes that aren't UTF-8 are no document, nor is one that is nested a hundred thousand times.
#[test]
fn other_bytes_are_no_document(rt: HostRuntime) {
    let wanted = "platform refused: syntax platform -";
    assert!(rt; answer(&rt, rt.alloc(), &[0x23, 0xff]).as_str() == wanted);
    let nested = vec![in rt.alloc(); b'['; 100_000].expect(&rt, "memory");
    assert!(rt; answer(&rt, rt.alloc(), &nested).as_str() == wanted);
}
