// The generic payload.
ghost use Rattle.std.specs.Prelude.{◌≡◌, ◌≤◌};
ghost use Rattle.std.specs.List.{list_all};
ghost use Rattle.tlm_types.specs.Enables.{is_enable};

use generic_payload::Payload;
use std::alloc::Global;
use std::process::Abort;
use tlm_types::{Command, MemoryTraits, Response};

// A memory that allows everything.
const OPEN: MemoryTraits = MemoryTraits {
    size: 16,
    latency: 10,
    readable: true,
    writable: true,
    fetch_add: true,
    enables: true,
    streaming: true,
    dmi: true,
    gates: 1,
};

fn open_memory(size: u64) -> MemoryTraits
    ensures { result.size ≡ size }
{
    MemoryTraits { size, ..OPEN }
}

fn is_new(payload: &Payload) -> bool {
    payload.command() == Command::Ignore
        && payload.address() == 0
        && payload.bytes().is_empty()
        && payload.enables().is_empty()
        && payload.width() == 0
        && payload.status() == Response::Incomplete
        && !payload.hint()
}

// Sets each attribute.
fn set_all(payload: &mut Payload)
    requires { 2 ≤ payload.old.room }
    ensures { payload.new.room ≡ payload.old.room }
{
    payload.set_write(0x10, &[1, 2], 2);
    payload.set_enables(&[0xff, 0x00]);
    payload.set_status(Response::Ok);
    payload.set_hint(true);
    payload.set_address(0x20);
}

fn has_all(payload: &Payload) -> bool {
    payload.command() == Command::Write
        && payload.address() == 0x20
        && payload.bytes() == [1, 2].as_slice()
        && payload.enables() == [0xff, 0x00].as_slice()
        && payload.width() == 2
        && payload.status() == Response::Ok
        && payload.hint()
}

#[test]
fn new_payload_has_the_standard_values(rt: HostRuntime) {
    let mut payload = Payload::with_room(rt.alloc(), 8).expect(&rt, "memory");
    set_all(&mut payload);
    assert!(rt; has_all(&payload));
    payload.reset();
    assert!(rt; is_new(&payload) && payload.room() == 8);
    let fresh = Payload::with_room(rt.alloc(), 3).expect(&rt, "memory");
    assert!(rt; is_new(&fresh) && fresh.room() == 3);
}

fn is_the_read(payload: &Payload) -> bool {
    payload.command() == Command::Read
        && payload.address() == 0x8
        && payload.bytes() == [0, 0, 0].as_slice()
        && payload.enables().is_empty()
        && payload.width() == 9
        && payload.status() == Response::Incomplete
        && !payload.hint()
}

fn is_the_ignored(payload: &Payload) -> bool {
    payload.command() == Command::Ignore
        && payload.address() == 0xfff
        && payload.bytes().is_empty()
        && payload.width() == 0
        && payload.check(&open_memory(1)) == Response::Ok
}

#[test]
fn commands_begin_anew(rt: HostRuntime) {
    let mut payload = Payload::with_room(rt.alloc(), 4).expect(&rt, "memory");
    set_all(&mut payload);
    payload.set_read(0x8, 3, 9);
    assert!(rt; is_the_read(&payload));
    payload.set_ignore(0xfff);
    assert!(rt; is_the_ignored(&payload));
}

fn are_enables(elements: &[u8]) -> bool
    ensures { result ≡ list_all is_enable elements.now }
{
    elements
        .iter()
        .all(|element| *element == 0x00 || *element == 0xff)
}

// A write of some of eight bytes.
fn write_of(
    rt: &impl Abort,
    alloc: Global,
    address: u64,
    bytes: &[u8],
    enables: &[u8],
    width: u64,
) -> Payload
    ensures { result.command ≡ Command.Write }
{
    assert!(rt; !bytes.is_empty() && bytes.len() <= 8 && enables.len() <= 8);
    assert!(rt; are_enables(enables));
    let mut payload = Payload::with_room(alloc, 8).expect(rt, "memory");
    payload.set_write(address, bytes, width);
    payload.set_enables(enables);
    payload
}

// A write, and a memory's bytes before and after it.
struct Row<'a> {
    address: u64,
    bytes: &'a [u8],
    enables: &'a [u8],
    width: u64,
    before: &'a [u8],
    after: &'a [u8],
}

// Enables repeat over the bytes, which stream to two places.
const WRITE: Row<'static> = Row {
    address: 1,
    bytes: &[1, 2, 3, 4, 5],
    enables: &[0xff, 0xff, 0xff, 0x00],
    width: 2,
    before: &[6; 4],
    after: &[6, 5, 2, 6],
};

// Whether the memory has these bytes after the write.
fn writes(rt: &impl Abort, alloc: Global, row: &Row) -> bool {
    let payload = write_of(rt, alloc, row.address, row.bytes, row.enables, row.width);
    let mut store = Vec::from_slice(alloc, row.before).expect(rt, "memory");
    let status = payload.check(&open_memory(store.len() as u64));
    assert!(rt; status == Response::Ok);
    payload.write_into(&mut store);
    store.as_slice() == row.after
}

#[test]
fn writes_enabled_bytes_to_their_places(rt: HostRuntime) {
    assert!(rt; writes(&rt, rt.alloc(), &WRITE));
}

// Reads the memory's bytes, which the check finds in order.
fn read_from(rt: &impl Abort, payload: &mut Payload, store: &[u8])
    requires { payload.old.command ≡ Command.Read }
    ensures same { (payload.new.command ≡ Command.Read) × (payload.new.room ≡ payload.old.room) }
{
    let status = payload.check(&open_memory(store.len() as u64));
    assert!(rt; status == Response::Ok);
    payload.read_from(store);
}

#[test]
fn reads_leave_disabled_bytes(rt: HostRuntime) {
    let mut payload = Payload::with_room(rt.alloc(), 8).expect(&rt, "memory");
    payload.set_read(2, 4, 4);
    read_from(&rt, &mut payload, &[9, 9, 1, 2, 3, 4]);
    assert!(rt; payload.bytes() == [1, 2, 3, 4].as_slice());
    payload.set_enables(&[0xff, 0x00]);
    read_from(&rt, &mut payload, &[9, 9, 5, 6, 7, 8]);
    assert!(rt; payload.bytes() == [5, 2, 7, 4].as_slice());
    assert!(rt; payload.address() == 2 && payload.status() == Response::Incomplete);
}

// Whether the memory may be written, the address of a write of one byte, its enables and its width,
// and its status at a memory without enables.
type Check = (bool, u64, &'static [u8], u64, Response);

static CHECKS: [Check; 7] = [
    (true, 0, &[], 1, Response::Ok),
    (true, 0, &[], 0, Response::BurstError),
    (true, 0, &[0xff], 1, Response::ByteEnableError),
    (true, 0, &[0xff], 0, Response::ByteEnableError),
    (false, 0xf, &[0xff], 0, Response::CommandError),
    (false, 0x10, &[0xff], 0, Response::AddressError),
    (false, u64::MAX, &[0xff], 0, Response::AddressError),
];

fn has_its_status(rt: &impl Abort, alloc: Global, row: &Check) -> bool {
    let (writable, address, enables, width, status) = *row;
    let memory = MemoryTraits {
        writable,
        enables: false,
        ..OPEN
    };
    write_of(rt, alloc, address, &[0xaa], enables, width).check(&memory) == status
}

#[test]
fn checks_in_order(rt: HostRuntime) {
    for row in &CHECKS {
        assert!(rt; has_its_status(&rt, rt.alloc(), row));
    }
}

// Whether a debug read of three bytes at a memory of four moves so many, and has these.
fn debug_reads(rt: &impl Abort, alloc: Global, address: u64, moved: u64, bytes: &[u8]) -> bool {
    let mut payload = Payload::with_room(alloc, 3).expect(rt, "memory");
    payload.set_read(address, 3, 1);
    payload.set_enables(&[0x00]);
    payload.debug_from(&[1, 2, 3, 4]) == moved && payload.bytes() == bytes
}

#[test]
fn a_debug_read_ends_at_the_end(rt: HostRuntime) {
    let alloc = rt.alloc();
    assert!(rt; debug_reads(&rt, alloc, 2, 2, &[3, 4, 0]));
    assert!(rt; debug_reads(&rt, alloc, u64::MAX, 0, &[0, 0, 0]));
}
