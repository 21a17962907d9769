// What scripts ask for.
ghost use Rattle.std.specs.Prelude.{◌≡◌};
ghost use Rattle.script_engine.specs.declared.part.Part.TheVariants.{Asks};
ghost use Rattle.script_engine.specs.State.{next_of};

use generic_payload::Payload;
use script_engine::{Engine, Op, Part, Transfer, TransferKind};
use std::alloc::Global;
use std::process::Abort;
use tlm_types::{Command, MemoryTraits, Response};
use traffic_script::read_script;

const ROOM: u32 = 4_096;

fn engine_of(rt: &impl Abort, alloc: Global, text: &str) -> Engine {
    let script = read_script(alloc, text.as_bytes(), 2).expect(rt, "a script");
    Engine::new(3, script)
}

// The access of a payload on a memory that allows everything.
fn transport(payload: &mut Payload, memory: &mut [u8]) {
    let traits = MemoryTraits {
        size: memory.len() as u64,
        latency: 10,
        readable: true,
        writable: true,
        fetch_add: true,
        enables: true,
        streaming: true,
        dmi: false,
        gates: 1,
    };
    let status = payload.check(&traits);
    if status == Response::Ok {
        match payload.command() {
            Command::Read => payload.read_from(memory),
            Command::Write => payload.write_into(memory),
            Command::FetchAdd => payload.fetch_into(memory),
            Command::Ignore => {}
        }
    }
    payload.set_status(status);
}

// Makes a transfer that is next, an access on a memory, and goes on.
fn make(
    rt: &impl Abort,
    engine: &mut Engine,
    payload: &mut Payload,
    memory: &mut [u8],
    transfer: Transfer,
)
    requires { next_of engine.old ≡ Asks transfer }
{
    match transfer.kind {
        TransferKind::Access { fenced, .. } => {
            transport(payload, memory);
            if fenced {
                assert!(rt; payload.bytes().len() == transfer.length as usize);
                engine.told(payload);
            } else {
                engine.passed();
            }
        }
        TransferKind::DebugRead => engine.passed(),
    }
}

// Does what is next, and goes on.
fn step(rt: &impl Abort, engine: &mut Engine, payload: &mut Payload, memory: &mut [u8]) {
    assert!(rt; payload.room() >= ROOM);
    engine.fill(payload);
    match engine.next().part() {
        Part::Asks(transfer) => make(rt, engine, payload, memory, transfer),
        Part::Pauses(_) | Part::Invalidates { .. } | Part::Ends => engine.passed(),
    }
}

macro_rules! access {
    ($seq:expr, $address:expr, $length:expr, $command:ident, $plain:expr, $fenced:expr) => {
        Op::Access {
            seq: $seq,
            address: $address,
            length: $length,
            command: Command::$command,
            plain: $plain,
            fenced: $fenced,
        }
    };
}

// A script, what it asks for, and whether an operation has just ended before each of these.
const OPERATIONS: &str = "\
write 0x10 deadbeef
write 0x20 0102 be=ff00
write 0x20 01020304 sw=2
read 0x4 8
read 0x4 8 sw=8
ignore 0xfff
debug 0x40 4096
wait 30
copy 0x0 0x8 5
sync
add 0x30 7
fetch_add 0x30 7
fence
repeat 2
wait 0
end
";

static ASKED: [(Op, bool); 19] = [
    (access!(0, 0x10, 4, Write, true, false), false),
    (access!(1, 0x20, 2, Write, false, false), true),
    (access!(2, 0x20, 4, Write, false, false), true),
    (access!(3, 0x4, 8, Read, true, false), true),
    (access!(4, 0x4, 8, Read, false, false), true),
    (access!(5, 0xfff, 0, Ignore, false, false), true),
    (
        Op::Debug {
            seq: 6,
            address: 0x40,
            length: 4_096,
        },
        true,
    ),
    (Op::Wait(30), true),
    (access!(7, 0x0, 5, Read, true, true), true),
    (access!(8, 0x8, 5, Write, true, true), false),
    (Op::Sync, true),
    (access!(9, 0x30, 4, Read, true, true), true),
    (access!(10, 0x30, 4, Write, true, true), false),
    (access!(11, 0x30, 4, FetchAdd, false, true), true),
    (Op::Fence, true),
    (Op::Wait(0), true),
    (Op::Wait(0), true),
    (Op::Done, true),
    (Op::Done, true),
];

#[test]
fn operations_are_asked_for_in_order(rt: HostRuntime) {
    let mut engine = engine_of(&rt, rt.alloc(), OPERATIONS);
    let mut payload = Payload::with_room(rt.alloc(), ROOM).expect(&rt, "memory");
    let mut memory = [0; 64];
    assert!(rt; engine.initiator() == 3);
    for (op, ended) in &ASKED {
        assert!(rt; engine.next() == *op);
        assert!(rt; engine.at_end_of_operation() == *ended);
        step(&rt, &mut engine, &mut payload, &mut memory);
    }
    assert!(rt; engine.transactions() == 12);
}
