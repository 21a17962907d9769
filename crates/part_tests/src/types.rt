use entry_log::{Log, LoggedAccess};
use std::alloc::Global;
use std::process::Abort;
use tlm_model::Rows;
use tlm_types::{
    Bytes, Command, Facts, Head, Kind, MemoryTraits, ObjectNo, Phase, RefusedItem, RefusedList,
    Response, Text, TlmSync, TxnId, Way, What, kind_of,
};

fn bytes_are_kept(rt: &impl Abort, alloc: Global) -> bool {
    let copied = Bytes::from_slice(alloc, &[1, 2, 3]).expect(rt, "memory");
    let moved = Bytes::from_vec(vec![in alloc; 9u8, 8].expect(rt, "memory"));
    copied.as_slice() == [1, 2, 3].as_slice() && moved.as_slice() == [9, 8].as_slice()
}

fn texts_are_kept(rt: &impl Abort, alloc: Global) -> bool {
    let copied = Text::from_text(alloc, "ram").expect(rt, "memory");
    let moved = Text::from_string(String::from_str(alloc, "cpu").expect(rt, "memory"));
    copied.as_text() == "ram" && moved.as_text() == "cpu"
}

#[test]
fn lists_keep_what_they_are_made_of(rt: HostRuntime) {
    assert!(rt; bytes_are_kept(&rt, rt.alloc()));
    assert!(rt; texts_are_kept(&rt, rt.alloc()));
    let rows = Rows::from_vec(vec![in rt.alloc(); 3u64, 5].expect(&rt, "memory"));
    assert!(rt; rows.as_slice() == [3, 5].as_slice());
}

#[test]
fn burst_errors_are_minus_four(rt: HostRuntime) {
    assert!(rt; Response::BurstError.value() == -4);
}

const ROM: MemoryTraits = MemoryTraits {
    size: 1,
    latency: 0,
    readable: true,
    writable: false,
    fetch_add: true,
    enables: true,
    streaming: true,
    dmi: true,
    gates: 1,
};

#[test]
fn a_rom_grants_reads(rt: HostRuntime) {
    assert!(rt; kind_of(&ROM) == Kind::Read);
}

const ITEM: RefusedItem = RefusedItem {
    seq: 1,
    time: 15,
    debug: false,
    command: Command::Read,
    address: 0x1000,
};

#[test]
fn a_refused_list_keeps_its_items(rt: HostRuntime) {
    let mut list = RefusedList::with_room(rt.alloc(), 2).expect(&rt, "memory");
    assert!(rt; list.is_empty());
    list.push(ITEM);
    assert!(rt; list.len() == 1 && list.item(0) == ITEM);
}

const SENT: &[u8] = &[1, 2, 3, 4];

const ENABLES: &[u8] = &[0xff, 0x00];

const WRITE: Facts = Facts {
    way: Way::Blocking,
    command: Command::Write,
    offset: 0x10,
    length: 4,
    width: 4,
    status: Response::Ok,
};

const WRITE_HEAD: Head = Head {
    position: 7,
    object: ObjectNo::Memory(3),
    txn: TxnId {
        initiator: 2,
        seq: 4,
    },
    time: 10,
};

// One past what the short form of an entry can keep.
const WIDE: u64 = 0x1_0000_0000;

const CALL_HEAD: Head = Head {
    position: 8,
    object: ObjectNo::Hop(5),
    txn: TxnId {
        initiator: 2,
        seq: WIDE,
    },
    time: WIDE,
};

fn is_the_write(log: &Log) -> bool {
    if log.is_empty() || !log.is_whole() {
        return false;
    }
    match log.access(0) {
        Some(
            LoggedAccess {
                head,
                facts,
                sent,
                enables,
                got,
            },
        ) => {
            head == WRITE_HEAD
                && facts == WRITE
                && sent == SENT
                && enables == ENABLES
                && got.is_empty()
        }
        None => false,
    }
}

fn is_request(what: What) -> bool {
    matches!(
        what,
        What::Call {
            phase: Phase::BeginReq,
            answer: TlmSync::Accepted,
        }
    )
}

fn is_the_call(log: &Log) -> bool {
    if log.len() < 2 || !log.is_whole() {
        return false;
    }
    match log.what(1) {
        Some(what) => log.head(1) == CALL_HEAD && log.facts(1).is_none() && is_request(what),
        None => false,
    }
}

const BEGUN: What = What::Call {
    phase: Phase::BeginReq,
    answer: TlmSync::Accepted,
};

#[test]
fn a_log_reads_back_what_was_pushed(rt: HostRuntime) {
    let mut log = Log::with_room(rt.alloc(), 2, 6).expect(&rt, "memory");
    assert!(rt; log.is_empty());
    let written = log.push_access(WRITE_HEAD, WRITE, SENT, ENABLES, &[]);
    assert!(rt; written.is_ok() && log.push(CALL_HEAD, BEGUN).is_ok());
    assert!(rt; log.len() == 2);
    assert!(rt; is_the_write(&log));
    assert!(rt; is_the_call(&log));
}

const BLOCK: &[u8] = &[7; 512];

const NINES: &[u8] = &[9; 512];

const BLOCK_WRITE: Facts = Facts {
    way: Way::Blocking,
    command: Command::Write,
    offset: 0x10,
    length: 512,
    width: 512,
    status: Response::Ok,
};

const BLOCK_READ: Facts = Facts {
    way: Way::Blocking,
    command: Command::Read,
    offset: 0x10,
    length: 512,
    width: 512,
    status: Response::Ok,
};

// The entry's data: what a read got, and what any other access sent.
fn has_data(log: &Log, index: u64, data: &[u8]) -> bool {
    if index >= log.len() || !log.is_whole() {
        return false;
    }
    match log.access(index) {
        Some(
            LoggedAccess {
                facts,
                sent,
                enables,
                got,
                ..
            },
        ) => {
            let found = if facts.command == Command::Read {
                got
            } else {
                sent
            };
            found == data && enables.is_empty()
        }
        None => false,
    }
}

#[test]
fn a_log_reads_back_blocks_that_it_keeps_once(rt: HostRuntime) {
    let mut log = Log::with_room(rt.alloc(), 4, 65_536).expect(&rt, "memory");
    // It differs from the block in its second byte alone.
    let mut like = [7u8; 512];
    like[1] = 0;
    let first = log.push_access(WRITE_HEAD, BLOCK_WRITE, BLOCK, &[], &[]);
    let second = log.push_access(WRITE_HEAD, BLOCK_WRITE, &like, &[], &[]);
    let between = log.push_access(WRITE_HEAD, BLOCK_WRITE, NINES, &[], &[]);
    let again = log.push_access(WRITE_HEAD, BLOCK_READ, &[], &[], &like);
    assert!(rt; first.is_ok() && second.is_ok() && between.is_ok() && again.is_ok());
    assert!(rt; has_data(&log, 0, BLOCK) && has_data(&log, 1, &like));
    assert!(rt; has_data(&log, 2, NINES) && has_data(&log, 3, &like));
}

// A read whose bytes fit into an item.
const WORD_READ: Facts = Facts {
    way: Way::Debug,
    command: Command::Read,
    offset: 0x10,
    length: 8,
    width: 8,
    status: Response::Ok,
};

#[test]
fn a_log_reads_back_words(rt: HostRuntime) {
    let mut log = Log::with_room(rt.alloc(), 3, 20).expect(&rt, "memory");
    let write = log.push_access(WRITE_HEAD, WRITE, SENT, &[], &[]);
    let read = log.push_access(WRITE_HEAD, WORD_READ, &[], &[], &BLOCK[..8]);
    let late = Head {
        time: WIDE,
        ..WRITE_HEAD
    };
    let later = log.push_access(late, WORD_READ, &[], &[], &NINES[..8]);
    assert!(rt; write.is_ok() && read.is_ok() && later.is_ok() && log.room_bytes() == 0);
    assert!(rt; has_data(&log, 0, SENT) && has_data(&log, 1, &BLOCK[..8]));
    assert!(rt; has_data(&log, 2, &NINES[..8]));
    assert!(rt; log.len() == 3 && log.is_whole() && log.head(2) == late);
}

#[test]
fn a_log_that_forgot_counts_what_it_has_and_is_not_whole(rt: HostRuntime) {
    let mut log = Log::with_room(rt.alloc(), 2, 6).expect(&rt, "memory");
    assert!(rt; log.push(CALL_HEAD, BEGUN).is_ok() && log.is_whole());
    log.forget();
    assert!(rt; log.push(CALL_HEAD, BEGUN).is_ok());
    assert!(rt; log.len() == 2 && !log.is_whole());
}
