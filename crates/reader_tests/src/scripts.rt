// Scripts.
use std::alloc::Global;
use std::process::Abort;
use tlm_model::Operation;
use tlm_types::Memory;
use traffic_script::{Cursor, Piece, Script, read_script};

// How a script is answered: how many operations it has, or its refusal.
fn answer(rt: &impl Abort, alloc: Global, text: &str) -> String {
    let said = match read_script(alloc, text.as_bytes(), 1) {
        Ok(script) => format!(in alloc; "{} operations", script.len()),
        Err(fault) => format!(in alloc; "{fault}"),
    };
    said.expect(rt, "memory")
}

static SCRIPTS: [(&str, &str); 20] = [
    ("", "0 operations"),
    (
        "\twrite 0 DEad be=ff # a comment\r\n\r\nsync#fence",
        "2 operations",
    ),
    ("repeat 50000\nsync\nfence\nend", "100000 operations"),
    ("sync\x7f", "line 1: bad_byte"),
    ("syncs", "line 1: unknown_operation"),
    ("write 0x0\n", "line 1: arity"),
    ("read +1 1", "line 1: bad_number"),
    ("read 0X1 1", "line 1: bad_number"),
    ("write 0x0 abc\n", "line 1: bad_hex"),
    ("read 0 1 be=fe", "line 1: bad_hex"),
    ("read 0 4097", "line 1: bad_length"),
    ("read 0 1 sw=1 sw=q", "line 1: bad_option"),
    (
        "repeat 2\nrepeat 2\nsync\nend\nend",
        "line 2: nested_repeat",
    ),
    ("sync\nend\n", "line 2: end_without_repeat"),
    ("repeat 2\n# no\nend", "line 3: empty_repeat"),
    (
        "repeat 100000\nsync\nend\nsync",
        "line 4: too_many_operations",
    ),
    ("repeat 2\nsync\n", "line 1: repeat_without_end"),
    ("sync\ninvalidate 0x0 0\n", "line 2: bad_length"),
    ("\nread 0 0\nnothing", "line 2: bad_length"),
    ("end\nrepeat 1\nend", "line 1: end_without_repeat"),
];

#[test]
fn scripts_are_read_or_refused(rt: HostRuntime) {
    for (text, wanted) in &SCRIPTS {
        assert!(rt;
            answer(&rt, rt.alloc(), text).as_str() == *wanted,
            "{text:?}"
        );
    }
}

fn script_of(rt: &impl Abort, alloc: Global, text: &str) -> Script {
    read_script(alloc, text.as_bytes(), 1).expect(rt, "a script")
}

// Whether a cursor is at a wait of so many picoseconds.
fn is_at_wait(cursor: &Cursor, wanted: u64) -> bool {
    matches!(cursor.current(), Some(Operation::Wait { time }) if *time == wanted)
}

// A value may be shared by threads, and go from one to another.
fn may_be_shared<T: Send + Sync>(_value: &T) {}

// A copy of a script, which is gone when the copy is used.
fn copy_of(rt: &impl Abort, alloc: Global, text: &str) -> Script {
    let script = script_of(rt, alloc, text);
    assert!(rt; !script.is_empty());
    script.copy(alloc).expect(rt, "memory")
}

#[test]
fn a_copy_is_walked_through(rt: HostRuntime) {
    let text = "wait 1\nrepeat 2\nwait 3\nwait 4\nend\nwait 5\n";
    let copy = copy_of(&rt, rt.alloc(), text);
    may_be_shared(&copy);
    let mut cursor = Cursor::new(copy);
    may_be_shared(&cursor);
    for time in [1, 3, 4, 3, 4, 5] {
        assert!(rt; is_at_wait(&cursor, time));
        cursor.advance();
    }
    assert!(rt; cursor.current().is_none());
}

fn is_long_repeat(piece: &Piece) -> bool {
    piece.operations.as_slice().len() == 1 && piece.times == 100_000
}

// A repeat keeps its lines and not the operations written out.
#[test]
fn a_long_repeat_is_one_piece(rt: HostRuntime) {
    let script = script_of(&rt, rt.alloc(), "repeat 100000\nsync\nend\n");
    assert!(rt; script.len() == 100_000);
    assert!(rt; matches!(script.pieces(), [piece] if is_long_repeat(piece)));
}

// So many copies of a script.
fn copies_of(alloc: Global, script: &Script, count: u32) -> Result<Vec<Script>, Memory> {
    let mut copies = Vec::new(alloc);
    for _ in 0..count {
        copies.push(script.copy(alloc)?)?;
    }
    Ok(copies)
}

// Copies share the operations: a hundred thousand lists of nine thousand wouldn't fit into memory.
#[test]
fn a_copy_is_one_more_owner(rt: HostRuntime) {
    let text = "wait 1\n".repeat(rt.alloc(), 9_000).expect(&rt, "memory");
    let script = script_of(&rt, rt.alloc(), text.as_str());
    let copies = copies_of(rt.alloc(), &script, 100_000).expect(&rt, "memory");
    assert!(rt; copies.len() == 100_000);
}
