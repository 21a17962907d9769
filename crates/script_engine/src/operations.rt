// What one operation asks for.
ghost use Rattle.std.specs.Prelude.{◌≡◌, ◌≤◌, [], length, IsTrue, true, false};
ghost use Rattle.std.specs.List.{list_all};
ghost use Rattle.tlm_types.specs.declared.words.Command.{Command};
ghost use Rattle.tlm_model.specs.Requests.{added, numbers_of};
ghost use Rattle.traffic_script.specs.Proper.{IsProper};
ghost use Rattle.tlm_types.specs.Enables.{is_enable};
ghost use Rattle.script_engine.specs.State.{IsRead, due_after, due_at, is_plain, length_of, op_for, payload_for};

use crate::buffer::Buffer;
use crate::op::Op;
use generic_payload::{Payload, added};
use tlm_model::{Asks, Operation};
use tlm_types::{Bytes, Command};
use traffic_script::asks_of;

fn is_plain(enables: &Bytes, width: &Option<u64>) -> bool
    ensures { result ≡ is_plain enables.now width.now }
{
    enables.as_slice().is_empty() && width.is_none()
}

#[inline(always)]
fn access(seq: u64, address: u64, length: u32, command: Command, plain: bool) -> Op
    ensures { result ≡ Op.Access seq address length command plain false }
{
    Op::Access {
        seq,
        address,
        length,
        command,
        plain,
        fenced: false,
    }
}

/// One of the two accesses of a `copy` or an `add`.
#[inline(always)]
pub fn fenced_access(seq: u64, address: u64, length: u32, command: Command) -> Op
    ensures { result ≡ Op.Access seq address length command true true }
{
    Op::Access {
        seq,
        address,
        length,
        command,
        plain: true,
        fenced: true,
    }
}

/// What an operation asks for first.
#[inline(always)]
pub fn op_for(seq: u64, operation: &Operation) -> Op
    requires { IsProper operation.now }
    ensures { result ≡ op_for seq operation.now }
{
    match operation {
        Operation::Write {
            address,
            bytes,
            enables,
            width,
        } => {
            let length = bytes.as_slice().len() as u32;
            let plain = is_plain(enables, width);
            access(seq, *address, length, Command::Write, plain)
        }
        Operation::Read {
            address,
            length,
            enables,
            width,
        } => {
            let plain = is_plain(enables, width);
            access(seq, *address, *length as u32, Command::Read, plain)
        }
        Operation::Ignore { address } => access(seq, *address, 0, Command::Ignore, false),
        Operation::Debug { address, length } => Op::Debug {
            seq,
            address: *address,
            length: *length as u32,
        },
        Operation::Copy { from, length, .. } => {
            fenced_access(seq, *from, *length as u32, Command::Read)
        }
        Operation::Add { address, .. } => fenced_access(seq, *address, 4, Command::Read),
        Operation::FetchAdd { address, .. } => Op::Access {
            seq,
            address: *address,
            length: 4,
            command: Command::FetchAdd,
            plain: false,
            fenced: true,
        },
        Operation::Wait { time } => Op::Wait(*time),
        Operation::Sync => Op::Sync,
        Operation::Fence => Op::Fence,
        Operation::Invalidate { address, length } => Op::Invalidate {
            seq,
            address: *address,
            length: *length,
        },
    }
}

// Sets the byte enables of a payload that has none.
fn enable(enables: &Bytes, payload: &mut Payload)
    requires none { payload.old.enables ≡ [] }
    requires roomy { length enables.now ≤ payload.old.room }
    requires legal { IsTrue (list_all is_enable enables.now) }
    ensures { payload.new ≡ record payload.old { enables = enables.now } }
{
    let enables = enables.as_slice();
    if !enables.is_empty() {
        payload.set_enables(enables);
    }
}

/// Makes it the payload of an operation's first access, or of its debug read.
#[inline(always)]
pub fn fill_for(operation: &Operation, payload: &mut Payload)
    requires proper { IsProper operation.now }
    requires roomy { 4096 ≤ payload.old.room }
    ensures { payload.new ≡ payload_for payload.old.room operation.now }
{
    match operation {
        Operation::Write {
            address,
            bytes,
            enables,
            width,
        } => {
            let bytes = bytes.as_slice();
            payload.set_write(*address, bytes, width.unwrap_or(bytes.len() as u64));
            enable(enables, payload);
        }
        Operation::Read {
            address,
            length,
            enables,
            width,
        } => {
            payload.set_read(*address, *length as u32, width.unwrap_or(*length));
            enable(enables, payload);
        }
        Operation::Ignore { address } => payload.set_ignore(*address),
        Operation::Debug { address, length } => {
            payload.set_read(*address, *length as u32, *length);
        }
        Operation::Copy { from, length, .. } => payload.set_read(*from, *length as u32, *length),
        Operation::Add { address, .. } => payload.set_read(*address, 4, 4),
        Operation::FetchAdd { address, number } => payload.set_fetch_add(*address, *number),
        Operation::Wait { .. }
        | Operation::Sync
        | Operation::Fence
        | Operation::Invalidate { .. } => payload.reset(),
    }
}

/// How many sequence numbers an operation takes.
#[inline(always)]
pub fn numbers_of(operation: &Operation) -> u64
    requires { IsProper operation.now }
    ensures { result ≡ numbers_of operation.now }
{
    match asks_of(operation) {
        Asks::Nothing => 0,
        Asks::One(_) => 1,
        Asks::Two(_, _) => 2,
    }
}

/// The address of the write that a `copy` or an `add` makes once its read was answered with these
/// bytes; what it writes goes into the buffer.
pub fn due_after(operation: &Operation, bytes: &[u8], buffer: &mut Buffer) -> Option<u64>
    requires proper { IsProper operation.now }
    requires whole { IsRead (op_for 0 operation.now) → length bytes.now ≡ length_of (op_for 0 operation.now) }
    ensures { due_at result buffer.new ≡ due_after operation.now bytes.now }
{
    match operation {
        Operation::Copy { to, .. } => {
            buffer.set(bytes);
            Some(*to)
        }
        Operation::Add { address, number } => {
            buffer.set(&added(bytes, *number));
            Some(*address)
        }
        _ => None,
    }
}
