// Where an engine stands in its script.
ghost use Rattle.std.specs.Prelude.{◌≡◌, ◌≤◌, length, true, false};
ghost use Rattle.script_engine.specs.State.{IsRead, begun_engine, is_fenced, length_of, op_of, passed_by, payload_of, told_by};

use crate::buffer::Buffer;
use crate::op::Op;
use crate::operations::{due_after, fenced_access, fill_for, numbers_of, op_for};
use generic_payload::Payload;
use std::marker::Model;
use tlm_types::Command;
use traffic_script::{Cursor, Script};

/// Where an engine stands: in its script, and between the two accesses of an operation.
pub struct ScriptWalk {
    initiator: u32,
    cursor: Cursor,
    seq: u64,
    due: Option<u64>,
    buffer: Buffer,
    ended: bool,
}

// Written out, so that the crates above call it: how each part is let go of is proved here alone.
impl Drop for ScriptWalk {
    fn drop(self) {
        let ScriptWalk {
            initiator: _,
            cursor: _,
            seq: _,
            due: _,
            buffer: _,
            ended: _,
        } = self;
    }
}

impl Model for ScriptWalk {
    ghost use Rattle.script_engine.specs.State.{State};

    ghost Value = { State };

    ghost use Rattle.script_engine.specs.Parts.{state_of};
    ghost use Rattle.script_engine.specs.Ready.{IsReady};

    ghost view = { state_of };

    ghost invariant = { λ e. IsReady (state_of e) };
}

impl ScriptWalk {
    /// With a whole script before it. Its sequence numbers count from 0.
    pub fn new(initiator: u32, script: Script) -> ScriptWalk
        ensures { result ≡ begun_engine initiator script }
    {
        ScriptWalk {
            initiator,
            cursor: Cursor::new(script),
            seq: 0,
            due: None,
            buffer: Buffer::new(),
            ended: false,
        }
    }

    /// What is next. It stays until it was passed, or its reply was told.
    #[inline(always)]
    pub fn next(&self) -> Op
        ensures { result ≡ op_of self.now }
    {
        if let Some(address) = self.due {
            let length = self.buffer.as_slice().len() as u32;
            return fenced_access(self.seq, address, length, Command::Write);
        }
        match self.cursor.current() {
            Some(operation) => op_for(self.seq, operation),
            None => Op::Done,
        }
    }

    /// Makes it the payload of the access or debug read that is next, with the status INCOMPLETE. It is
    /// made new where nothing else is next.
    #[inline(always)]
    pub fn fill(&self, payload: &mut Payload)
        requires { 4096 ≤ payload.old.room }
        ensures { payload.new ≡ payload_of self.now payload.old.room }
    {
        if let Some(address) = self.due {
            let bytes = self.buffer.as_slice();
            payload.set_write(address, bytes, bytes.len() as u64);
            return;
        }
        match self.cursor.current() {
            Some(operation) => fill_for(operation, payload),
            None => payload.reset(),
        }
    }

    /// Goes on after the reply to a fenced access, whose payload has the bytes that a read got, as many as
    /// it asked for. It ends the operation where no write is due.
    pub fn told(&mut self, payload: &Payload)
        requires fenced { is_fenced (op_of self.old) ≡ true }
        requires whole { IsRead (op_of self.old) → length payload.now.bytes ≡ length_of (op_of self.old) }
        ensures { self.new ≡ told_by self.old payload.now.bytes }
    {
        self.ended = self.due.is_some();
        self.seq += 1;
        if self.ended {
            self.due = None;
        } else if let Some(operation) = self.cursor.current() {
            self.due = due_after(operation, payload.bytes(), &mut self.buffer);
            self.ended = self.due.is_none();
            self.cursor.advance();
        }
    }

    /// Goes on after anything else: after an access or a debug read once its payload was filled, and
    /// after a wait, a sync, a fence or an invalidation. Where the script has ended nothing changes.
    #[inline(always)]
    pub fn passed(&mut self)
        requires { is_fenced (op_of self.old) ≡ false }
        ensures { self.new ≡ passed_by self.old }
    {
        if let Some(operation) = self.cursor.current() {
            self.seq += numbers_of(operation);
            self.cursor.advance();
            self.ended = true;
        }
    }

    /// Whether an operation of the script has just ended: not before the first one ends, and not between
    /// the two accesses of a `copy` or an `add`.
    pub fn at_end_of_operation(&self) -> bool
        ensures { result ≡ self.now.ended }
    {
        self.ended
    }

    /// The number of the initiator.
    pub fn initiator(&self) -> u32
        ensures { result ≡ self.now.initiator }
    {
        self.initiator
    }

    /// How many sequence numbers are taken so far: one for each access, debug read and invalidation.
    pub fn transactions(&self) -> u64
        ensures { result ≡ self.now.seq }
    {
        self.seq
    }
}
