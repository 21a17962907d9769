// The engine.
ghost use Rattle.std.specs.Prelude.{◌≡◌, ◌≤◌, length, true, false};
ghost use Rattle.script_engine.specs.State.{IsRead, begun_engine, is_fenced, length_of, op_of, passed_by, payload_of, told_by};

use crate::op::Op;
use crate::walk::ScriptWalk;
use generic_payload::Payload;
use std::marker::Model;
use traffic_script::Script;

/// What an initiator asks for, operation by operation, as its script says.
// What is next is looked up as soon as it is known, long before it is asked for: by then it is in the caches.
pub struct Engine {
    walk: ScriptWalk,
    next: Op,
}

// Written out, so that the crates above call it: how each part is let go of is proved here alone.
impl Drop for Engine {
    fn drop(self) {
        let Engine {
            walk: _walk,
            next: _,
        } = self;
    }
}

impl Model for Engine {
    ghost use Rattle.std.specs.Prelude.{◌≡◌};
    ghost use Rattle.script_engine.specs.State.{State, op_of};

    ghost Value = { State };

    ghost view = { λ e. e.walk };

    ghost invariant = { λ e. e.next ≡ op_of e.walk };
}

impl Engine {
    /// An engine with a whole script before it. Its sequence numbers count from 0.
    pub fn new(initiator: u32, script: Script) -> Engine
        ensures { result ≡ begun_engine initiator script }
    {
        let walk = ScriptWalk::new(initiator, script);
        let next = walk.next();
        Engine { walk, next }
    }

    /// What is next. It stays until it was passed, or its reply was told.
    #[inline(always)]
    pub fn next(&self) -> Op
        ensures { result ≡ op_of self.now }
    {
        self.next
    }

    /// Makes it the payload of the access or debug read that is next, with the status INCOMPLETE. It is
    /// made new where nothing else is next.
    #[inline(always)]
    pub fn fill(&self, payload: &mut Payload)
        requires { 4096 ≤ payload.old.room }
        ensures { payload.new ≡ payload_of self.now payload.old.room }
    {
        self.walk.fill(payload);
    }

    /// Goes on after the reply to a fenced access, whose payload has the bytes that a read got, as many as
    /// it asked for. It ends the operation where no write is due.
    pub fn told(&mut self, payload: &Payload)
        requires fenced { is_fenced (op_of self.old) ≡ true }
        requires whole { IsRead (op_of self.old) → length payload.now.bytes ≡ length_of (op_of self.old) }
        ensures { self.new ≡ told_by self.old payload.now.bytes }
    {
        self.walk.told(payload);
        self.next = self.walk.next();
    }

    /// Goes on after anything else: after an access or a debug read once its payload was filled, and
    /// after a wait, a sync, a fence or an invalidation. Where the script has ended nothing changes.
    #[inline(always)]
    pub fn passed(&mut self)
        requires { is_fenced (op_of self.old) ≡ false }
        ensures { self.new ≡ passed_by self.old }
    {
        self.walk.passed();
        self.next = self.walk.next();
    }

    /// Whether an operation of the script has just ended: not before the first one ends, and not between
    /// the two accesses of a `copy` or an `add`.
    pub fn at_end_of_operation(&self) -> bool
        ensures { result ≡ self.now.ended }
    {
        self.walk.at_end_of_operation()
    }

    /// The number of the initiator.
    pub fn initiator(&self) -> u32
        ensures { result ≡ self.now.initiator }
    {
        self.walk.initiator()
    }

    /// How many sequence numbers are taken so far: one for each access, debug read and invalidation.
    pub fn transactions(&self) -> u64
        ensures { result ≡ self.now.seq }
    {
        self.walk.transactions()
    }
}
