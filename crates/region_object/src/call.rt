// The calls of a memory, and its replies.
ghost use Rattle.std.specs.Prelude.{◌≡◌};
ghost use Rattle.region_object.specs.Call.{cost_of, payload_cost};

use generic_payload::Payload;
use tlm_types::{Command, Kind, Ps, TxnId, Way};

/// What can be asked of a memory. The address of a payload is an offset in bytes within the memory,
/// ranges are in bytes, first and last included, and the time is in picoseconds.
#[derive(Drop)]
pub enum RegionCall {
    /// An access by blocking transport, or by non-blocking transport with four phases (clause 11.1).
    Access {
        txn: TxnId,
        time: Ps,
        way: Way,
        payload: Payload,
    },
    /// A debug read (clause 11.3).
    Debug {
        txn: TxnId,
        time: Ps,
        payload: Payload,
    },
    /// A wish for direct access by this command, a read or a write (`get_direct_mem_ptr`, clause 11.2.5).
    Grant {
        txn: TxnId,
        time: Ps,
        command: Command,
    },
    /// A direct access, by a note that is inside this gate. Its payload is plain, and lies in the
    /// gate's grant.
    Direct {
        gate: u32,
        txn: TxnId,
        time: Ps,
        payload: Payload,
    },
    /// The grants that overlap this range are to end (`invalidate_direct_mem_ptr`, clause 11.2.6).
    Invalidate {
        txn: TxnId,
        time: Ps,
        first: u64,
        last: u64,
    },
    /// Which is the least gate from `from` on whose grant overlaps this range, was given before this
    /// position, and isn't closed?
    Overlapping {
        from: u32,
        first: u64,
        last: u64,
        before: u64,
    },
    /// The grant of this gate has ended: the gate is drained.
    Close {
        txn: TxnId,
        time: Ps,
        gate: u32,
    },
}

/// Why a memory gives no grant. The first of these is answered.
#[derive(Clone, Copy, Debug, PartialEq, Eq)]
pub enum Denial {
    /// It grants no direct access.
    NoDmi,
    /// It doesn't allow the command.
    NotAllowed,
    /// All its gates were given.
    GatesSpent,
}

/// What a memory answers.
#[derive(Drop)]
pub enum RegionReply {
    /// The payload after the access.
    Accessed {
        payload: Payload,
    },
    /// The payload after a debug read, and how many bytes were moved to the front of its data.
    Moved {
        payload: Payload,
        moved: u64,
    },
    /// A grant of this range and kind, through this gate.
    Granted {
        gate: u32,
        first: u64,
        last: u64,
        kind: Kind,
    },
    /// No grant, and why.
    Denied(Denial),
    /// The payload after a direct access.
    Direct {
        payload: Payload,
    },
    /// The invalidation was told.
    Invalidated,
    /// The gate that was asked for, if there is one.
    Overlapping(Option<u32>),
    /// The gate is closed now.
    Closed,
    /// The gate was closed before.
    AlreadyClosed,
}

impl RegionCall {
    /// How many bytes of the room of a memory's log the call takes at most: those of its data and of its
    /// byte enables.
    pub fn cost(&self) -> u64
        ensures { result ≡ cost_of self.now }
    {
        match self {
            RegionCall::Access { payload, .. }
            | RegionCall::Debug { payload, .. }
            | RegionCall::Direct { payload, .. } => payload_cost(payload),
            RegionCall::Grant { .. }
            | RegionCall::Invalidate { .. }
            | RegionCall::Overlapping { .. }
            | RegionCall::Close { .. } => 0,
        }
    }
}

/// How many bytes of the room of a memory's log a call with this payload takes at most: of a fetch_add the
/// log keeps the operand and what was found.
pub fn payload_cost(payload: &Payload) -> u64
    ensures { result ≡ payload_cost payload.now }
{
    let length = payload.bytes().len() as u64;
    let data = match payload.command() {
        Command::Read | Command::Write | Command::Ignore => length,
        Command::FetchAdd => length + length,
    };
    data + payload.enables().len() as u64
}
