// Entries of the history.
use crate::bytes::Bytes;
use crate::words::{Command, Kind, ObjectNo, Phase, Ps, Response, TlmSync, TxnId, Way};

/// What an access asks for, as it reaches a memory: the offset there, the data length in bytes, the
/// bytes sent (for a read as many zeros, for a debug read none, for a fetch_add its operand, the least
/// byte first), the byte enables, and the streaming width (clause 14).
#[derive(Drop)]
pub struct Access {
    pub command: Command,
    pub offset: u64,
    pub length: u64,
    pub sent: Bytes,
    pub enables: Bytes,
    pub width: u64,
}

/// What happened.
#[derive(Drop)]
pub enum What {
    /// An access at a memory. `got` is a read's buffer afterwards, the bytes that a debug read moved,
    /// or those that a fetch_add found (its operand where it wasn't OK), and is empty for a write or an
    /// ignore.
    Access {
        way: Way,
        access: Access,
        status: Response,
        got: Bytes,
    },
    /// Direct access to the bytes from `first` to `last` was granted under this gate.
    Granted {
        gate: u32,
        first: u64,
        last: u64,
        kind: Kind,
    },
    /// The grants that overlap the bytes from `first` to `last` are to end.
    Invalidated {
        first: u64,
        last: u64,
    },
    /// The grant of this gate has ended.
    Closed {
        gate: u32,
    },
    /// A call of non-blocking transport on a hop, and its answer.
    Call {
        phase: Phase,
        answer: TlmSync,
    },
    /// A payload was taken from a pool.
    Take {
        slot: u32,
    },
    /// A reference to a pooled payload was added.
    Acquire {
        slot: u32,
    },
    /// A reference to a pooled payload was given up. `freed` tells that it was the last.
    Release {
        slot: u32,
        freed: bool,
    },
}

/// An entry of the history: its position, counted from 0, where it happened, for which transaction,
/// at what time, and what it was.
#[derive(Drop)]
pub struct Entry {
    pub position: u64,
    pub object: ObjectNo,
    pub txn: TxnId,
    pub time: Ps,
    pub what: What,
}

/// An entry without what happened.
#[derive(Clone, Copy, Debug, PartialEq, Eq)]
pub struct Head {
    pub position: u64,
    pub object: ObjectNo,
    pub txn: TxnId,
    pub time: Ps,
}

/// The plain parts of an access: lengths and offsets are in bytes.
#[derive(Clone, Copy, Debug, PartialEq, Eq)]
pub struct Facts {
    pub way: Way,
    pub command: Command,
    pub offset: u64,
    pub length: u64,
    pub width: u64,
    pub status: Response,
}

/// What the shared history knows of an entry beside its position and its object: contracts name
/// contents, and no part of the program makes one. The number is that of the reference in an Acquire or
/// a Release, the index in the memory's log in an entry of a memory, and 0 in every other entry.
#[derive(Drop)]
pub struct Content {
    pub txn: TxnId,
    pub time: Ps,
    pub what: What,
    pub number: u32,
}
