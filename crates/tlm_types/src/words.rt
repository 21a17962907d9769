// Words and numbers of the standard, and the traits of a memory.
ghost use Rattle.std.specs.Prelude.{◌≡◌, ◌⊎◌, IsTrue};
ghost use Rattle.tlm_types.specs.Response.{value_of};
ghost use Rattle.tlm_types.specs.Traits.{allowed_kind};

use std::alloc::{AllocError, AllocFailed};
use thiserror::Error;

/// A time in picoseconds. Sums of times saturate at the greatest `u64`.
pub type Ps = u64;

/// Memory was refused.
#[derive(Clone, Copy, Debug, PartialEq, Eq, Error)]
#[error("out of memory")]
pub struct Memory;

impl From<AllocError> for Memory {
    fn from(_: AllocError) -> Memory {
        Memory
    }
}

impl<T: Drop> From<AllocFailed<T>> for Memory {
    fn from(_: AllocFailed<T>) -> Memory {
        Memory
    }
}

/// A transaction: the number of its initiator, and its own number there, both from 0.
#[derive(Clone, Copy, Debug, PartialEq, Eq)]
pub struct TxnId {
    pub initiator: u32,
    pub seq: u64,
}

/// An object that has a log: a memory by its number, a hop by its number over all hops, or the
/// payload pool of an initiator by the initiator's number. All count from 0.
#[derive(Clone, Copy, Debug, PartialEq, Eq)]
pub enum ObjectNo {
    Memory(u32),
    Hop(u32),
    Pool(u32),
}

/// `tlm_command` (clause 14.9), and `FetchAdd`, which is this project's own: it reads four bytes and
/// stores their sum with an operand in the same step.
#[derive(Clone, Copy, Debug, PartialEq, Eq)]
pub enum Command {
    Read,
    Write,
    Ignore,
    FetchAdd,
}

/// `tlm_response_status` (clause 14.17).
#[derive(Clone, Copy, Debug, PartialEq, Eq)]
pub enum Response {
    Ok,
    Incomplete,
    GenericError,
    AddressError,
    CommandError,
    BurstError,
    ByteEnableError,
}

impl Response {
    /// The number that the standard gives this response: 1 for OK, 0 for INCOMPLETE, the errors
    /// from -1 to -5.
    pub fn value(&self) -> i32
        ensures { result ≡ value_of self.now }
    {
        match self {
            Response::Ok => 1,
            Response::Incomplete => 0,
            Response::GenericError => -1,
            Response::AddressError => -2,
            Response::CommandError => -3,
            Response::BurstError => -4,
            Response::ByteEnableError => -5,
        }
    }
}

/// `tlm_phase` of the base protocol (clause 15.2).
#[derive(Clone, Copy, Debug, PartialEq, Eq)]
pub enum Phase {
    BeginReq,
    EndReq,
    BeginResp,
    EndResp,
}

/// `tlm_sync_enum`, with the phase that a call which answers UPDATED moved on to (clause 11.1.2).
#[derive(Clone, Copy, Debug, PartialEq, Eq)]
pub enum TlmSync {
    Accepted,
    Updated(Phase),
    Completed,
}

/// How an access reached its memory: by blocking transport, by non-blocking transport with four
/// phases, directly under the grant of this gate, or by debug transport (clauses 11.1 to 11.3).
#[derive(Clone, Copy, Debug, PartialEq, Eq)]
pub enum Way {
    Blocking,
    FourPhase,
    Direct(u32),
    Debug,
}

/// What a grant of direct access allows (`tlm_dmi::dmi_access_e`, clause 11.2).
#[derive(Clone, Copy, Debug, PartialEq, Eq)]
pub enum Kind {
    Read,
    Write,
    Both,
}

/// How a component answers BEGIN_REQ. A router has `Accept` or `EndReq`.
#[derive(Clone, Copy, Debug, PartialEq, Eq)]
pub enum ReqMode {
    Accept,
    Short,
    EndReq,
    BeginResp,
    Complete,
}

/// How an initiator answers BEGIN_RESP.
#[derive(Clone, Copy, Debug, PartialEq, Eq)]
pub enum RespMode {
    Accept,
    EndResp,
    Complete,
}

/// A memory's size in bytes and latency in picoseconds, the commands and parts of the payload that
/// it allows, whether it grants direct access, and by how many gates. A memory allows a fetch_add where
/// `readable`, `writable` and `fetch_add` are all true.
#[derive(Clone, Copy, Debug, PartialEq, Eq)]
pub struct MemoryTraits {
    pub size: u64,
    pub latency: Ps,
    pub readable: bool,
    pub writable: bool,
    pub fetch_add: bool,
    pub enables: bool,
    pub streaming: bool,
    pub dmi: bool,
    pub gates: u32,
}

/// What a memory allows, as the kind of a grant (clause 11.2).
pub fn kind_of(traits: &MemoryTraits) -> Kind
    requires { IsTrue traits.now.readable ⊎ IsTrue traits.now.writable }
    ensures { result ≡ allowed_kind traits.now.readable traits.now.writable }
{
    match (traits.readable, traits.writable) {
        (true, true) => Kind::Both,
        (true, false) => Kind::Read,
        (false, _) => Kind::Write,
    }
}
