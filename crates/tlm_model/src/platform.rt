// A platform: its initiators, routers and memories.
use crate::rows::Rows;
use tlm_types::{MemoryTraits, Ps, ReqMode, RespMode, Text};

/// How an initiator makes its accesses: by blocking transport alone, by blocking transport and
/// direct access, or by non-blocking transport with four phases (IEEE 1666-2011, clauses 11 and 15).
#[derive(Clone, Copy, Debug, PartialEq, Eq)]
pub enum Style {
    Blocking,
    Direct,
    FourPhase,
}

/// What a binding or a window leads to, by its number from 0.
#[derive(Clone, Copy, Debug, PartialEq, Eq)]
pub enum Target {
    Router(u32),
    Memory(u32),
}

/// An initiator: its name, its style, the name of its script, what its socket is bound to, the slots
/// of its payload pool (1 to 16), and how it answers BEGIN_RESP.
#[derive(Drop)]
pub struct InitiatorRow {
    pub name: Text,
    pub style: Style,
    pub script: Text,
    pub bind: Target,
    pub pool: u32,
    pub response: RespMode,
}

/// A window of a router: the addresses from `first` to `last` lead to `to`, where `first` is seen as
/// `base`. Each is at most 2^63 - 1.
#[derive(Clone, Copy, Debug, PartialEq, Eq)]
pub struct WindowRow {
    pub first: u64,
    pub last: u64,
    pub to: Target,
    pub base: u64,
}

/// A router: its name, its latency in picoseconds, how it answers BEGIN_REQ, the lanes of each hop
/// that leads to it (1 to 16), and its windows.
#[derive(Drop)]
pub struct RouterRow {
    pub name: Text,
    pub latency: Ps,
    pub accept: ReqMode,
    pub lanes: u32,
    pub windows: Rows<WindowRow>,
}

/// A memory: its name, its traits, how it answers BEGIN_REQ, and the lanes of each hop that leads to
/// it (1 to 16).
#[derive(Drop)]
pub struct MemoryRow {
    pub name: Text,
    pub traits: MemoryTraits,
    pub reply: ReqMode,
    pub lanes: u32,
}

/// A platform: the version of its file, 1 or 2, the global quantum in picoseconds, 1 to 32 initiators,
/// at most 16 routers, and 1 to 16 memories. Version 2 has the operation fetch_add.
#[derive(Drop)]
pub struct Platform {
    pub version: u32,
    pub quantum: Ps,
    pub initiators: Rows<InitiatorRow>,
    pub routers: Rows<RouterRow>,
    pub memories: Rows<MemoryRow>,
}
