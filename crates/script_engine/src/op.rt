// What an engine asks for.
use tlm_types::{Command, Ps};

/// What is next in a script. Accesses, debug reads and invalidations have a sequence number and the
/// address that the initiator sees; lengths are in bytes, times in picoseconds.
#[derive(Clone, Copy, Debug, PartialEq, Eq)]
pub enum Op {
    /// An access. A `plain` one is a read or a write without byte enables and without a streaming width
    /// of its own. A `fenced` one is one of the two accesses of a `copy` or an `add`, or that of a
    /// `fetch_add`: it is made when nothing is outstanding, and the engine waits to be told its reply.
    Access {
        seq: u64,
        address: u64,
        length: u32,
        command: Command,
        plain: bool,
        fenced: bool,
    },
    /// A read by debug transport.
    Debug {
        seq: u64,
        address: u64,
        length: u32,
    },
    /// So much time is to pass.
    Wait(Ps),
    /// A sync is to be made.
    Sync,
    /// All that is outstanding is to end.
    Fence,
    /// The grants of direct access to these bytes are to end.
    Invalidate {
        seq: u64,
        address: u64,
        length: u64,
    },
    /// The script has ended.
    Done,
}
