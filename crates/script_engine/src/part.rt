// What is next, by its part.
ghost use Rattle.std.specs.Prelude.{◌≡◌};
ghost use Rattle.script_engine.specs.Part.{part_of};

use crate::op::Op;
use tlm_types::{Command, Ps};

/// What tells the two kinds of a transfer apart.
#[derive(Clone, Copy, Debug, PartialEq, Eq)]
pub enum TransferKind {
    /// An access by transport; its fields are those of `Op::Access`.
    Access {
        command: Command,
        plain: bool,
        fenced: bool,
    },
    /// A read by debug transport.
    DebugRead,
}

/// A transfer of data, which is an access or a debug read: its sequence number, the address that the
/// initiator sees, and its length in bytes.
#[derive(Clone, Copy, Debug, PartialEq, Eq)]
pub struct Transfer {
    pub seq: u64,
    pub address: u64,
    pub length: u32,
    pub kind: TransferKind,
}

/// What asks for nothing, and moves an initiator's time or its syncs.
#[derive(Clone, Copy, Debug, PartialEq, Eq)]
pub enum Pause {
    /// So much time is to pass, in picoseconds.
    Wait(Ps),
    /// A sync is to be made.
    Sync,
    /// All that is outstanding is to end.
    Fence,
}

/// The parts of what may be next in a script.
#[derive(Clone, Copy, Debug, PartialEq, Eq)]
pub enum Part {
    /// An access or a debug read.
    Asks(Transfer),
    /// A wait, a sync or a fence.
    Pauses(Pause),
    /// An invalidation of this many bytes.
    Invalidates { seq: u64, address: u64, length: u64 },
    /// The end of the script.
    Ends,
}

impl Op {
    /// Its part: everything that goes by what is next goes by this.
    #[inline(always)]
    pub fn part(self) -> Part
        ensures { result ≡ part_of self }
    {
        match self {
            Op::Access {
                seq,
                address,
                length,
                command,
                plain,
                fenced,
            } => {
                let kind = TransferKind::Access {
                    command,
                    plain,
                    fenced,
                };
                Part::Asks(Transfer {
                    seq,
                    address,
                    length,
                    kind,
                })
            }
            Op::Debug {
                seq,
                address,
                length,
            } => {
                let kind = TransferKind::DebugRead;
                Part::Asks(Transfer {
                    seq,
                    address,
                    length,
                    kind,
                })
            }
            Op::Wait(time) => Part::Pauses(Pause::Wait(time)),
            Op::Sync => Part::Pauses(Pause::Sync),
            Op::Fence => Part::Pauses(Pause::Fence),
            Op::Invalidate {
                seq,
                address,
                length,
            } => Part::Invalidates {
                seq,
                address,
                length,
            },
            Op::Done => Part::Ends,
        }
    }
}
