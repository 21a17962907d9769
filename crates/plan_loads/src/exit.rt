// The answers of the top call.
ghost use Rattle.std.specs.Prelude.{◌≡◌};

use cargo_net::TlmLaw;
use one_history::Sealed;
use platform_file::{PlatformCode, PlatformFault};
use route_plan::Plan;
use std::alloc::{AllocError, AllocFailed};
use tlm_types::{Content, Memory, Text};
use traffic_script::ScriptCode;

/// What came of a call. The order of refusals is: the words; the load of the platform file, its
/// reading, its shape; for each initiator in order the load of its script, then its reading; the
/// counted limits; the run; the writing. What is generated is refused in the same order, and its loads
/// never are. Want of memory may come at any of these places.
#[derive(Drop)]
pub enum Exit {
    /// The report of this history, which was closed, was written whole, or for `gen` the line of its totals.
    Done(Sealed<Content, Plan, TlmLaw>),
    /// The words are no command line.
    Usage,
    /// The platform is refused: its file, its shape or its counted limits, with the code, and the texts of
    /// the table and of the key where the fault stands.
    PlatformRefused {
        code: PlatformCode,
        table: Text,
        key: Text,
    },
    /// The script of the initiator of this number and name is refused at this line, counted from 1.
    ScriptRefused {
        initiator: u32,
        name: Text,
        line: u32,
        code: ScriptCode,
    },
    /// The library failed to load the file of this name.
    ReadFault {
        name: Text,
    },
    /// The sink failed, and has taken a prefix of the report of this history, or of that line.
    WriteFault(Sealed<Content, Plan, TlmLaw>),
    /// Memory was refused, and nothing was written.
    NoMemory,
    /// The file of this name has more than 4,194,304 bytes.
    TooLong {
        name: Text,
    },
}

impl Exit {
    ghost use Rattle.plan_loads.specs.Exits.{exit_number};

    /// The number that the program ends with: 0 for Done, 1 for Usage, 2 for PlatformRefused, 3 for
    /// ScriptRefused, 4 for ReadFault, 5 for WriteFault, 6 for NoMemory, 7 for TooLong.
    pub fn number(&self) -> u8
        ensures { result ≡ exit_number self.now }
    {
        match self {
            Exit::Done(_) => 0,
            Exit::Usage => 1,
            Exit::PlatformRefused { .. } => 2,
            Exit::ScriptRefused { .. } => 3,
            Exit::ReadFault { .. } => 4,
            Exit::WriteFault(_) => 5,
            Exit::NoMemory => 6,
            Exit::TooLong { .. } => 7,
        }
    }
}

impl From<Memory> for Exit {
    ghost use Rattle.plan_loads.specs.declared.exit.Exit.TheVariants.{NoMemory};

    ghost from_gives = { λ _ exit. exit ≡ NoMemory };

    fn from(_: Memory) -> Exit {
        Exit::NoMemory
    }
}

impl From<AllocError> for Exit {
    ghost use Rattle.plan_loads.specs.declared.exit.Exit.TheVariants.{NoMemory};

    ghost from_gives = { λ _ exit. exit ≡ NoMemory };

    fn from(_: AllocError) -> Exit {
        Exit::NoMemory
    }
}

impl<T: Drop> From<AllocFailed<T>> for Exit {
    ghost use Rattle.plan_loads.specs.declared.exit.Exit.TheVariants.{NoMemory};

    ghost from_gives = { λ _ exit. exit ≡ NoMemory };

    fn from(_: AllocFailed<T>) -> Exit {
        Exit::NoMemory
    }
}

impl From<PlatformFault> for Exit {
    ghost use Rattle.plan_loads.specs.Exits.{exit_of};

    ghost from_gives = { λ fault exit. exit ≡ exit_of fault };

    fn from(fault: PlatformFault) -> Exit {
        match fault {
            PlatformFault::Refused { code, table, key } => {
                Exit::PlatformRefused { code, table, key }
            }
            PlatformFault::Memory => Exit::NoMemory,
        }
    }
}
