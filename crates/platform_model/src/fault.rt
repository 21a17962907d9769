// Why a platform file is refused.
ghost use Rattle.std.specs.Prelude.{◌≡◌};
ghost use Rattle.platform_model.specs.declared.fault.PlatformFault.TheVariants.{Memory};

use std::alloc::{AllocError, AllocFailed};
use std::fmt;
use thiserror::Error;
use tlm_types::Text;

/// The codes of a refused platform, in the order in which their faults are looked for. The codes up
/// to `TooManyGates` are faults of the file itself, the others are faults of the routes that it
/// describes, and of the scripts together.
#[derive(Clone, Copy, Debug, PartialEq, Eq)]
pub enum PlatformCode {
    /// The bytes are no TOML document.
    Syntax,
    /// A key that its table doesn't have.
    UnknownKey,
    /// A key without a default isn't there.
    MissingKey,
    /// A value of another type than its key has.
    WrongType,
    /// A name that isn't a lower-case letter followed by at most 15 lower-case letters, digits or
    /// `_`.
    BadName,
    /// A word outside its key's list.
    UnknownWord,
    /// A number, a text's length in bytes or an array's length that isn't allowed.
    OutOfRange,
    /// A memory that can neither be read nor written.
    NoAccess,
    /// A name that stood before.
    NameTwice,
    /// A target that names no router and no memory.
    UnknownTarget,
    /// A window that ends before it begins.
    EmptyWindow,
    /// A window whose last address is seen as one past 2^63 - 1.
    PastEnd,
    /// A window that has an address of an earlier one.
    Overlap,
    /// The sizes of the memories sum to more than 67,108,864 bytes.
    TooMuchMemory,
    /// The gates of the memories sum to more than 1,024.
    TooManyGates,
    /// A router without a window, or a router or memory that nothing names.
    Unbound,
    /// A router that leads back to itself.
    Cycle,
    /// A path with more than 8 routers.
    TooDeep,
    /// Two paths from an initiator to one component.
    TwoPaths,
    /// The scripts ask for more than 1,000,000 entries.
    TooManyEntries,
    /// The scripts ask for more than 67,108,864 bytes of logged data.
    TooMuchData,
}

impl PlatformCode {
    ghost use Rattle.platform_model.specs.Code.{platform_code_word};

    /// The code as it is printed.
    pub fn name(self) -> &'static str
        ensures { result.now ≡ platform_code_word self }
    {
        match self {
            PlatformCode::Syntax => "syntax",
            PlatformCode::UnknownKey => "unknown_key",
            PlatformCode::MissingKey => "missing_key",
            PlatformCode::WrongType => "wrong_type",
            PlatformCode::BadName => "bad_name",
            PlatformCode::UnknownWord => "unknown_word",
            PlatformCode::OutOfRange => "out_of_range",
            PlatformCode::NoAccess => "no_access",
            PlatformCode::NameTwice => "name_twice",
            PlatformCode::UnknownTarget => "unknown_target",
            PlatformCode::EmptyWindow => "empty_window",
            PlatformCode::PastEnd => "past_end",
            PlatformCode::Overlap => "overlap",
            PlatformCode::TooMuchMemory => "too_much_memory",
            PlatformCode::TooManyGates => "too_many_gates",
            PlatformCode::Unbound => "unbound",
            PlatformCode::Cycle => "cycle",
            PlatformCode::TooDeep => "too_deep",
            PlatformCode::TwoPaths => "two_paths",
            PlatformCode::TooManyEntries => "too_many_entries",
            PlatformCode::TooMuchData => "too_much_data",
        }
    }
}

/// Why no platform was read.
#[derive(Drop, Error)]
pub enum PlatformFault {
    /// The first fault of the file: its code, and the texts of the table and of the key where it
    /// stands. An unknown key is handed on as it stands in the file.
    #[error("platform refused: {} {} {}", .code.name(), .table.as_text(), .key.as_text())]
    Refused {
        code: PlatformCode,
        table: Text,
        key: Text,
    },
    /// Memory was refused.
    #[error("out of memory")]
    Memory,
}

impl fmt::Debug for PlatformFault {
    fn fmt<W: fmt::Write>(&self, f: &mut fmt::Formatter<W>) -> fmt::Result {
        write!(f, "{self}")
    }
}

impl From<AllocError> for PlatformFault {
    ghost from_gives = { λ _ e. e ≡ Memory };

    fn from(_: AllocError) -> PlatformFault {
        PlatformFault::Memory
    }
}

impl<T: Drop> From<AllocFailed<T>> for PlatformFault {
    ghost from_gives = { λ _ e. e ≡ Memory };

    fn from(_: AllocFailed<T>) -> PlatformFault {
        PlatformFault::Memory
    }
}

impl From<tlm_types::Memory> for PlatformFault {
    ghost from_gives = { λ _ e. e ≡ Memory };

    fn from(_: tlm_types::Memory) -> PlatformFault {
        PlatformFault::Memory
    }
}
