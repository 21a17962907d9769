// Why a script is refused.
ghost use Rattle.std.specs.Prelude.{◌≡◌};
ghost use Rattle.traffic_script.specs.declared.fault.ScriptFault.{ScriptFault};
ghost use Rattle.traffic_script.specs.declared.fault.LineFault.{LineFault};
ghost use Rattle.traffic_script.specs.declared.fault.LineFault.TheVariants.{Refused, Memory};
ghost use Rattle.traffic_script.specs.Reading.{script_code_word, fault_at};

use std::alloc::{AllocError, AllocFailed};
use thiserror::Error;
use tlm_types::Memory;

/// The codes of a refused script.
#[derive(Clone, Copy, Debug, PartialEq, Eq)]
pub enum ScriptCode {
    /// There are more than 10,000 lines.
    TooManyLines,
    /// A byte is neither a tab nor from a space to a tilde.
    BadByte,
    UnknownOperation,
    /// There are too few words, or too many on a line without options.
    Arity,
    /// A word isn't a number below 2^64, or the number of `add`, `fetch_add` or `repeat` is out of its range.
    BadNumber,
    /// A word isn't an even number of hexadecimal digits, or a byte enable is neither 00 nor ff.
    BadHex,
    /// A number of bytes is out of its range.
    BadLength,
    /// An option is neither `be=` nor `sw=`, or stands there a second time.
    BadOption,
    NestedRepeat,
    EndWithoutRepeat,
    EmptyRepeat,
    /// There are more than 100,000 operations, with each round of a repeat counted.
    TooManyOperations,
    RepeatWithoutEnd,
}

impl ScriptCode {
    /// The code as it is printed.
    pub fn name(self) -> &'static str
        ensures { result.now ≡ script_code_word self }
    {
        match self {
            ScriptCode::TooManyLines => "too_many_lines",
            ScriptCode::BadByte => "bad_byte",
            ScriptCode::UnknownOperation => "unknown_operation",
            ScriptCode::Arity => "arity",
            ScriptCode::BadNumber => "bad_number",
            ScriptCode::BadHex => "bad_hex",
            ScriptCode::BadLength => "bad_length",
            ScriptCode::BadOption => "bad_option",
            ScriptCode::NestedRepeat => "nested_repeat",
            ScriptCode::EndWithoutRepeat => "end_without_repeat",
            ScriptCode::EmptyRepeat => "empty_repeat",
            ScriptCode::TooManyOperations => "too_many_operations",
            ScriptCode::RepeatWithoutEnd => "repeat_without_end",
        }
    }
}

/// Why no script was read: the first fault, at a line counted from 1, or memory was refused.
#[derive(Debug, Drop, Error)]
pub enum ScriptFault {
    #[error("line {line}: {}", .code.name())]
    Refused { line: u32, code: ScriptCode },
    #[error("out of memory")]
    Memory,
}

impl From<Memory> for ScriptFault {
    ghost use Rattle.traffic_script.specs.declared.fault.ScriptFault.TheVariants as script;

    ghost from_gives = { λ _ fault. fault ≡ script.Memory };

    fn from(_: Memory) -> ScriptFault {
        ScriptFault::Memory
    }
}

/// Why a line of a script is refused, before its number is known, or memory was refused.
#[derive(Debug, Drop)]
pub enum LineFault {
    Refused(ScriptCode),
    Memory,
}

impl LineFault {
    pub fn at(self, line: u32) -> ScriptFault
        ensures { result ≡ fault_at line self }
    {
        match self {
            LineFault::Refused(code) => ScriptFault::Refused { line, code },
            LineFault::Memory => ScriptFault::Memory,
        }
    }
}

impl From<ScriptCode> for LineFault {
    ghost from_gives = { λ code fault. fault ≡ Refused code };

    fn from(code: ScriptCode) -> LineFault {
        LineFault::Refused(code)
    }
}

impl From<Memory> for LineFault {
    ghost from_gives = { λ _ fault. fault ≡ Memory };

    fn from(_: Memory) -> LineFault {
        LineFault::Memory
    }
}

impl From<AllocError> for LineFault {
    ghost from_gives = { λ _ fault. fault ≡ Memory };

    fn from(_: AllocError) -> LineFault {
        LineFault::Memory
    }
}

impl<T: Drop> From<AllocFailed<T>> for LineFault {
    ghost from_gives = { λ _ fault. fault ≡ Memory };

    fn from(_: AllocFailed<T>) -> LineFault {
        LineFault::Memory
    }
}
