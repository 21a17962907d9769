// What a command line asks for.

use tlm_model::Trace;

/// What a command line asks for. A file's name isn't empty and doesn't begin with `-`.
#[derive(Clone, Copy, Debug, PartialEq, Eq)]
pub enum Command<'a> {
    /// A run of the platform of a file with this many workers, 1 to 16.
    Run {
        file: &'a str,
        workers: u32,
        trace: Trace,
    },
    /// A run of one script.
    Script {
        file: &'a str,
    },
    /// A run of the platform that is generated of this number, with this many workers, 1 to 16.
    Gen {
        seed: u64,
        workers: u32,
    },
}
