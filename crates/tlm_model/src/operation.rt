// What a script asks for.
use tlm_types::{Bytes, Ps};

/// An operation of a script. Addresses are those that the initiator sees, lengths are in bytes,
/// times in picoseconds.
#[derive(Drop)]
pub enum Operation {
    /// Writes 1 to 4,096 bytes. Without a streaming width of its own the width is the data length.
    Write {
        address: u64,
        bytes: Bytes,
        enables: Bytes,
        width: Option<u64>,
    },
    /// Reads 1 to 4,096 bytes. Without a streaming width of its own the width is the data length.
    Read {
        address: u64,
        length: u64,
        enables: Bytes,
        width: Option<u64>,
    },
    /// Sends the ignore command, with no data.
    Ignore {
        address: u64,
    },
    /// Reads by debug transport.
    Debug {
        address: u64,
        length: u64,
    },
    /// Reads, and then writes what was read, whatever the read's status.
    Copy {
        from: u64,
        to: u64,
        length: u64,
    },
    /// Reads four bytes, and then writes them as a little-endian number plus this one, modulo 2^32.
    Add {
        address: u64,
        number: u32,
    },
    /// Reads four bytes and writes them as a little-endian number plus this one, modulo 2^32, in one
    /// access. It is this project's own.
    FetchAdd {
        address: u64,
        number: u32,
    },
    /// Lets time pass.
    Wait {
        time: Ps,
    },
    /// Synchronizes once.
    Sync,
    /// Waits for all that is outstanding.
    Fence,
    /// Ends the grants of direct access to these bytes.
    Invalidate {
        address: u64,
        length: u64,
    },
}
