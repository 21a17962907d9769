//! What is outside the program: files to read, streams to write to, and time.
//!
//! - `Library` loads files by name, `Sink` takes bytes, `Pace` delays; code above is generic over them. A `Piece` writes
//!   itself, so that a sink can have it made where it stays.
//! - In memory: `MapLibrary` and `VecSink` fail where they are told to; `WillingLibrary` and
//!   `WillingSink` never fail; `NoPace` doesn't delay.
//! - For real: `FolderLibrary` reads the files of a `Folder`, as the system's current folder is, and
//!   `StreamSink` collects what it is given and writes it to a stream in large pieces.
//!
//! Promises: a load changes nothing that is held and gives just the bytes held; a sink has taken the
//! whole piece, or a prefix of it where it fails; each failure is counted. No contract says what a file
//! or a stream of the system holds, so over these the two adapters tell no content (`Untold` is such a
//! stream). Over a folder that tells its files a load gives just these, and over a stream that tells what
//! it holds nothing is lost or reordered on the way to it.
#![tactic(auto)]

mod folders;
mod libraries;
mod sinks;
mod stream;
mod streams;
mod traits;

pub use folders::{Folder, FolderLibrary};
pub use libraries::{MapLibrary, NamedFile, WillingLibrary};
pub use sinks::{FailingWrite, VecSink, WillingSink};
pub use stream::{STREAM_ROOM, StreamSink};
pub use streams::{Stream, Untold};
pub use traits::{Failed, Library, LoadFault, NoPace, PIECE_ROOM, Pace, Piece, Sink};
