// A library over the files of the system.
ghost use Rattle.std.specs.Prelude.{◌≡◌, ◌<◌, ◌≤◌, ℕ, List, length, Option, None, Some, IfSome, IfOk, IsErrOf, MatchResult, vec_len};
ghost use Rattle.outside.specs.Causes.{Rose, faults_after};

use crate::traits::{Library, LoadFault};
use std::alloc::Global;
use std::io::{ErrorKind, Read};
use std::rt::Files;
use std::{fs, io};

/// Where files are opened by name. Every runtime that has files is one, and tells no content.
pub trait Folder {
    type File: Read + Drop;

    /// The bytes of the file of a name, where they are known.
    ghost file_bytes: { Self → List ℕ → Option (List ℕ) } = { λ _ _. None };

    /// Opens the file of this name for reading from its beginning.
    fn open(&self, name: &str) -> io::Result<Self::File>
        ensures { IfOk result (λ file. IfSome (file_bytes self.now name.now)
            (λ bytes. Self.File.remaining file ≡ Some bytes)) };
}

impl<R: Files> Folder for R {
    type File = R::File;

    fn open(&self, name: &str) -> io::Result<R::File> {
        fs::open(self, name)
    }
}

/// The files of a folder; of a runtime, those of the current folder, by their paths relative to it. It
/// has one count of failures for all names.
#[derive(Drop)]
pub struct FolderLibrary<'a, R: Folder> {
    folder: &'a R,
    faults: u64,
}

impl<'a, R: Folder> FolderLibrary<'a, R> {
    ghost use Rattle.outside.specs.Folder.{folder_behind, folder_faults};

    /// A library of this folder's files, of which no load has failed.
    pub fn new(folder: &'a R) -> FolderLibrary<'a, R>
        ensures folder { folder_behind result ≡ folder.now }
        ensures none { folder_faults result ≡ 0 }
    {
        FolderLibrary { folder, faults: 0 }
    }

    /// How many loads have failed.
    pub fn faults(&self) -> u64
        ensures { result ≡ folder_faults self.now }
    {
        self.faults
    }
}

// For how many bytes there is room from the beginning, so that most files are read in a few calls, and their bytes aren't moved. Room
// that isn't used is no memory that is touched.
const FILE_ROOM: usize = 0x10_0000;

// All bytes of a file, of which at most one more than the limit is read.
fn read_within<F: Read + Drop>(alloc: Global, file: F, limit: u64) -> Result<Vec<u8>, LoadFault>
    ensures all { IfOk result (λ v. IfSome (F.remaining file) (λ bytes. v.items ≡ bytes)) }
    ensures within { IfOk result (λ v. vec_len v ≤ limit) }
    ensures too_long { IsErrOf result LoadFault.TooLong
        → IfSome (F.remaining file) (λ bytes. limit < length bytes) }
{
    let Ok(mut bytes) = Vec::with_capacity(alloc, FILE_ROOM) else {
        return Err(LoadFault::Memory);
    };
    match file.take(limit.saturating_add(1)).read_to_end(&mut bytes) {
        Ok(_) if bytes.len() as u64 > limit => Err(LoadFault::TooLong),
        Ok(_) => Ok(bytes),
        Err(e) if e.kind() == ErrorKind::OutOfMemory => Err(LoadFault::Memory),
        Err(_) => Err(LoadFault::Failed),
    }
}

fn load_file<R: Folder>(
    alloc: Global,
    folder: &R,
    name: &str,
    limit: u64,
) -> Result<Vec<u8>, LoadFault>
    ensures loaded { IfOk result
        (λ v. IfSome (R.file_bytes folder.now name.now) (λ bytes. v.items ≡ bytes)) }
    ensures within { IfOk result (λ v. vec_len v ≤ limit) }
    ensures too_long { IsErrOf result LoadFault.TooLong
        → IfSome (R.file_bytes folder.now name.now) (λ bytes. limit < length bytes) }
{
    match folder.open(name) {
        Ok(file) => read_within(alloc, file, limit),
        Err(_) => Err(LoadFault::Failed),
    }
}

impl<'a, R: Folder> Library for FolderLibrary<'a, R> {
    ghost use Rattle.outside.specs.Folder.{folder_behind, folder_faults};

    ghost holds = { λ s n. R.file_bytes (folder_behind s) n };

    ghost faults = { λ s n. folder_faults s };

    fn load(&mut self, alloc: Global, name: &str, limit: u64) -> Result<Vec<u8>, LoadFault>
        ensures folder { folder_behind self.new ≡ folder_behind self.old }
        ensures counted { MatchResult result
            (λ v. folder_faults self.new ≡ folder_faults self.old)
            (λ fault. folder_faults self.new ≡ faults_after (folder_faults self.old) fault) }

        // What every library promises.
        ensures same { (n : List ℕ) → R.file_bytes (folder_behind self.new) n
            ≡ R.file_bytes (folder_behind self.old) n }
        ensures later { (n : List ℕ) → folder_faults self.old ≤ folder_faults self.new }
        ensures loaded { IfOk result (λ v. IfSome (R.file_bytes (folder_behind self.old) name.now)
            (λ bytes. v.items ≡ bytes)) }
        ensures within { IfOk result (λ v. vec_len v ≤ limit) }
        ensures failed { IsErrOf result LoadFault.Failed
            → Rose (folder_faults self.old) (folder_faults self.new) }
        ensures too_long { IsErrOf result LoadFault.TooLong
            → IfSome (R.file_bytes (folder_behind self.old) name.now) (λ bytes. limit < length bytes) }
    {
        let loaded = load_file(alloc, self.folder, name, limit);
        if let Err(LoadFault::Failed) = &loaded {
            self.faults = self.faults.saturating_add(1);
        }
        loaded
    }
}
