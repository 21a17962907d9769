// Libraries in memory.
ghost use Rattle.std.specs.Prelude.{◌≡◌, ◌<◌, ◌≤◌, ◌↔◌, ℕ, List, [], length, vec_len, Some, None, IfSome, IsSomeAnd, IfOk, IsErrOf, unwrap_or, is_none, if◌then◌else◌};
ghost use Rattle.std.specs.Option.{option_copied};
ghost use Rattle.outside.specs.Causes.{next_count, Rose};
ghost use Rattle.outside.specs.Files.{held, held_or_empty};
ghost use Rattle.outside.specs.LibraryState.{found, unless_failing};
ghost use Rattle.outside.specs.declared.libraries.NamedFile.{NamedFile as File};

use crate::traits::{Library, LoadFault};
use std::alloc::Global;
use std::marker::Model;
use tlm_types::{Bytes, Text};

/// A file in memory.
#[derive(Drop)]
pub struct NamedFile {
    pub name: Text,
    pub bytes: Bytes,
}

/// Files in memory, of which some loads fail: those whose number, counted from 0 over all loads of
/// this library, is listed. A name that it doesn't hold is a failed load. It has one count of failures
/// for all names.
#[derive(Drop)]
pub struct MapLibrary {
    files: Vec<NamedFile>,
    failing: Vec<u64>,
    loads: u64,
    faults: u64,
}

impl Model for MapLibrary {
    ghost use Rattle.outside.specs.LibraryState.{LibraryState};

    ghost Value = { LibraryState };

    ghost view = { λ s. record { files = s.files.items; failing = s.failing.items; loads = s.loads; faults = s.faults } };
}

impl MapLibrary {
    /// A library of these files, whose loads of these numbers fail. Of two files of one name it holds
    /// the first.
    pub fn new(files: Vec<NamedFile>, failing: Vec<u64>) -> MapLibrary
        ensures { result ≡ record { files = files.items; failing = failing.items; loads = 0; faults = 0 } }
    {
        MapLibrary {
            files,
            failing,
            loads: 0,
            faults: 0,
        }
    }

    /// How many loads there were, failed ones among them.
    pub fn loads(&self) -> u64
        ensures { result ≡ self.now.loads }
    {
        self.loads
    }

    /// How many loads failed.
    pub fn faults(&self) -> u64
        ensures { result ≡ self.now.faults }
    {
        self.faults
    }
}

fn find_file<'a>(files: &'a [NamedFile], name: &str) -> Option<&'a Bytes>
    ensures { option_copied result ≡ held files.now name.now }
{
    for file in files {
        if file.name.as_text() == name {
            return Some(&file.bytes);
        }
    }
    None
}

// The load of this number finds nothing where it is to fail.
fn find_next<'a>(
    files: &'a [NamedFile],
    failing: &[u64],
    number: u64,
    name: &str,
) -> Option<&'a Bytes>
    ensures { option_copied result ≡ unless_failing failing.now number (held files.now name.now) }
{
    if failing.contains(&number) {
        return None;
    }
    find_file(files, name)
}

fn copy_within(alloc: Global, bytes: &[u8], limit: u64) -> Result<Vec<u8>, LoadFault>
    ensures loaded { IfOk result (λ v. v.items ≡ bytes.now) }
    ensures too_long { IsErrOf result LoadFault.TooLong ↔ (limit < length bytes.now) }
    ensures willing { ¬ (IsErrOf result LoadFault.Failed) }
{
    if bytes.len() as u64 > limit {
        return Err(LoadFault::TooLong);
    }
    Vec::from_slice(alloc, bytes).map_err(|_| LoadFault::Memory)
}

impl Library for MapLibrary {
    ghost holds = { λ s n. held s.files n };

    ghost faults = { λ s n. s.faults };

    fn load(&mut self, alloc: Global, name: &str, limit: u64) -> Result<Vec<u8>, LoadFault>
        // What is found decides the answer, but for memory.
        ensures given { IfOk result (λ v. found self.old name.now ≡ Some v.items) }
        ensures unfound { IsErrOf result LoadFault.Failed ↔ (found self.old name.now ≡ None) }
        ensures longer { IsErrOf result LoadFault.TooLong
            ↔ IsSomeAnd (found self.old name.now) (λ bytes. limit < length bytes) }
        ensures counted { self.new ≡ record self.old {
          loads = next_count self.old.loads;
          faults = if is_none (found self.old name.now) then next_count self.old.faults else self.old.faults;
        } }

        // What every library promises.
        ensures same { (n : List ℕ) → held self.new.files n ≡ held self.old.files n }
        ensures later { (n : List ℕ) → self.old.faults ≤ self.new.faults }
        ensures loaded { IfOk result
            (λ v. IfSome (held self.old.files name.now) (λ bytes. v.items ≡ bytes)) }
        ensures within { IfOk result (λ v. vec_len v ≤ limit) }
        ensures failed { IsErrOf result LoadFault.Failed → Rose self.old.faults self.new.faults }
        ensures too_long { IsErrOf result LoadFault.TooLong
            → IfSome (held self.old.files name.now) (λ bytes. limit < length bytes) }
    {
        let number = self.loads;
        self.loads = number.saturating_add(1);
        match find_next(&self.files, &self.failing, number, name) {
            None => {
                self.faults = self.faults.saturating_add(1);
                Err(LoadFault::Failed)
            }
            Some(bytes) => copy_within(alloc, bytes.as_slice(), limit),
        }
    }
}

/// Files in memory whose loads never fail: a name that it doesn't hold is an empty file.
#[derive(Drop)]
pub struct WillingLibrary {
    files: Vec<NamedFile>,
}

impl Model for WillingLibrary {
    ghost Value = { List File };

    ghost view = { λ s. s.files.items };
}

impl WillingLibrary {
    /// A library of these files. Of two files of one name it holds the first.
    pub fn new(files: Vec<NamedFile>) -> WillingLibrary
        ensures { result ≡ files.items }
    {
        WillingLibrary { files }
    }
}

impl Library for WillingLibrary {
    ghost holds = { λ s n. Some (held_or_empty s n) };

    ghost faults = { λ s n. 0 };

    fn load(&mut self, alloc: Global, name: &str, limit: u64) -> Result<Vec<u8>, LoadFault> {
        match find_file(&self.files, name) {
            None => Ok(Vec::new(alloc)),
            Some(bytes) => copy_within(alloc, bytes.as_slice(), limit),
        }
    }
}
