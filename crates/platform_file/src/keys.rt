// The keys of a table.
ghost use Rattle.std.specs.Prelude.{◌≡◌, ◌≤◌, [], map, option_map, IfOk, vec_len};
ghost use Rattle.std.specs.List.{list_any};
ghost use Rattle.std.specs.Str.{bytes_eq};
ghost use Rattle.toml.specs.Data.{get_member};
ghost use Rattle.toml.specs.View.{view, table_view};
ghost use Rattle.platform_file.specs.Kinds.{tables, tables_seen};
ghost use Rattle.platform_file.specs.Keys.{known_keys, required_key, optional_key, TellsKindFault};
ghost use Rattle.platform_model.specs.Reading.{Gives, GivesBy};

use crate::kinds::{Kind, KindFault};
use crate::tables;
use platform_model::{Place, PlatformCode, PlatformFault};
use std::alloc::Global;
use toml::{Table, Value};

fn is_among(keys: &[&str], key: &str) -> bool
    ensures { result ≡ list_any (λ k. bytes_eq k.now key.now) keys.now }
{
    keys.iter().any(|known| *known == key)
}

/// A table of the document with its place, for reading it key by key. A reader calls `known` first,
/// and then one call for each key, in the order of the format: each call answers the key's value or
/// its fault, so that `?` after each gives the table's first fault.
#[derive(Drop)]
pub struct Keys<'a> {
    pub alloc: Global,
    pub place: Place,
    pub table: &'a Table,
}

impl<'a> Keys<'a> {
    fn value(&self, key: &str) -> Option<&'a Value>
        ensures { option_map (λ v. view v.now) result
            ≡ get_member key.now (table_view self.now.table.now) }
    {
        self.table.get(key)
    }

    /// The fault of a key's value.
    fn fault(&self, key: &str, fault: KindFault) -> PlatformFault
        ensures { TellsKindFault fault self.now.place key.now result }
    {
        match fault {
            KindFault::Memory => PlatformFault::Memory,
            KindFault::Code(code) => self.place.refuse(self.alloc, code, key),
        }
    }

    /// The value of a key that has to be there. It is `MissingKey` where it isn't, and else what its
    /// kind answers.
    pub fn required<K: Kind<'a> + Drop>(
        &self,
        key: &str,
        kind: K,
    ) -> Result<K::Output, PlatformFault>
        ensures { Gives result
            (required_key (K.reads kind) self.now.place key.now (table_view self.now.table.now)) }
    {
        let Some(value) = self.value(key) else {
            return Err(self.place.refuse(self.alloc, PlatformCode::MissingKey, key));
        };
        match kind.read(self.alloc, value) {
            Ok(read) => Ok(read),
            Err(fault) => Err(self.fault(key, fault)),
        }
    }

    /// The value of a key that may be left out: the default where it is, and else what its kind
    /// answers.
    pub fn optional<K: Kind<'a> + Drop>(
        &self,
        key: &str,
        kind: K,
        default: K::Output,
    ) -> Result<K::Output, PlatformFault>
    where
        K::Output: Drop,
        ensures { Gives result
            (optional_key (K.reads kind) default self.now.place key.now
            (table_view self.now.table.now)) }
    {
        let Some(value) = self.value(key) else {
            return Ok(default);
        };
        match kind.read(self.alloc, value) {
            Ok(read) => Ok(read),
            Err(fault) => Err(self.fault(key, fault)),
        }
    }

    /// The tables of an array that has to be there, `least` to `most` of them.
    pub fn required_tables(
        &self,
        key: &str,
        least: usize,
        most: usize,
    ) -> Result<Vec<&'a Table>, PlatformFault>
        ensures limited { IfOk result (λ v. vec_len v ≤ most) }
        ensures read { GivesBy tables_seen result
            (required_key (tables least most) self.now.place key.now
            (table_view self.now.table.now)) }
    {
        let Some(value) = self.value(key) else {
            return Err(self.place.refuse(self.alloc, PlatformCode::MissingKey, key));
        };
        match tables::tables(self.alloc, value, least, most) {
            Ok(tables) => Ok(tables),
            Err(fault) => Err(self.fault(key, fault)),
        }
    }

    /// The tables of an array that may be left out, at most `most` of them.
    pub fn optional_tables(&self, key: &str, most: usize) -> Result<Vec<&'a Table>, PlatformFault>
        ensures limited { IfOk result (λ v. vec_len v ≤ most) }
        ensures read { GivesBy tables_seen result
            (optional_key (tables 0 most) [] self.now.place key.now
            (table_view self.now.table.now)) }
    {
        let Some(value) = self.value(key) else {
            return Ok(Vec::new(self.alloc));
        };
        match tables::tables(self.alloc, value, 0, most) {
            Ok(tables) => Ok(tables),
            Err(fault) => Err(self.fault(key, fault)),
        }
    }

    /// That the table has no key but these. Else the answer is `UnknownKey` at the least unknown key
    /// in byte order.
    pub fn known(&self, keys: &[&str]) -> Result<(), PlatformFault>
        ensures { Gives result
            (known_keys (map (λ k. k.now) keys.now) self.now.place
            (table_view self.now.table.now)) }
    {
        for key in self.table.keys() {
            if !is_among(keys, key.as_str()) {
                return Err(
                    self.place
                        .refuse(self.alloc, PlatformCode::UnknownKey, key.as_str()),
                );
            }
        }
        Ok(())
    }
}
