// Tables that are read one after the other.
ghost use Rattle.std.specs.Prelude.{◌≡◌, ℕ, length, map, Result, IfOk};
ghost use Rattle.toml.specs.Data.{Members};
ghost use Rattle.toml.specs.View.{table_view};
ghost use Rattle.platform_model.specs.Reading.{Gives, PlatformRefusal, rows_from};

use platform_model::{PlatformFault, RowKind, rows};
use std::alloc::Global;
use tlm_model::Rows;
use toml::Table;

/// A kind of rows, each made of a table of the document and of its number there.
pub trait TableKind {
    type Row;

    ghost reads: { Self → ℕ → Members → Result Self.Row PlatformRefusal };

    /// The row of the table with this number. Its only other error is want of memory.
    fn read(&self, alloc: Global, index: usize, table: &Table) -> Result<Self::Row, PlatformFault>
        ensures { Gives result (reads self.now index (table_view table.now)) };
}

/// The rows of tables as rows of references to tables.
#[derive(Drop)]
struct OfTables<'k, K> {
    kind: &'k K,
}

impl<'a, 'k, K: TableKind> RowKind<&'a Table> for OfTables<'k, K> {
    type Row = K::Row;

    ghost reads = { λ s i t. K.reads s.kind.now i (table_view t.now) };

    fn read(&self, alloc: Global, index: usize, item: &&'a Table) -> Result<K::Row, PlatformFault> {
        self.kind.read(alloc, index, *item)
    }
}

/// The rows of some tables in order, which are numbered from 0, or the first refusal.
pub fn table_rows<K: TableKind>(
    alloc: Global,
    kind: &K,
    tables: &[&Table],
) -> Result<Rows<K::Row>, PlatformFault>
where
    K::Row: Drop,
    ensures read { Gives result (rows_from (K.reads kind.now) 0 (map (λ t. table_view t.now) tables.now)) }
    ensures count { IfOk result (λ r. length r ≡ length tables.now) }
{
    rows(alloc, &OfTables { kind }, tables)
}
