// Rows that are read one after the other.
ghost use Rattle.std.specs.Prelude.{◌≡◌, ℕ, length, Result, IfOk};
ghost use Rattle.platform_model.specs.Reading.{Gives, PlatformRefusal, rows_from};

use crate::fault::PlatformFault;
use std::alloc::Global;
use tlm_model::Rows;

/// A kind of rows, each made of an item and of its number. Its member `reads` says what is read of
/// an item, or with which refusal. A test of items is a kind of rows, too: its rows are `()`.
pub trait RowKind<I> {
    type Row;

    ghost reads: { Self → ℕ → I → Result Self.Row PlatformRefusal };

    /// The row of the item with this number. Its only other error is want of memory.
    fn read(&self, alloc: Global, index: usize, item: &I) -> Result<Self::Row, PlatformFault>
        ensures { Gives result (reads self.now index item.now) };
}

/// The rows of some items in order, which are numbered from 0, or the first refusal.
pub fn rows<I, K: RowKind<I>>(
    alloc: Global,
    kind: &K,
    items: &[I],
) -> Result<Rows<K::Row>, PlatformFault>
where
    K::Row: Drop,
    ensures read { Gives result (rows_from (K.reads kind.now) 0 items.now) }
    ensures count { IfOk result (λ r. length r ≡ length items.now) }
{
    let mut rows = Vec::new(alloc);
    for (index, item) in items.iter().enumerate() {
        let row = kind.read(alloc, index, item)?;
        rows.push(row)?;
    }
    Ok(Rows::from_vec(rows))
}
