// Arrays of tables.
ghost use Rattle.std.specs.Prelude.{◌≤◌, IfOk, vec_len};
ghost use Rattle.toml.specs.View.{view, items_view};
ghost use Rattle.platform_file.specs.Kinds.{tables, all_tables, tables_seen, KindGivesBy};

use crate::kinds::KindFault;
use platform_model::PlatformCode;
use std::alloc::Global;
use toml::{Table, Value};

/// Some values as tables, if each is one.
fn all_tables<'a>(alloc: Global, values: &'a [Value]) -> Result<Vec<&'a Table>, KindFault>
    ensures { KindGivesBy tables_seen result (all_tables (items_view values.now)) }
{
    let mut tables = Vec::new(alloc);
    for value in values {
        let Some(table) = value.as_table() else {
            return Err(KindFault::Code(PlatformCode::WrongType));
        };
        tables.push(table)?;
    }
    Ok(tables)
}

/// An array of `least` to `most` tables. Its elements are tested before its length. It is read as
/// references into the document, and so it is no `Kind`, whose output contracts compare.
pub fn tables<'a>(
    alloc: Global,
    value: &'a Value,
    least: usize,
    most: usize,
) -> Result<Vec<&'a Table>, KindFault>
    ensures read { KindGivesBy tables_seen result (tables least most (view value.now)) }
    ensures limited { IfOk result (λ v. vec_len v ≤ most) }
{
    let Some(values) = value.as_array() else {
        return Err(KindFault::Code(PlatformCode::WrongType));
    };
    let found = all_tables(alloc, values)?;
    if found.len() < least || most < found.len() {
        return Err(KindFault::Code(PlatformCode::OutOfRange));
    }
    Ok(found)
}
