//! Tables of one list taken into another, each by its name.

ghost use Rattle.std.specs.Prelude.{◌≡◌, IfOk, map};
ghost use Rattle.branch_procs.specs.Taking.{taking, taking_all};

use sql_write::{placed, table_in, without};
use std::alloc::{AllocError, Global};
use table_root::TableEntry;
use tuple_codec::Text;

/// The list that takes the table of this name, or its absence, from another.
fn take(
    alloc: Global,
    from: &[TableEntry],
    into: Vec<TableEntry>,
    name: &Text,
) -> Result<Vec<TableEntry>, AllocError>
    ensures { IfOk result (λ made. made.items ≡ taking from.now into.items name.now) }
{
    let name = name.as_slice();
    let left = without(alloc, into, name)?;
    match table_in(from, name) {
        None => Ok(left),
        Some(table) => {
            let name = Text::from_slice(alloc, name)?;
            placed(left, TableEntry { name, table })
        }
    }
}

/// The list that takes the tables of these names, or their absence, from another.
pub(crate) fn take_all(
    alloc: Global,
    from: &[TableEntry],
    into: Vec<TableEntry>,
    names: &[Text],
) -> Result<Vec<TableEntry>, AllocError>
    ensures { IfOk result (λ made. made.items ≡ taking_all from.now into.items names.now) }
{
    let mut made = into;
    for name in names {
        made = take(alloc, from, made, name)?;
    }
    Ok(made)
}

/// The same by the names of tables.
pub(crate) fn take_named(
    alloc: Global,
    from: &[TableEntry],
    into: Vec<TableEntry>,
    tables: &[TableEntry],
) -> Result<Vec<TableEntry>, AllocError>
    ensures { IfOk result (λ made. made.items ≡ taking_all from.now into.items (map (λ named. named.name) tables.now)) }
{
    let mut made = into;
    for named in tables {
        made = take(alloc, from, made, &named.name)?;
    }
    Ok(made)
}
