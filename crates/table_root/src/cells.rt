//! A row's cells, put together from those of its key and the others.

ghost use Rattle.std.specs.Prelude.{◌≡◌, ◌==◌, IfOk, position};
ghost use Rattle.std.specs.Option.{option_copied};
ghost use Rattle.std.specs.Vec.Iter.{into_iter_items};
ghost use Rattle.table_root.specs.Places.{cell_or_first, joined_from, keyed_cell, others_after};

use std::alloc::{AllocError, Global};
use std::vec::IntoIter;
use tuple_codec::{Row, Sequence, Value, copy_value};

/// The row of so many columns with these cells of its key, and these others.
pub(crate) fn joined(
    alloc: Global,
    key: &[u8],
    columns: usize,
    cells: &[Value],
    others: Row,
) -> Result<Row, AllocError>
    ensures { IfOk result (λ row. row ≡ joined_from key.now cells.now 0 columns others) }
{
    let mut others = others.into_vec().into_iter();
    let mut row = Sequence::new(alloc);
    for position in 0..columns {
        let cell = next_cell(alloc, keyed_cell(key, cells, position), &mut others)?;
        row.push(cell)?;
    }
    Ok(row)
}

/// A copy of a cell of the key, or else the first of the others.
fn next_cell(
    alloc: Global,
    keyed: Option<&Value>,
    others: &mut IntoIter<Value>,
) -> Result<Value, AllocError>
    ensures cell { IfOk result (λ cell. cell ≡ cell_or_first (option_copied keyed.entry) (into_iter_items others.old)) }
    ensures others { into_iter_items others.new ≡ others_after (option_copied keyed.entry) (into_iter_items others.old) }
{
    match keyed {
        Some(cell) => copy_value(alloc, cell),
        None => Ok(others.next().unwrap_or(Value::Null)),
    }
}

/// The cell of a position, where it is one of the key's.
fn keyed_cell<'a>(key: &[u8], cells: &'a [Value], position: usize) -> Option<&'a Value>
    ensures { option_copied result ≡ keyed_cell key.now cells.now position }
{
    match place_in(key, position) {
        Some(place) => cells.get(place),
        None => None,
    }
}

/// Where a column's position stands in a key.
fn place_in(key: &[u8], column: usize) -> Option<usize>
    ensures { result ≡ position (λ other. other == column) key.now }
{
    key.iter().position(|other| usize::from(*other) == column)
}
