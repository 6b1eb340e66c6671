//! A row's cells by their positions, and rows compared.

ghost use Rattle.std.specs.Prelude.{◌≡◌, IfOk};
ghost use Rattle.tuple_codec.specs.Rows.{AreTold, cell_at, key_cmp, key_of, same_cells, same_value};

use crate::copies::copy_value;
use crate::sequences::Sequence;
use crate::values::{Row, Value};
use std::alloc::{AllocError, Global};
use std::cmp::Ordering;

/// A copy of the cell at a position, NULL where there is none.
pub fn cell_at(alloc: Global, row: &[Value], position: usize) -> Result<Value, AllocError>
    ensures { IfOk result (λ cell. cell ≡ cell_at row.now position) }
{
    match row.get(position) {
        Some(cell) => copy_value(alloc, cell),
        None => Ok(Value::Null),
    }
}

/// A row's key: copies of the cells at these positions, in this order.
pub fn key_of(alloc: Global, positions: &[u8], row: &[Value]) -> Result<Row, AllocError>
    ensures { IfOk result (λ key. key ≡ key_of positions.now row.now) }
{
    let mut key = Sequence::new(alloc);
    for position in positions {
        key.push(cell_at(alloc, row, usize::from(*position))?)?;
    }
    Ok(key)
}

/// The order of two keys, by their first cells that differ; a key comes before those that go on with more cells.
pub fn key_cmp(a: &[Value], b: &[Value]) -> Ordering
    ensures { result ≡ key_cmp a.now b.now }
{
    match a {
        [] => match b {
            [] => Ordering::Equal,
            [_, ..] => Ordering::Less,
        },
        [x, xs @ ..] => match b {
            [] => Ordering::Greater,
            [y, ys @ ..] => x.compare(y).then(key_cmp(xs, ys)),
        },
    }
}

/// Whether two cells are equal: of one variant, with one value.
pub fn same_value(a: &Value, b: &Value) -> bool
    ensures { result ≡ same_value a.now b.now }
{
    a.compare(b).is_eq()
}

/// Whether two rows have the same cells.
pub fn same_cells(a: &[Value], b: &[Value]) -> bool
    ensures { result ≡ same_cells a.now b.now }
{
    key_cmp(a, b).is_eq()
}

/// Cells that these tests call the same are one, and so are lists of cells.
pub fn same_cells_are_one()
    ensures values { AreTold same_value }
    ensures cells { AreTold same_cells }
{}
