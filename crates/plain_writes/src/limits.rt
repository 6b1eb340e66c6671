//! Rows that pass a limit. What cells take is counted where they stand, so nothing is copied.

ghost use Rattle.std.specs.Prelude.{◌≡◌, ◌-◌, ◌^◌, length, min};
ghost use Rattle.std.specs.List.{list_all};
ghost use Rattle.tuple_codec.specs.KeyBytes.{key_bytes, key_cell};
ghost use Rattle.tuple_codec.specs.RowBytes.{row_bytes};
ghost use Rattle.tuple_codec.specs.Rows.{cell_at, key_of};
ghost use Rattle.schema_model.specs.Limits.{is_short_in, is_short_key, is_short_row};
ghost use Rattle.schema_model.specs.PlainTables.{is_keyed, primary_key, unkeyed_from};
ghost use Rattle.plain_writes.specs.Writes.{is_large};

use schema_model::limits::{MOST_INDEX_BYTES, MOST_KEY_BYTES, MOST_ROW_BYTES};
use schema_model::{IndexDef, Schema};
use tuple_codec::{Value, key_cell_size, row_cell_size};

/// The bytes in a key of the cell at a place, of NULL where there is none.
fn cell_size_at(row: &[Value], place: usize) -> u64
    ensures { result ≡ min (length (key_cell (cell_at row.now place))) (2 ^ 64 - 1) }
{
    match row.get(place) {
        Some(cell) => key_cell_size(cell),
        None => key_cell_size(&Value::Null),
    }
}

/// The bytes of the key that the cells at these places are.
fn size_at(places: &[u8], row: &[Value]) -> u64
    ensures { result ≡ min (length (key_bytes (key_of places.now row.now))) (2 ^ 64 - 1) }
{
    let mut size = 0u64;
    for place in places {
        size = size.saturating_add(cell_size_at(row, usize::from(*place)));
    }
    size
}

fn is_keyed(key: &[u8], position: usize) -> bool
    ensures { result ≡ is_keyed key.now position }
{
    key.iter().any(|other| usize::from(*other) == position)
}

/// The bytes of the cells that aren't in the primary key.
fn size_beside(key: &[u8], row: &[Value]) -> u64
    ensures { result ≡ min (length (row_bytes (unkeyed_from key.now 0 row.now))) (2 ^ 64 - 1) }
{
    let mut size = 0u64;
    for (position, value) in row.iter().enumerate() {
        if !is_keyed(key, position) {
            size = size.saturating_add(row_cell_size(value));
        }
    }
    size
}

fn is_short_key(schema: &Schema, row: &[Value]) -> bool
    ensures { result ≡ is_short_key (primary_key schema.now row.now) }
{
    size_at(schema.key.as_slice(), row) <= MOST_KEY_BYTES as u64
}

fn is_short_in(row: &[Value], index: &IndexDef) -> bool
    ensures { result ≡ is_short_in row.now index.now }
{
    size_at(index.columns.as_slice(), row) <= MOST_INDEX_BYTES as u64
}

fn are_short_in(row: &[Value], indexes: &[IndexDef]) -> bool
    ensures { result ≡ list_all (is_short_in row.now) indexes.now }
{
    indexes.iter().all(|index| is_short_in(row, index))
}

fn is_short_row(schema: &Schema, row: &[Value]) -> bool
    ensures { result ≡ is_short_row schema.now row.now }
{
    size_beside(schema.key.as_slice(), row) <= MOST_ROW_BYTES as u64
}

/// Whether the row, its primary key or its columns in an index are longer than they may be.
pub fn is_large(schema: &Schema, row: &[Value]) -> bool
    ensures { result ≡ is_large schema.now row.now }
{
    let short = is_short_key(schema, row)
        && are_short_in(row, schema.indexes.as_slice())
        && is_short_row(schema, row);
    !short
}
