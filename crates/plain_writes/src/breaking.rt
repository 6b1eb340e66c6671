//! Whether a row breaks a constraint.

ghost use Rattle.std.specs.Prelude.{◌≡◌, IfOk};
ghost use Rattle.std.specs.List.{list_any};
ghost use Rattle.tuple_codec.specs.Rows.{key_cmp, same_cells};
ghost use Rattle.plain_sql.specs.Lists.{in_order};
ghost use Rattle.plain_sql.specs.Runs.{places_cmp};
ghost use Rattle.plain_writes.specs.Violations.{breaks_foreign, breaks_not_null, breaks_unique, is_twin, violation};
ghost use Rattle.plain_writes.specs.Seen.{broken_seen};

use crate::places::{are_same_at, compare_at, is_null_at, is_whole_at};
use schema_model::Schema;
use std::alloc::{AllocError, Global};
use tuple_codec::{Row, Text, Value, copy_row, key_cmp, key_of, same_cells};

/// A row that breaks a constraint.
#[derive(Drop)]
pub struct Broken {
    /// 1 a foreign key, 2 a unique index, 3 a check, 4 NULL in a NOT NULL column.
    pub kind: u8,
    /// The constraint's name, of kind 4 the column's.
    pub constraint: Text,
    /// The row's primary key.
    pub key: Row,
    pub row: Row,
}

/// Whether another row, by its primary key, has the same cells there.
fn is_twin(schema: &Schema, places: &[u8], row: &[Value], other: &[Value]) -> bool
    ensures { result ≡ is_twin schema.now places.now row.now other.now }
{
    !are_same_at(schema.key.as_slice(), row, other) && are_same_at(places, row, other)
}

fn any_twin(schema: &Schema, places: &[u8], row: &[Value], rows: &[Row]) -> bool
    ensures { result ≡ list_any (is_twin schema.now places.now row.now) rows.now }
{
    rows.iter()
        .any(|other| is_twin(schema, places, row, other.as_slice()))
}

/// Only rows with the same cells there are looked at: they stand together.
fn has_twin(schema: &Schema, places: &[u8], row: &[Value], rows: &[Row]) -> bool
    requires { rows.now ≡ in_order (places_cmp places.now) rows.now }
    ensures { result ≡ list_any (is_twin schema.now places.now row.now) rows.now }
{
    let from = rows.partition_point(|other| compare_at(places, other.as_slice(), row).is_lt());
    let rest = &rows[from..];
    let count = rest.partition_point(|other| !compare_at(places, row, other.as_slice()).is_lt());
    any_twin(schema, places, row, &rest[..count])
}

/// Whether another row has the same cells there, none of which is NULL, of rows in the order of these cells.
pub fn breaks_unique(schema: &Schema, rows: &[Row], places: &[u8], row: &[Value]) -> bool
    requires { rows.now ≡ in_order (places_cmp places.now) rows.now }
    ensures { result ≡ breaks_unique schema.now rows.now places.now row.now }
{
    is_whole_at(places, row) && has_twin(schema, places, row, rows)
}

/// Whether a row has NULL at a place, or no cell there. That the column is NOT NULL is for the caller to see.
pub fn breaks_not_null(place: usize, row: &[Value]) -> bool
    ensures { result ≡ breaks_not_null place row.now }
{
    is_null_at(row, place)
}

/// Of keys in order the first that isn't below it tells.
fn is_among(keys: &[Row], key: &[Value]) -> bool
    requires { keys.now ≡ in_order key_cmp keys.now }
    ensures { result ≡ list_any (same_cells key.now) keys.now }
{
    let from = keys.partition_point(|other| key_cmp(other.as_slice(), key).is_lt());
    match keys.get(from) {
        Some(other) => same_cells(key, other.as_slice()),
        None => false,
    }
}

/// Whether the cells there, none of which is NULL, are no key of the parent, whose keys stand in order.
pub fn breaks_foreign(
    alloc: Global,
    keys: &[Row],
    places: &[u8],
    row: &[Value],
) -> Result<bool, AllocError>
    requires { keys.now ≡ in_order key_cmp keys.now }
    ensures { IfOk result (λ breaks. breaks ≡ breaks_foreign keys.now places.now row.now) }
{
    if !is_whole_at(places, row) {
        return Ok(false);
    }
    let key = key_of(alloc, places, row)?;
    Ok(!is_among(keys, key.as_slice()))
}

/// The entry of a row that breaks this constraint.
pub fn entry_of(
    alloc: Global,
    schema: &Schema,
    kind: u8,
    name: &[u8],
    row: &[Value],
) -> Result<Broken, AllocError>
    ensures { IfOk result (λ found. broken_seen found ≡ violation schema.now kind name.now row.now) }
{
    Ok(Broken {
        kind,
        constraint: Text::from_slice(alloc, name)?,
        key: key_of(alloc, schema.key.as_slice(), row)?,
        row: copy_row(alloc, row)?,
    })
}
