//! Cells at places of a schema's columns, compared and as bytes.

ghost use Rattle.std.specs.Prelude.{◌≡◌, ◌&&◌, true, not, nat_lt, map, IfOk, slice_get};
ghost use Rattle.std.specs.List.{list_all, list_any};
ghost use Rattle.std.specs.Option.{option_to_list};
ghost use Rattle.tuple_codec.specs.Rows.{cell_at, fits_all, key_cmp, key_of, same_cells, value_cmp};
ghost use Rattle.schema_model.specs.Schemas.{is_schema};
ghost use Rattle.plain_writes.specs.Violations.{is_whole, places_of, types_at};
ghost use Rattle.violation_lists.specs.Seeking.{can_seek, sought};

use plain_sql::{append, is_null};
use plain_writes::column_place;
use schema_model::Schema;
use std::alloc::{AllocError, Global};
use std::cmp::Ordering;
use tuple_codec::{Blob, Row, Sequence, SqlType, Text, Value, encode_key, key_of, value_fits};

/// The same places as numbers of a list.
pub(crate) fn widened(alloc: Global, places: &[u8]) -> Result<Sequence<usize>, AllocError>
    ensures { IfOk result (λ wide. wide ≡ places.now) }
{
    let mut wide = Sequence::new(alloc);
    for place in places {
        wide.push(usize::from(*place))?;
    }
    Ok(wide)
}

/// The type of the column at this place, if there is one.
fn type_at(alloc: Global, schema: &Schema, place: usize) -> Result<Sequence<SqlType>, AllocError>
    ensures { IfOk result (λ types. types ≡ map (λ column. column.kind) (option_to_list (slice_get schema.now.columns place))) }
{
    let mut types = Sequence::new(alloc);
    if let Some(column) = schema.columns.as_slice().get(place) {
        types.push(column.kind)?;
    }
    Ok(types)
}

/// The types of the columns at these places, as many of them as there are.
pub(crate) fn types_at(
    alloc: Global,
    schema: &Schema,
    places: &[usize],
) -> Result<Sequence<SqlType>, AllocError>
    ensures { IfOk result (λ types. types ≡ types_at schema.now places.now) }
{
    let mut types = Sequence::new(alloc);
    for place in places {
        let more = type_at(alloc, schema, *place)?;
        append(&mut types, more)?;
    }
    Ok(types)
}

/// Where these columns stand, if all of them are there.
pub(crate) fn places_of(
    alloc: Global,
    schema: &Schema,
    names: &[Text],
) -> Result<Option<Sequence<usize>>, AllocError>
    ensures { IfOk result (λ places. places ≡ places_of schema.now names.now) }
{
    let mut places = Sequence::new(alloc);
    for name in names {
        match column_place(schema, name.as_slice()) {
            Some(place) => places.push(place)?,
            None => return Ok(None),
        }
    }
    Ok(Some(places))
}

pub(crate) fn is_whole(key: &[Value]) -> bool
    ensures { result ≡ is_whole key.now }
{
    key.iter().all(|value| !is_null(value))
}

fn compare_cell(cell: &Value, row: &[Value], place: usize) -> Ordering
    ensures { result ≡ value_cmp cell.now (cell_at row.now place) }
{
    match row.get(place) {
        Some(other) => cell.compare(other),
        None => cell.compare(&Value::Null),
    }
}

/// The order of a key and of what a row has at these places.
fn compare_at(key: &[Value], places: &[usize], row: &[Value]) -> Ordering
    ensures { result ≡ key_cmp key.now (key_of places.now row.now) }
{
    match key {
        [] => match places {
            [] => Ordering::Equal,
            [_, ..] => Ordering::Less,
        },
        [cell, cells @ ..] => match places {
            [] => Ordering::Greater,
            [place, rest @ ..] => compare_cell(cell, row, *place).then(compare_at(
                cells, rest, row,
            )),
        },
    }
}

/// Whether a row has these cells there.
fn has_cells(key: &[Value], places: &[usize], row: &[Value]) -> bool
    ensures { result ≡ same_cells key.now (key_of places.now row.now) }
{
    compare_at(key, places, row).is_eq()
}

pub(crate) fn has_any(key: &[Value], places: &[usize], rows: &[Row]) -> bool
    ensures { result ≡ list_any (λ row. same_cells key.now (key_of places.now row)) rows.now }
{
    rows.iter()
        .any(|row| has_cells(key, places, row.as_slice()))
}

/// Whether a row of another primary key has these cells there.
fn is_other(
    own: &[Value],
    key_places: &[usize],
    key: &[Value],
    places: &[usize],
    row: &[Value],
) -> bool
    ensures { result ≡ (not (same_cells own.now (key_of key_places.now row.now)) && same_cells key.now (key_of places.now row.now)) }
{
    !has_cells(own, key_places, row) && has_cells(key, places, row)
}

pub(crate) fn has_other(
    own: &[Value],
    key_places: &[usize],
    key: &[Value],
    places: &[usize],
    rows: &[Row],
) -> bool
    ensures { result ≡ list_any (λ row. not (same_cells own.now (key_of key_places.now row)) && same_cells key.now (key_of places.now row)) rows.now }
{
    rows.iter().any(|row| is_other(own, key_places, key, places, row.as_slice()))
}

fn are_below(places: &[usize], count: usize) -> bool
    ensures { result ≡ list_all (λ place. nat_lt place count) places.now }
{
    places.iter().all(|place| *place < count)
}

/// A cell for each type, and each fits.
fn fits_all(types: &[SqlType], cells: &[Value]) -> bool
    ensures { result ≡ fits_all types.now cells.now }
{
    match types {
        [] => match cells {
            [] => true,
            [_, ..] => false,
        },
        [kind, kinds @ ..] => match cells {
            [] => false,
            [cell, rest @ ..] => value_fits(kind, cell) && fits_all(kinds, rest),
        },
    }
}

/// Whether the columns at these places are there, and these cells fit them.
fn can_seek(schema: &Schema, types: &[SqlType], places: &[usize], key: &[Value]) -> bool
    requires { types.now ≡ types_at schema.now places.now }
    ensures { result ≡ can_seek schema.now places.now key.now }
{
    are_below(places, schema.columns.as_slice().len()) && fits_all(types, key)
}

/// The bytes of a key, where the columns at these places are there and its cells fit them.
pub(crate) fn sought(
    alloc: Global,
    schema: &Schema,
    places: &[usize],
    key: &Row,
) -> Result<Option<Blob>, AllocError>
    requires { is_schema schema.now ≡ true }
    ensures { IfOk result (λ bytes. bytes ≡ sought schema.now places.now key.now) }
{
    let types = types_at(alloc, schema, places)?;
    if can_seek(schema, types.as_slice(), places, key.as_slice()) {
        let bytes = encode_key(alloc, types.as_slice(), key)?;
        Ok(Some(bytes))
    } else {
        Ok(None)
    }
}

/// The same of a row's own cells there.
pub(crate) fn sought_of(
    alloc: Global,
    schema: &Schema,
    places: &[u8],
    row: &[Value],
) -> Result<Option<Blob>, AllocError>
    requires { is_schema schema.now ≡ true }
    ensures { IfOk result (λ bytes. bytes ≡ sought schema.now places.now (key_of places.now row.now)) }
{
    let key = key_of(alloc, places, row)?;
    let wide = widened(alloc, places)?;
    sought(alloc, schema, wide.as_slice(), &key)
}
