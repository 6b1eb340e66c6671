//! The keys of a foreign key's parent.

ghost use Rattle.std.specs.Prelude.{◌≡◌, IfOk, map, slice_get};
ghost use Rattle.std.specs.Option.{option_to_list};
ghost use Rattle.tuple_codec.specs.Rows.{key_of};
ghost use Rattle.plain_writes.specs.Seen.{named_seen, table_seen};
ghost use Rattle.plain_writes.specs.Violations.{keys_at, keys_of_parent, parent_keys, places_of, same_type, same_types, types_at};

use crate::columns::column_place;
use crate::tables::{NamedTable, Table, table_in};
use plain_sql::{append, cells_at};
use schema_model::{ForeignKey, Schema};
use std::alloc::{AllocError, Global};
use tuple_codec::{Row, Sequence, SqlType, Text};

/// The same places, as slices are indexed.
pub fn widened(alloc: Global, places: &[u8]) -> Result<Sequence<usize>, AllocError>
    ensures { IfOk result (λ wide. wide ≡ places.now) }
{
    let mut wide = Sequence::new(alloc);
    for place in places {
        wide.push(usize::from(*place))?;
    }
    Ok(wide)
}

/// The type of the column at this place, if there is one.
fn type_at(alloc: Global, schema: &Schema, place: usize) -> Result<Sequence<SqlType>, AllocError>
    ensures { IfOk result (λ types. types ≡ map (λ column. column.kind) (option_to_list (slice_get schema.now.columns place))) }
{
    let mut types = Sequence::new(alloc);
    if let Some(column) = schema.columns.as_slice().get(place) {
        types.push(column.kind)?;
    }
    Ok(types)
}

/// The types of the columns at these places; a place without a column gives none, so they may be fewer.
pub fn types_at(
    alloc: Global,
    schema: &Schema,
    places: &[usize],
) -> Result<Sequence<SqlType>, AllocError>
    ensures { IfOk result (λ types. types ≡ types_at schema.now places.now) }
{
    let mut types = Sequence::new(alloc);
    for place in places {
        let more = type_at(alloc, schema, *place)?;
        append(&mut types, more)?;
    }
    Ok(types)
}

fn same_type(a: &SqlType, b: &SqlType) -> bool
    ensures { result ≡ same_type a.now b.now }
{
    match (a, b) {
        (SqlType::BigInt, SqlType::BigInt) => true,
        (SqlType::Int, SqlType::Int) => true,
        (SqlType::Bool, SqlType::Bool) => true,
        (SqlType::Varchar(m), SqlType::Varchar(n)) => *m == *n,
        (SqlType::Varbinary(m), SqlType::Varbinary(n)) => *m == *n,
        (SqlType::Decimal(m, s), SqlType::Decimal(n, t)) => *m == *n && *s == *t,
        _ => false,
    }
}

/// Whether these are the same types in the same order, their numbers too: VARCHAR(5) isn't VARCHAR(6).
pub fn same_types(a: &[SqlType], b: &[SqlType]) -> bool
    ensures { result ≡ same_types a.now b.now }
{
    match a {
        [] => match b {
            [] => true,
            [_, ..] => false,
        },
        [x, xs @ ..] => match b {
            [] => false,
            [y, ys @ ..] => same_type(x, y) && same_types(xs, ys),
        },
    }
}

/// Where these columns stand, if all of them are there.
pub fn places_of(
    alloc: Global,
    schema: &Schema,
    names: &[Text],
) -> Result<Option<Sequence<usize>>, AllocError>
    ensures { IfOk result (λ places. places ≡ places_of schema.now names.now) }
{
    let mut places = Sequence::new(alloc);
    for name in names {
        match column_place(schema, name.as_slice()) {
            Some(place) => places.push(place)?,
            None => return Ok(None),
        }
    }
    Ok(Some(places))
}

fn keys_of_rows(alloc: Global, places: &[usize], rows: &[Row]) -> Result<Sequence<Row>, AllocError>
    ensures { IfOk result (λ keys. keys ≡ map (key_of places.now) rows.now) }
{
    let mut keys = Sequence::new(alloc);
    for row in rows {
        keys.push(cells_at(alloc, places, row.as_slice())?)?;
    }
    Ok(keys)
}

fn keys_at(
    alloc: Global,
    schema: &Schema,
    foreign: &ForeignKey,
    parent: &Table,
    places: &[usize],
) -> Result<Sequence<Row>, AllocError>
    ensures { IfOk result (λ keys. keys ≡ keys_at schema.now foreign.now (table_seen parent.now) places.now) }
{
    let own = widened(alloc, foreign.columns.as_slice())?;
    let types = types_at(alloc, schema, own.as_slice())?;
    let parent_types = types_at(alloc, &parent.schema, places)?;
    if same_types(parent_types.as_slice(), types.as_slice()) {
        keys_of_rows(alloc, places, parent.rows.as_slice())
    } else {
        Ok(Sequence::new(alloc))
    }
}

fn keys_of_parent(
    alloc: Global,
    schema: &Schema,
    foreign: &ForeignKey,
    parent: &Table,
) -> Result<Sequence<Row>, AllocError>
    ensures { IfOk result (λ keys. keys ≡ keys_of_parent schema.now foreign.now (table_seen parent.now)) }
{
    match places_of(alloc, &parent.schema, foreign.parent_columns.as_slice())? {
        Some(places) => keys_at(alloc, schema, foreign, parent, places.as_slice()),
        None => Ok(Sequence::new(alloc)),
    }
}

/// What the parent's rows have in the columns that a foreign key names; nothing where the table, a column or a type is another.
pub fn parent_keys(
    alloc: Global,
    database: &[NamedTable],
    schema: &Schema,
    foreign: &ForeignKey,
) -> Result<Sequence<Row>, AllocError>
    ensures { IfOk result (λ keys. keys ≡ parent_keys (map named_seen database.now) schema.now foreign.now) }
{
    match table_in(database, foreign.parent.as_slice()) {
        Some(parent) => keys_of_parent(alloc, schema, foreign, parent),
        None => Ok(Sequence::new(alloc)),
    }
}
