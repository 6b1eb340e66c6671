//! Whether foreign keys refer to what is there.

ghost use Rattle.std.specs.Prelude.{◌≡◌, IfOk, bytes_eq, map, filter};
ghost use Rattle.std.specs.List.{list_any};
ghost use Rattle.plain_sql.specs.Gives.{Gives};
ghost use Rattle.plain_sql.specs.Lists.{each};
ghost use Rattle.plain_writes.specs.Seen.{named_seen, table_seen};
ghost use Rattle.plain_schemas.specs.Lists.{all_allowed};
ghost use Rattle.plain_schemas.specs.Effects.{fits_parent, foreign_allowed, key_allowed, key_lists, parent_place, refers_to_other, refers_well};

use crate::columns::{kinds_at, place_in, places, widened};
use plain_sql::{Refused, append};
use plain_writes::{NamedTable, Table, same_types, table_in};
use schema_model::{Column, IndexDef, Schema};
use sql_ast::{Element, ForeignKeyElement};
use std::alloc::{AllocError, Global};
use tuple_codec::{Sequence, SqlType, Text};

fn unique_lists(
    alloc: Global,
    indexes: &[IndexDef],
) -> Result<Sequence<Sequence<usize>>, AllocError>
    ensures { IfOk result (λ lists. lists ≡ map (λ index. index.columns) (filter (λ index. index.unique) indexes.now)) }
{
    let mut lists = Sequence::new(alloc);
    for index in indexes {
        if index.unique {
            lists.push(widened(alloc, index.columns.as_slice())?)?;
        }
    }
    Ok(lists)
}

/// Where the columns stand to which a foreign key may refer in a table that is there.
fn key_lists(alloc: Global, schema: &Schema) -> Result<Sequence<Sequence<usize>>, AllocError>
    ensures { IfOk result (λ lists. lists ≡ key_lists schema.now) }
{
    let mut lists = Sequence::new(alloc);
    lists.push(widened(alloc, schema.key.as_slice())?)?;
    append(&mut lists, unique_lists(alloc, schema.indexes.as_slice())?)?;
    Ok(lists)
}

fn parent_place(columns: &[Column], name: &[u8]) -> Result<usize, Refused>
    ensures { Gives result (parent_place columns.now name.now) }
{
    match place_in(columns, name) {
        Some(place) => Ok(place),
        None => Err(Refused::By(1054)),
    }
}

fn parent_places(
    alloc: Global,
    columns: &[Column],
    names: &[Text],
) -> Result<Sequence<usize>, Refused>
    ensures { Gives result (each (parent_place columns.now) names.now) }
{
    let mut found = Sequence::new(alloc);
    for name in names {
        found.push(parent_place(columns, name.as_slice())?)?;
    }
    Ok(found)
}

fn has_list(keys: &[Sequence<usize>], places: &[usize]) -> bool
    ensures { result ≡ list_any (bytes_eq places.now) keys.now }
{
    keys.iter().any(|key| places == key.as_slice())
}

fn fits_parent(
    alloc: Global,
    kinds: &[SqlType],
    columns: &[Column],
    keys: &[Sequence<usize>],
    at: &[usize],
) -> Result<(), Refused>
    ensures { Gives result (fits_parent kinds.now columns.now keys.now at.now) }
{
    let own = kinds_at(alloc, columns, at)?;
    if has_list(keys, at) && same_types(own.as_slice(), kinds) {
        Ok(())
    } else {
        Err(Refused::By(9013))
    }
}

fn refers_well(
    alloc: Global,
    names: &[Text],
    kinds: &[SqlType],
    columns: &[Column],
    keys: &[Sequence<usize>],
) -> Result<(), Refused>
    ensures { Gives result (refers_well names.now kinds.now columns.now keys.now) }
{
    let at = parent_places(alloc, columns, names)?;
    fits_parent(alloc, kinds, columns, keys, at.as_slice())
}

fn refers_to_other(
    alloc: Global,
    names: &[Text],
    kinds: &[SqlType],
    table: &Table,
) -> Result<(), Refused>
    ensures { Gives result (refers_to_other names.now kinds.now (table_seen table.now)) }
{
    let keys = key_lists(alloc, &table.schema)?;
    refers_well(
        alloc,
        names,
        kinds,
        table.schema.columns.as_slice(),
        keys.as_slice(),
    )
}

fn key_allowed(
    alloc: Global,
    database: &[NamedTable],
    name: &[u8],
    columns: &[Column],
    keys: &[Sequence<usize>],
    key: &ForeignKeyElement,
) -> Result<(), Refused>
    ensures { Gives result (key_allowed (map named_seen database.now) name.now columns.now keys.now key.now) }
{
    let own = places(alloc, columns, key.columns.as_slice())?;
    let kinds = kinds_at(alloc, columns, own.as_slice())?;
    let names = key.parent_columns.as_slice();
    if key.parent.is(name) {
        return refers_well(alloc, names, kinds.as_slice(), columns, keys);
    }
    match table_in(database, key.parent.as_slice()) {
        Some(table) => refers_to_other(alloc, names, kinds.as_slice(), table),
        None => Err(Refused::By(1146)),
    }
}

fn foreign_allowed(
    alloc: Global,
    database: &[NamedTable],
    name: &[u8],
    columns: &[Column],
    keys: &[Sequence<usize>],
    element: &Element,
) -> Result<(), Refused>
    ensures { Gives result (foreign_allowed (map named_seen database.now) name.now columns.now keys.now element.now) }
{
    match element {
        Element::ForeignKey(key) => key_allowed(alloc, database, name, columns, keys, key),
        _ => Ok(()),
    }
}

/// Whether each foreign key of a table refers to columns that are a key, the table's own among them, or the first refusal.
pub fn each_foreign_key_allowed(
    alloc: Global,
    database: &[NamedTable],
    name: &[u8],
    columns: &[Column],
    keys: &[Sequence<usize>],
    elements: &[Element],
) -> Result<(), Refused>
    ensures { Gives result (all_allowed (foreign_allowed (map named_seen database.now) name.now columns.now keys.now) elements.now) }
{
    for element in elements {
        foreign_allowed(alloc, database, name, columns, keys, element)?;
    }
    Ok(())
}
