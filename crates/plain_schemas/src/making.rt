//! The schema that CREATE says.

ghost use Rattle.std.specs.Prelude.{◌≡◌, ◌≤◌, [], IfOk, length};
ghost use Rattle.std.specs.List.{flat_map, list_any};
ghost use Rattle.std.specs.Option.{option_to_list};
ghost use Rattle.sql_rules.specs.Tables.{is_key_mark};
ghost use Rattle.plain_schemas.specs.Lists.{place_in};
ghost use Rattle.plain_schemas.specs.Made.{key_in, schema_of, unique_places};
ghost use Rattle.plain_schemas.specs.Effects.{key_lists};

use crate::columns::{in_bytes, place_in, places};
use crate::naming::{IndexPart, checks_named, foreign_named, index_parts, indexes_named};
use plain_sql::append;
use schema_model::{CheckDef, Column, ForeignKey, IndexDef, Schema};
use sql_ast::{Attribute, CreateTable, Element};
use sql_rules::{Sort, made_names};
use std::alloc::{AllocError, Global};
use tuple_codec::Sequence;

fn marks_key(attribute: &Attribute) -> bool
    ensures { result ≡ is_key_mark attribute.now }
{
    match attribute {
        Attribute::PrimaryKey => true,
        _ => false,
    }
}

fn some_marks_key(attributes: &[Attribute]) -> bool
    ensures { result ≡ list_any is_key_mark attributes.now }
{
    attributes.iter().any(marks_key)
}

fn place_alone(
    alloc: Global,
    columns: &[Column],
    name: &[u8],
) -> Result<Sequence<usize>, AllocError>
    ensures { IfOk result (λ found. found ≡ option_to_list (place_in columns.now name.now)) }
{
    let mut found = Sequence::new(alloc);
    if let Some(place) = place_in(columns, name) {
        found.push(place)?;
    }
    Ok(found)
}

fn key_in(
    alloc: Global,
    columns: &[Column],
    element: &Element,
) -> Result<Sequence<usize>, AllocError>
    ensures { IfOk result (λ found. found ≡ key_in columns.now element.now) }
{
    match element {
        Element::Column(column) => {
            if some_marks_key(column.attributes.as_slice()) {
                place_alone(alloc, columns, column.name.as_slice())
            } else {
                Ok(Sequence::new(alloc))
            }
        }
        Element::PrimaryKey(names) => places(alloc, columns, names.as_slice()),
        _ => Ok(Sequence::new(alloc)),
    }
}

/// Where the columns of the primary key stand.
fn key_places(
    alloc: Global,
    columns: &[Column],
    elements: &[Element],
) -> Result<Sequence<usize>, AllocError>
    ensures { IfOk result (λ found. found ≡ flat_map (key_in columns.now) elements.now) }
{
    let mut found = Sequence::new(alloc);
    for element in elements {
        append(&mut found, key_in(alloc, columns, element)?)?;
    }
    Ok(found)
}

/// The same as schemas have it.
fn byte_key(
    alloc: Global,
    columns: &[Column],
    elements: &[Element],
) -> Result<Sequence<u8>, AllocError>
    requires { length columns.now ≤ 64 }
    ensures { IfOk result (λ found. found ≡ flat_map (key_in columns.now) elements.now) }
{
    let wide = key_places(alloc, columns, elements)?;
    in_bytes(alloc, wide.as_slice())
}

/// The indexes, in the order of the text.
fn own_indexes(
    alloc: Global,
    create: &CreateTable,
    columns: &[Column],
) -> Result<Sequence<IndexDef>, AllocError>
    requires { length columns.now ≤ 64 }
    ensures { IfOk result (λ indexes. indexes ≡ (schema_of create.now columns.now).indexes) }
{
    let elements = create.elements.as_slice();
    let made = made_names(alloc, &create.table, elements, Sort::Unique)?;
    let parts = index_parts(alloc, elements)?;
    indexes_named(alloc, columns, made.as_slice(), parts.as_slice())
}

/// The CHECKs, in the order of the text.
fn own_checks(alloc: Global, create: &CreateTable) -> Result<Sequence<CheckDef>, AllocError>
    ensures { IfOk result (λ checks. checks ≡ (schema_of create.now []).checks) }
{
    let elements = create.elements.as_slice();
    let made = made_names(alloc, &create.table, elements, Sort::Check)?;
    checks_named(alloc, made.as_slice(), elements)
}

/// The foreign keys, in the order of the text.
fn own_foreign_keys(
    alloc: Global,
    create: &CreateTable,
    columns: &[Column],
) -> Result<Sequence<ForeignKey>, AllocError>
    requires { length columns.now ≤ 64 }
    ensures { IfOk result (λ foreign. foreign ≡ (schema_of create.now columns.now).foreign) }
{
    let elements = create.elements.as_slice();
    let made = made_names(alloc, &create.table, elements, Sort::ForeignKey)?;
    foreign_named(alloc, columns, made.as_slice(), elements)
}

/// The schema, once its columns are made.
pub fn schema_of(
    alloc: Global,
    create: &CreateTable,
    columns: Sequence<Column>,
) -> Result<Schema, AllocError>
    requires { length columns ≤ 64 }
    ensures { IfOk result (λ schema. schema ≡ schema_of create.now columns) }
{
    let own = columns.as_slice();
    let key = byte_key(alloc, own, create.elements.as_slice())?;
    let indexes = own_indexes(alloc, create, own)?;
    let checks = own_checks(alloc, create)?;
    let foreign = own_foreign_keys(alloc, create, own)?;
    Ok(Schema {
        columns,
        key,
        indexes,
        checks,
        foreign,
    })
}

/// Where the columns of the unique indexes stand.
fn unique_places(
    alloc: Global,
    columns: &[Column],
    parts: &[IndexPart],
) -> Result<Sequence<Sequence<usize>>, AllocError>
    ensures { IfOk result (λ lists. lists ≡ unique_places columns.now parts.now) }
{
    let mut lists = Sequence::new(alloc);
    for part in parts {
        if part.unique {
            lists.push(places(alloc, columns, part.columns.as_slice())?)?;
        }
    }
    Ok(lists)
}

/// Where the columns stand to which a foreign key of the table itself may refer.
#[tactic(auto, using(crate::proofs::PlaceLemmas::named_places))]
pub fn own_key_lists(
    alloc: Global,
    create: &CreateTable,
    columns: &[Column],
) -> Result<Sequence<Sequence<usize>>, AllocError>
    ensures { IfOk result (λ lists. lists ≡ key_lists (schema_of create.now columns.now)) }
{
    let elements = create.elements.as_slice();
    let parts = index_parts(alloc, elements)?;
    let mut lists = Sequence::new(alloc);
    lists.push(key_places(alloc, columns, elements)?)?;
    append(&mut lists, unique_places(alloc, columns, parts.as_slice())?)?;
    Ok(lists)
}
