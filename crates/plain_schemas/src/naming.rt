//! Constraints with their names, those that CREATE gives and those that are made.

ghost use Rattle.std.specs.Prelude.{◌≡◌, ◌≤◌, ◌∷◌, [], IfOk, length};
ghost use Rattle.std.specs.List.{flat_map};
ghost use Rattle.plain_schemas.specs.Lists.{places};
ghost use Rattle.plain_schemas.specs.Made.{checks_named, foreign_named, index_on, indexes_in, indexes_named, marked_indexes, name_for};

use crate::columns::{in_bytes, places};
use plain_sql::append;
use schema_model::{CheckDef, Column, ForeignKey, IndexDef};
use sql_ast::{Attribute, ColumnElement, Element, ForeignKeyElement};
use sql_text::canonical_text;
use std::alloc::{AllocError, Global};
use tuple_codec::{Sequence, Text};

/// An index as CREATE says it; its name may still have to be made.
#[derive(Drop)]
pub struct IndexPart {
    pub name: Option<Text>,
    pub unique: bool,
    pub columns: Sequence<Text>,
}

/// The same names in memory of their own, for a schema or an index that is to own them.
pub fn copied_names(alloc: Global, names: &[Text]) -> Result<Sequence<Text>, AllocError>
    ensures { IfOk result (λ copy. copy ≡ names.now) }
{
    let mut copy = Sequence::new(alloc);
    for name in names {
        copy.push(Text::from_slice(alloc, name.as_slice())?)?;
    }
    Ok(copy)
}

fn copied_name(alloc: Global, name: &Option<Text>) -> Result<Option<Text>, AllocError>
    ensures { IfOk result (λ copy. copy ≡ name.now) }
{
    match name {
        Some(name) => Ok(Some(Text::from_slice(alloc, name.as_slice())?)),
        None => Ok(None),
    }
}

/// An index for each UNIQUE of a column.
fn marked_indexes(alloc: Global, column: &ColumnElement) -> Result<Sequence<IndexPart>, AllocError>
    ensures { IfOk result (λ parts. parts ≡ marked_indexes column.now.name column.now.attributes) }
{
    let mut parts = Sequence::new(alloc);
    let attributes = column.attributes.as_slice();
    for attribute in attributes {
        if let Attribute::Unique = attribute {
            parts.push(index_on(alloc, &column.name)?)?;
        }
    }
    Ok(parts)
}

fn index_on(alloc: Global, name: &Text) -> Result<IndexPart, AllocError>
    ensures { IfOk result (λ part. part ≡ index_on name.now) }
{
    let mut columns = Sequence::new(alloc);
    columns.push(Text::from_slice(alloc, name.as_slice())?)?;
    Ok(IndexPart {
        name: None,
        unique: true,
        columns,
    })
}

fn one_index(
    alloc: Global,
    name: Option<Text>,
    unique: bool,
    names: &[Text],
) -> Result<Sequence<IndexPart>, AllocError>
    ensures { IfOk result (λ parts. parts ≡ record { name = name; unique = unique; columns = names.now } ∷ []) }
{
    let columns = copied_names(alloc, names)?;
    let mut parts = Sequence::new(alloc);
    parts.push(IndexPart {
        name,
        unique,
        columns,
    })?;
    Ok(parts)
}

fn indexes_in(alloc: Global, element: &Element) -> Result<Sequence<IndexPart>, AllocError>
    ensures { IfOk result (λ parts. parts ≡ indexes_in element.now) }
{
    match element {
        Element::Column(column) => marked_indexes(alloc, column),
        Element::Unique(name, names) => {
            let name = copied_name(alloc, name)?;
            one_index(alloc, name, true, names.as_slice())
        }
        Element::Index(name, names) => {
            let name = Text::from_slice(alloc, name.as_slice())?;
            one_index(alloc, Some(name), false, names.as_slice())
        }
        _ => Ok(Sequence::new(alloc)),
    }
}

/// The indexes that CREATE says, a column's UNIQUE at its column.
pub fn index_parts(alloc: Global, elements: &[Element]) -> Result<Sequence<IndexPart>, AllocError>
    ensures { IfOk result (λ parts. parts ≡ flat_map indexes_in elements.now) }
{
    let mut parts = Sequence::new(alloc);
    for element in elements {
        append(&mut parts, indexes_in(alloc, element)?)?;
    }
    Ok(parts)
}

/// The name of a constraint, and what is left of the made names.
fn name_for<'a>(
    alloc: Global,
    made: &'a [Text],
    given: &Option<Text>,
) -> Result<(Text, &'a [Text]), AllocError>
    ensures { IfOk result (λ named. (named.0, named.1.now) ≡ name_for made.now given.now) }
{
    match given {
        Some(name) => Ok((Text::from_slice(alloc, name.as_slice())?, made)),
        None => match made {
            [] => Ok((Text::new(alloc), made)),
            [first, more @ ..] => Ok((Text::from_slice(alloc, first.as_slice())?, more)),
        },
    }
}

/// The indexes with their names; those that have none take the made names in turn.
pub fn indexes_named(
    alloc: Global,
    columns: &[Column],
    made: &[Text],
    parts: &[IndexPart],
) -> Result<Sequence<IndexDef>, AllocError>
    requires { length columns.now ≤ 64 }
    ensures { IfOk result (λ indexes. indexes ≡ indexes_named columns.now made.now parts.now) }
{
    let mut indexes = Sequence::new(alloc);
    let mut left = made;
    for part in parts {
        let (name, more) = name_for(alloc, left, &part.name)?;
        indexes.push(IndexDef {
            name,
            unique: part.unique,
            columns: byte_places(alloc, columns, part.columns.as_slice())?,
        })?;
        left = more;
    }
    Ok(indexes)
}

/// Where the columns of these names stand, as schemas have it.
#[tactic(auto, using(crate::proofs::PlaceLemmas::places_fit))]
fn byte_places(
    alloc: Global,
    columns: &[Column],
    names: &[Text],
) -> Result<Sequence<u8>, AllocError>
    requires { length columns.now ≤ 64 }
    ensures { IfOk result (λ found. found ≡ places columns.now names.now) }
{
    let wide = places(alloc, columns, names)?;
    in_bytes(alloc, wide.as_slice())
}

/// The CHECKs with their names and canonical texts.
pub fn checks_named(
    alloc: Global,
    made: &[Text],
    elements: &[Element],
) -> Result<Sequence<CheckDef>, AllocError>
    ensures { IfOk result (λ checks. checks ≡ checks_named made.now elements.now) }
{
    let mut checks = Sequence::new(alloc);
    let mut left = made;
    for element in elements {
        if let Element::Check(name, condition) = element {
            let (name, more) = name_for(alloc, left, name)?;
            let text = canonical_text(alloc, condition)?;
            checks.push(CheckDef { name, text })?;
            left = more;
        }
    }
    Ok(checks)
}

fn foreign_of(
    alloc: Global,
    columns: &[Column],
    key: &ForeignKeyElement,
    name: Text,
) -> Result<ForeignKey, AllocError>
    requires { length columns.now ≤ 64 }
    ensures { IfOk result (λ foreign. foreign ≡ record { name = name; columns = places columns.now key.now.columns; parent = key.now.parent; parent_columns = key.now.parent_columns }) }
{
    Ok(ForeignKey {
        name,
        columns: byte_places(alloc, columns, key.columns.as_slice())?,
        parent: Text::from_slice(alloc, key.parent.as_slice())?,
        parent_columns: copied_names(alloc, key.parent_columns.as_slice())?,
    })
}

/// The foreign keys with their names, given or made, and their columns' places; the parent's columns stay names.
pub fn foreign_named(
    alloc: Global,
    columns: &[Column],
    made: &[Text],
    elements: &[Element],
) -> Result<Sequence<ForeignKey>, AllocError>
    requires { length columns.now ≤ 64 }
    ensures { IfOk result (λ foreign. foreign ≡ foreign_named columns.now made.now elements.now) }
{
    let mut foreign = Sequence::new(alloc);
    let mut left = made;
    for element in elements {
        if let Element::ForeignKey(key) = element {
            let (name, more) = name_for(alloc, left, &key.name)?;
            foreign.push(foreign_of(alloc, columns, key, name)?)?;
            left = more;
        }
    }
    Ok(foreign)
}
