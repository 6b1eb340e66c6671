//! Columns by their names and places.

ghost use Rattle.std.specs.Prelude.{◌≡◌, ◌++◌, IfOk, OnOk, map, true};
ghost use Rattle.std.specs.List.{list_all};
ghost use Rattle.plain_sql.specs.Gives.{Gives};
ghost use Rattle.plain_schemas.specs.Lists.{fits_byte, kind_at, kinds_at, place_in, places, scope_column};
ghost use Rattle.plain_schemas.specs.Made.{column_made, columns_made, defined};

use expr_eval::ScopeColumn;
use plain_sql::{Refused, append};
use schema_model::Column;
use sql_ast::Element;
use sql_rules::{Definition, created_column};
use std::alloc::{AllocError, Global};
use tuple_codec::{Sequence, SqlType, Text};

/// Where the column of this name stands.
pub fn place_in(columns: &[Column], name: &[u8]) -> Option<usize>
    ensures { result ≡ place_in columns.now name.now }
{
    columns.iter().position(|column| column.name.is(name))
}

/// Where the columns of these names stand, in the order of the names.
pub fn places(
    alloc: Global,
    columns: &[Column],
    names: &[Text],
) -> Result<Sequence<usize>, AllocError>
    ensures { IfOk result (λ found. found ≡ places columns.now names.now) }
{
    let mut found = Sequence::new(alloc);
    for name in names {
        if let Some(place) = place_in(columns, name.as_slice()) {
            found.push(place)?;
        }
    }
    Ok(found)
}

/// The type of the column at this place, if there is one.
fn kind_at(alloc: Global, columns: &[Column], place: usize) -> Result<Sequence<SqlType>, AllocError>
    ensures { IfOk result (λ kinds. kinds ≡ kind_at columns.now place) }
{
    let mut kinds = Sequence::new(alloc);
    if let Some(column) = columns.get(place) {
        kinds.push(column.kind)?;
    }
    Ok(kinds)
}

/// The types of the columns at these places.
pub fn kinds_at(
    alloc: Global,
    columns: &[Column],
    places: &[usize],
) -> Result<Sequence<SqlType>, AllocError>
    ensures { IfOk result (λ kinds. kinds ≡ kinds_at columns.now places.now) }
{
    let mut kinds = Sequence::new(alloc);
    for place in places {
        append(&mut kinds, kind_at(alloc, columns, *place)?)?;
    }
    Ok(kinds)
}

/// The same places as schemas have them.
pub fn in_bytes(alloc: Global, places: &[usize]) -> Result<Sequence<u8>, AllocError>
    requires { list_all fits_byte places.now ≡ true }
    ensures { IfOk result (λ narrow. narrow ≡ places.now) }
{
    let mut narrow = Sequence::new(alloc);
    push_places(&mut narrow, places)?;
    Ok(narrow)
}

fn push_places(narrow: &mut Sequence<u8>, places: &[usize]) -> Result<(), AllocError>
    requires { list_all fits_byte places.now ≡ true }
    ensures { OnOk result (narrow.new ≡ narrow.old ++ places.now) }
{
    match places {
        [] => Ok(()),
        [place, later @ ..] => {
            narrow.push(*place as u8)?;
            push_places(narrow, later)
        }
    }
}

/// The same places as numbers of a list.
pub fn widened(alloc: Global, places: &[u8]) -> Result<Sequence<usize>, AllocError>
    ensures { IfOk result (λ wide. wide ≡ places.now) }
{
    let mut wide = Sequence::new(alloc);
    for place in places {
        wide.push(usize::from(*place))?;
    }
    Ok(wide)
}

/// The column that a definition comes to; the text's refusals come before, so there is one.
pub fn defined(alloc: Global, name: &Text, made: Option<Definition>) -> Result<Column, Refused>
    ensures { Gives result (defined name.now made) }
{
    match made {
        Some(made) => Ok(Column {
            name: Text::from_slice(alloc, name.as_slice())?,
            kind: made.kind,
            not_null: made.not_null,
            default: made.default,
        }),
        None => Err(Refused::By(9013)),
    }
}

fn column_made(
    alloc: Global,
    elements: &[Element],
    element: &Element,
) -> Result<Sequence<Column>, Refused>
    ensures { Gives result (column_made elements.now element.now) }
{
    match element {
        Element::Column(column) => {
            let definition = created_column(alloc, elements, column)?;
            let own = defined(alloc, &column.name, definition)?;
            let mut made = Sequence::new(alloc);
            made.push(own)?;
            Ok(made)
        }
        _ => Ok(Sequence::new(alloc)),
    }
}

/// The columns that CREATE defines.
pub fn columns_made(alloc: Global, elements: &[Element]) -> Result<Sequence<Column>, Refused>
    ensures { Gives result (columns_made elements.now) }
{
    let mut columns = Sequence::new(alloc);
    for element in elements {
        append(&mut columns, column_made(alloc, elements, element)?)?;
    }
    Ok(columns)
}

/// A table's columns as its CHECKs name them.
pub fn scope_of(
    alloc: Global,
    name: &[u8],
    columns: &[Column],
) -> Result<Sequence<ScopeColumn>, AllocError>
    ensures { IfOk result (λ scope. scope ≡ map (scope_column name.now) columns.now) }
{
    let mut scope = Sequence::new(alloc);
    for column in columns {
        scope.push(ScopeColumn {
            source: Text::from_slice(alloc, name)?,
            name: Text::from_slice(alloc, column.name.as_slice())?,
            kind: column.kind,
        })?;
    }
    Ok(scope)
}
