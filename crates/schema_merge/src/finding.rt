//! Columns and other parts by name and by position.

ghost use Rattle.std.specs.Prelude.{◌≡◌, ◌<◌, length, slice_get, IfOk};
ghost use Rattle.std.specs.List.{list_all};
ghost use Rattle.std.specs.Option.{option_copied};
ghost use Rattle.schema_merge.specs.Parts.{find, keeps, keeps_places, moved_place, moved_places, name_at, place_of, place_or_first};

use crate::parts::Named;
use crate::same::same_column;
use schema_model::{Column, Schema};
use std::alloc::{AllocError, Global};
use tuple_codec::Sequence;

/// The part of a name.
pub(crate) fn find<'a, P: Named>(parts: &'a [P], name: &[u8]) -> Option<&'a P>
    ensures { option_copied result ≡ find P.called name.now parts.now }
{
    for part in parts {
        if part.is_called(name) {
            return Some(part);
        }
    }
    None
}

/// Where the column of a name stands.
pub(crate) fn place_of(columns: &[Column], name: &[u8]) -> Option<usize>
    ensures { result ≡ place_of columns.now name.now }
{
    columns.iter().position(|column| column.name.is(name))
}

/// The column at a position.
pub(crate) fn column_at(columns: &[Column], place: u8) -> Option<&Column>
    ensures { option_copied result ≡ slice_get columns.now place }
{
    columns.get(usize::from(place))
}

/// The name of the column at a position; the empty one where there is none.
pub(crate) fn name_at(columns: &[Column], place: u8) -> &[u8]
    ensures { result.now ≡ name_at columns.now place }
{
    match columns.get(usize::from(place)) {
        Some(column) => column.name.as_slice(),
        None => &[],
    }
}

/// Whether a merged column is there with the definition that it has on a side.
pub(crate) fn keeps(columns: &[Column], side: &Schema, name: &[u8]) -> bool
    ensures { result ≡ keeps columns.now side.now name.now }
{
    match find(columns, name) {
        Some(column) => match find(side.columns.as_slice(), name) {
            Some(other) => same_column(column, other),
            None => false,
        },
        None => false,
    }
}

/// The same of the columns at a side's positions.
pub(crate) fn keeps_places(columns: &[Column], side: &Schema, places: &[u8]) -> bool
    ensures { result ≡ keeps_places columns.now side.now places.now }
{
    places.iter().all(|place| keeps(columns, side, name_at(side.columns.as_slice(), *place)))
}

/// Where the columns at a side's positions stand among the merged ones.
pub(crate) fn moved_places(
    alloc: Global,
    columns: &[Column],
    side: &Schema,
    places: &[u8],
) -> Result<Sequence<u8>, AllocError>
    requires { length columns.now < 256 }
    ensures { IfOk result (λ moved. moved ≡ moved_places columns.now side.now places.now) }
{
    let mut moved = Sequence::new(alloc);
    for place in places {
        moved.push(moved_place(columns, side, *place))?;
    }
    Ok(moved)
}

fn moved_place(columns: &[Column], side: &Schema, place: u8) -> u8
    requires { length columns.now < 256 }
    ensures { result ≡ moved_place columns.now side.now place }
{
    place_or_first(columns, name_at(side.columns.as_slice(), place))
}

fn place_or_first(columns: &[Column], name: &[u8]) -> u8
    requires { length columns.now < 256 }
    ensures { result ≡ place_or_first columns.now name.now }
{
    match place_of(columns, name) {
        Some(place) => place as u8,
        None => 0,
    }
}
