//! A source's rows in the order of a cell, and those that have a given one.

ghost use Rattle.std.specs.Prelude.{◌≡◌, IfOk, IfSome, List, filter, map};
ghost use Rattle.std.specs.List.{list_all};
ghost use Rattle.tuple_codec.specs.Rows.{Cells, cell_at, value_cmp};
ghost use Rattle.plain_sql.specs.Links.{AreServed, HasOrder, ServesLookup, Sorts, cell_cmp, has_cell, suits, suits_at, tried, tried_by, tried_with};
ghost use Rattle.plain_sql.specs.Lists.{in_order};
ghost use Rattle.plain_sql.specs.Plans.{meaning};

use crate::linking::{Link, link_of};
use crate::ranking::compare_cells;
use crate::shown::is_null;
use crate::sources::{Read, copied_rows};
use expr_eval::BoundExpr;
use sql_values::Kind;
use std::alloc::{AllocError, Global};
use std::cmp::Ordering;
use tuple_codec::{Row, Sequence, Value};

/// A source's rows from the least to the greatest cell that a test compares with one before.
#[derive(Drop)]
pub struct Lookup {
    pub link: Link,
    /// How many cells stand before the source's.
    pub width: usize,
    pub rows: Sequence<Row>,
}

/// Whether it is a cell of this kind, or NULL.
fn suits(kind: &Kind, value: &Value) -> bool
    ensures { result ≡ suits kind.now value.now }
{
    match value {
        Value::Null => true,
        Value::Int(_) => matches!(kind, Kind::Int),
        Value::Bool(_) => matches!(kind, Kind::Bool),
        Value::Text(_) => matches!(kind, Kind::Text),
        Value::Bytes(_) => matches!(kind, Kind::Bytes),
        Value::Decimal(_) => matches!(kind, Kind::Decimal(_)),
    }
}

fn suits_at(kind: &Kind, place: usize, row: &[Value]) -> bool
    ensures { result ≡ suits_at kind.now place row.now }
{
    match row.get(place) {
        Some(cell) => suits(kind, cell),
        None => false,
    }
}

fn all_suit(kind: &Kind, place: usize, rows: &[Row]) -> bool
    ensures { result ≡ list_all (suits_at kind.now place) rows.now }
{
    for row in rows {
        if !suits_at(kind, place, row.as_slice()) {
            return false;
        }
    }
    true
}

/// The rows from the least to the greatest cell at a place; those with the same cell stay as they stood.
fn sorted_at(alloc: Global, place: usize, mut rows: Vec<Row>) -> Result<Vec<Row>, AllocError>
    ensures { IfOk result (λ found. found.items ≡ in_order (cell_cmp place) rows.items) }
{
    rows.as_mut_slice().sort_by(
        alloc,
        |a, b| compare_cells(place, a.as_slice(), b.as_slice()),
    )?;
    Ok(rows)
}

fn compare_cell(place: usize, row: &[Value], key: &Value) -> Ordering
    ensures { result ≡ value_cmp (cell_at row.now place) key.now }
{
    match row.get(place) {
        Some(cell) => cell.compare(key),
        None => Value::Null.compare(key),
    }
}

/// The rows whose cell at a place is this one, of rows in the order of these cells; NULL is no row's.
fn rows_with<'a>(rows: &'a [Row], place: usize, key: &Value) -> &'a [Row]
    ensures { (all : List Cells) → rows.now ≡ in_order (cell_cmp place) all → result.now ≡ filter (has_cell place key.now) all }
{
    if is_null(key) {
        return &[];
    }
    let from = rows.partition_point(|row| compare_cell(place, row.as_slice(), key).is_lt());
    let rest = &rows[from..];
    let count = rest.partition_point(|row| compare_cell(place, row.as_slice(), key).is_le());
    &rest[..count]
}

/// Only the rows whose cell is equal to this one, where the cell is of the link's kind; else all.
fn tried_with<'a>(rows: &'a [Row], lookup: &'a Lookup, key: &Value) -> &'a [Row]
    requires { HasOrder rows.now lookup.now }
    ensures { result.now ≡ tried_with rows.now lookup.now key.now }
{
    if suits(&lookup.link.kind, key) {
        rows_with(lookup.rows.as_slice(), lookup.link.place, key)
    } else {
        rows
    }
}

fn tried_by<'a>(rows: &'a [Row], lookup: &'a Lookup, row: &[Value]) -> &'a [Row]
    requires { HasOrder rows.now lookup.now }
    ensures { result.now ≡ tried_by rows.now lookup.now row.now }
{
    if row.len() != lookup.width {
        return rows;
    }
    match row.get(lookup.link.earlier) {
        Some(key) => tried_with(rows, lookup, key),
        None => tried_with(rows, lookup, &Value::Null),
    }
}

/// The rows of a source that are tried behind this one: where they are looked up, those that aren't among them give nothing.
pub fn tried<'a>(rows: &'a [Row], lookup: &'a Option<Lookup>, row: &[Value]) -> &'a [Row]
    requires { IfSome lookup.now (HasOrder rows.now) }
    ensures { result.now ≡ tried rows.now lookup.now row.now }
{
    match lookup {
        None => rows,
        Some(lookup) => tried_by(rows, lookup, row),
    }
}

fn lookup_by(
    alloc: Global,
    link: Link,
    width: usize,
    rows: &[Row],
) -> Result<Option<Lookup>, AllocError>
    ensures { IfOk result (λ found. IfSome found (Sorts link width rows.now)) }
{
    if !all_suit(&link.kind, link.place, rows) {
        return Ok(None);
    }
    let sorted = sorted_at(alloc, link.place, copied_rows(alloc, rows)?.into_vec())?;
    Ok(Some(Lookup {
        link,
        width,
        rows: Sequence::from_vec(sorted),
    }))
}

/// A source's rows in the order of a cell, where the tests pass over each row whose cell isn't equal to an earlier one.
fn lookup_of(
    alloc: Global,
    tests: &[BoundExpr],
    width: usize,
    end: usize,
    rows: &[Row],
) -> Result<Option<Lookup>, AllocError>
    ensures { IfOk result (λ found. IfSome found (ServesLookup (map meaning tests.now) rows.now)) }
{
    match link_of(width, end, tests) {
        None => Ok(None),
        Some(link) => lookup_by(alloc, link, width, rows),
    }
}

/// One for each source, from the first on; the first has none, as no column stands before its own.
pub fn lookups_of(
    alloc: Global,
    tests: &[BoundExpr],
    sources: &[Read],
) -> Result<Sequence<Option<Lookup>>, AllocError>
    ensures { IfOk result (λ found. AreServed (map meaning tests.now) sources.now found) }
{
    let mut lookups = Sequence::new(alloc);
    let mut width = 0usize;
    for source in sources {
        let end = width.saturating_add(source.columns.as_slice().len());
        lookups.push(lookup_of(alloc, tests, width, end, source.rows.as_slice())?)?;
        width = end;
    }
    Ok(lookups)
}
