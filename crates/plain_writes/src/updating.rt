//! A row behind an UPDATE or a DELETE.

ghost use Rattle.std.specs.Prelude.{◌≡◌, Ok, map, set, true};
ghost use Rattle.std.specs.List.{list_all};
ghost use Rattle.tuple_codec.specs.Limits.{is_type};
ghost use Rattle.plain_sql.specs.Lists.{each};
ghost use Rattle.plain_sql.specs.Gives.{Gives};
ghost use Rattle.plain_sql.specs.Plans.{meaning};
ghost use Rattle.plain_writes.specs.Seen.{setting_seen};
ghost use Rattle.plain_writes.specs.Writes.{assigns, if_changed, keeps_null, keeps_null_at, row_after, stays, turned, turned_small, untouched};

use crate::assigning::assigned;
use crate::limits::is_large;
use crate::places::is_null_at;
use expr_eval::BoundExpr;
use plain_sql::{Refused, ask, passes};
use schema_model::{Column, Schema};
use std::alloc::Global;
use tuple_codec::{Row, Sequence, Value, copy_row, same_cells};

/// A column that an UPDATE sets, and to what.
#[derive(Drop)]
pub struct BoundAssignment {
    pub place: usize,
    pub column: Column,
    pub value: BoundExpr,
}

/// A row after the UPDATE, and whether that changed it.
#[derive(Drop)]
pub struct Later {
    pub row: Row,
    pub is_new: bool,
}

#[tactic(auto, using(crate::proofs::PlaceLemmas::set_behind))]
fn with_cell(row: Row, place: usize, value: Value) -> Row
    ensures { result ≡ set row place value }
{
    let mut cells = row.into_vec();
    if place < cells.len() {
        cells[place] = value;
    }
    Sequence::from_vec(cells)
}

/// The row with each setting made, from left to right.
fn row_after(alloc: Global, settings: &[BoundAssignment], row: Row) -> Result<Row, Refused>
    requires { list_all (λ one. is_type one.column.kind) settings.now ≡ true }
    ensures { Gives result (row_after (map setting_seen settings.now) row) }
{
    match settings {
        [] => Ok(row),
        [one, more @ ..] => {
            let value = ask(alloc, &one.value, &row)?;
            let kept = assigned(&one.value.kind, &one.column, value)?;
            row_after(alloc, more, with_cell(row, one.place, kept))
        }
    }
}

fn assigns(settings: &[BoundAssignment], place: usize) -> bool
    ensures { result ≡ assigns (map setting_seen settings.now) place }
{
    match settings {
        [] => false,
        [one, more @ ..] => one.place == place || assigns(more, place),
    }
}

fn keeps_null_at(settings: &[BoundAssignment], row: &[Value], place: usize, column: &Column) -> bool
    ensures { result ≡ keeps_null_at (map setting_seen settings.now) row.now (place, column.now) }
{
    column.not_null && !assigns(settings, place) && is_null_at(row, place)
}

fn keeps_null(schema: &Schema, settings: &[BoundAssignment], row: &[Value]) -> bool
    ensures { result ≡ keeps_null schema.now (map setting_seen settings.now) row.now }
{
    let columns = schema.columns.as_slice();
    for (place, column) in columns.iter().enumerate() {
        if keeps_null_at(settings, row, place, column) {
            return true;
        }
    }
    false
}

fn untouched(alloc: Global, row: &Row) -> Result<Later, Refused>
    ensures { Gives result (Ok (untouched row.now)) }
{
    Ok(Later {
        row: copy_row(alloc, row.as_slice())?,
        is_new: false,
    })
}

fn if_changed(
    alloc: Global,
    schema: &Schema,
    settings: &[BoundAssignment],
    old: &Row,
    new: Row,
) -> Result<Later, Refused>
    ensures { Gives result (if_changed schema.now (map setting_seen settings.now) old.now new) }
{
    if same_cells(old.as_slice(), new.as_slice()) {
        return untouched(alloc, old);
    }
    if keeps_null(schema, settings, new.as_slice()) {
        return Err(Refused::By(1048));
    }
    Ok(Later {
        row: new,
        is_new: true,
    })
}

/// A row after the UPDATE; WHERE is evaluated just before its cells.
pub fn turned(
    alloc: Global,
    schema: &Schema,
    tests: &[BoundExpr],
    settings: &[BoundAssignment],
    row: &Row,
) -> Result<Later, Refused>
    requires { list_all (λ one. is_type one.column.kind) settings.now ≡ true }
    ensures { Gives result (turned schema.now (map meaning tests.now) (map setting_seen settings.now) row.now) }
{
    if !passes(alloc, tests, row)? {
        return untouched(alloc, row);
    }
    let new = row_after(alloc, settings, copy_row(alloc, row.as_slice())?)?;
    if_changed(alloc, schema, settings, row, new)
}

fn turned_small(
    alloc: Global,
    schema: &Schema,
    tests: &[BoundExpr],
    settings: &[BoundAssignment],
    row: &Row,
) -> Result<Later, Refused>
    requires { list_all (λ one. is_type one.column.kind) settings.now ≡ true }
    ensures { Gives result (turned_small schema.now (map meaning tests.now) (map setting_seen settings.now) row.now) }
{
    let later = turned(alloc, schema, tests, settings, row)?;
    if later.is_new && is_large(schema, later.row.as_slice()) {
        return Err(Refused::By(9010));
    }
    Ok(later)
}

/// Each row after the UPDATE, up to the first refusal.
pub fn all_turned(
    alloc: Global,
    schema: &Schema,
    tests: &[BoundExpr],
    settings: &[BoundAssignment],
    rows: &[Row],
) -> Result<Sequence<Later>, Refused>
    requires { list_all (λ one. is_type one.column.kind) settings.now ≡ true }
    ensures { Gives result (each (turned_small schema.now (map meaning tests.now) (map setting_seen settings.now)) rows.now) }
{
    let mut all = Sequence::new(alloc);
    for row in rows {
        all.push(turned_small(alloc, schema, tests, settings, row)?)?;
    }
    Ok(all)
}

fn stays(alloc: Global, tests: &[BoundExpr], row: &Row) -> Result<Later, Refused>
    ensures { Gives result (stays (map meaning tests.now) row.now) }
{
    let chosen = passes(alloc, tests, row)?;
    Ok(Later {
        row: copy_row(alloc, row.as_slice())?,
        is_new: chosen,
    })
}

/// Each row, and whether a DELETE takes it, up to the first refusal.
pub fn all_chosen(
    alloc: Global,
    tests: &[BoundExpr],
    rows: &[Row],
) -> Result<Sequence<Later>, Refused>
    ensures { Gives result (each (stays (map meaning tests.now)) rows.now) }
{
    let mut all = Sequence::new(alloc);
    for row in rows {
        all.push(stays(alloc, tests, row)?)?;
    }
    Ok(all)
}
