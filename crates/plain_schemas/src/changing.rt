//! What ALTER makes of a schema and of rows, once it is allowed.

ghost use Rattle.std.specs.Prelude.{◌≡◌, ◌++◌, ◌∷◌, [], IfOk, Ok, map, set, true};
ghost use Rattle.std.specs.List.{remove};
ghost use Rattle.tuple_codec.specs.Limits.{is_type};
ghost use Rattle.tuple_codec.specs.Rows.{cell_at};
ghost use Rattle.expr_eval.specs.Binding.{and_then};
ghost use Rattle.plain_sql.specs.Gives.{Gives, GivesBy};
ghost use Rattle.plain_sql.specs.Lists.{each};
ghost use Rattle.plain_writes.specs.Seen.{table_seen};
ghost use Rattle.plain_writes.specs.Writes.{assigned, standard};
ghost use Rattle.plain_schemas.specs.Altered.{foreign_without, has_type, index_without, moved_up, row_after, schema_after, small_row_after, table_after, with_columns, without_column};

use crate::naming::copied_names;
use crate::sizes::keeps_limits;
use plain_sql::Refused;
use plain_writes::{Table, assigned, copy_column, copy_schema, is_large, standard};
use schema_model::{Column, ForeignKey, IndexDef, Schema};
use sql_values::Kind;
use std::alloc::{AllocError, Global};
use tuple_codec::{Row, Sequence, Text, cell_at, copy_row};

/// What ALTER does to a table's columns, once it is allowed.
#[derive(Drop)]
pub enum ColumnChange {
    /// A new last column.
    Add(Column),
    /// The column at this place goes.
    Remove(usize),
    /// The column at this place, whose cells are of this kind, is defined anew.
    Redefine(usize, Kind, Column),
}

#[tactic(auto, using(crate::proofs::EditLemmas::remove_past))]
fn without<T: Drop>(items: Sequence<T>, place: usize) -> Sequence<T>
    ensures { result ≡ remove items place }
{
    let mut items = items.into_vec();
    if place < items.len() {
        items.remove(place);
    }
    Sequence::from_vec(items)
}

fn with<T: Drop>(items: Sequence<T>, place: usize, item: T) -> Sequence<T>
    ensures { result ≡ set items place item }
{
    let mut items = items.into_vec();
    if place < items.len() {
        items[place] = item;
    }
    Sequence::from_vec(items)
}

/// Where a column stands once another is gone.
fn moved_up(gone: usize, place: u8) -> u8
    ensures { result ≡ moved_up gone place }
{
    if gone < usize::from(place) {
        place - 1
    } else {
        place
    }
}

fn all_moved(alloc: Global, gone: usize, places: &[u8]) -> Result<Sequence<u8>, AllocError>
    ensures { IfOk result (λ moved. moved ≡ map (moved_up gone) places.now) }
{
    let mut moved = Sequence::new(alloc);
    for place in places {
        moved.push(moved_up(gone, *place))?;
    }
    Ok(moved)
}

fn index_without(alloc: Global, gone: usize, index: &IndexDef) -> Result<IndexDef, AllocError>
    ensures { IfOk result (λ moved. moved ≡ index_without gone index.now) }
{
    Ok(IndexDef {
        name: Text::from_slice(alloc, index.name.as_slice())?,
        unique: index.unique,
        columns: all_moved(alloc, gone, index.columns.as_slice())?,
    })
}

fn indexes_without(
    alloc: Global,
    gone: usize,
    indexes: &[IndexDef],
) -> Result<Sequence<IndexDef>, AllocError>
    ensures { IfOk result (λ moved. moved ≡ map (index_without gone) indexes.now) }
{
    let mut moved = Sequence::new(alloc);
    for index in indexes {
        moved.push(index_without(alloc, gone, index)?)?;
    }
    Ok(moved)
}

fn foreign_without(alloc: Global, gone: usize, key: &ForeignKey) -> Result<ForeignKey, AllocError>
    ensures { IfOk result (λ moved. moved ≡ foreign_without gone key.now) }
{
    Ok(ForeignKey {
        name: Text::from_slice(alloc, key.name.as_slice())?,
        columns: all_moved(alloc, gone, key.columns.as_slice())?,
        parent: Text::from_slice(alloc, key.parent.as_slice())?,
        parent_columns: copied_names(alloc, key.parent_columns.as_slice())?,
    })
}

fn foreign_keys_without(
    alloc: Global,
    gone: usize,
    foreign: &[ForeignKey],
) -> Result<Sequence<ForeignKey>, AllocError>
    ensures { IfOk result (λ moved. moved ≡ map (foreign_without gone) foreign.now) }
{
    let mut moved = Sequence::new(alloc);
    for key in foreign {
        moved.push(foreign_without(alloc, gone, key)?)?;
    }
    Ok(moved)
}

/// The schema without the column at a place; the places of those behind it move up.
pub fn without_column(alloc: Global, schema: &Schema, gone: usize) -> Result<Schema, AllocError>
    ensures { IfOk result (λ after. after ≡ without_column schema.now gone) }
{
    let key = all_moved(alloc, gone, schema.key.as_slice())?;
    let indexes = indexes_without(alloc, gone, schema.indexes.as_slice())?;
    let foreign = foreign_keys_without(alloc, gone, schema.foreign.as_slice())?;
    let copy = copy_schema(alloc, schema)?;
    Ok(Schema {
        columns: without(copy.columns, gone),
        key,
        indexes,
        checks: copy.checks,
        foreign,
    })
}

fn with_column(alloc: Global, schema: &Schema, column: &Column) -> Result<Schema, AllocError>
    ensures { IfOk result (λ after. after ≡ with_columns schema.now (schema.now.columns ++ column.now ∷ [])) }
{
    let column = copy_column(alloc, column)?;
    let mut after = copy_schema(alloc, schema)?;
    after.columns.push(column)?;
    Ok(after)
}

fn with_column_at(
    alloc: Global,
    schema: &Schema,
    place: usize,
    column: &Column,
) -> Result<Schema, AllocError>
    ensures { IfOk result (λ after. after ≡ with_columns schema.now (set schema.now.columns place column.now)) }
{
    let column = copy_column(alloc, column)?;
    let after = copy_schema(alloc, schema)?;
    Ok(Schema {
        columns: with(after.columns, place, column),
        key: after.key,
        indexes: after.indexes,
        checks: after.checks,
        foreign: after.foreign,
    })
}

fn schema_after(alloc: Global, change: &ColumnChange, schema: &Schema) -> Result<Schema, AllocError>
    ensures { IfOk result (λ after. after ≡ schema_after change.now schema.now) }
{
    match change {
        ColumnChange::Add(column) => with_column(alloc, schema, column),
        ColumnChange::Remove(place) => without_column(alloc, schema, *place),
        ColumnChange::Redefine(place, _, column) => with_column_at(alloc, schema, *place, column),
    }
}

fn row_with_new(alloc: Global, column: &Column, row: &Row) -> Result<Row, Refused>
    ensures { Gives result (and_then (standard column.now) (λ value. Ok (row.now ++ value ∷ []))) }
{
    let value = standard(alloc, column)?;
    let mut after = copy_row(alloc, row.as_slice())?;
    after.push(value)?;
    Ok(after)
}

fn row_with_assigned(
    alloc: Global,
    place: usize,
    kind: &Kind,
    column: &Column,
    row: &Row,
) -> Result<Row, Refused>
    requires { is_type column.now.kind ≡ true }
    ensures { Gives result (and_then (assigned kind.now column.now (cell_at row.now place)) (λ value. Ok (set row.now place value))) }
{
    let value = cell_at(alloc, row.as_slice(), place)?;
    let kept = assigned(kind, column, value)?;
    let after = copy_row(alloc, row.as_slice())?;
    Ok(with(after, place, kept))
}

/// The row with its new cell, lost cell or cell assigned anew.
fn row_after(alloc: Global, change: &ColumnChange, row: &Row) -> Result<Row, Refused>
    requires { has_type change.now ≡ true }
    ensures { Gives result (row_after change.now row.now) }
{
    match change {
        ColumnChange::Add(column) => row_with_new(alloc, column, row),
        ColumnChange::Remove(place) => {
            let after = copy_row(alloc, row.as_slice())?;
            Ok(without(after, *place))
        }
        ColumnChange::Redefine(place, kind, column) => {
            row_with_assigned(alloc, *place, kind, column, row)
        }
    }
}

fn small_row_after(
    alloc: Global,
    schema: &Schema,
    change: &ColumnChange,
    row: &Row,
) -> Result<Row, Refused>
    requires { has_type change.now ≡ true }
    ensures { Gives result (small_row_after schema.now change.now row.now) }
{
    let after = row_after(alloc, change, row)?;
    if is_large(schema, after.as_slice()) {
        return Err(Refused::By(9010));
    }
    Ok(after)
}

fn rows_after(
    alloc: Global,
    schema: &Schema,
    change: &ColumnChange,
    rows: &[Row],
) -> Result<Sequence<Row>, Refused>
    requires { has_type change.now ≡ true }
    ensures { Gives result (each (small_row_after schema.now change.now) rows.now) }
{
    let mut after = Sequence::new(alloc);
    for row in rows {
        after.push(small_row_after(alloc, schema, change, row)?)?;
    }
    Ok(after)
}

/// The table after a change, or the first refusal of a row or of the schema.
pub fn table_after(alloc: Global, table: &Table, change: &ColumnChange) -> Result<Table, Refused>
    requires { has_type change.now ≡ true }
    ensures { GivesBy table_seen result (table_after (table_seen table.now) change.now) }
{
    let schema = schema_after(alloc, change, &table.schema)?;
    let rows = rows_after(alloc, &schema, change, table.rows.as_slice())?;
    if !keeps_limits(&schema) {
        return Err(Refused::By(9010));
    }
    Ok(Table {
        schema,
        rows,
        conflicts: Sequence::new(alloc),
        violations: Sequence::new(alloc),
    })
}
