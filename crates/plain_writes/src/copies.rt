//! Copies, of which contracts know that they are what was copied.

ghost use Rattle.std.specs.Prelude.{◌≡◌, IfOk};

use crate::breaking::Broken;
use crate::tables::{Dispute, NamedTable, Table};
use schema_model::{CheckDef, Column, ForeignKey, IndexDef, Schema};
use std::alloc::{AllocError, Global};
use tuple_codec::{Row, Sequence, Text, Value, copy_row, copy_value};

fn copied_default(alloc: Global, default: &Option<Value>) -> Result<Option<Value>, AllocError>
    ensures { IfOk result (λ copy. copy ≡ default.now) }
{
    match default {
        Some(value) => Ok(Some(copy_value(alloc, value)?)),
        None => Ok(None),
    }
}

/// A copy, of which contracts know that it is the column.
pub fn copy_column(alloc: Global, column: &Column) -> Result<Column, AllocError>
    ensures { IfOk result (λ copy. copy ≡ column.now) }
{
    Ok(Column {
        name: Text::from_slice(alloc, column.name.as_slice())?,
        kind: column.kind,
        not_null: column.not_null,
        default: copied_default(alloc, &column.default)?,
    })
}

fn copy_places(alloc: Global, places: &[u8]) -> Result<Sequence<u8>, AllocError>
    ensures { IfOk result (λ copy. copy ≡ places.now) }
{
    Ok(Sequence::from_vec(Vec::from_slice(alloc, places)?))
}

fn copy_columns(alloc: Global, columns: &[Column]) -> Result<Sequence<Column>, AllocError>
    ensures { IfOk result (λ copy. copy ≡ columns.now) }
{
    let mut copy = Sequence::new(alloc);
    for column in columns {
        copy.push(copy_column(alloc, column)?)?;
    }
    Ok(copy)
}

fn copy_index(alloc: Global, index: &IndexDef) -> Result<IndexDef, AllocError>
    ensures { IfOk result (λ copy. copy ≡ index.now) }
{
    Ok(IndexDef {
        name: Text::from_slice(alloc, index.name.as_slice())?,
        unique: index.unique,
        columns: copy_places(alloc, index.columns.as_slice())?,
    })
}

fn copy_indexes(alloc: Global, indexes: &[IndexDef]) -> Result<Sequence<IndexDef>, AllocError>
    ensures { IfOk result (λ copy. copy ≡ indexes.now) }
{
    let mut copy = Sequence::new(alloc);
    for index in indexes {
        copy.push(copy_index(alloc, index)?)?;
    }
    Ok(copy)
}

fn copy_check(alloc: Global, check: &CheckDef) -> Result<CheckDef, AllocError>
    ensures { IfOk result (λ copy. copy ≡ check.now) }
{
    Ok(CheckDef {
        name: Text::from_slice(alloc, check.name.as_slice())?,
        text: Text::from_slice(alloc, check.text.as_slice())?,
    })
}

fn copy_checks(alloc: Global, checks: &[CheckDef]) -> Result<Sequence<CheckDef>, AllocError>
    ensures { IfOk result (λ copy. copy ≡ checks.now) }
{
    let mut copy = Sequence::new(alloc);
    for check in checks {
        copy.push(copy_check(alloc, check)?)?;
    }
    Ok(copy)
}

fn copy_names(alloc: Global, names: &[Text]) -> Result<Sequence<Text>, AllocError>
    ensures { IfOk result (λ copy. copy ≡ names.now) }
{
    let mut copy = Sequence::new(alloc);
    for name in names {
        copy.push(Text::from_slice(alloc, name.as_slice())?)?;
    }
    Ok(copy)
}

fn copy_key(alloc: Global, key: &ForeignKey) -> Result<ForeignKey, AllocError>
    ensures { IfOk result (λ copy. copy ≡ key.now) }
{
    Ok(ForeignKey {
        name: Text::from_slice(alloc, key.name.as_slice())?,
        columns: copy_places(alloc, key.columns.as_slice())?,
        parent: Text::from_slice(alloc, key.parent.as_slice())?,
        parent_columns: copy_names(alloc, key.parent_columns.as_slice())?,
    })
}

fn copy_keys(alloc: Global, keys: &[ForeignKey]) -> Result<Sequence<ForeignKey>, AllocError>
    ensures { IfOk result (λ copy. copy ≡ keys.now) }
{
    let mut copy = Sequence::new(alloc);
    for key in keys {
        copy.push(copy_key(alloc, key)?)?;
    }
    Ok(copy)
}

/// A copy, of which contracts know that it is the schema.
pub fn copy_schema(alloc: Global, schema: &Schema) -> Result<Schema, AllocError>
    ensures { IfOk result (λ copy. copy ≡ schema.now) }
{
    Ok(Schema {
        columns: copy_columns(alloc, schema.columns.as_slice())?,
        key: copy_places(alloc, schema.key.as_slice())?,
        indexes: copy_indexes(alloc, schema.indexes.as_slice())?,
        checks: copy_checks(alloc, schema.checks.as_slice())?,
        foreign: copy_keys(alloc, schema.foreign.as_slice())?,
    })
}

/// A copy, of which contracts know that it has these rows.
pub(crate) fn copy_rows(alloc: Global, rows: &[Row]) -> Result<Sequence<Row>, AllocError>
    ensures { IfOk result (λ copy. copy ≡ rows.now) }
{
    let mut copy = Sequence::new(alloc);
    for row in rows {
        copy.push(copy_row(alloc, row.as_slice())?)?;
    }
    Ok(copy)
}

fn copy_side(alloc: Global, side: &Option<Row>) -> Result<Option<Row>, AllocError>
    ensures { IfOk result (λ copy. copy ≡ side.now) }
{
    match side {
        Some(row) => Ok(Some(copy_row(alloc, row.as_slice())?)),
        None => Ok(None),
    }
}

fn copy_dispute(alloc: Global, dispute: &Dispute) -> Result<Dispute, AllocError>
    ensures { IfOk result (λ copy. copy ≡ dispute.now) }
{
    Ok(Dispute {
        key: copy_row(alloc, dispute.key.as_slice())?,
        base: copy_side(alloc, &dispute.base)?,
        ours: copy_side(alloc, &dispute.ours)?,
        theirs: copy_side(alloc, &dispute.theirs)?,
    })
}

/// Copies of a table's conflicts: each key, and the row of each side that has one there.
pub fn copy_disputes(alloc: Global, disputes: &[Dispute]) -> Result<Sequence<Dispute>, AllocError>
    ensures { IfOk result (λ copy. copy ≡ disputes.now) }
{
    let mut copy = Sequence::new(alloc);
    for dispute in disputes {
        copy.push(copy_dispute(alloc, dispute)?)?;
    }
    Ok(copy)
}

fn copy_broken(alloc: Global, broken: &Broken) -> Result<Broken, AllocError>
    ensures { IfOk result (λ copy. copy ≡ broken.now) }
{
    Ok(Broken {
        kind: broken.kind,
        constraint: Text::from_slice(alloc, broken.constraint.as_slice())?,
        key: copy_row(alloc, broken.key.as_slice())?,
        row: copy_row(alloc, broken.row.as_slice())?,
    })
}

/// Copies of the violations recorded of a table, whose rows needn't be the table's any more.
pub fn copy_violations(alloc: Global, violations: &[Broken]) -> Result<Sequence<Broken>, AllocError>
    ensures { IfOk result (λ copy. copy ≡ violations.now) }
{
    let mut copy = Sequence::new(alloc);
    for broken in violations {
        copy.push(copy_broken(alloc, broken)?)?;
    }
    Ok(copy)
}

/// A copy of the table with these rows in place of its own; its conflicts and violations stay.
pub fn with_rows(alloc: Global, table: &Table, rows: Sequence<Row>) -> Result<Table, AllocError>
    ensures { IfOk result (λ copy. copy ≡ record { schema = table.now.schema; rows = rows; conflicts = table.now.conflicts; violations = table.now.violations }) }
{
    Ok(Table {
        schema: copy_schema(alloc, &table.schema)?,
        rows,
        conflicts: copy_disputes(alloc, table.conflicts.as_slice())?,
        violations: copy_violations(alloc, table.violations.as_slice())?,
    })
}

/// A copy, of which contracts know that it is the table.
pub fn copy_named(alloc: Global, named: &NamedTable) -> Result<NamedTable, AllocError>
    ensures { IfOk result (λ copy. copy ≡ named.now) }
{
    let rows = copy_rows(alloc, named.table.rows.as_slice())?;
    Ok(NamedTable {
        name: Text::from_slice(alloc, named.name.as_slice())?,
        table: with_rows(alloc, &named.table, rows)?,
    })
}
