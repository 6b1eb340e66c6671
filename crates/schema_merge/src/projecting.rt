//! A row of one schema as a row of another, cell by cell through the columns' names.

ghost use Rattle.std.specs.Prelude.{◌≡◌, IfOk};
ghost use Rattle.std.specs.Option.{option_copied};
ghost use Rattle.schema_merge.specs.Projecting.{default_cell, projected, projected_cell};

use crate::finding::place_of;
use schema_model::{Column, Schema};
use std::alloc::{AllocError, Global};
use tuple_codec::{Row, Value, cell_at, copy_value};

/// A row of one schema as a row of another: each column's cell is that of the column of its name, or, where there is none, its default, or
/// NULL.
pub fn project(alloc: Global, row: &Row, from: &Schema, to: &Schema) -> Result<Row, AllocError>
    ensures { IfOk result (λ out. out ≡ projected from.now to.now row.now) }
{
    let mut out = Row::new(alloc);
    for column in to.columns.as_slice() {
        out.push(projected_cell(alloc, from, row.as_slice(), column)?)?;
    }
    Ok(out)
}

fn projected_cell(
    alloc: Global,
    from: &Schema,
    row: &[Value],
    column: &Column,
) -> Result<Value, AllocError>
    ensures { IfOk result (λ cell. cell ≡ projected_cell from.now row.now column.now) }
{
    match place_of(from.columns.as_slice(), column.name.as_slice()) {
        Some(place) => cell_at(alloc, row, place),
        None => default_cell(alloc, column.default.as_ref()),
    }
}

fn default_cell(alloc: Global, default: Option<&Value>) -> Result<Value, AllocError>
    ensures { IfOk result (λ cell. cell ≡ default_cell (option_copied default.entry)) }
{
    match default {
        Some(value) => copy_value(alloc, value),
        None => Ok(Value::Null),
    }
}
