//! What a column keeps of a value.

ghost use Rattle.std.specs.Prelude.{◌≡◌, true};
ghost use Rattle.tuple_codec.specs.Limits.{is_type};
ghost use Rattle.plain_sql.specs.Gives.{Gives};
ghost use Rattle.plain_writes.specs.Writes.{assigned, standard, taken};

use plain_sql::{Refused, is_null};
use schema_model::Column;
use sql_values::{Kind, assign};
use std::alloc::Global;
use tuple_codec::{Value, copy_value};

/// What a column keeps of a value of this kind.
pub fn assigned(kind: &Kind, column: &Column, value: Value) -> Result<Value, Refused>
    requires { is_type column.now.kind ≡ true }
    ensures { Gives result (assigned kind.now column.now value) }
{
    match assign(kind, &column.kind, column.not_null, value) {
        Ok(value) => Ok(value),
        Err(misfit) => Err(Refused::By(misfit.number())),
    }
}

fn taken(column: &Column, value: Value) -> Result<Value, Refused>
    ensures { Gives result (taken column.now value) }
{
    if column.not_null && is_null(&value) {
        Err(Refused::By(1048))
    } else {
        Ok(value)
    }
}

/// What a column has where nothing is said of it: its default, else NULL.
pub fn standard(alloc: Global, column: &Column) -> Result<Value, Refused>
    ensures { Gives result (standard column.now) }
{
    match &column.default {
        Some(value) => taken(column, copy_value(alloc, value)?),
        None => taken(column, Value::Null),
    }
}
