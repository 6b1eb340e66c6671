//! What is shown of a group of rows: a cell, or an aggregate.

ghost use Rattle.std.specs.Prelude.{◌≡◌, IfOk, length, pos};
ghost use Rattle.sql_values.specs.Totals.{total};
ghost use Rattle.plain_sql.specs.Answers.{best_by, cell_of, first_row, given, greater, is_null, lesser, present};
ghost use Rattle.plain_sql.specs.Lists.{or_refuse};
ghost use Rattle.plain_sql.specs.Gives.{Gives};
ghost use Rattle.plain_sql.specs.Plans.{meaning};
ghost use Rattle.plain_sql.specs.Seen.{showing_seen};

use crate::asking::ask;
use crate::faults::Refused;
use expr_eval::BoundExpr;
use sql_values::{Kind, total};
use std::alloc::{AllocError, Global};
use tuple_codec::{Row, Sequence, Value, copy_value};

/// What a column of the answer shows of a group of rows.
#[derive(Drop)]
pub enum Showing {
    Of(BoundExpr),
    Rows,
    Count(BoundExpr),
    Sum(BoundExpr),
    Least(BoundExpr),
    Greatest(BoundExpr),
}

/// Whether a cell is NULL, which aggregates leave out and NOT NULL columns refuse.
pub fn is_null(value: &Value) -> bool
    ensures { result ≡ is_null value.now }
{
    match value {
        Value::Null => true,
        _ => false,
    }
}

/// The values that aren't NULL.
fn present(alloc: Global, expr: &BoundExpr, rows: &[Row]) -> Result<Sequence<Value>, Refused>
    ensures { Gives result (present (meaning expr.now) rows.now) }
{
    let mut found = Sequence::new(alloc);
    for row in rows {
        let value = ask(alloc, expr, row)?;
        if !is_null(&value) {
            found.push(value)?;
        }
    }
    Ok(found)
}

fn total_of(kind: &Kind, values: &[Value]) -> Result<Value, Refused>
    ensures { Gives result (or_refuse 1264 (total kind.now values.now)) }
{
    match total(kind, values) {
        Some(total) => Ok(total),
        None => Err(Refused::By(1264)),
    }
}

fn least(alloc: Global, values: &[Value]) -> Result<Value, AllocError>
    ensures { IfOk result (λ best. best ≡ best_by lesser values.now) }
{
    match values {
        [] => Ok(Value::Null),
        [first, rest @ ..] => {
            let mut best = first;
            for value in rest {
                if value.compare(best).is_lt() {
                    best = value;
                }
            }
            copy_value(alloc, best)
        }
    }
}

fn greatest(alloc: Global, values: &[Value]) -> Result<Value, AllocError>
    ensures { IfOk result (λ best. best ≡ best_by greater values.now) }
{
    match values {
        [] => Ok(Value::Null),
        [first, rest @ ..] => {
            let mut best = first;
            for value in rest {
                if best.compare(value).is_lt() {
                    best = value;
                }
            }
            copy_value(alloc, best)
        }
    }
}

fn row_count(rows: &[Row]) -> Value
    ensures { result ≡ Value.Int (pos (length rows.now)) }
{
    Value::Int(rows.len() as i64)
}

fn value_count(values: &[Value]) -> Value
    ensures { result ≡ Value.Int (pos (length values.now)) }
{
    Value::Int(values.len() as i64)
}

/// What is shown of a group of rows, also of one without a row; 1264 where a value or a sum is out of range.
pub fn cell_of(alloc: Global, shown: &Showing, rows: &[Row]) -> Result<Value, Refused>
    ensures { Gives result (cell_of rows.now (showing_seen shown.now)) }
{
    match shown {
        Showing::Of(expr) => first_of(alloc, expr, rows),
        Showing::Rows => Ok(row_count(rows)),
        Showing::Count(expr) => {
            let values = present(alloc, expr, rows)?;
            Ok(value_count(values.as_slice()))
        }
        Showing::Sum(expr) => {
            let values = present(alloc, expr, rows)?;
            total_of(&expr.kind, values.as_slice())
        }
        Showing::Least(expr) => {
            let values = present(alloc, expr, rows)?;
            Ok(least(alloc, values.as_slice())?)
        }
        Showing::Greatest(expr) => {
            let values = present(alloc, expr, rows)?;
            Ok(greatest(alloc, values.as_slice())?)
        }
    }
}

fn first_of(alloc: Global, expr: &BoundExpr, rows: &[Row]) -> Result<Value, Refused>
    ensures { Gives result (given (meaning expr.now) (first_row rows.now)) }
{
    match rows {
        [] => ask(alloc, expr, &Sequence::new(alloc)),
        [first, ..] => ask(alloc, expr, first),
    }
}
