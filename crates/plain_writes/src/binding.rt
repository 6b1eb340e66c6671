//! Names and kinds of a statement that writes.

ghost use Rattle.std.specs.Prelude.{◌≡◌, IfOk, map, true};
ghost use Rattle.std.specs.List.{list_all};
ghost use Rattle.tuple_codec.specs.Limits.{is_type};
ghost use Rattle.plain_sql.specs.Gives.{GivesBy};
ghost use Rattle.plain_sql.specs.Lists.{each};
ghost use Rattle.plain_sql.specs.Plans.{meaning};
ghost use Rattle.plain_writes.specs.Seen.{setting_seen};
ghost use Rattle.plain_writes.specs.Writes.{assign_if, assign_to, bound_assignment, tests_of};

use crate::columns::column_place;
use crate::copies::copy_column;
use crate::updating::BoundAssignment;
use expr_eval::{BoundExpr, ScopeColumn};
use plain_sql::{Refused, bound, condition};
use schema_model::{Column, Schema};
use sql_ast::{Assignment, Expr};
use sql_values::may_assign;
use std::alloc::Global;
use tuple_codec::Sequence;

/// The setting, if a value of this kind may be assigned to the column.
fn assign_if(
    alloc: Global,
    place: usize,
    column: &Column,
    value: BoundExpr,
) -> Result<BoundAssignment, Refused>
    ensures typed { IfOk result (λ one. one.column ≡ column.now) }
    ensures is { GivesBy setting_seen result (assign_if place column.now value) }
{
    if !may_assign(&value.kind, &column.kind) {
        return Err(Refused::By(9001));
    }
    Ok(BoundAssignment {
        place,
        column: copy_column(alloc, column)?,
        value,
    })
}

fn assign_to(
    alloc: Global,
    scope: &[ScopeColumn],
    expr: &Expr,
    place: usize,
    column: &Column,
) -> Result<BoundAssignment, Refused>
    ensures typed { IfOk result (λ one. one.column ≡ column.now) }
    ensures is { GivesBy setting_seen result (assign_to scope.now expr.now place column.now) }
{
    let value = bound(alloc, scope, expr)?;
    assign_if(alloc, place, column, value)
}

#[tactic(auto, using(crate::proofs::PlaceLemmas::all_at))]
fn bound_assignment(
    alloc: Global,
    schema: &Schema,
    scope: &[ScopeColumn],
    assignment: &Assignment,
) -> Result<BoundAssignment, Refused>
    requires { list_all (λ column. is_type column.kind) schema.now.columns ≡ true }
    ensures typed { IfOk result (λ one. is_type one.column.kind ≡ true) }
    ensures is { GivesBy setting_seen result (bound_assignment schema.now scope.now assignment.now) }
{
    match column_place(schema, assignment.column.as_slice()) {
        Some(place) => match schema.columns.as_slice().get(place) {
            Some(column) => assign_to(alloc, scope, &assignment.value, place, column),
            None => Err(Refused::By(1054)),
        },
        None => Err(Refused::By(1054)),
    }
}

/// What an UPDATE sets, up to the first refusal.
pub fn assignments(
    alloc: Global,
    schema: &Schema,
    scope: &[ScopeColumn],
    list: &[Assignment],
) -> Result<Sequence<BoundAssignment>, Refused>
    requires { list_all (λ column. is_type column.kind) schema.now.columns ≡ true }
    ensures typed { IfOk result (λ settings. list_all (λ one. is_type one.column.kind) settings ≡ true) }
    ensures is { GivesBy (map setting_seen) result (each (bound_assignment schema.now scope.now) list.now) }
{
    let mut settings = Sequence::new(alloc);
    for one in list {
        settings.push(bound_assignment(alloc, schema, scope, one)?)?;
    }
    Ok(settings)
}

/// WHERE, if there is one.
pub fn tests_of(
    alloc: Global,
    scope: &[ScopeColumn],
    filter: &Option<Expr>,
) -> Result<Sequence<BoundExpr>, Refused>
    ensures { GivesBy (map meaning) result (tests_of scope.now filter.now) }
{
    let mut tests = Sequence::new(alloc);
    if let Some(filter) = filter {
        tests.push(condition(alloc, scope, filter)?)?;
    }
    Ok(tests)
}
