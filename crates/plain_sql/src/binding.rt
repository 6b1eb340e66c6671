//! Expressions and tests with names and kinds found.

ghost use Rattle.expr_eval.specs.Binding.{bound, column_at};
ghost use Rattle.plain_sql.specs.Gives.{Gives, GivesBy};
ghost use Rattle.plain_sql.specs.Plans.{condition, meaning};

use crate::faults::Refused;
use expr_eval::{BindFault, BoundExpr, BoundNode, ScopeColumn, bind, bind_condition};
use sql_ast::Expr;
use sql_values::Kind;
use std::alloc::Global;

/// An expression with its kind, or the first refusal.
pub fn bound(alloc: Global, scope: &[ScopeColumn], expr: &Expr) -> Result<BoundExpr, Refused>
    ensures { Gives result (bound scope.now expr.now) }
{
    match bind(alloc, expr, scope) {
        Ok(found) => Ok(found),
        Err(BindFault::Memory) => Err(Refused::Memory),
        Err(BindFault::Refused(number)) => Err(Refused::By(number)),
    }
}

/// What ON, WHERE and CHECK say: an expression of truth values, or the first refusal.
#[tactic(auto, unfolding(crate::specs::Plans::condition))]
pub fn condition(alloc: Global, scope: &[ScopeColumn], expr: &Expr) -> Result<BoundExpr, Refused>
    ensures { GivesBy meaning result (condition scope.now expr.now) }
{
    match bind_condition(alloc, expr, scope) {
        Ok(found) => Ok(found),
        Err(BindFault::Memory) => Err(Refused::Memory),
        Err(BindFault::Refused(number)) => Err(Refused::By(number)),
    }
}

/// The column at a place.
pub fn column_at(scope: &[ScopeColumn], place: usize) -> Result<BoundExpr, Refused>
    ensures { Gives result (column_at scope.now place) }
{
    match scope.get(place) {
        Some(column) => match Kind::of(&column.kind) {
            Some(kind) => Ok(BoundExpr {
                kind: kind.copied(),
                node: BoundNode::Column(kind, place),
            }),
            None => Err(Refused::By(9001)),
        },
        None => Err(Refused::By(1054)),
    }
}
