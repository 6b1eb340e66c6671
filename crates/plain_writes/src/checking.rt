//! CHECKs as tests on rows.

ghost use Rattle.std.specs.Prelude.{◌≡◌, IfOk, Ok};
ghost use Rattle.std.specs.Option.{option_map};
ghost use Rattle.plain_sql.specs.Plans.{condition, meaning};
ghost use Rattle.plain_writes.specs.Violations.{breaks_check, is_false, meaning_if, said_of};

use expr_eval::{BoundExpr, ScopeColumn};
use plain_sql::{Refused, ask, condition};
use sql_ast::Expr;
use std::alloc::{AllocError, Global};
use tuple_codec::{Row, Value};

/// What reads a CHECK's text.
pub trait Reads {
    ghost use Rattle.std.specs.Prelude.{◌≡◌, ℕ, List, Option, IfOk};
    ghost use Rattle.sql_ast.specs.declared.expressions.Expr.{Expr};

    ghost reading: { List ℕ → Option Expr };

    fn read(alloc: Global, text: &[u8]) -> Result<Option<Expr>, AllocError>
        ensures { IfOk result (λ found. found ≡ reading text.now) };
}

/// The condition that a CHECK's text is, bound; None where it is none.
pub fn check_of<R: Reads>(
    alloc: Global,
    scope: &[ScopeColumn],
    text: &[u8],
) -> Result<Option<BoundExpr>, AllocError>
    ensures { IfOk result (λ found. option_map meaning found ≡ said_of R.reading scope.now text.now) }
{
    match R::read(alloc, text)? {
        Some(expr) => bound_check(alloc, scope, &expr),
        None => Ok(None),
    }
}

fn bound_check(
    alloc: Global,
    scope: &[ScopeColumn],
    expr: &Expr,
) -> Result<Option<BoundExpr>, AllocError>
    ensures { IfOk result (λ found. option_map meaning found ≡ meaning_if (condition scope.now expr.now)) }
{
    match condition(alloc, scope, expr) {
        Ok(found) => Ok(Some(found)),
        Err(Refused::Memory) => Err(AllocError),
        Err(Refused::By(_)) => Ok(None),
    }
}

fn is_false(value: &Value) -> bool
    ensures { result ≡ is_false (Ok value.now) }
{
    match value {
        Value::Bool(bit) => !*bit,
        _ => false,
    }
}

/// Whether a row breaks a CHECK: the condition is false there; out of range isn't false.
pub fn breaks_check(alloc: Global, check: &Option<BoundExpr>, row: &Row) -> Result<bool, AllocError>
    ensures { IfOk result (λ breaks. breaks ≡ breaks_check (option_map meaning check.now) row.now) }
{
    match check {
        Some(check) => match ask(alloc, check, row) {
            Ok(value) => Ok(is_false(&value)),
            Err(Refused::Memory) => Err(AllocError),
            Err(Refused::By(_)) => Ok(false),
        },
        None => Ok(false),
    }
}
