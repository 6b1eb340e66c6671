//! An expression's value on a row, and whether tests are true there.

ghost use Rattle.std.specs.Prelude.{◌≡◌, map};
ghost use Rattle.plain_sql.specs.Answers.{given, is_true, passes};
ghost use Rattle.plain_sql.specs.Gives.{Gives};
ghost use Rattle.plain_sql.specs.Plans.{meaning};

use crate::faults::Refused;
use expr_eval::{BoundExpr, EvalFault, eval};
use std::alloc::Global;
use tuple_codec::{Row, Value};

/// The value of an expression on a row, or 1264.
#[tactic(auto, unfolding(crate::specs::Answers::given, crate::specs::Plans::meaning))]
pub fn ask(alloc: Global, expr: &BoundExpr, row: &Row) -> Result<Value, Refused>
    ensures { Gives result (given (meaning expr.now) row.now) }
{
    match eval(alloc, expr, row) {
        Ok(value) => Ok(value),
        Err(EvalFault::Memory) => Err(Refused::Memory),
        Err(EvalFault::OutOfRange) => Err(Refused::By(1264)),
    }
}

fn is_true(value: &Value) -> bool
    ensures { result ≡ is_true value.now }
{
    match value {
        Value::Bool(bit) => *bit,
        _ => false,
    }
}

/// Whether each test is true; those after the first that isn't aren't evaluated.
pub fn passes(alloc: Global, tests: &[BoundExpr], row: &Row) -> Result<bool, Refused>
    ensures { Gives result (passes (map meaning tests.now) row.now) }
{
    for test in tests {
        let value = ask(alloc, test, row)?;
        if !is_true(&value) {
            return Ok(false);
        }
    }
    Ok(true)
}
