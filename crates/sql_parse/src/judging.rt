//! A statement's tree refused where it is outside the language or misuses a procedure.

ghost use Rattle.std.specs.Prelude.{◌≡◌, IfOk};
ghost use Rattle.sql_ast.specs.Lexing.{LexingGives};
ghost use Rattle.sql_parse.specs.Parsing.{judged};
ghost use Rattle.sql_parse.specs.Parsing as spec;

use crate::faults::refused;
use sql_ast::{ReadFault, Statement};
use sql_rules::{is_misused, is_outside};
use std::alloc::{AllocError, Global};

/// The statement, where nothing in it is refused by the text alone.
pub fn judge(alloc: Global, statement: Statement) -> Result<Statement, ReadFault>
    ensures { LexingGives (judged statement) result }
{
    if is_outside(alloc, &statement)? {
        return Err(refused(9013));
    }
    if misuses_procedure(alloc, &statement)? {
        return Err(refused(9008));
    }
    Ok(statement)
}

fn misuses_procedure(alloc: Global, statement: &Statement) -> Result<bool, AllocError>
    ensures { IfOk result (λ answer. answer ≡ spec.is_misused statement.now) }
{
    match statement {
        Statement::Call(call) => is_misused(alloc, call),
        _ => Ok(false),
    }
}
