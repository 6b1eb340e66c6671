//! Calls of the language's procedures with arguments that they don't take.

ghost use Rattle.std.specs.Prelude.{◌≡◌, IfOk};
ghost use Rattle.sql_rules.specs.Arguments.{misused};

use sql_ast::Call;
use sql_procedures::{arguments_of, procedure_named};
use std::alloc::{AllocError, Global};

/// Whether a procedure of the language is called with arguments that it doesn't take.
///
/// A call of any other procedure isn't misused: it is outside the language.
pub fn is_misused(alloc: Global, call: &Call) -> Result<bool, AllocError>
    ensures { IfOk result (λ answer. answer ≡ misused call.now) }
{
    match procedure_named(&call.name) {
        Some(procedure) => {
            Ok(arguments_of(alloc, procedure, call.arguments.as_slice())?.is_none())
        }
        None => Ok(false),
    }
}
