//! Refusals of a text, with a place and without.

ghost use Rattle.std.specs.Prelude.{◌≡◌};
ghost use Rattle.sql_ast.specs.declared.faults.ReadFault.TheVariants.{Refused};

use sql_ast::{ReadFault, Refusal};

/// A refusal without a place.
pub fn refused(number: u16) -> ReadFault
    ensures { result ≡ Refused (record { number = number; at = 0 }) }
{
    ReadFault::Refused(Refusal { number, at: 0 })
}

/// The refusal of a text whose token at this place fits no statement.
pub fn misplaced(at: u32) -> ReadFault
    ensures { result ≡ Refused (record { number = 1064; at = at }) }
{
    ReadFault::Refused(Refusal { number: 1064, at })
}
