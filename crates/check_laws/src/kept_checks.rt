//! The laws of expressions that are kept as canonical texts, each on a function that does nothing.

ghost use Rattle.check_laws.specs.CheckLaws.{KeepsChecks, KeepsValues};

/// What the canonical text of an expression says is bound as the expression is, or refused with its number; it has the same kind, and on
/// every row the same value, or both are out of range.
pub fn law_of_values()
    ensures { KeepsValues }
{}

/// The canonical text of an expression that a text can give, as a CHECK is, is read, where it isn't too deep, and what is read of it is bound as the
/// expression is, with its values.
pub fn law_of_kept_checks()
    ensures { KeepsChecks }
{}
