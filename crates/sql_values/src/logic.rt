//! AND, OR and NOT of truth values that may be NULL.

ghost use Rattle.std.specs.Prelude.{◌≡◌};
ghost use Rattle.sql_values.specs.Logic.{and3, not3, or3};

/// AND of truth values, None being NULL.
pub fn and(a: Option<bool>, b: Option<bool>) -> Option<bool>
    ensures { result ≡ and3 a b }
{
    match (a, b) {
        (Some(false), _) | (_, Some(false)) => Some(false),
        (Some(true), Some(true)) => Some(true),
        _ => None,
    }
}

/// OR of truth values, None being NULL.
pub fn or(a: Option<bool>, b: Option<bool>) -> Option<bool>
    ensures { result ≡ or3 a b }
{
    match (a, b) {
        (Some(true), _) | (_, Some(true)) => Some(true),
        (Some(false), Some(false)) => Some(false),
        _ => None,
    }
}

/// NOT of a truth value, None being NULL.
pub fn not(a: Option<bool>) -> Option<bool>
    ensures { result ≡ not3 a }
{
    match a {
        Some(bit) => Some(!bit),
        None => None,
    }
}
