//! Values compared exactly, where neither is NULL.

ghost use Rattle.std.specs.Prelude.{◌≡◌};
ghost use Rattle.sql_values.specs.Order.{number_cmp, worth_cmp};
ghost use Rattle.sql_values.specs.Views.{seen};

use crate::numbers::{Number, moved};
use crate::worths::Worth;
use std::cmp::Ordering;

/// How two values of comparable kinds compare, exactly; None where one is NULL.
pub fn compare(a: &Worth<'_>, b: &Worth<'_>) -> Option<Ordering>
    ensures { result ≡ worth_cmp (seen a.now) (seen b.now) }
{
    match (a, b) {
        (Worth::Text(a), Worth::Text(b)) => Some(a.cmp(b)),
        (Worth::Bytes(a), Worth::Bytes(b)) => Some(a.cmp(b)),
        _ => match (Number::of(a), Number::of(b)) {
            (Some(a), Some(b)) => Some(numbers(a, b)),
            _ => None,
        },
    }
}

fn numbers(a: Number, b: Number) -> Ordering
    ensures { result ≡ number_cmp a b }
{
    moved(b.scale.get(), a.units).cmp(&moved(a.scale.get(), b.units))
}
