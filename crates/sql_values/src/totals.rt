//! SUM.

ghost use Rattle.std.specs.Prelude.{◌≡◌};
ghost use Rattle.sql_values.specs.Totals.{total, total_in, units};

use crate::kinds::Kind;
use tuple_codec::Value;

/// The sum of cells of this kind, those that are NULL left out: NULL where no other is there, and None where it is out of range.
/// The total alone decides that, whatever the order of the cells.
pub fn total(kind: &Kind, cells: &[Value]) -> Option<Value>
    ensures { result ≡ total kind.now cells.now }
{
    let mut total = None;
    for cell in cells {
        if let Some(units) = units(cell) {
            total = Some(total.unwrap_or(0) + i128::from(units));
        }
    }
    match total {
        Some(total) => total_in(kind, total),
        None => Some(Value::Null),
    }
}

/// What a cell adds.
fn units(cell: &Value) -> Option<i64>
    ensures { result ≡ units cell.now }
{
    match cell {
        Value::Int(units) | Value::Decimal(units) => Some(*units),
        _ => None,
    }
}

fn total_in(kind: &Kind, total: i128) -> Option<Value>
    ensures { result ≡ total_in kind.now total }
{
    match kind {
        Kind::Int => match i64::try_from(total) {
            Ok(total) => Some(Value::Int(total)),
            Err(_) => None,
        },
        _ => {
            if total.unsigned_abs() < 1_000_000_000_000_000_000 {
                Some(Value::Decimal(total as i64))
            } else {
                None
            }
        }
    }
}
