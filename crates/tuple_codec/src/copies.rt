//! Copies of cells and rows, of which contracts know that they equal what was copied.

ghost use Rattle.std.specs.Prelude.{◌≡◌, IfOk};

use crate::bytes::Text;
use crate::sequences::Sequence;
use crate::values::{Row, Value};
use std::alloc::{AllocError, Global};

/// A copy, of which contracts know that it equals the cell; `clone` says less outside this crate.
pub fn copy_value(alloc: Global, value: &Value) -> Result<Value, AllocError>
    ensures { IfOk result (λ copy. copy ≡ value.now) }
{
    match value {
        Value::Null => Ok(Value::Null),
        Value::Int(number) => Ok(Value::Int(*number)),
        Value::Bool(bit) => Ok(Value::Bool(*bit)),
        Value::Text(text) => Ok(Value::Text(Text::from_slice(alloc, text.as_slice())?)),
        Value::Bytes(bytes) => {
            let bytes = Vec::from_slice(alloc, bytes.as_slice())?;
            Ok(Value::Bytes(Sequence::from_vec(bytes)))
        }
        Value::Decimal(number) => Ok(Value::Decimal(*number)),
    }
}

/// A copy of a row's cells, of which contracts know that it equals them.
pub fn copy_row(alloc: Global, row: &[Value]) -> Result<Row, AllocError>
    ensures { IfOk result (λ copy. copy ≡ row.now) }
{
    let mut copy = Sequence::new(alloc);
    for value in row {
        copy.push(copy_value(alloc, value)?)?;
    }
    Ok(copy)
}
