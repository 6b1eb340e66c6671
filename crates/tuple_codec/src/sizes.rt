//! How many bytes cells have when they are written, counted without writing them and whether or not they fit their types. A
//! count stays at the last `u64`, as it would at two texts of 2^63 bytes.

ghost use Rattle.std.specs.Prelude.{◌≡◌, ◌==◌, ◌^◌, ◌-◌, count_by, length, min};
ghost use Rattle.tuple_codec.specs.KeyBytes.{escaped, key_bytes, key_cell};
ghost use Rattle.tuple_codec.specs.RowBytes.{row_bytes, row_cell};

use crate::values::Value;

/// The bytes of a cell in a key.
pub fn key_cell_size(cell: &Value) -> u64
    ensures { result ≡ min (length (key_cell cell.now)) (2 ^ 64 - 1) }
{
    match cell {
        Value::Null => 1,
        Value::Int(_) | Value::Decimal(_) => 9,
        Value::Bool(_) => 2,
        Value::Text(text) => escaped_size(text.as_slice()).saturating_add(1),
        Value::Bytes(bytes) => escaped_size(bytes.as_slice()).saturating_add(1),
    }
}

/// The bytes of a text that has its zero bytes escaped.
fn escaped_size(text: &[u8]) -> u64
    ensures { result ≡ min (length (escaped text.now)) (2 ^ 64 - 1) }
{
    (text.len() as u64)
        .saturating_add(zeros(text) as u64)
        .saturating_add(2)
}

fn zeros(text: &[u8]) -> usize
    ensures { result ≡ count_by (λ byte. byte == 0) text.now }
{
    text.iter().filter(|byte| **byte == 0).count()
}

/// The bytes of a cell that isn't in the key.
pub fn row_cell_size(cell: &Value) -> u64
    ensures { result ≡ min (length (row_cell cell.now)) (2 ^ 64 - 1) }
{
    match cell {
        Value::Null => 1,
        Value::Int(_) | Value::Decimal(_) => 9,
        Value::Bool(_) => 2,
        Value::Text(text) => (text.as_slice().len() as u64).saturating_add(3),
        Value::Bytes(bytes) => (bytes.as_slice().len() as u64).saturating_add(3),
    }
}

/// The bytes of a key.
pub fn key_size(key: &[Value]) -> u64
    ensures { result ≡ min (length (key_bytes key.now)) (2 ^ 64 - 1) }
{
    let mut size = 0u64;
    for cell in key {
        size = size.saturating_add(key_cell_size(cell));
    }
    size
}

/// The bytes of the cells that aren't in a key.
pub fn row_size(cells: &[Value]) -> u64
    ensures { result ≡ min (length (row_bytes cells.now)) (2 ^ 64 - 1) }
{
    let mut size = 0u64;
    for cell in cells {
        size = size.saturating_add(row_cell_size(cell));
    }
    size
}
