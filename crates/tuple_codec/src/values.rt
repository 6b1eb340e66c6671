//! Types of columns and the cells of rows, which cells fit a type, and their order.

ghost use Rattle.std.specs.Prelude.{◌≡◌, ◌&&◌, ◌^◌, nat_le, nat_lt, unsigned_abs};
ghost use Rattle.tuple_codec.specs.Rows.{fits, fits_bits, rank, value_cmp};
ghost use Rattle.tuple_codec.specs.Texts.{char_count, is_utf8};

use crate::bytes::Text;
use crate::sequences::Sequence;
use std::cmp::Ordering;

/// Bytes of a binary column, or of a chunk.
pub type Blob = Sequence<u8>;

/// A row: a value for each column.
pub type Row = Sequence<Value>;

/// A column's type.
#[derive(Clone, Copy, PartialEq, Eq)]
pub enum SqlType {
    /// Whole numbers of 64 bits.
    BigInt,
    /// Whole numbers of 32 bits.
    Int,
    Bool,
    /// Text of at most so many characters.
    Varchar(u16),
    /// Bytes, at most so many.
    Varbinary(u16),
    /// Decimals of at most so many digits, of which the second number stand behind the point.
    Decimal(u8, u8),
}

/// A cell.
#[derive(Clone, Drop, PartialEq, Eq)]
pub enum Value {
    Null,
    Int(i64),
    Bool(bool),
    Text(Text),
    Bytes(Blob),
    /// The number times ten to its type's scale.
    Decimal(i64),
}

/// Whether a value may stand in a column of this type: NULL in each; a text in UTF-8, with its characters counted.
pub fn value_fits(kind: &SqlType, value: &Value) -> bool
    ensures { result ≡ fits kind.now value.now }
{
    match (kind, value) {
        (_, Value::Null) => true,
        (SqlType::BigInt, Value::Int(number)) => number_fits(*number),
        (SqlType::Int, Value::Int(number)) => i32::try_from(*number).is_ok(),
        (SqlType::Bool, Value::Bool(_)) => true,
        (SqlType::Varchar(most), Value::Text(text)) => text_fits(*most, text.as_slice()),
        (SqlType::Varbinary(most), Value::Bytes(bytes)) => bytes.as_slice().len()
            <= usize::from(*most),
        (SqlType::Decimal(digits, _), Value::Decimal(number)) => decimal_fits(*digits, *number),
        _ => false,
    }
}

/// Whether bytes are UTF-8 of at most so many characters.
fn text_fits(most: u16, bytes: &[u8]) -> bool
    ensures { result ≡ (is_utf8 bytes.now && nat_le (char_count bytes.now) most) }
{
    is_text(bytes) && characters(bytes) <= usize::from(most)
}

/// Whether bytes are UTF-8.
pub fn is_text(bytes: &[u8]) -> bool
    ensures { result ≡ is_utf8 bytes.now }
{
    match std::str::from_utf8(bytes) {
        Ok(_) => true,
        Err(_) => false,
    }
}

/// How many characters bytes in UTF-8 have.
fn characters(bytes: &[u8]) -> usize
    ensures { result ≡ char_count bytes.now }
{
    bytes
        .iter()
        .filter(|byte| !(128 <= **byte && **byte < 192))
        .count()
}

/// Each number of 64 bits fits; stated apart, since the prover knows a number's range where it is passed.
fn number_fits(number: i64) -> bool
    ensures { result ≡ fits_bits 63 number }
{
    let _in_range = number;
    true
}

/// Whether a number has at most so many digits.
fn decimal_fits(digits: u8, number: i64) -> bool
    ensures { result ≡ nat_lt (unsigned_abs number) (10 ^ digits) }
{
    match 10u64.checked_pow(u32::from(digits)) {
        Some(limit) => number.unsigned_abs() < limit,
        None => true,
    }
}

impl Value {
    /// The order of cells of one type; NULL is least.
    pub fn compare(&self, other: &Value) -> Ordering
        ensures { result ≡ value_cmp self.now other.now }
    {
        match (self, other) {
            (Value::Int(a), Value::Int(b)) | (Value::Decimal(a), Value::Decimal(b)) => a.cmp(b),
            (Value::Bool(a), Value::Bool(b)) => a.cmp(b),
            (Value::Text(a), Value::Text(b)) => a.as_slice().cmp(b.as_slice()),
            (Value::Bytes(a), Value::Bytes(b)) => a.as_slice().cmp(b.as_slice()),
            _ => self.variant_rank().cmp(&other.variant_rank()),
        }
    }

    fn variant_rank(&self) -> u8
        ensures { result ≡ rank self.now }
    {
        match self {
            Value::Null => 0,
            Value::Int(_) => 1,
            Value::Bool(_) => 2,
            Value::Text(_) => 3,
            Value::Bytes(_) => 4,
            Value::Decimal(_) => 5,
        }
    }
}
