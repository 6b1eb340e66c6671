//! Types of columns, and values as defaults.

ghost use Rattle.std.specs.Prelude.{◌≡◌, ◌<◌, ◌^◌, ◌++◌, [], ◌∷◌, length, true, is_some, OnOk, Some};
ghost use Rattle.tuple_codec.specs.Fronts.{Gives};
ghost use Rattle.tuple_codec.specs.Limits.{is_type};
ghost use Rattle.tuple_codec.specs.RowBytes.{row_cell};
ghost use Rattle.tuple_codec.specs.Rows.{fits};
ghost use Rattle.schema_model.specs.SchemaBytes.{default_bytes, type_bytes};
ghost use Rattle.schema_model.specs.Schemas.{default_fits};
ghost use Rattle.schema_model.specs.Reading.{cell_size, coded_at, decimal_at, default_at, most_at, only, payload_size, text_size, type_at, value_at, value_of};

use crate::fields::{push_two, two_at};
use crate::forms::FormBytes;
use std::alloc::{AllocError, Global};
use tuple_codec::{Row, SqlType, Unread, Value, bytes_at, copy_value, decode_row, encode_row};

/// Whether a column may have the type.
pub(crate) fn is_type(kind: &SqlType) -> bool
    ensures { result ≡ is_type kind.now }
{
    match kind {
        SqlType::BigInt | SqlType::Int | SqlType::Bool => true,
        SqlType::Varchar(most) | SqlType::Varbinary(most) => 1 <= *most && *most <= 2000,
        SqlType::Decimal(digits, scale) => 1 <= *digits && *digits <= 18 && *scale <= *digits,
    }
}

/// A type that a column may have.
pub(crate) fn type_at(bytes: &[u8]) -> Result<(SqlType, &[u8]), Unread>
    ensures { Gives (λ x. (x.0, x.1.now)) result (type_at bytes.now) }
{
    match bytes {
        [code, rest @ ..] => {
            let (kind, rest) = coded_at(*code, rest)?;
            if is_type(&kind) {
                Ok((kind, rest))
            } else {
                Err(Unread::Malformed)
            }
        }
        [] => Err(Unread::Malformed),
    }
}

/// The type of a code, whose numbers come after it.
fn coded_at(code: u8, rest: &[u8]) -> Result<(SqlType, &[u8]), Unread>
    ensures { Gives (λ x. (x.0, x.1.now)) result (coded_at code rest.now) }
{
    match code {
        1 => Ok((SqlType::BigInt, rest)),
        2 => Ok((SqlType::Int, rest)),
        3 => Ok((SqlType::Bool, rest)),
        4 => varchar_at(rest),
        5 => varbinary_at(rest),
        6 => decimal_at(rest),
        _ => Err(Unread::Malformed),
    }
}

fn varchar_at(bytes: &[u8]) -> Result<(SqlType, &[u8]), Unread>
    ensures { Gives (λ x. (x.0, x.1.now)) result (most_at (λ most. SqlType.Varchar most) bytes.now) }
{
    let (most, rest) = two_at(bytes)?;
    Ok((SqlType::Varchar(most), rest))
}

fn varbinary_at(bytes: &[u8]) -> Result<(SqlType, &[u8]), Unread>
    ensures { Gives (λ x. (x.0, x.1.now)) result (most_at (λ most. SqlType.Varbinary most) bytes.now) }
{
    let (most, rest) = two_at(bytes)?;
    Ok((SqlType::Varbinary(most), rest))
}

fn decimal_at(bytes: &[u8]) -> Result<(SqlType, &[u8]), Unread>
    ensures { Gives (λ x. (x.0, x.1.now)) result (decimal_at bytes.now) }
{
    match bytes {
        [digits, scale, rest @ ..] => Ok((SqlType::Decimal(*digits, *scale), rest)),
        _ => Err(Unread::Malformed),
    }
}

/// How many bytes the cell of this type has that begins with these.
fn cell_size(kind: SqlType, bytes: &[u8]) -> Result<usize, Unread>
    ensures { Gives (λ size. size) result (cell_size kind bytes.now) }
{
    match bytes {
        [0, ..] => Ok(1),
        [_, rest @ ..] => payload_size(kind, rest),
        [] => Err(Unread::Malformed),
    }
}

fn payload_size(kind: SqlType, bytes: &[u8]) -> Result<usize, Unread>
    ensures { Gives (λ size. size) result (payload_size kind bytes.now) }
{
    match kind {
        SqlType::BigInt | SqlType::Int | SqlType::Decimal(_, _) => Ok(9),
        SqlType::Bool => Ok(2),
        SqlType::Varchar(_) | SqlType::Varbinary(_) => text_size(bytes),
    }
}

fn text_size(bytes: &[u8]) -> Result<usize, Unread>
    ensures { Gives (λ size. size) result (text_size bytes.now) }
{
    let (size, _) = two_at(bytes)?;
    Ok(3 + usize::from(size))
}

/// The default at the front, if there is one.
pub(crate) fn default_at<'a>(
    alloc: Global,
    has_default: bool,
    kind: SqlType,
    bytes: &'a [u8],
) -> Result<(Option<Value>, &'a [u8]), Unread>
    requires { is_type kind ≡ true }
    ensures { Gives (λ x. (x.0, x.1.now)) result (default_at has_default kind bytes.now) }
{
    if has_default {
        let (value, rest) = value_at(alloc, kind, bytes)?;
        Ok((Some(value), rest))
    } else {
        Ok((None, bytes))
    }
}

/// The value of this type at the front.
#[tactic(auto, unfolding(crate::specs::Reading::value_at))]
fn value_at<'a>(alloc: Global, kind: SqlType, bytes: &'a [u8]) -> Result<(Value, &'a [u8]), Unread>
    requires { is_type kind ≡ true }
    ensures { Gives (λ x. (x.0, x.1.now)) result (value_at kind bytes.now) }
{
    let size = cell_size(kind, bytes)?;
    let (cell, rest) = bytes_at(size, bytes)?;
    let value = value_of(alloc, kind, cell)?;
    Ok((value, rest))
}

/// The value of this type that has these bytes, all of them.
fn value_of(alloc: Global, kind: SqlType, cell: &[u8]) -> Result<Value, Unread>
    requires { is_type kind ≡ true }
    ensures { Gives (λ value. value) result (value_of kind cell.now) }
{
    match decode_row(alloc, &[kind], cell)? {
        Some(row) => only(row),
        None => Err(Unread::Malformed),
    }
}

/// The value of a row that has one.
fn only(row: Row) -> Result<Value, Unread>
    ensures { Gives (λ value. value) result (only row) }
{
    let mut values = row.into_vec();
    match values.pop() {
        Some(value) if values.is_empty() => Ok(value),
        _ => Err(Unread::Malformed),
    }
}

pub(crate) fn push_type(out: &mut FormBytes, kind: &SqlType) -> Result<(), AllocError>
    ensures { OnOk result (out.new.items ≡ out.old.items ++ type_bytes kind.now) }
{
    match kind {
        SqlType::BigInt => out.push(1)?,
        SqlType::Int => out.push(2)?,
        SqlType::Bool => out.push(3)?,
        SqlType::Varchar(most) => {
            out.push(4)?;
            push_two(out, *most)?;
        }
        SqlType::Varbinary(most) => {
            out.push(5)?;
            push_two(out, *most)?;
        }
        SqlType::Decimal(digits, scale) => out.extend_from_slice(&[6, *digits, *scale])?,
    }
    Ok(())
}

/// Writes a default, if there is one.
pub(crate) fn push_default(
    out: &mut FormBytes,
    kind: SqlType,
    default: &Option<Value>,
) -> Result<(), AllocError>
    requires kind { is_type kind ≡ true }
    requires fit { default_fits kind default.now ≡ true }
    ensures { OnOk result (out.new.items ≡ out.old.items ++ default_bytes default.now) }
{
    match default {
        Some(value) => push_value(out, kind, value),
        None => Ok(()),
    }
}

/// Writes a value as a row's only cell.
fn push_value(out: &mut FormBytes, kind: SqlType, value: &Value) -> Result<(), AllocError>
    requires kind { is_type kind ≡ true }
    requires fit { fits kind value.now ≡ true }
    ensures { OnOk result (out.new.items ≡ out.old.items ++ row_cell value.now) }
{
    let alloc = *out.allocator();
    let mut row = Row::new(alloc);
    row.push(copy_value(alloc, value)?)?;
    let cell = encode_row(alloc, &[kind], &row)?;
    out.extend_from_slice(cell.as_slice())
}

pub(crate) fn type_size(kind: &SqlType) -> u64
    ensures { result ≡ length (type_bytes kind.now) }
{
    match kind {
        SqlType::BigInt | SqlType::Int | SqlType::Bool => 1,
        SqlType::Varchar(_) | SqlType::Varbinary(_) | SqlType::Decimal(_, _) => 3,
    }
}

pub(crate) fn default_size(default: &Option<Value>) -> u64
    requires { length (default_bytes default.now) < 2 ^ 64 }
    ensures { result ≡ length (default_bytes default.now) }
{
    match default {
        Some(Value::Null) => 1,
        Some(Value::Int(_) | Value::Decimal(_)) => 9,
        Some(Value::Bool(_)) => 2,
        Some(Value::Text(text)) => 3 + text.as_slice().len() as u64,
        Some(Value::Bytes(bytes)) => 3 + bytes.as_slice().len() as u64,
        None => 0,
    }
}
