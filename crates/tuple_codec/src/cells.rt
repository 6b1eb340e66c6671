//! Rows as bytes, cell by cell, in the form of keys and in that of rows.

ghost use Rattle.std.specs.Prelude.{◌≡◌, ◌≤◌, ◌<◌, ◌++◌, ◌∷◌, length, take, true, OnOk, OnErr, IfOk};
ghost use Rattle.std.specs.List.{list_all};
ghost use Rattle.tuple_codec.specs.Cells.{cell_bytes, spelling, text_bytes, is_short, is_spelled};
ghost use Rattle.tuple_codec.specs.Fronts.{Gives, cell_front, cells_front, fitting, value_front, whole};

use crate::bytes::Text;
use crate::fields::push_long;
use crate::forms::Form;
use crate::numbers::{bool_front, number_front, push_number};
use crate::sizes::{key_size, row_size};
use crate::texts::{push_escaped, text_front};
use crate::unread::Unread;
use crate::values::{Blob, Row, SqlType, Value, value_fits};
use std::alloc::{AllocError, Global};

/// The bytes of a row.
pub fn encode(alloc: Global, form: Form, row: &Row) -> Result<Blob, AllocError>
    requires { list_all (is_spelled form) row.now ≡ true }
    ensures { IfOk result (λ blob. blob ≡ spelling form row.now) }
{
    let size = match form {
        Form::Key => key_size(row.as_slice()),
        Form::Row => row_size(row.as_slice()),
    };
    let mut out = Vec::with_capacity(alloc, size as usize)?;
    for value in row.as_slice() {
        push_cell(&mut out, form, value)?;
    }
    Ok(Blob::from_vec(out))
}

/// Writes a cell's bytes.
pub fn push_cell(out: &mut Vec<u8>, form: Form, value: &Value) -> Result<(), AllocError>
    requires { is_spelled form value.now ≡ true }
    ensures ok { OnOk result (out.new.items ≡ out.old.items ++ cell_bytes form value.now) }
    ensures err { OnErr result (take (length out.old.items) out.new.items ≡ out.old.items) }
{
    match value {
        Value::Null => out.extend_from_slice(&[0]),
        Value::Int(number) | Value::Decimal(number) => push_number(out, form, *number),
        Value::Bool(truth) => out.extend_from_slice(&[1, u8::from(*truth)]),
        Value::Text(text) => push_text(out, form, text.as_slice()),
        Value::Bytes(bytes) => push_text(out, form, bytes.as_slice()),
    }
}

/// Writes the flag of a value and its text.
fn push_text(out: &mut Vec<u8>, form: Form, text: &[u8]) -> Result<(), AllocError>
    requires { is_short form text.now ≡ true }
    ensures ok { OnOk result (out.new.items ≡ out.old.items ++ 1 ∷ text_bytes form text.now) }
    ensures err { OnErr result (take (length out.old.items) out.new.items ≡ out.old.items) }
{
    out.extend_from_slice(&[1])?;
    match form {
        Form::Key => push_escaped(out, text),
        Form::Row => push_long(out, text),
    }
}

/// The row of these types that has the bytes.
pub fn decode(alloc: Global, form: Form, types: &[SqlType], bytes: &[u8]) -> Result<Row, Unread>
    ensures { Gives (λ row. row) result (whole (cells_front form types.now bytes.now)) }
{
    let mut row = Vec::with_capacity(alloc, types.len())?;
    let mut rest = bytes;
    for kind in types {
        let (value, after) = cell_front(alloc, form, kind, rest)?;
        row.push(value)?;
        rest = after;
    }
    if rest.is_empty() {
        Ok(Row::from_vec(row))
    } else {
        Err(Unread::Malformed)
    }
}

/// The cell in front of bytes, and what follows it.
fn cell_front<'a>(
    alloc: Global,
    form: Form,
    kind: &SqlType,
    bytes: &'a [u8],
) -> Result<(Value, &'a [u8]), Unread>
    ensures { Gives (λ x. (x.0, x.1.now)) result (cell_front form kind.now bytes.now) }
{
    match bytes {
        [0, rest @ ..] => Ok((Value::Null, rest)),
        [1, rest @ ..] => fitting_front(alloc, form, kind, rest),
        _ => Err(Unread::Malformed),
    }
}

/// The value in front of bytes, if it fits its type, and what follows it.
fn fitting_front<'a>(
    alloc: Global,
    form: Form,
    kind: &SqlType,
    bytes: &'a [u8],
) -> Result<(Value, &'a [u8]), Unread>
    ensures { Gives (λ x. (x.0, x.1.now)) result (fitting kind.now (value_front form kind.now bytes.now)) }
{
    let (value, rest) = value_front(alloc, form, kind, bytes)?;
    if value_fits(kind, &value) {
        Ok((value, rest))
    } else {
        Err(Unread::Malformed)
    }
}

/// The value of a type in front of bytes, and what follows it.
fn value_front<'a>(
    alloc: Global,
    form: Form,
    kind: &SqlType,
    bytes: &'a [u8],
) -> Result<(Value, &'a [u8]), Unread>
    ensures { Gives (λ x. (x.0, x.1.now)) result (value_front form kind.now bytes.now) }
{
    match kind {
        SqlType::BigInt | SqlType::Int => {
            let (number, rest) = number_front(form, bytes)?;
            Ok((Value::Int(number), rest))
        }
        SqlType::Bool => {
            let (truth, rest) = bool_front(bytes)?;
            Ok((Value::Bool(truth), rest))
        }
        SqlType::Varchar(_) => {
            let (text, rest) = text_front(alloc, form, bytes)?;
            Ok((Value::Text(Text::from_vec(text)), rest))
        }
        SqlType::Varbinary(_) => {
            let (bytes, rest) = text_front(alloc, form, bytes)?;
            Ok((Value::Bytes(Blob::from_vec(bytes)), rest))
        }
        SqlType::Decimal(_, _) => {
            let (number, rest) = number_front(form, bytes)?;
            Ok((Value::Decimal(number), rest))
        }
    }
}
