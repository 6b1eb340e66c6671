//! The text of numbers, texts, byte strings, decimals and rows, written behind what a buffer holds.

// Each function writes behind what `out` holds. Where memory was wanting, nothing is said of `out`.

ghost use Rattle.std.specs.Prelude.{◌≡◌, ◌++◌, ◌/◌, ◌%◌, ◌^◌, ◌∷◌, OnOk, codes, replicate};
ghost use Rattle.std.specs.Fmt.{decimal, signed_decimal};
ghost use Rattle.std.specs.List.{flat_map};
ghost use Rattle.sql_text.specs.Values.{byte_string, decimal_text, escaped_byte, padded, quoted, row_text, scale_of, scaled, truth, value_text, value_texts};

use itoa::Buffer;
use std::alloc::{AllocError, Global};
use tuple_codec::{SqlType, Value};

/// Writes a number in decimal.
pub fn push_number(out: &mut Vec<u8>, number: u64) -> Result<(), AllocError>
    ensures { OnOk result (out.new.items ≡ out.old.items ++ decimal number) }
{
    let mut digits = Buffer::new();
    out.extend_from_slice(digits.format(number).as_bytes())
}

/// Writes a row's values with commas between them, each in its column's type.
pub fn push_row(
    alloc: Global,
    out: &mut Vec<u8>,
    kinds: &[SqlType],
    row: &[Value],
) -> Result<(), AllocError>
    ensures { OnOk result (out.new.items ≡ out.old.items ++ row_text kinds.now row.now) }
{
    match (kinds, row) {
        ([kind, kinds @ ..], [value, values @ ..]) => {
            push_value(alloc, out, kind, value)?;
            push_more_values(alloc, out, kinds, values)
        }
        _ => Ok(()),
    }
}

/// Writes values with a comma before each.
fn push_more_values(
    alloc: Global,
    out: &mut Vec<u8>,
    kinds: &[SqlType],
    values: &[Value],
) -> Result<(), AllocError>
    ensures { OnOk result (out.new.items ≡ out.old.items ++ flat_map (λ text. 44 ∷ text) (value_texts kinds.now values.now)) }
{
    for (kind, value) in kinds.iter().zip(values) {
        out.push(b',')?;
        push_value(alloc, out, kind, value)?;
    }
    Ok(())
}

fn push_value(
    alloc: Global,
    out: &mut Vec<u8>,
    kind: &SqlType,
    value: &Value,
) -> Result<(), AllocError>
    ensures { OnOk result (out.new.items ≡ out.old.items ++ value_text kind.now value.now) }
{
    match value {
        Value::Null => out.extend_from_slice(b"NULL"),
        Value::Int(number) => push_signed(out, *number),
        Value::Bool(bit) => push_truth(out, *bit),
        Value::Text(text) => push_quoted(out, text.as_slice()),
        Value::Bytes(bytes) => push_byte_string(alloc, out, bytes.as_slice()),
        Value::Decimal(number) => push_decimal(out, scale(kind), *number),
    }
}

fn push_signed(out: &mut Vec<u8>, number: i64) -> Result<(), AllocError>
    ensures { OnOk result (out.new.items ≡ out.old.items ++ signed_decimal number) }
{
    let mut digits = Buffer::new();
    out.extend_from_slice(digits.format(number).as_bytes())
}

fn push_truth(out: &mut Vec<u8>, bit: bool) -> Result<(), AllocError>
    ensures { OnOk result (out.new.items ≡ out.old.items ++ truth bit) }
{
    out.extend_from_slice(if bit { b"1" } else { b"0" })
}

/// Writes a text between quotes.
pub(crate) fn push_quoted(out: &mut Vec<u8>, text: &[u8]) -> Result<(), AllocError>
    ensures { OnOk result (out.new.items ≡ out.old.items ++ quoted text.now) }
{
    out.push(b'\'')?;
    push_escaped(out, text)?;
    out.push(b'\'')?;
    Ok(())
}

fn push_escaped(out: &mut Vec<u8>, text: &[u8]) -> Result<(), AllocError>
    ensures { OnOk result (out.new.items ≡ out.old.items ++ flat_map escaped_byte text.now) }
{
    for byte in text {
        push_escaped_byte(out, *byte)?;
    }
    Ok(())
}

fn push_escaped_byte(out: &mut Vec<u8>, byte: u8) -> Result<(), AllocError>
    ensures { OnOk result (out.new.items ≡ out.old.items ++ escaped_byte byte) }
{
    match byte {
        b'\'' => out.extend_from_slice(b"\\'"),
        b'\\' => out.extend_from_slice(b"\\\\"),
        b'\n' => out.extend_from_slice(b"\\n"),
        b'\r' => out.extend_from_slice(b"\\r"),
        0 => out.extend_from_slice(b"\\0"),
        _ => out.extend_from_slice(&[byte]),
    }
}

/// Writes a byte string in hex.
pub(crate) fn push_byte_string(
    alloc: Global,
    out: &mut Vec<u8>,
    bytes: &[u8],
) -> Result<(), AllocError>
    ensures { OnOk result (out.new.items ≡ out.old.items ++ byte_string bytes.now) }
{
    let digits = hex::encode(alloc, bytes)?;
    out.extend_from_slice(b"X'")?;
    out.extend_from_slice(digits.as_bytes())?;
    out.extend_from_slice(b"'")
}

/// The digits behind the point; none for a type that has no point.
fn scale(kind: &SqlType) -> u8
    ensures { result ≡ scale_of kind.now }
{
    match kind {
        SqlType::Decimal(_, scale) => *scale,
        _ => 0,
    }
}

fn push_decimal(out: &mut Vec<u8>, scale: u8, number: i64) -> Result<(), AllocError>
    ensures { OnOk result (out.new.items ≡ out.old.items ++ decimal_text scale number) }
{
    if number < 0 {
        out.push(b'-')?;
    }
    push_scaled(out, scale, number.unsigned_abs())
}

/// Writes a number with so many of its digits behind the point, all of them.
pub(crate) fn push_scaled(out: &mut Vec<u8>, scale: u8, number: u64) -> Result<(), AllocError>
    ensures { OnOk result (out.new.items ≡ out.old.items ++ scaled scale number) }
{
    if scale == 0 {
        return push_number(out, number);
    }
    let (whole, part) = parts_at(scale, number);
    push_number(out, whole)?;
    out.extend_from_slice(b".")?;
    push_padded(out, scale, part)
}

/// The number before the point, and the one behind it.
fn parts_at(scale: u8, number: u64) -> (u64, u64)
    ensures whole { result.0 ≡ number / 10 ^ scale }
    ensures part { result.1 ≡ number % 10 ^ scale }
{
    match 10u64.checked_pow(u32::from(scale)) {
        Some(unit) => (number / unit, number % unit),
        None => (0, number),
    }
}

/// Writes a number in at least so many digits.
fn push_padded(out: &mut Vec<u8>, width: u8, number: u64) -> Result<(), AllocError>
    ensures { OnOk result (out.new.items ≡ out.old.items ++ padded width number) }
{
    let mut digits = Buffer::new();
    let text = digits.format(number);
    push_zeros(out, usize::from(width).saturating_sub(text.len()))?;
    out.extend_from_slice(text.as_bytes())
}

fn push_zeros(out: &mut Vec<u8>, count: usize) -> Result<(), AllocError>
    ensures { OnOk result (out.new.items ≡ out.old.items ++ replicate count 48) }
{
    'zeros: for _written in 0..count {
        out.push(b'0')?;
    }
    Ok(())
}
