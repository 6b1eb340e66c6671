//! Numbers as bytes in both forms, and truth values read from bytes.

ghost use Rattle.std.specs.Prelude.{◌≡◌, ◌++◌, ◌∷◌, OnOk, OnErr};
ghost use Rattle.std.specs.Int.{w64, to_be_bytes};
ghost use Rattle.tuple_codec.specs.Fronts.{Gives, bool_front, number_front, number_of};
ghost use Rattle.tuple_codec.specs.Cells.{bits_of};

use crate::forms::Form;
use crate::unread::Unread;
use byteorder::{BigEndian, ByteOrder};
use std::alloc::{AllocError, Global};

/// Adding it to 64 bits turns their sign bit.
const SIGN: u64 = 1 << 63;

/// Writes the flag of a value and its number.
pub fn push_number(out: &mut Vec<u8>, form: Form, number: i64) -> Result<(), AllocError>
    ensures ok { OnOk result (out.new.items ≡ out.old.items ++ 1 ∷ to_be_bytes w64 (bits_of form number)) }
    ensures err { OnErr result (out.new.items ≡ out.old.items) }
{
    let mut bytes = [1; 9];
    BigEndian::write_u64(&mut bytes[1..], bits(form, number));
    out.extend_from_slice(&bytes)
}

/// The bits of a number in each form.
fn bits(form: Form, number: i64) -> u64
    ensures { result ≡ bits_of form number }
{
    let bits = number.cast_unsigned();
    match form {
        Form::Key => bits.wrapping_add(SIGN),
        Form::Row => bits,
    }
}

/// The number in front of bytes, and what follows it.
pub fn number_front(form: Form, bytes: &[u8]) -> Result<(i64, &[u8]), Unread>
    ensures { Gives (λ x. (x.0, x.1.now)) result (number_front form bytes.now) }
{
    if bytes.len() < 8 {
        return Err(Unread::Malformed);
    }
    let (front, rest) = bytes.split_at(8);
    let bits = u64::from_be_bytes([
        front[0], front[1], front[2], front[3], front[4], front[5], front[6], front[7],
    ]);
    Ok((number(form, bits), rest))
}

/// The number of these bits in each form.
fn number(form: Form, bits: u64) -> i64
    ensures { result ≡ number_of form bits }
{
    match form {
        Form::Key => bits.wrapping_add(SIGN).cast_signed(),
        Form::Row => bits.cast_signed(),
    }
}

/// The truth value in front of bytes, and what follows it.
pub fn bool_front(bytes: &[u8]) -> Result<(bool, &[u8]), Unread>
    ensures { Gives (λ x. (x.0, x.1.now)) result (bool_front bytes.now) }
{
    match bytes {
        [0, rest @ ..] => Ok((false, rest)),
        [1, rest @ ..] => Ok((true, rest)),
        _ => Err(Unread::Malformed),
    }
}
