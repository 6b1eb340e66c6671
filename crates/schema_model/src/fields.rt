//! Small fields at the front of bytes, each with the bytes after it.

ghost use Rattle.std.specs.Prelude.{◌≡◌, ◌++◌, OnOk};
ghost use Rattle.tuple_codec.specs.Fronts.{Gives};
ghost use Rattle.schema_model.specs.SchemaBytes.{two_bytes};
ghost use Rattle.schema_model.specs.Reading.{address_at, bool_of, byte_at, flags_of, two_at};

use crate::forms::FormBytes;
use std::alloc::AllocError;
use tuple_codec::{Address, Unread};

/// A number in two bytes.
pub(crate) fn two_at(bytes: &[u8]) -> Result<(u16, &[u8]), Unread>
    ensures { Gives (λ x. (x.0, x.1.now)) result (two_at bytes.now) }
{
    match bytes {
        [high, low, rest @ ..] => Ok((u16::from_be_bytes([*high, *low]), rest)),
        _ => Err(Unread::Malformed),
    }
}

pub(crate) fn bool_at(bytes: &[u8]) -> Result<(bool, &[u8]), Unread>
    ensures { Gives (λ x. (x.0, x.1.now)) result (byte_at bool_of bytes.now) }
{
    match bytes {
        [0, rest @ ..] => Ok((false, rest)),
        [1, rest @ ..] => Ok((true, rest)),
        _ => Err(Unread::Malformed),
    }
}

/// Whether not null, and whether with a default.
pub(crate) fn flags_at(bytes: &[u8]) -> Result<((bool, bool), &[u8]), Unread>
    ensures { Gives (λ x. (x.0, x.1.now)) result (byte_at flags_of bytes.now) }
{
    match bytes {
        [0, rest @ ..] => Ok(((false, false), rest)),
        [1, rest @ ..] => Ok(((true, false), rest)),
        [2, rest @ ..] => Ok(((false, true), rest)),
        [3, rest @ ..] => Ok(((true, true), rest)),
        _ => Err(Unread::Malformed),
    }
}

/// An address, which has 20 bytes.
pub fn address_at(bytes: &[u8]) -> Result<(Address, &[u8]), Unread>
    ensures { Gives (λ x. (x.0, x.1.now)) result (address_at bytes.now) }
{
    if bytes.len() < 20 {
        return Err(Unread::Malformed);
    }
    let (front, rest) = bytes.split_at(20);
    Ok((Address::from_slice(front), rest))
}

/// Writes a number in two bytes.
pub(crate) fn push_two(out: &mut FormBytes, number: u16) -> Result<(), AllocError>
    ensures { OnOk result (out.new.items ≡ out.old.items ++ two_bytes number) }
{
    out.extend_from_slice(&[(number / 256) as u8, (number % 256) as u8])
}
