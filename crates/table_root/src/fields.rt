//! Small fields at the front of bytes, each with the bytes after it, and how they are written.

ghost use Rattle.std.specs.Prelude.{◌≡◌, ◌++◌, true, OnOk};
ghost use Rattle.tuple_codec.specs.Fronts.{Gives};
ghost use Rattle.table_root.specs.Reading.{after_kind, four_at, two_at};
ghost use Rattle.table_root.specs.Tables.{is_address};

use schema_model::FormBytes;
use std::alloc::AllocError;
use tuple_codec::{Address, Unread};

/// The bytes after the one that tells what kind of chunk it is.
pub(crate) fn after_kind(kind: u8, bytes: &[u8]) -> Result<&[u8], Unread>
    ensures { Gives (λ rest. rest.now) result (after_kind kind bytes.now) }
{
    match bytes {
        [first, rest @ ..] => {
            if *first == kind {
                Ok(rest)
            } else {
                Err(Unread::Malformed)
            }
        }
        [] => Err(Unread::Malformed),
    }
}

/// A number in two bytes.
pub(crate) fn two_at(bytes: &[u8]) -> Result<(u16, &[u8]), Unread>
    ensures { Gives (λ x. (x.0, x.1.now)) result (two_at bytes.now) }
{
    if bytes.len() < 2 {
        return Err(Unread::Malformed);
    }
    let (front, rest) = bytes.split_at(2);
    Ok((u16::from_be_bytes([front[0], front[1]]), rest))
}

/// A number in four bytes.
pub(crate) fn four_at(bytes: &[u8]) -> Result<(u32, &[u8]), Unread>
    ensures { Gives (λ x. (x.0, x.1.now)) result (four_at bytes.now) }
{
    if bytes.len() < 4 {
        return Err(Unread::Malformed);
    }
    let (front, rest) = bytes.split_at(4);
    let number = u32::from_be_bytes([front[0], front[1], front[2], front[3]]);
    Ok((number, rest))
}

/// Writes an address, which has 20 bytes.
pub(crate) fn push_address(out: &mut FormBytes, address: &Address) -> Result<(), AllocError>
    ensures bytes { OnOk result (out.new.items ≡ out.old.items ++ address.now.0) }
    ensures whole { is_address address.now ≡ true }
{
    let address = *address;
    out.extend_from_slice(&address.0)
}
