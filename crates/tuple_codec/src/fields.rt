//! Fields at the front of bytes, each with the bytes after it, and how they are written.

ghost use Rattle.std.specs.Prelude.{◌≡◌, ◌<◌, ◌++◌, length, take, OnOk, OnErr};
ghost use Rattle.tuple_codec.specs.Fields.{bytes_at, short_at};
ghost use Rattle.tuple_codec.specs.Fronts.{Gives, length_prefixed_at};
ghost use Rattle.tuple_codec.specs.RowBytes.{length_prefixed};

use crate::unread::Unread;
use byteorder::{BigEndian, ByteOrder};
use std::alloc::AllocError;

/// So many bytes.
pub fn bytes_at(count: usize, bytes: &[u8]) -> Result<(&[u8], &[u8]), Unread>
    ensures { Gives (λ x. (x.0.now, x.1.now)) result (bytes_at count bytes.now) }
{
    if bytes.len() < count {
        return Err(Unread::Malformed);
    }
    Ok(bytes.split_at(count))
}

/// A length in one byte, and that many bytes.
pub fn short_at(bytes: &[u8]) -> Result<(&[u8], &[u8]), Unread>
    ensures { Gives (λ x. (x.0.now, x.1.now)) result (short_at bytes.now) }
{
    match bytes {
        [size, rest @ ..] => bytes_at(usize::from(*size), rest),
        [] => Err(Unread::Malformed),
    }
}

/// A length in two bytes, the higher one first, and that many bytes.
pub fn long_at(bytes: &[u8]) -> Result<(&[u8], &[u8]), Unread>
    ensures { Gives (λ x. (x.0.now, x.1.now)) result (length_prefixed_at bytes.now) }
{
    match bytes {
        [high, low, rest @ ..] => bytes_at(usize::from(u16::from_be_bytes([*high, *low])), rest),
        _ => Err(Unread::Malformed),
    }
}

/// Writes a length in two bytes, the higher one first, and the bytes. Where memory is wanting, a part may stand behind what was there.
pub fn push_long(out: &mut Vec<u8>, bytes: &[u8]) -> Result<(), AllocError>
    requires { length bytes.now < 65536 }
    ensures ok { OnOk result (out.new.items ≡ out.old.items ++ length_prefixed bytes.now) }
    ensures err { OnErr result (take (length out.old.items) out.new.items ≡ out.old.items) }
{
    let mut size = [0; 2];
    BigEndian::write_u16(&mut size, bytes.len() as u16);
    out.extend_from_slice(&size)?;
    out.extend_from_slice(bytes)
}
