//! Written forms while they are put together.

ghost use Rattle.std.specs.Prelude.{◌≡◌, ◌<◌, ◌++◌, length, OnOk};
ghost use Rattle.tuple_codec.specs.Fields.{short};
ghost use Rattle.tuple_codec.specs.RowBytes.{length_prefixed};

use crate::fields::push_two;
use smallvec::SmallVec;
use std::alloc::AllocError;

/// The bytes of a written form while it is put together. A short form needs no memory of its own.
pub type FormBytes = SmallVec<u8, 256>;

/// Writes a length in one byte, and the bytes.
pub fn push_short(out: &mut FormBytes, bytes: &[u8]) -> Result<(), AllocError>
    requires { length bytes.now < 256 }
    ensures { OnOk result (out.new.items ≡ out.old.items ++ short bytes.now) }
{
    out.push(bytes.len() as u8)?;
    out.extend_from_slice(bytes)
}

/// Writes a length in two bytes, the higher one first, and the bytes.
pub(crate) fn push_long(out: &mut FormBytes, bytes: &[u8]) -> Result<(), AllocError>
    requires { length bytes.now < 65536 }
    ensures { OnOk result (out.new.items ≡ out.old.items ++ length_prefixed bytes.now) }
{
    push_two(out, bytes.len() as u16)?;
    out.extend_from_slice(bytes)
}
