//! Keys as bytes, and the laws that these keep the order of keys and are one key's alone.

ghost use Rattle.std.specs.Prelude.{◌≡◌, ◌++◌, length, take, true, IfOk, OnOk, OnErr};
ghost use Rattle.tuple_codec.specs.Rows.{fits_all};
ghost use Rattle.tuple_codec.specs.Limits.{are_types};
ghost use Rattle.tuple_codec.specs.KeyBytes.{key_bytes, key_cell};
ghost use Rattle.tuple_codec.specs.Spellings.{Decodes, IsOneSpelling, KeepsOrder, KeepsOrderBefore};

use crate::cells::{decode, encode, push_cell};
use crate::forms::Form;
use crate::unread::Unread;
use crate::values::{Blob, Row, SqlType, Value};
use std::alloc::{AllocError, Global};

/// The bytes of a key, which are ordered as keys are.
pub fn encode_key(alloc: Global, types: &[SqlType], row: &Row) -> Result<Blob, AllocError>
    requires types { are_types types.now ≡ true }
    requires fit { fits_all types.now row.now ≡ true }
    ensures { IfOk result (λ blob. blob ≡ key_bytes row.now) }
{
    encode(alloc, Form::Key, row)
}

/// Writes a key's next cell: the bytes of a key are those of its cells in order. Where memory is wanting, a part of the cell may
/// stand behind what was there.
pub fn push_key_cell(out: &mut Vec<u8>, cell: &Value) -> Result<(), AllocError>
    ensures ok { OnOk result (out.new.items ≡ out.old.items ++ key_cell cell.now) }
    ensures err { OnErr result (take (length out.old.items) out.new.items ≡ out.old.items) }
{
    push_cell(out, Form::Key, cell)
}

/// The key that has these bytes, or None where no row of these types has them.
pub fn decode_key(alloc: Global, types: &[SqlType], bytes: &[u8]) -> Result<Option<Row>, AllocError>
    ensures { IfOk result (λ row. Decodes key_bytes types.now bytes.now row) }
{
    match decode(alloc, Form::Key, types, bytes) {
        Ok(row) => Ok(Some(row)),
        Err(Unread::Malformed) => Ok(None),
        Err(Unread::Memory) => Err(AllocError),
    }
}

/// Bytes of keys of the same types are ordered as the keys are; where more bytes follow, these decide between equal keys.
pub fn keys_keep_order()
    ensures whole { KeepsOrder }
    ensures before { KeepsOrderBefore }
{}

/// Two keys of the same types with the same bytes are one, so decoding inverts encoding.
pub fn keys_are_one_spelling()
    ensures { IsOneSpelling key_bytes }
{}
