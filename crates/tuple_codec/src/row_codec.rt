//! The cells of a row that aren't in its key as bytes, and the law that these are one row's alone.

ghost use Rattle.std.specs.Prelude.{◌≡◌, ◌++◌, length, take, true, IfOk, OnOk, OnErr};
ghost use Rattle.tuple_codec.specs.Cells.{is_spelled};
ghost use Rattle.tuple_codec.specs.Rows.{fits_all};
ghost use Rattle.tuple_codec.specs.Limits.{are_types};
ghost use Rattle.tuple_codec.specs.RowBytes.{row_bytes, row_cell};
ghost use Rattle.tuple_codec.specs.Spellings.{Decodes, IsOneSpelling};

use crate::cells::{decode, encode, push_cell};
use crate::forms::Form;
use crate::unread::Unread;
use crate::values::{Blob, Row, SqlType, Value};
use std::alloc::{AllocError, Global};

/// The bytes of a row's cells that aren't in its key.
pub fn encode_row(alloc: Global, types: &[SqlType], row: &Row) -> Result<Blob, AllocError>
    requires types { are_types types.now ≡ true }
    requires fit { fits_all types.now row.now ≡ true }
    ensures { IfOk result (λ blob. blob ≡ row_bytes row.now) }
{
    encode(alloc, Form::Row, row)
}

/// Writes a row's next cell: the bytes of a row are those of its cells in order. Where memory is wanting, a part of the cell may
/// stand behind what was there.
pub fn push_row_cell(out: &mut Vec<u8>, cell: &Value) -> Result<(), AllocError>
    requires cell { is_spelled Form.Row cell.now ≡ true }
    ensures ok { OnOk result (out.new.items ≡ out.old.items ++ row_cell cell.now) }
    ensures err { OnErr result (take (length out.old.items) out.new.items ≡ out.old.items) }
{
    push_cell(out, Form::Row, cell)
}

/// The row that has these bytes, or None where no row of these types has them.
pub fn decode_row(alloc: Global, types: &[SqlType], bytes: &[u8]) -> Result<Option<Row>, AllocError>
    ensures { IfOk result (λ row. Decodes row_bytes types.now bytes.now row) }
{
    match decode(alloc, Form::Row, types, bytes) {
        Ok(row) => Ok(Some(row)),
        Err(Unread::Malformed) => Ok(None),
        Err(Unread::Memory) => Err(AllocError),
    }
}

/// Two rows of the same types with the same bytes are one, so decoding inverts encoding.
pub fn rows_are_one_spelling()
    ensures { IsOneSpelling row_bytes }
{}
