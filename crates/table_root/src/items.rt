//! A row as an item of a tree: its key bytes, and the bytes of its other cells.

ghost use Rattle.std.specs.Prelude.{◌≡◌, true, IfOk, map};
ghost use Rattle.std.specs.List.{list_all};
ghost use Rattle.node_format.specs.Views.{leaf_of};
ghost use Rattle.tuple_codec.specs.KeyBytes.{key_bytes};
ghost use Rattle.tuple_codec.specs.Limits.{are_types};
ghost use Rattle.tuple_codec.specs.RowBytes.{row_bytes};
ghost use Rattle.tuple_codec.specs.Rows.{Cells, fits_all};
ghost use Rattle.schema_model.specs.PlainTables.{body_bytes, body_types, is_row, key_types, primary_key, row_item};
ghost use Rattle.schema_model.specs.Schemas.{is_schema};
ghost use Rattle.table_root.specs.Rows.{IsRowOf};

use crate::cells::joined;
use crate::types::{ItemTypes, is_keyed};
use node_format::LeafItem;
use schema_model::Schema;
use std::alloc::{AllocError, Global};
use tuple_codec::{
    Blob, Row, SqlType, Value, decode_key, decode_row, key_cell_size, keys_are_one_spelling,
    push_key_cell, push_row_cell, row_cell_size, rows_are_one_spelling,
};

/// The item that keeps a row: the bytes of its primary key, and those of its other cells.
pub fn row_item(alloc: Global, schema: &Schema, row: &[Value]) -> Result<LeafItem, AllocError>
    requires schema { is_schema schema.now ≡ true }
    requires row { is_row schema.now row.now ≡ true }
    ensures { IfOk result (λ item. leaf_of item ≡ row_item schema.now row.now) }
{
    let key = written_key(alloc, schema, row)?;
    let value = written_body(alloc, schema, row)?;
    Ok(LeafItem { key, value })
}

/// The items that keep rows, in the rows' order.
pub fn row_items(alloc: Global, schema: &Schema, rows: &[Row]) -> Result<Vec<LeafItem>, AllocError>
    requires schema { is_schema schema.now ≡ true }
    requires rows { list_all (is_row schema.now) rows.now ≡ true }
    ensures { IfOk result (λ items. map leaf_of items.items ≡ map (row_item schema.now) rows.now) }
{
    let mut items = Vec::with_capacity(alloc, rows.len())?;
    for row in rows {
        items.push(row_item(alloc, schema, row.as_slice())?)?;
    }
    Ok(items)
}

/// The bytes of a row's primary key, written from its cells where they lie.
fn written_key(alloc: Global, schema: &Schema, row: &[Value]) -> Result<Blob, AllocError>
    requires schema { is_schema schema.now ≡ true }
    requires row { is_row schema.now row.now ≡ true }
    ensures { IfOk result (λ bytes. bytes ≡ key_bytes (primary_key schema.now row.now)) }
{
    let key = schema.key.as_slice();
    let mut bytes = Vec::with_capacity(alloc, key_room(key, row))?;
    for position in key {
        push_key_cell(&mut bytes, &row[usize::from(*position)])?;
    }
    Ok(Blob::from_vec(bytes))
}

/// The bytes of a row's other cells, written where these lie.
fn written_body(alloc: Global, schema: &Schema, row: &[Value]) -> Result<Blob, AllocError>
    requires schema { is_schema schema.now ≡ true }
    requires row { is_row schema.now row.now ≡ true }
    ensures { IfOk result (λ bytes. bytes ≡ body_bytes schema.now row.now) }
{
    let key = schema.key.as_slice();
    let mut bytes = Vec::with_capacity(alloc, body_room(key, row))?;
    for (position, cell) in row.iter().enumerate() {
        if !is_keyed(key, position) {
            push_row_cell(&mut bytes, cell)?;
        }
    }
    Ok(Blob::from_vec(bytes))
}

/// How many bytes to set aside for a row's key, so that it is written into memory that was asked for once.
fn key_room(key: &[u8], row: &[Value]) -> usize {
    let mut size = 0u64;
    for position in key {
        if let Some(cell) = row.get(usize::from(*position)) {
            size = size.saturating_add(key_cell_size(cell));
        }
    }
    size as usize
}

/// How many bytes to set aside for the other cells.
fn body_room(key: &[u8], row: &[Value]) -> usize {
    let mut size = 0u64;
    for (position, cell) in row.iter().enumerate() {
        if !is_keyed(key, position) {
            size = size.saturating_add(row_cell_size(cell));
        }
    }
    size as usize
}

/// The row that an item's key and value keep.
pub fn row_of(alloc: Global, schema: &Schema, key: &[u8], value: &[u8]) -> Result<Row, AllocError>
    requires schema { is_schema schema.now ≡ true }
    requires row { (row : Cells) × IsRowOf schema.now key.now value.now row }
    ensures { (row : Cells) → IsRowOf schema.now key.now value.now row → IfOk result (λ read. read ≡ row) }
{
    let types = ItemTypes::new(alloc, schema)?;
    read_row(alloc, schema, &types, key, value)
}

/// The row that an item's key and value keep, by types that were found before.
pub(crate) fn read_row(
    alloc: Global,
    schema: &Schema,
    types: &ItemTypes,
    key: &[u8],
    value: &[u8],
) -> Result<Row, AllocError>
    requires schema { is_schema schema.now ≡ true }
    requires key_types { types.now.key.items ≡ key_types schema.now }
    requires body_types { types.now.body.items ≡ body_types schema.now }
    requires row { (row : Cells) × IsRowOf schema.now key.now value.now row }
    ensures { (row : Cells) → IsRowOf schema.now key.now value.now row → IfOk result (λ read. read ≡ row) }
{
    let cells = read_key(alloc, types.key.as_slice(), key)?;
    let others = read_body(alloc, types.body.as_slice(), value)?;
    joined(
        alloc,
        schema.key.as_slice(),
        schema.columns.as_slice().len(),
        cells.as_slice(),
        others,
    )
}

fn read_key(alloc: Global, types: &[SqlType], bytes: &[u8]) -> Result<Row, AllocError>
    requires types { are_types types.now ≡ true }
    requires cells { (cells : Cells) × (fits_all types.now cells ≡ true) × (key_bytes cells ≡ bytes.now) }
    ensures { (cells : Cells) → fits_all types.now cells ≡ true → key_bytes cells ≡ bytes.now → IfOk result (λ read. read ≡ cells) }
{
    keys_are_one_spelling();
    match decode_key(alloc, types, bytes)? {
        Some(cells) => Ok(cells),
        None => unreachable!(),
    }
}

fn read_body(alloc: Global, types: &[SqlType], bytes: &[u8]) -> Result<Row, AllocError>
    requires types { are_types types.now ≡ true }
    requires cells { (cells : Cells) × (fits_all types.now cells ≡ true) × (row_bytes cells ≡ bytes.now) }
    ensures { (cells : Cells) → fits_all types.now cells ≡ true → row_bytes cells ≡ bytes.now → IfOk result (λ read. read ≡ cells) }
{
    rows_are_one_spelling();
    match decode_row(alloc, types, bytes)? {
        Some(cells) => Ok(cells),
        None => unreachable!(),
    }
}
