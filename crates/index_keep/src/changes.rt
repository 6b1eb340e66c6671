//! What edits make of a table's rows, row by row.

ghost use Rattle.std.specs.Prelude.{◌≡◌, true, List, [], map, IfOk, None, Some};
ghost use Rattle.std.specs.Option.{option_map};
ghost use Rattle.tuple_codec.specs.Rows.{Cells};
ghost use Rattle.schema_model.specs.Schemas.{is_schema};
ghost use Rattle.chunk_store.specs.Drafts.{chunks_of};
ghost use Rattle.index_keep.specs.Entries.{changes_at, found, keys_of, row_change, row_key};
ghost use Rattle.index_keep.specs.Steps.{IsRowEdit, IsRowsEdit, IsValueAt};

use chunk_store::Draft;
use prolly_tree::get;
use schema_model::Schema;
use std::alloc::{AllocError, Global};
use table_root::row_of;
use tuple_codec::{Address, Digester, Edit, Row, Sequence};

/// What stood under a key of rows, and what stands there then.
#[derive(Drop)]
pub struct RowChange {
    /// The row that stood there, if one did.
    pub old: Option<Row>,
    /// The row that comes there, if one does.
    pub new: Option<Row>,
}

/// What becomes of the rows under the edits' keys. Nothing is read but the old rows there.
pub(crate) fn row_changes<D: Digester>(
    alloc: Global,
    draft: &Draft<D>,
    schema: &Schema,
    root: &Address,
    edits: &[Edit],
) -> Result<Vec<RowChange>, AllocError>
    requires schema { is_schema schema.now ≡ true }
    requires edits { (rows : List Cells) × (others : List Cells) × IsRowsEdit D.address (chunks_of draft.now.chunks) root.now.0 schema.now edits.now rows others }
    ensures { (rows others : List Cells) → IsRowsEdit D.address (chunks_of draft.now.chunks) root.now.0 schema.now edits.now rows others
        → IfOk result (λ changes. changes.items ≡ changes_at schema.now rows others (keys_of edits.now)) }
{
    let mut changes = Vec::new(alloc);
    for edit in edits {
        changes.push(row_change(alloc, draft, schema, root, edit)?)?;
    }
    Ok(changes)
}

/// What becomes of the row under an edit's key.
fn row_change<D: Digester>(
    alloc: Global,
    draft: &Draft<D>,
    schema: &Schema,
    root: &Address,
    edit: &Edit,
) -> Result<RowChange, AllocError>
    requires schema { is_schema schema.now ≡ true }
    requires edit { (rows : List Cells) × (others : List Cells) × IsRowEdit D.address (chunks_of draft.now.chunks) root.now.0 schema.now edit.now rows others }
    ensures { (rows others : List Cells) → IsRowEdit D.address (chunks_of draft.now.chunks) root.now.0 schema.now edit.now rows others
        → IfOk result (λ change. change ≡ row_change (found (row_key schema.now) edit.now.key rows) (found (row_key schema.now) edit.now.key others)) }
{
    let key = edit.key.as_slice();
    let value = edit.value.as_ref().map(Sequence::as_slice);
    let old = row_at(alloc, schema, key, get(draft, root, key))?;
    let new = row_at(alloc, schema, key, value)?;
    Ok(RowChange { old, new })
}

/// The row that has this key and this value, if there is a value.
fn row_at(
    alloc: Global,
    schema: &Schema,
    key: &[u8],
    value: Option<&[u8]>,
) -> Result<Option<Row>, AllocError>
    requires schema { is_schema schema.now ≡ true }
    requires row { (rows : List Cells) × IsValueAt schema.now rows key.now (option_map (λ bytes. bytes.now) value) }
    ensures { (rows : List Cells) → IsValueAt schema.now rows key.now (option_map (λ bytes. bytes.now) value.entry)
        → IfOk result (λ row. row ≡ found (row_key schema.now) key.now rows) }
{
    match value {
        None => Ok(None),
        Some(value) => Ok(Some(row_of(alloc, schema, key, value)?)),
    }
}

/// Rows that come where there were none.
pub(crate) fn new_rows(alloc: Global, rows: Sequence<Row>) -> Result<Vec<RowChange>, AllocError>
    ensures { IfOk result (λ changes. changes.items ≡ map (λ row. row_change None (Some row)) rows) }
{
    let mut changes = Vec::new(alloc);
    for row in rows.into_vec() {
        changes.push(RowChange {
            old: None,
            new: Some(row),
        })?;
    }
    Ok(changes)
}
