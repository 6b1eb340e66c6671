//! A table whose rows are edited.

ghost use Rattle.std.specs.Prelude.{◌≡◌, List, [], IfOk, IfErr};
ghost use Rattle.tuple_codec.specs.Rows.{Cells};
ghost use Rattle.schema_model.specs.PlainTables.{PlainTable};
ghost use Rattle.chunk_store.specs.Clashes.{IsReason};
ghost use Rattle.chunk_store.specs.Drafts.{Grows, chunks_of};
ghost use Rattle.chunk_store.specs.Kinds.{is_node};
ghost use Rattle.table_root.specs.Standing.{IsTableOf};
ghost use Rattle.index_keep.specs.Keeping.{CanEditTable, with_rows};

use crate::changes::row_changes;
use crate::indexes::edit_indexes;
use chunk_store::{Draft, PutFault};
use prolly_edit::apply;
use std::alloc::Global;
use table_root::{StoredTable, law_of_row_items};
use tuple_codec::{Digester, Edit};

/// Edits a table's rows and, with them, the list of each of its indexes. All else of the table stays.
///
/// An edit's key is the bytes of a primary key, and its value those of the row's other cells. Of the rows nothing is read but those
/// under the edits' keys, and none where the table has no index.
pub fn apply_with_indexes<D: Digester>(
    alloc: Global,
    draft: &mut Draft<D>,
    table: StoredTable,
    edits: &[Edit],
) -> Result<StoredTable, PutFault>
    requires { (contents : PlainTable) × (rows : List Cells) × CanEditTable D.address (chunks_of draft.old.chunks) table edits.now contents rows }
    ensures ok { (contents : PlainTable) (rows : List Cells) → CanEditTable D.address (chunks_of draft.old.chunks) table edits.now contents rows
        → IfOk result (λ made. IsTableOf D.address (chunks_of draft.new.chunks) made (with_rows contents rows)) }
    ensures grows { Grows is_node draft.old draft.new }
    ensures cause { IfErr result (IsReason D.address (chunks_of draft.new.chunks)) }
{
    if table.indexes.as_slice().is_empty() {
        return apply_to_rows(alloc, draft, table, edits);
    }
    law_of_row_items();
    let changes = row_changes(alloc, draft, &table.schema, &table.rows, edits)?;
    let rows = apply(alloc, draft, &table.rows, edits)?;
    let indexes = edit_indexes(
        alloc,
        draft,
        &table.schema,
        table.indexes.as_slice(),
        changes.as_slice(),
    )?;
    Ok(StoredTable {
        rows,
        indexes,
        ..table
    })
}

/// Edits the rows of a table that has no index. None of them is looked up or decoded.
fn apply_to_rows<D: Digester>(
    alloc: Global,
    draft: &mut Draft<D>,
    table: StoredTable,
    edits: &[Edit],
) -> Result<StoredTable, PutFault>
    requires none { table.indexes ≡ [] }
    requires can { (contents : PlainTable) × (rows : List Cells) × CanEditTable D.address (chunks_of draft.old.chunks) table edits.now contents rows }
    ensures ok { (contents : PlainTable) (rows : List Cells) → CanEditTable D.address (chunks_of draft.old.chunks) table edits.now contents rows
        → IfOk result (λ made. IsTableOf D.address (chunks_of draft.new.chunks) made (with_rows contents rows)) }
    ensures grows { Grows is_node draft.old draft.new }
    ensures cause { IfErr result (IsReason D.address (chunks_of draft.new.chunks)) }
{
    law_of_row_items();
    let rows = apply(alloc, draft, &table.rows, edits)?;
    Ok(StoredTable { rows, ..table })
}
