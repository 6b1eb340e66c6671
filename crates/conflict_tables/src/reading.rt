//! A table's conflicts, and the edits that make their rows theirs.

ghost use Rattle.std.specs.Prelude.{◌≡◌, IfOk, map};
ghost use Rattle.schema_model.specs.PlainTables.{PlainTable};
ghost use Rattle.chunk_store.specs.Drafts.{chunks_of};
ghost use Rattle.table_root.specs.Standing.{IsTableOf};
ghost use Rattle.conflict_tables.specs.Conflicts.{IsSomeTable, edit_of, theirs_edits, written_conflicts};

use crate::entries::{ConflictEntry, read_entry};
use chunk_store::Draft;
use prolly_tree::scan_from;
use std::alloc::{AllocError, Global};
use table_root::StoredTable;
use tuple_codec::{Digester, Edit, Sequence};

/// The table's conflicts, by rising key.
pub fn conflicts<D: Digester>(
    alloc: Global,
    draft: &Draft<D>,
    table: &StoredTable,
) -> Result<Sequence<ConflictEntry>, AllocError>
    requires { IsSomeTable D.address (chunks_of draft.now.chunks) table.now }
    ensures { (contents : PlainTable) → IsTableOf D.address (chunks_of draft.now.chunks) table.now contents
        → IfOk result (λ list. list ≡ written_conflicts contents) }
{
    let mut list = Sequence::new(alloc);
    let mut scan = scan_from(alloc, draft, &table.conflicts, &[])?;
    'items: while let Some((key, value)) = scan.next() {
        list.push(read_entry(alloc, key, value)?)?;
    }
    Ok(list)
}

fn edits_of(alloc: Global, list: Vec<ConflictEntry>) -> Result<Sequence<Edit>, AllocError>
    ensures { IfOk result (λ edits. edits ≡ map edit_of list.items) }
{
    let mut edits = Sequence::new(alloc);
    for entry in list {
        edits.push(Edit {
            key: entry.key,
            value: entry.theirs,
        })?;
    }
    Ok(edits)
}

/// For each conflict of the table, by rising key, the edit of the table's rows that makes the row there theirs.
pub fn theirs_edits<D: Digester>(
    alloc: Global,
    draft: &Draft<D>,
    table: &StoredTable,
) -> Result<Sequence<Edit>, AllocError>
    requires { IsSomeTable D.address (chunks_of draft.now.chunks) table.now }
    ensures { (contents : PlainTable) → IsTableOf D.address (chunks_of draft.now.chunks) table.now contents
        → IfOk result (λ edits. edits ≡ theirs_edits contents) }
{
    let list = conflicts(alloc, draft, table)?;
    edits_of(alloc, list.into_vec())
}
