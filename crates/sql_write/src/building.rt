//! A table made of a schema and rows.

ghost use Rattle.std.specs.Prelude.{IfErr, IfOk};
ghost use Rattle.chunk_store.specs.Clashes.{IsReason};
ghost use Rattle.chunk_store.specs.Drafts.{Grows, chunks_of};
ghost use Rattle.chunk_store.specs.Kinds.{is_node};
ghost use Rattle.table_root.specs.Standing.{IsTableOf};
ghost use Rattle.index_keep.specs.Keeping.{table_of_rows};
ghost use Rattle.sql_write.specs.Building.{CanBuild};

use crate::laws::laws_of_growth;
use chunk_store::{Draft, PutFault};
use index_keep::indexes_of;
use node_chunker::build;
use schema_model::Schema;
use std::alloc::Global;
use table_root::{StoredTable, law_of_row_items, row_items};
use tuple_codec::{Digester, Row, Sequence};

/// Builds the trees of a new table: of its rows, of each index, and two empty ones for conflicts and violations.
pub(crate) fn new_table<D: Digester>(
    alloc: Global,
    draft: &mut Draft<D>,
    schema: Schema,
    rows: &[Row],
) -> Result<StoredTable, PutFault>
    requires { CanBuild schema rows.now }
    ensures stands { IfOk result (λ table. IsTableOf D.address (chunks_of draft.new.chunks) table (table_of_rows schema rows.now)) }
    ensures grows { Grows is_node draft.old draft.new }
    ensures cause { IfErr result (IsReason D.address (chunks_of draft.new.chunks)) }
{
    laws_of_growth();
    law_of_row_items();
    let items = row_items(alloc, &schema, rows)?;
    let root = build(alloc, draft, items.as_slice())?;
    let none = build(alloc, draft, &[])?;
    let indexes = indexes_of(alloc, draft, &schema, &root)?;
    Ok(StoredTable {
        schema,
        rows: root,
        indexes: Sequence::from_vec(indexes),
        conflicts: none,
        violations: none,
    })
}
