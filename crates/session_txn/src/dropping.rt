//! Recorded violations dropped from a table, as conflicts are.

ghost use Rattle.std.specs.Prelude.{IfErr, IfOk};
ghost use Rattle.schema_model.specs.PlainTables.{PlainTable};
ghost use Rattle.chunk_store.specs.Clashes.{IsReason};
ghost use Rattle.chunk_store.specs.Drafts.{Grows, chunks_of};
ghost use Rattle.chunk_store.specs.Kinds.{is_node};
ghost use Rattle.table_root.specs.Standing.{IsTableOf};
ghost use Rattle.conflict_tables.specs.Conflicts.{IsSomeTable};
ghost use Rattle.session_txn.specs.Deleting.{without_entries, without_violations};

use chunk_store::{Draft, PutFault, law_of_drafts, law_of_growth};
use conflict_tables::{copy_roots, drop_conflicts, removals};
use plain_writes::copy_schema;
use prolly_edit::apply;
use std::alloc::Global;
use system_tables::Listed;
use table_root::{StoredTable, law_of_tables};
use tuple_codec::{Blob, Digester};

/// The table without its violations at these keys. All else of it stays, and a key at which it has none changes nothing.
fn drop_violations<D: Digester>(
    alloc: Global,
    draft: &mut Draft<D>,
    table: &StoredTable,
    keys: &[Blob],
) -> Result<StoredTable, PutFault>
    requires { IsSomeTable D.address (chunks_of draft.old.chunks) table.now }
    ensures stands { (contents : PlainTable) → IsTableOf D.address (chunks_of draft.old.chunks) table.now contents
        → IfOk result (λ made. IsTableOf D.address (chunks_of draft.new.chunks) made (without_violations keys.now contents)) }
    ensures grows { Grows is_node draft.old draft.new }
    ensures cause { IfErr result (IsReason D.address (chunks_of draft.new.chunks)) }
{
    law_of_drafts();
    law_of_growth();
    law_of_tables();
    let edits = removals(alloc, draft, &table.violations, keys)?;
    let violations = apply(alloc, draft, &table.violations, edits.as_slice())?;
    Ok(StoredTable {
        schema: copy_schema(alloc, &table.schema)?,
        rows: table.rows,
        indexes: copy_roots(alloc, table.indexes.as_slice())?,
        conflicts: table.conflicts,
        violations,
    })
}

/// The table without the entries of these keys in such a list.
pub(crate) fn drop_entries<D: Digester>(
    alloc: Global,
    draft: &mut Draft<D>,
    which: Listed,
    table: &StoredTable,
    keys: &[Blob],
) -> Result<StoredTable, PutFault>
    requires { IsSomeTable D.address (chunks_of draft.old.chunks) table.now }
    ensures stands { (contents : PlainTable) → IsTableOf D.address (chunks_of draft.old.chunks) table.now contents
        → IfOk result (λ made. IsTableOf D.address (chunks_of draft.new.chunks) made (without_entries which keys.now contents)) }
    ensures grows { Grows is_node draft.old draft.new }
    ensures cause { IfErr result (IsReason D.address (chunks_of draft.new.chunks)) }
{
    match which {
        Listed::Conflicts => drop_conflicts(alloc, draft, table, keys),
        Listed::Violations => drop_violations(alloc, draft, table, keys),
    }
}
