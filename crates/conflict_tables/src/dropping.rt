//! Conflicts dropped from a table.

ghost use Rattle.std.specs.Prelude.{◌≡◌, ◌++◌, IfErr, IfOk, List, OnOk};
ghost use Rattle.tuple_codec.specs.Nodes.{Item};
ghost use Rattle.schema_model.specs.PlainTables.{PlainTable};
ghost use Rattle.chunk_store.specs.Clashes.{IsReason};
ghost use Rattle.chunk_store.specs.Drafts.{Grows, chunks_of};
ghost use Rattle.chunk_store.specs.Kinds.{is_node};
ghost use Rattle.chunk_store.specs.Standing.{IsTree};
ghost use Rattle.prolly_tree.specs.Lists.{StandsForRows};
ghost use Rattle.table_root.specs.Standing.{IsTableOf};
ghost use Rattle.conflict_tables.specs.Conflicts.{IsSomeTable, is_among, removal_if, removals, without_conflicts};

use crate::entries::copy_bytes;
use chunk_store::{Draft, PutFault, law_of_drafts, law_of_growth};
use plain_writes::copy_schema;
use prolly_edit::apply;
use prolly_tree::scan_from;
use std::alloc::{AllocError, Global};
use table_root::{StoredTable, law_of_tables};
use tuple_codec::{Address, Blob, Digester, Edit, Sequence};

fn is_among(keys: &[Blob], key: &[u8]) -> bool
    ensures { result ≡ is_among keys.now key.now }
{
    keys.iter().any(|other| other.as_slice() == key)
}

/// Adds the removal of a key, if it is one of these.
fn push_removal(
    alloc: Global,
    keys: &[Blob],
    key: &[u8],
    edits: &mut Vec<Edit>,
) -> Result<(), AllocError>
    ensures { OnOk result (edits.new.items ≡ edits.old.items ++ removal_if keys.now key.now) }
{
    if is_among(keys, key) {
        edits.push(Edit {
            key: copy_bytes(alloc, key)?,
            value: None,
        })?;
    }
    Ok(())
}

/// The edits that remove these keys from the tree at an address, of those that stand there: they rise as its keys do. It reads all leaves of the tree,
/// and compares each key with all that are given.
pub fn removals<D: Digester>(
    alloc: Global,
    draft: &Draft<D>,
    root: &Address,
    keys: &[Blob],
) -> Result<Vec<Edit>, AllocError>
    requires { StandsForRows D.address (chunks_of draft.now.chunks) root.now.0 }
    ensures { (rows : List Item) → IsTree D.address (chunks_of draft.now.chunks) root.now.0 rows
        → IfOk result (λ edits. edits.items ≡ removals keys.now rows) }
{
    let mut edits = Vec::new(alloc);
    let mut scan = scan_from(alloc, draft, root, &[])?;
    'items: while let Some((key, _)) = scan.next() {
        push_removal(alloc, keys, key, &mut edits)?;
    }
    Ok(edits)
}

/// The table without its conflicts at these keys. All else of it stays, and a key at which it has no conflict changes nothing.
pub fn drop_conflicts<D: Digester>(
    alloc: Global,
    draft: &mut Draft<D>,
    table: &StoredTable,
    keys: &[Blob],
) -> Result<StoredTable, PutFault>
    requires { IsSomeTable D.address (chunks_of draft.old.chunks) table.now }
    ensures stands { (contents : PlainTable) → IsTableOf D.address (chunks_of draft.old.chunks) table.now contents
        → IfOk result (λ made. IsTableOf D.address (chunks_of draft.new.chunks) made (without_conflicts keys.now contents)) }
    ensures grows { Grows is_node draft.old draft.new }
    ensures cause { IfErr result (IsReason D.address (chunks_of draft.new.chunks)) }
{
    law_of_drafts();
    law_of_growth();
    law_of_tables();
    let edits = removals(alloc, draft, &table.conflicts, keys)?;
    let conflicts = apply(alloc, draft, &table.conflicts, edits.as_slice())?;
    Ok(StoredTable {
        schema: copy_schema(alloc, &table.schema)?,
        rows: table.rows,
        indexes: copy_roots(alloc, table.indexes.as_slice())?,
        conflicts,
        violations: table.violations,
    })
}

/// The roots of a table's indexes once more, for another table that has the same.
pub fn copy_roots(alloc: Global, roots: &[Address]) -> Result<Sequence<Address>, AllocError>
    ensures { IfOk result (λ copy. copy ≡ roots.now) }
{
    Ok(Sequence::from_vec(Vec::from_slice(alloc, roots)?))
}
