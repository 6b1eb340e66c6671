//! A merged table of ours' schema, whose rows and indexes are ours' with what changed.

ghost use Rattle.std.specs.Prelude.{◌≡◌, true, List, Option, IfErr, IfOk};
ghost use Rattle.std.specs.List.{list_all};
ghost use Rattle.tuple_codec.specs.Edits.{changed};
ghost use Rattle.tuple_codec.specs.Rows.{Cells};
ghost use Rattle.schema_model.specs.Limits.{is_row_within_limits, is_table_within_limits};
ghost use Rattle.schema_model.specs.PlainTables.{PlainTable, row_items};
ghost use Rattle.schema_model.specs.Schemas.{is_schema};
ghost use Rattle.chunk_store.specs.Clashes.{IsReason};
ghost use Rattle.chunk_store.specs.Drafts.{Grows, chunks_of};
ghost use Rattle.chunk_store.specs.Kinds.{is_data, is_node};
ghost use Rattle.tuple_codec.specs.ByKey.{as_edits};
ghost use Rattle.table_root.specs.Standing.{IsTableOf};
ghost use Rattle.table_merge.specs.Merging.{IsMergeReason};
ghost use Rattle.root_merge.specs.Changing.{AreBrought, CanKeep, HasChanges, HasEdits, IsBroughtRow, is_short_perhaps};
ghost use Rattle.root_merge.specs.Merging.{IsBecome, IsLimitFault, of_table};

use crate::laws::laws_of_growth;
use crate::tables::{Became, conflicts_in, keep_table};
use chunk_store::{Draft, PutFault};
use index_keep::apply_with_indexes;
use pair_walk::{ReadCount, changes};
use plain_writes::is_large;
use schema_model::Schema;
use std::alloc::{AllocError, Global};
use table_merge::MergeFault;
use table_root::{StoredTable, law_of_row_items, row_of};
use tuple_codec::{Digester, Edit, ItemChange};

/// Whether the row that a change brings keeps the limits, if it brings one.
fn is_short(alloc: Global, schema: &Schema, change: &ItemChange) -> Result<bool, AllocError>
    requires schema { is_schema schema.now ≡ true }
    requires row { (row : Option Cells) × IsBroughtRow schema.now change.now row }
    ensures { (row : Option Cells) → IsBroughtRow schema.now change.now row → IfOk result (λ short. short ≡ is_short_perhaps schema.now row) }
{
    match change.new.as_ref() {
        None => Ok(true),
        Some(value) => {
            let row = row_of(alloc, schema, change.key.as_slice(), value.as_slice())?;
            Ok(!is_large(schema, row.as_slice()))
        }
    }
}

/// The same of all of these changes.
fn are_short(alloc: Global, schema: &Schema, changes: &[ItemChange]) -> Result<bool, AllocError>
    requires schema { is_schema schema.now ≡ true }
    requires rows { (rows : List (Option Cells)) × AreBrought schema.now changes.now rows }
    ensures { (rows : List (Option Cells)) → AreBrought schema.now changes.now rows → IfOk result (λ short. short ≡ list_all (is_short_perhaps schema.now) rows) }
{
    for change in changes {
        if !is_short(alloc, schema, change)? {
            return Ok(false);
        }
    }
    Ok(true)
}

/// The changes as edits of the old rows.
fn edits_of(alloc: Global, changes: Vec<ItemChange>) -> Result<Vec<Edit>, AllocError>
    ensures { IfOk result (λ edits. edits.items ≡ as_edits changes.items) }
{
    let mut edits = Vec::new(alloc);
    for change in changes {
        edits.push(Edit {
            key: change.key,
            value: change.new,
        })?;
    }
    Ok(edits)
}

/// What changed from ours' rows to the merged ones. Nodes that both have are not read.
fn changes_between<D: Digester>(
    alloc: Global,
    draft: &Draft<D>,
    ours: &StoredTable,
    merged: &StoredTable,
) -> Result<Vec<ItemChange>, AllocError>
    requires { (before : PlainTable) × (contents : PlainTable) × CanKeep D.address (chunks_of draft.now.chunks) ours.now merged.now before contents }
    ensures { (before contents : PlainTable) → CanKeep D.address (chunks_of draft.now.chunks) ours.now merged.now before contents
        → IfOk result (λ list. list.items ≡ changed (row_items before) (row_items contents)) }
{
    let mut reads = ReadCount::new();
    changes(alloc, draft, &ours.rows, &merged.rows, &mut reads)
}

/// Whether each merged row keeps the limits, those on indexes with the others: ours' do, so only rows that changed are looked at.
fn rows_are_short<D: Digester>(
    alloc: Global,
    draft: &Draft<D>,
    ours: &StoredTable,
    merged: &StoredTable,
    changes: &[ItemChange],
) -> Result<bool, AllocError>
    requires { (before : PlainTable) × (contents : PlainTable) × HasChanges D.address (chunks_of draft.now.chunks) ours.now merged.now changes.now before contents }
    ensures { (before contents : PlainTable) → HasChanges D.address (chunks_of draft.now.chunks) ours.now merged.now changes.now before contents
        → IfOk result (λ short. short ≡ list_all (is_row_within_limits contents.schema) contents.rows) }
{
    law_of_row_items();
    are_short(alloc, &ours.schema, changes)
}

/// The merged table with ours' indexes, edited as the rows are.
fn with_edits<D: Digester>(
    alloc: Global,
    draft: &mut Draft<D>,
    ours: StoredTable,
    merged: &StoredTable,
    edits: &[Edit],
) -> Result<StoredTable, PutFault>
    requires { (before : PlainTable) × (contents : PlainTable) × HasEdits D.address (chunks_of draft.old.chunks) ours merged.now edits.now before contents }
    ensures stands { (before contents : PlainTable) → HasEdits D.address (chunks_of draft.old.chunks) ours merged.now edits.now before contents
        → IfOk result (λ made. IsTableOf D.address (chunks_of draft.new.chunks) made contents) }
    ensures grows { Grows is_node draft.old draft.new }
    ensures cause { IfErr result (IsReason D.address (chunks_of draft.new.chunks)) }
{
    laws_of_growth();
    let kept = apply_with_indexes(alloc, draft, ours, edits)?;
    Ok(StoredTable {
        schema: kept.schema,
        rows: kept.rows,
        indexes: kept.indexes,
        conflicts: merged.conflicts,
        violations: merged.violations,
    })
}

/// Writes the merged table so.
fn keep_edits<D: Digester>(
    alloc: Global,
    draft: &mut Draft<D>,
    ours: StoredTable,
    merged: &StoredTable,
    edits: &[Edit],
) -> Result<Became, PutFault>
    requires { (before : PlainTable) × (contents : PlainTable) × HasEdits D.address (chunks_of draft.old.chunks) ours merged.now edits.now before contents }
    ensures made { (before contents : PlainTable) → HasEdits D.address (chunks_of draft.old.chunks) ours merged.now edits.now before contents
        → IfOk result (λ became. IsBecome D.address (chunks_of draft.new.chunks) became (of_table contents)) }
    ensures grows { Grows is_data draft.old draft.new }
    ensures cause { IfErr result (IsReason D.address (chunks_of draft.new.chunks)) }
{
    laws_of_growth();
    let conflicts = conflicts_in(draft, merged);
    let table = with_edits(alloc, draft, ours, merged, edits)?;
    let at = keep_table(alloc, draft, &table)?;
    Ok(Became {
        table: Some(at),
        conflicts,
    })
}

/// Writes a merged table of ours' schema, unless a row that changed is too long. Of the rows nothing is read but what changed.
pub(crate) fn keep_changes<D: Digester>(
    alloc: Global,
    draft: &mut Draft<D>,
    ours: StoredTable,
    merged: &StoredTable,
) -> Result<Became, MergeFault>
    requires { (before : PlainTable) × (contents : PlainTable) × CanKeep D.address (chunks_of draft.old.chunks) ours merged.now before contents }
    ensures made { (before contents : PlainTable) → CanKeep D.address (chunks_of draft.old.chunks) ours merged.now before contents
        → IfOk result (λ became. IsBecome D.address (chunks_of draft.new.chunks) became (of_table contents)) }
    ensures fault { (before contents : PlainTable) → CanKeep D.address (chunks_of draft.old.chunks) ours merged.now before contents
        → IfErr result (IsLimitFault (is_table_within_limits contents)) }
    ensures grows { Grows is_data draft.old draft.new }
    ensures cause { IfErr result (IsMergeReason D.address (chunks_of draft.new.chunks)) }
{
    laws_of_growth();
    let changes = changes_between(alloc, draft, &ours, merged)?;
    let short = rows_are_short(alloc, draft, &ours, merged, changes.as_slice())?;
    if !short {
        return Err(MergeFault::Limit);
    }
    let edits = edits_of(alloc, changes)?;
    let became = keep_edits(alloc, draft, ours, merged, edits.as_slice())?;
    Ok(became)
}
