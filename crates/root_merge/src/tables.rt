//! What becomes of the tables of one name.

ghost use Rattle.std.specs.Prelude.{◌≡◌, ◌≤◌, Ok, List, Result, Some, length, IfOk, IfErr};
ghost use Rattle.std.specs.List.{list_all};
ghost use Rattle.schema_model.specs.Limits.{is_row_within_limits, is_table_within_limits};
ghost use Rattle.schema_model.specs.PlainTables.{PlainTable};
ghost use Rattle.chunk_store.specs.Clashes.{IsReason};
ghost use Rattle.chunk_store.specs.Drafts.{Grows, chunks_of};
ghost use Rattle.chunk_store.specs.Kinds.{is_data, is_node, is_table};
ghost use Rattle.table_root.specs.Standing.{IsTableOf, IsUnindexedOf};
ghost use Rattle.schema_merge.specs.RootMerge.{MergedTable};
ghost use Rattle.table_merge.specs.Merging.{IsMergeReason, PlainSides};
ghost use Rattle.root_merge.specs.Choosing.{LeadsTo};
ghost use Rattle.root_merge.specs.Kept.{IsKeptTable, MayBeKept};
ghost use Rattle.root_merge.specs.Merging.{CanMergeRows, CanMergeSides, IsBecome, IsLimitFault, IsMergeOf, IsTableMade, MayBecome, Part, is_within_perhaps, of_table};

use crate::changing::keep_changes;
use crate::choosing::Choice;
use crate::laws::laws_of_growth;
use crate::reading::{Sides, sides_at};
use chunk_store::{Draft, PutFault};
use index_keep::indexes_of;
use plain_writes::is_large;
use prolly_tree::count;
use schema_model::{Schema, is_same_schema, law_of_sameness};
use std::alloc::{AllocError, Global};
use table_merge::{MergeFault, merge_kept_table};
use table_root::{StoredTable, read_rows, write_table};
use tuple_codec::{Address, Digester, Row, Sequence};

/// Where a table stands that others came to, if there is one, and how many conflicts its rows met.
#[derive(Drop)]
pub(crate) struct Became {
    pub table: Option<Address>,
    pub conflicts: u64,
}

fn are_short(alloc: Global, schema: &Schema, rows: &[Row]) -> Result<bool, AllocError>
    ensures { IfOk result (λ short. short ≡ list_all (is_row_within_limits schema.now) rows.now) }
{
    for row in rows {
        if is_large(schema, row.as_slice()) {
            return Ok(false);
        }
    }
    Ok(true)
}

/// Whether each row of a table keeps the limits, those on indexes with the others.
fn rows_are_short<D: Digester>(
    alloc: Global,
    draft: &Draft<D>,
    table: &StoredTable,
) -> Result<bool, AllocError>
    requires { (contents : PlainTable) × IsUnindexedOf D.address (chunks_of draft.now.chunks) table.now contents }
    ensures { (contents : PlainTable) → IsUnindexedOf D.address (chunks_of draft.now.chunks) table.now contents
        → IfOk result (λ short. short ≡ list_all (is_row_within_limits contents.schema) contents.rows) }
{
    let rows = read_rows(alloc, draft, &table.schema, &table.rows)?;
    are_short(alloc, &table.schema, rows.as_slice())
}

/// How many conflicts a table has.
pub(crate) fn conflicts_in<D: Digester>(draft: &Draft<D>, table: &StoredTable) -> u64
    requires { (contents : PlainTable) × IsUnindexedOf D.address (chunks_of draft.now.chunks) table.now contents }
    ensures { (contents : PlainTable) → IsUnindexedOf D.address (chunks_of draft.now.chunks) table.now contents → result ≡ length contents.conflicts }
{
    count(draft, &table.conflicts)
}

/// The table with the trees of its indexes.
fn with_indexes<D: Digester>(
    alloc: Global,
    draft: &mut Draft<D>,
    table: StoredTable,
) -> Result<StoredTable, PutFault>
    requires { (contents : PlainTable) × MayBecome D.address (chunks_of draft.old.chunks) table contents }
    ensures stands { (contents : PlainTable) → MayBecome D.address (chunks_of draft.old.chunks) table contents
        → IfOk result (λ made. IsTableOf D.address (chunks_of draft.new.chunks) made contents) }
    ensures grows { Grows is_node draft.old draft.new }
    ensures cause { IfErr result (IsReason D.address (chunks_of draft.new.chunks)) }
{
    laws_of_growth();
    let indexes = indexes_of(alloc, draft, &table.schema, &table.rows)?;
    Ok(StoredTable {
        schema: table.schema,
        rows: table.rows,
        indexes: Sequence::from_vec(indexes),
        conflicts: table.conflicts,
        violations: table.violations,
    })
}

/// Writes a table.
pub(crate) fn keep_table<D: Digester>(
    alloc: Global,
    draft: &mut Draft<D>,
    table: &StoredTable,
) -> Result<Address, PutFault>
    requires { (contents : PlainTable) × MayBeKept D.address (chunks_of draft.old.chunks) table.now contents }
    ensures stands { (contents : PlainTable) → MayBeKept D.address (chunks_of draft.old.chunks) table.now contents
        → IfOk result (λ at. IsKeptTable D.address (chunks_of draft.new.chunks) at.0 contents) }
    ensures grows { Grows is_table draft.old draft.new }
    ensures cause { IfErr result (IsReason D.address (chunks_of draft.new.chunks)) }
{
    laws_of_growth();
    let at = write_table(alloc, draft, table)?;
    Ok(at)
}

/// Writes a merged table with its indexes.
fn keep_merged<D: Digester>(
    alloc: Global,
    draft: &mut Draft<D>,
    table: StoredTable,
) -> Result<Became, PutFault>
    requires { (contents : PlainTable) × MayBecome D.address (chunks_of draft.old.chunks) table contents }
    ensures made { (contents : PlainTable) → MayBecome D.address (chunks_of draft.old.chunks) table contents
        → IfOk result (λ became. IsBecome D.address (chunks_of draft.new.chunks) became (of_table contents)) }
    ensures grows { Grows is_data draft.old draft.new }
    ensures cause { IfErr result (IsReason D.address (chunks_of draft.new.chunks)) }
{
    laws_of_growth();
    let conflicts = conflicts_in(draft, &table);
    let table = with_indexes(alloc, draft, table)?;
    let at = keep_table(alloc, draft, &table)?;
    Ok(Became {
        table: Some(at),
        conflicts,
    })
}

/// Writes a table that a merge of rows gave, unless its rows are too long for its indexes.
fn keep_rows<D: Digester>(
    alloc: Global,
    draft: &mut Draft<D>,
    table: StoredTable,
) -> Result<Became, MergeFault>
    requires { (contents : PlainTable) × IsTableMade D.address (chunks_of draft.old.chunks) table contents }
    ensures made { (contents : PlainTable) → IsTableMade D.address (chunks_of draft.old.chunks) table contents
        → IfOk result (λ became. IsBecome D.address (chunks_of draft.new.chunks) became (of_table contents)) }
    ensures fault { (contents : PlainTable) → IsTableMade D.address (chunks_of draft.old.chunks) table contents
        → IfErr result (IsLimitFault (is_table_within_limits contents)) }
    ensures grows { Grows is_data draft.old draft.new }
    ensures cause { IfErr result (IsMergeReason D.address (chunks_of draft.new.chunks)) }
{
    laws_of_growth();
    let short = rows_are_short(alloc, draft, &table)?;
    if !short {
        return Err(MergeFault::Limit);
    }
    let became = keep_merged(alloc, draft, table)?;
    Ok(became)
}

/// Writes a table that a merge of rows gave: by what changed in ours where it has ours' schema, else whole.
fn keep_merge<D: Digester>(
    alloc: Global,
    draft: &mut Draft<D>,
    ours: StoredTable,
    table: StoredTable,
) -> Result<Became, MergeFault>
    requires { (before : PlainTable) × (contents : PlainTable) × IsMergeOf D.address (chunks_of draft.old.chunks) ours table before contents }
    ensures made { (before contents : PlainTable) → IsMergeOf D.address (chunks_of draft.old.chunks) ours table before contents
        → IfOk result (λ became. IsBecome D.address (chunks_of draft.new.chunks) became (of_table contents)) }
    ensures fault { (before contents : PlainTable) → IsMergeOf D.address (chunks_of draft.old.chunks) ours table before contents
        → IfErr result (IsLimitFault (is_table_within_limits contents)) }
    ensures grows { Grows is_data draft.old draft.new }
    ensures cause { IfErr result (IsMergeReason D.address (chunks_of draft.new.chunks)) }
{
    law_of_sameness();
    if is_same_schema(&table.schema, &ours.schema) {
        keep_changes(alloc, draft, ours, &table)
    } else {
        keep_rows(alloc, draft, table)
    }
}

/// Merges the rows of tables whose schemas merge.
fn merge_sides<D: Digester>(
    alloc: Global,
    draft: &mut Draft<D>,
    sides: Sides,
) -> Result<Became, MergeFault>
    requires { (contents : PlainSides) × (table : PlainTable) × CanMergeSides D.address (chunks_of draft.old.chunks) sides contents table }
    ensures made { (contents : PlainSides) (table : PlainTable) → CanMergeSides D.address (chunks_of draft.old.chunks) sides contents table
        → IfOk result (λ became. IsBecome D.address (chunks_of draft.new.chunks) became (of_table table)) }
    ensures fault { (contents : PlainSides) (table : PlainTable) → CanMergeSides D.address (chunks_of draft.old.chunks) sides contents table
        → IfErr result (IsLimitFault (is_table_within_limits table)) }
    ensures grows { Grows is_data draft.old draft.new }
    ensures cause { IfErr result (IsMergeReason D.address (chunks_of draft.new.chunks)) }
{
    laws_of_growth();
    let table = merge_kept_table(
        alloc,
        draft,
        sides.base.as_ref(),
        &sides.ours,
        &sides.theirs,
    )?;
    keep_merge(alloc, draft, sides.ours, table)
}

/// The same of tables at addresses.
fn merge_rows<D: Digester>(
    alloc: Global,
    draft: &mut Draft<D>,
    base: Option<Address>,
    ours: &Address,
    theirs: &Address,
) -> Result<Became, MergeFault>
    requires { (contents : PlainSides) × (table : PlainTable) × CanMergeRows D.address (chunks_of draft.old.chunks) base ours.now theirs.now contents table }
    ensures made { (contents : PlainSides) (table : PlainTable) → CanMergeRows D.address (chunks_of draft.old.chunks) base ours.now theirs.now contents table
        → IfOk result (λ became. IsBecome D.address (chunks_of draft.new.chunks) became (of_table table)) }
    ensures fault { (contents : PlainSides) (table : PlainTable) → CanMergeRows D.address (chunks_of draft.old.chunks) base ours.now theirs.now contents table
        → IfErr result (IsLimitFault (is_table_within_limits table)) }
    ensures bound { IfOk result (λ became. became.conflicts ≤ 30000000) }
    ensures grows { Grows is_data draft.old draft.new }
    ensures cause { IfErr result (IsMergeReason D.address (chunks_of draft.new.chunks)) }
{
    laws_of_growth();
    let sides = sides_at(alloc, draft, base, ours, theirs)?;
    merge_sides(alloc, draft, sides)
}

/// What becomes of the tables of one name, whose schemas merge.
pub(crate) fn merge_choice<D: Digester>(
    alloc: Global,
    draft: &mut Draft<D>,
    choice: &Choice,
) -> Result<Became, MergeFault>
    requires { (wanted : Result MergedTable Part) × (merged : MergedTable) × LeadsTo D.address (chunks_of draft.old.chunks) choice.now wanted × (wanted ≡ Ok merged) }
    ensures made { (wanted : Result MergedTable Part) (merged : MergedTable) → LeadsTo D.address (chunks_of draft.old.chunks) choice.now wanted → wanted ≡ Ok merged
        → IfOk result (λ became. IsBecome D.address (chunks_of draft.new.chunks) became merged) }
    ensures fault { (wanted : Result MergedTable Part) (merged : MergedTable) → LeadsTo D.address (chunks_of draft.old.chunks) choice.now wanted → wanted ≡ Ok merged
        → IfErr result (IsLimitFault (is_within_perhaps merged.table)) }
    ensures bound { IfOk result (λ became. became.conflicts ≤ 30000000) }
    ensures grows { Grows is_data draft.old draft.new }
    ensures cause { IfErr result (IsMergeReason D.address (chunks_of draft.new.chunks)) }
{
    laws_of_growth();
    match choice {
        Choice::Whole(table) => Ok(Became {
            table: *table,
            conflicts: 0,
        }),
        Choice::Rows { base, ours, theirs } => merge_rows(alloc, draft, *base, ours, theirs),
        Choice::Nothing => unreachable!(),
    }
}
