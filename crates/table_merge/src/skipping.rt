//! Tables merged by what theirs changed, where their schemas are the same.

ghost use Rattle.std.specs.Prelude.{◌≡◌, true, List, map, Ok, Some, IfOk, IfErr};
ghost use Rattle.std.specs.Option.{option_copied};
ghost use Rattle.tuple_codec.specs.Edits.{edited};
ghost use Rattle.tuple_codec.specs.Nodes.{Item};
ghost use Rattle.node_format.specs.Views.{leaf_of};
ghost use Rattle.schema_model.specs.Limits.{is_within_limits};
ghost use Rattle.schema_model.specs.SchemaBytes.{schema_bytes};
ghost use Rattle.schema_model.specs.Schemas.{is_schema};
ghost use Rattle.schema_model.specs.declared.schemas.Schema.{Schema};
ghost use Rattle.chunk_store.specs.Clashes.{IsReason};
ghost use Rattle.chunk_store.specs.Drafts.{Grows, chunks_of};
ghost use Rattle.chunk_store.specs.Kinds.{is_node};
ghost use Rattle.chunk_store.specs.Standing.{IsTree};
ghost use Rattle.prolly_edit.specs.Editing.{CanEdit};
ghost use Rattle.table_merge.specs.Merging.{AreKeptSides, IsFaultOf, IsMergeReason, IsMergedTable, PlainSides, merged_contents};
ghost use Rattle.table_merge.specs.Skipping.{HaveSchema};
ghost use Rattle.table_merge.specs.Steps.{AreTreeRows, HasItemTrees, wanted_schema};

use crate::changing::{Merged, merge_changes};
use crate::faults::MergeFault;
use crate::limits::is_within_limits;
use crate::merging::{merge_on, merged_schema};
use chunk_store::{Draft, PutFault, law_of_drafts, law_of_growth};
use node_chunker::build;
use prolly_edit::apply;
use prolly_tree::count;
use schema_model::limits::MOST_ROWS;
use schema_model::{Schema, law_of_sameness, law_of_schemas, write_schema};
use std::alloc::{AllocError, Global};
use table_root::StoredTable;
use tuple_codec::{Address, Digester, Sequence};

/// What two tables that keep the limits on data come to, as [`merge_table`](crate::merge_table) gives it.
///
/// Where base, ours and theirs have one schema and merge to it, only what theirs changed is read, and the rows of ours under those
/// keys: nodes that base and theirs share are left out, and so is all of ours that is far from a change. Else all rows are read.
pub fn merge_kept_table<D: Digester>(
    alloc: Global,
    draft: &mut Draft<D>,
    base: Option<&StoredTable>,
    ours: &StoredTable,
    theirs: &StoredTable,
) -> Result<StoredTable, MergeFault>
    requires sides { (contents : PlainSides) × AreKeptSides D.address (chunks_of draft.old.chunks) (option_copied base) ours.now theirs.now contents }
    ensures merged { (contents : PlainSides) → AreKeptSides D.address (chunks_of draft.old.chunks) (option_copied base.entry) ours.now theirs.now contents
        → IfOk result (λ table. IsMergedTable D.address (chunks_of draft.new.chunks) table (merged_contents contents)) }
    ensures fault { (contents : PlainSides) → AreKeptSides D.address (chunks_of draft.old.chunks) (option_copied base.entry) ours.now theirs.now contents
        → IfErr result (IsFaultOf (merged_contents contents)) }
    ensures grows { Grows is_node draft.old draft.new }
    ensures cause { IfErr result (IsMergeReason D.address (chunks_of draft.new.chunks)) }
{
    law_of_growth();
    match merged_schema(alloc, base, ours, theirs) {
        Ok(schema) => merge_kept_on(alloc, draft, base, ours, theirs, schema),
        Err(fault) => Err(fault),
    }
}

/// Merges tables on the schema that theirs come to.
fn merge_kept_on<D: Digester>(
    alloc: Global,
    draft: &mut Draft<D>,
    base: Option<&StoredTable>,
    ours: &StoredTable,
    theirs: &StoredTable,
    schema: Schema,
) -> Result<StoredTable, MergeFault>
    requires { (contents : PlainSides) × AreKeptSides D.address (chunks_of draft.old.chunks) (option_copied base) ours.now theirs.now contents
        × (wanted_schema (option_copied base) ours.now theirs.now ≡ Ok schema) }
    ensures merged { (contents : PlainSides) → AreKeptSides D.address (chunks_of draft.old.chunks) (option_copied base.entry) ours.now theirs.now contents
        → IfOk result (λ table. IsMergedTable D.address (chunks_of draft.new.chunks) table (merged_contents contents)) }
    ensures fault { (contents : PlainSides) → AreKeptSides D.address (chunks_of draft.old.chunks) (option_copied base.entry) ours.now theirs.now contents
        → IfErr result (IsFaultOf (merged_contents contents)) }
    ensures grows { Grows is_node draft.old draft.new }
    ensures cause { IfErr result (IsMergeReason D.address (chunks_of draft.new.chunks)) }
{
    match base {
        Some(base) => merge_from(alloc, draft, base, ours, theirs, schema),
        None => merge_on(alloc, draft, None, ours, theirs, schema),
    }
}

/// The same where a base is there: by what theirs changed, if all three have this schema.
fn merge_from<D: Digester>(
    alloc: Global,
    draft: &mut Draft<D>,
    base: &StoredTable,
    ours: &StoredTable,
    theirs: &StoredTable,
    schema: Schema,
) -> Result<StoredTable, MergeFault>
    requires { (contents : PlainSides) × AreKeptSides D.address (chunks_of draft.old.chunks) (Some base.now) ours.now theirs.now contents
        × (wanted_schema (Some base.now) ours.now theirs.now ≡ Ok schema) }
    ensures merged { (contents : PlainSides) → AreKeptSides D.address (chunks_of draft.old.chunks) (Some base.now) ours.now theirs.now contents
        → IfOk result (λ table. IsMergedTable D.address (chunks_of draft.new.chunks) table (merged_contents contents)) }
    ensures fault { (contents : PlainSides) → AreKeptSides D.address (chunks_of draft.old.chunks) (Some base.now) ours.now theirs.now contents
        → IfErr result (IsFaultOf (merged_contents contents)) }
    ensures grows { Grows is_node draft.old draft.new }
    ensures cause { IfErr result (IsMergeReason D.address (chunks_of draft.new.chunks)) }
{
    law_of_sameness();
    law_of_growth();
    if have_schema(alloc, &schema, base, ours, theirs)? {
        merge_by_changes(alloc, draft, base, ours, theirs, schema)
    } else {
        merge_on(alloc, draft, Some(base), ours, theirs, schema)
    }
}

/// Whether three tables have this schema. A schema that passes the limits isn't compared.
fn have_schema(
    alloc: Global,
    schema: &Schema,
    base: &StoredTable,
    ours: &StoredTable,
    theirs: &StoredTable,
) -> Result<bool, AllocError>
    requires schema { is_schema schema.now ≡ true }
    requires base { (is_schema base.now.schema ≡ true) × (is_within_limits base.now.schema ≡ true) }
    requires ours { (is_schema ours.now.schema ≡ true) × (is_within_limits ours.now.schema ≡ true) }
    requires theirs { (is_schema theirs.now.schema ≡ true) × (is_within_limits theirs.now.schema ≡ true) }
    ensures { IfOk result (λ same. same ≡ true → HaveSchema schema.now base.now ours.now theirs.now) }
{
    if !is_within_limits(schema) {
        return Ok(false);
    }
    let bytes = write_schema(alloc, schema)?;
    let of_base = has_bytes(alloc, &base.schema, bytes.as_slice())?;
    let of_ours = has_bytes(alloc, &ours.schema, bytes.as_slice())?;
    let of_theirs = has_bytes(alloc, &theirs.schema, bytes.as_slice())?;
    Ok(of_base && of_ours && of_theirs)
}

/// Whether a schema is the one that has these bytes.
fn has_bytes(alloc: Global, schema: &Schema, bytes: &[u8]) -> Result<bool, AllocError>
    requires is { is_schema schema.now ≡ true }
    requires limits { is_within_limits schema.now ≡ true }
    ensures { (other : Schema) → is_schema other ≡ true → bytes.now ≡ schema_bytes other → IfOk result (λ same. same ≡ true → schema.now ≡ other) }
{
    law_of_schemas();
    let own = write_schema(alloc, schema)?;
    Ok(own.as_slice() == bytes)
}

/// Merges tables of one schema, which they merge to, by what theirs changed.
fn merge_by_changes<D: Digester>(
    alloc: Global,
    draft: &mut Draft<D>,
    base: &StoredTable,
    ours: &StoredTable,
    theirs: &StoredTable,
    schema: Schema,
) -> Result<StoredTable, MergeFault>
    requires sides { (contents : PlainSides) × AreKeptSides D.address (chunks_of draft.old.chunks) (Some base.now) ours.now theirs.now contents
        × (wanted_schema (Some base.now) ours.now theirs.now ≡ Ok schema) }
    requires shared { HaveSchema schema base.now ours.now theirs.now }
    ensures merged { (contents : PlainSides) → AreKeptSides D.address (chunks_of draft.old.chunks) (Some base.now) ours.now theirs.now contents
        → IfOk result (λ table. IsMergedTable D.address (chunks_of draft.new.chunks) table (merged_contents contents)) }
    ensures fault { (contents : PlainSides) → AreKeptSides D.address (chunks_of draft.old.chunks) (Some base.now) ours.now theirs.now contents
        → IfErr result (IsFaultOf (merged_contents contents)) }
    ensures grows { Grows is_node draft.old draft.new }
    ensures cause { IfErr result (IsMergeReason D.address (chunks_of draft.new.chunks)) }
{
    law_of_sameness();
    law_of_growth();
    let merged = merge_changes(alloc, draft, &schema, &base.rows, &ours.rows, &theirs.rows)?;
    let table = keep_merged(alloc, draft, schema, &ours.rows, &merged)?;
    if count(draft, &table.rows) <= MOST_ROWS {
        Ok(table)
    } else {
        Err(MergeFault::Limit)
    }
}

/// Edits the tree of our rows, and builds the other trees of a merged table.
fn keep_merged<D: Digester>(
    alloc: Global,
    draft: &mut Draft<D>,
    schema: Schema,
    ours: &Address,
    merged: &Merged,
) -> Result<StoredTable, PutFault>
    requires rows { (rows : List Item) × CanEdit D.address (chunks_of draft.old.chunks) ours.now.0 merged.now.edits.items rows }
    requires conflicts { AreTreeRows (map leaf_of merged.now.conflicts.items) }
    ensures kept { (rows : List Item) → IsTree D.address (chunks_of draft.old.chunks) ours.now.0 rows
        → IfOk result (λ table. HasItemTrees D.address (chunks_of draft.new.chunks) table schema (edited rows merged.now.edits.items) (map leaf_of merged.now.conflicts.items)) }
    ensures grows { Grows is_node draft.old draft.new }
    ensures cause { IfErr result (IsReason D.address (chunks_of draft.new.chunks)) }
{
    law_of_drafts();
    law_of_growth();
    let rows = apply(alloc, draft, ours, merged.edits.as_slice())?;
    let conflicts = build(alloc, draft, merged.conflicts.as_slice())?;
    let violations = build(alloc, draft, &[])?;
    Ok(StoredTable {
        schema,
        rows,
        indexes: Sequence::new(alloc),
        conflicts,
        violations,
    })
}
