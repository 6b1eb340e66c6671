//! Tables merged in a draft.

ghost use Rattle.std.specs.Prelude.{◌≡◌, true, map, length, Ok, IfOk, IfErr};
ghost use Rattle.std.specs.Option.{option_copied};
ghost use Rattle.node_format.specs.Views.{leaf_of};
ghost use Rattle.chunk_store.specs.Clashes.{IsReason};
ghost use Rattle.chunk_store.specs.Drafts.{Grows, chunks_of};
ghost use Rattle.chunk_store.specs.Kinds.{is_node};
ghost use Rattle.schema_model.specs.Limits.{is_within_limits};
ghost use Rattle.schema_model.specs.PlainTables.{PlainTable};
ghost use Rattle.schema_merge.specs.TableMerge.{table_of, three_on};
ghost use Rattle.table_merge.specs.Merging.{AreSides, IsFaultOf, IsMergeReason, IsMergedTable, PlainSides, merged_contents};
ghost use Rattle.table_merge.specs.Steps.{AnswersSchema, AreFew, AreListsWithin, AreTreeRows, HasItemTrees, schema_perhaps, wanted_schema};
ghost use Rattle.table_merge.specs.Walking.{AreListsOf};

use crate::faults::{MergeFault, Stop};
use crate::limits::is_within_limits;
use crate::sides::read_sides;
use crate::walking::{Lists, count_conflicts_in, merge_lists};
use chunk_store::{Draft, PutFault, law_of_drafts, law_of_growth};
use node_chunker::build;
use schema_merge::{SchemaFault, merge};
use schema_model::limits::MOST_ROWS;
use schema_model::{Schema, law_of_sameness};
use std::alloc::{AllocError, Global};
use table_root::StoredTable;
use tuple_codec::{Digester, Sequence, Text};

/// What two tables come to, each having been taken on from a base, or from none. Its indexes are still to be made.
///
/// All rows of the three are read.
pub fn merge_table<D: Digester>(
    alloc: Global,
    draft: &mut Draft<D>,
    base: Option<&StoredTable>,
    ours: &StoredTable,
    theirs: &StoredTable,
) -> Result<StoredTable, MergeFault>
    requires sides { (contents : PlainSides) × AreSides D.address (chunks_of draft.old.chunks) (option_copied base) ours.now theirs.now contents }
    ensures merged { (contents : PlainSides) → AreSides D.address (chunks_of draft.old.chunks) (option_copied base.entry) ours.now theirs.now contents
        → IfOk result (λ table. IsMergedTable D.address (chunks_of draft.new.chunks) table (merged_contents contents)) }
    ensures fault { (contents : PlainSides) → AreSides D.address (chunks_of draft.old.chunks) (option_copied base.entry) ours.now theirs.now contents
        → IfErr result (IsFaultOf (merged_contents contents)) }
    ensures grows { Grows is_node draft.old draft.new }
    ensures cause { IfErr result (IsMergeReason D.address (chunks_of draft.new.chunks)) }
{
    law_of_growth();
    match merged_schema(alloc, base, ours, theirs) {
        Ok(schema) => merge_on(alloc, draft, base, ours, theirs, schema),
        Err(fault) => Err(fault),
    }
}

/// At how many keys the rows of tables whose schemas merge are in conflict, whatever limits the merged table passes.
///
/// All rows of the three are read.
pub fn count_conflicts<D: Digester>(
    alloc: Global,
    draft: &Draft<D>,
    base: Option<&StoredTable>,
    ours: &StoredTable,
    theirs: &StoredTable,
) -> Result<u64, AllocError>
    requires { (contents : PlainSides) × AreSides D.address (chunks_of draft.now.chunks) (option_copied base) ours.now theirs.now contents
        × (table : PlainTable) × (merged_contents contents ≡ Ok table) }
    ensures { (contents : PlainSides) → AreSides D.address (chunks_of draft.now.chunks) (option_copied base.entry) ours.now theirs.now contents
        → (table : PlainTable) → merged_contents contents ≡ Ok table → IfOk result (λ count. count ≡ length table.conflicts) }
{
    law_of_sameness();
    match merged_schema(alloc, base, ours, theirs) {
        Ok(schema) => count_on(alloc, draft, base, ours, theirs, &schema),
        // Their schemas merge, so memory was wanting.
        Err(_) => Err(AllocError),
    }
}

pub(crate) fn merged_schema(
    alloc: Global,
    base: Option<&StoredTable>,
    ours: &StoredTable,
    theirs: &StoredTable,
) -> Result<Schema, MergeFault>
    requires ours { is_within_limits ours.now.schema ≡ true }
    requires theirs { is_within_limits theirs.now.schema ≡ true }
    ensures { AnswersSchema result (wanted_schema (option_copied base.entry) ours.now theirs.now) }
{
    match merge(alloc, schema_perhaps(base), &ours.schema, &theirs.schema) {
        Ok(schema) => Ok(schema),
        Err(SchemaFault::Memory) => Err(MergeFault::Memory),
        Err(SchemaFault::Conflict { part }) => Err(MergeFault::Schema {
            table: Text::new(alloc),
            part,
        }),
    }
}

fn schema_perhaps(table: Option<&StoredTable>) -> Option<&Schema>
    ensures { option_copied result ≡ schema_perhaps (option_copied table.entry) }
{
    match table {
        Some(table) => Some(&table.schema),
        None => None,
    }
}

/// Merges tables on the schema that theirs come to.
pub(crate) fn merge_on<D: Digester>(
    alloc: Global,
    draft: &mut Draft<D>,
    base: Option<&StoredTable>,
    ours: &StoredTable,
    theirs: &StoredTable,
    schema: Schema,
) -> Result<StoredTable, MergeFault>
    requires { (contents : PlainSides) × AreSides D.address (chunks_of draft.old.chunks) (option_copied base) ours.now theirs.now contents
        × (wanted_schema (option_copied base) ours.now theirs.now ≡ Ok schema) }
    ensures merged { (contents : PlainSides) → AreSides D.address (chunks_of draft.old.chunks) (option_copied base.entry) ours.now theirs.now contents
        → IfOk result (λ table. IsMergedTable D.address (chunks_of draft.new.chunks) table (merged_contents contents)) }
    ensures fault { (contents : PlainSides) → AreSides D.address (chunks_of draft.old.chunks) (option_copied base.entry) ours.now theirs.now contents
        → IfErr result (IsFaultOf (merged_contents contents)) }
    ensures grows { Grows is_node draft.old draft.new }
    ensures cause { IfErr result (IsMergeReason D.address (chunks_of draft.new.chunks)) }
{
    law_of_sameness();
    law_of_growth();
    let lists = lists_within(alloc, draft, base, ours, theirs, &schema)?;
    Ok(keep(alloc, draft, schema, &lists)?)
}

fn count_on<D: Digester>(
    alloc: Global,
    draft: &Draft<D>,
    base: Option<&StoredTable>,
    ours: &StoredTable,
    theirs: &StoredTable,
    schema: &Schema,
) -> Result<u64, AllocError>
    requires { (contents : PlainSides) × AreSides D.address (chunks_of draft.now.chunks) (option_copied base) ours.now theirs.now contents
        × (wanted_schema (option_copied base) ours.now theirs.now ≡ Ok schema.now) }
    ensures { (contents : PlainSides) → AreSides D.address (chunks_of draft.now.chunks) (option_copied base.entry) ours.now theirs.now contents
        → IfOk result (λ count. count ≡ length (table_of schema.now (three_on schema.now contents.base contents.ours contents.theirs)).conflicts) }
{
    law_of_sameness();
    let sides = read_sides(alloc, draft, base, ours, theirs, schema)?;
    count_conflicts_in(
        alloc,
        schema,
        sides.base.as_slice(),
        sides.ours.as_slice(),
        sides.theirs.as_slice(),
    )
}

/// The items of what tables come to on the merged schema, if all of it keeps the limits.
fn lists_within<D: Digester>(
    alloc: Global,
    draft: &Draft<D>,
    base: Option<&StoredTable>,
    ours: &StoredTable,
    theirs: &StoredTable,
    schema: &Schema,
) -> Result<Lists, Stop>
    requires { (contents : PlainSides) × AreSides D.address (chunks_of draft.now.chunks) (option_copied base) ours.now theirs.now contents
        × (wanted_schema (option_copied base) ours.now theirs.now ≡ Ok schema.now) }
    ensures { (contents : PlainSides) → AreSides D.address (chunks_of draft.now.chunks) (option_copied base.entry) ours.now theirs.now contents
        → AreListsWithin result (table_of schema.now (three_on schema.now contents.base contents.ours contents.theirs)) }
{
    law_of_sameness();
    if is_within_limits(schema) {
        match lists_on(alloc, draft, base, ours, theirs, schema) {
            Ok(lists) => few(lists),
            Err(stop) => Err(stop),
        }
    } else {
        Err(Stop::Limit)
    }
}

/// The lists, if they have no more rows than a table may.
fn few(lists: Lists) -> Result<Lists, Stop>
    ensures { AreFew result lists }
{
    if lists.rows.len() as u64 <= MOST_ROWS {
        Ok(lists)
    } else {
        Err(Stop::Limit)
    }
}

/// The items of the merged rows and conflicts on the merged schema.
fn lists_on<D: Digester>(
    alloc: Global,
    draft: &Draft<D>,
    base: Option<&StoredTable>,
    ours: &StoredTable,
    theirs: &StoredTable,
    schema: &Schema,
) -> Result<Lists, Stop>
    requires { (contents : PlainSides) × AreSides D.address (chunks_of draft.now.chunks) (option_copied base) ours.now theirs.now contents
        × (wanted_schema (option_copied base) ours.now theirs.now ≡ Ok schema.now) }
    ensures { (contents : PlainSides) → AreSides D.address (chunks_of draft.now.chunks) (option_copied base.entry) ours.now theirs.now contents
        → AreListsOf result (table_of schema.now (three_on schema.now contents.base contents.ours contents.theirs)) }
{
    law_of_sameness();
    let sides = read_sides(alloc, draft, base, ours, theirs, schema)?;
    merge_lists(
        alloc,
        schema,
        sides.base.as_slice(),
        sides.ours.as_slice(),
        sides.theirs.as_slice(),
    )
}

/// Builds the trees of a merged table.
fn keep<D: Digester>(
    alloc: Global,
    draft: &mut Draft<D>,
    schema: Schema,
    lists: &Lists,
) -> Result<StoredTable, PutFault>
    requires rows { AreTreeRows (map leaf_of lists.now.rows.items) }
    requires conflicts { AreTreeRows (map leaf_of lists.now.conflicts.items) }
    ensures kept { IfOk result (λ table. HasItemTrees D.address (chunks_of draft.new.chunks) table schema (map leaf_of lists.now.rows.items) (map leaf_of lists.now.conflicts.items)) }
    ensures grows { Grows is_node draft.old draft.new }
    ensures cause { IfErr result (IsReason D.address (chunks_of draft.new.chunks)) }
{
    law_of_drafts();
    law_of_growth();
    let rows = build(alloc, draft, lists.rows.as_slice())?;
    let conflicts = build(alloc, draft, lists.conflicts.as_slice())?;
    let violations = build(alloc, draft, &[])?;
    Ok(StoredTable {
        schema,
        rows,
        indexes: Sequence::new(alloc),
        conflicts,
        violations,
    })
}
