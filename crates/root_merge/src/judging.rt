//! Whether the schemas of tables merge, before any row is merged: the first table in conflict is told, whatever limits others pass.

ghost use Rattle.std.specs.Prelude.{◌≡◌, true, List, Result, IfOk, OnOk, IfErr};
ghost use Rattle.std.specs.Option.{option_copied};
ghost use Rattle.schema_model.specs.Limits.{is_within_limits};
ghost use Rattle.chunk_store.specs.Drafts.{chunks_of};
ghost use Rattle.schema_merge.specs.Merging.{schema3};
ghost use Rattle.schema_merge.specs.RootMerge.{MergedTable};
ghost use Rattle.table_merge.specs.Merging.{PlainSides, merged_contents};
ghost use Rattle.root_merge.specs.Choosing.{LeadsTo};
ghost use Rattle.root_merge.specs.Kept.{AreKeptSides};
ghost use Rattle.root_merge.specs.Merging.{AllMerge, IsSchemaFault, Part, part_in, schemas_merged};
ghost use Rattle.root_merge.specs.Names.{LeadTo, Wanted, together};

use crate::choosing::Choice;
use crate::names::Named;
use crate::reading::{Sides, sides_at};
use chunk_store::Draft;
use schema_merge::{SchemaFault, merge};
use schema_model::Schema;
use std::alloc::{AllocError, Global};
use table_merge::MergeFault;
use tuple_codec::{Address, Digester, Text};

/// The part in which schemas are in conflict, if there is one.
fn part_of_schemas(
    alloc: Global,
    base: Option<&Schema>,
    ours: &Schema,
    theirs: &Schema,
) -> Result<Option<Text>, AllocError>
    requires ours { is_within_limits ours.now ≡ true }
    requires theirs { is_within_limits theirs.now ≡ true }
    ensures { IfOk result (λ part. part ≡ part_in (schema3 (option_copied base.entry) ours.now theirs.now)) }
{
    match merge(alloc, base, ours, theirs) {
        Ok(_) => Ok(None),
        Err(SchemaFault::Memory) => Err(AllocError),
        Err(SchemaFault::Conflict { part }) => Ok(Some(part)),
    }
}

/// The same of tables.
fn part_of_sides(alloc: Global, sides: &Sides) -> Result<Option<Text>, AllocError>
    requires ours { is_within_limits sides.now.ours.schema ≡ true }
    requires theirs { is_within_limits sides.now.theirs.schema ≡ true }
    ensures { IfOk result (λ part. part ≡ part_in (schemas_merged sides.now.base sides.now.ours sides.now.theirs)) }
{
    let ours = &sides.ours.schema;
    let theirs = &sides.theirs.schema;
    match &sides.base {
        Some(base) => part_of_schemas(alloc, Some(&base.schema), ours, theirs),
        None => part_of_schemas(alloc, None, ours, theirs),
    }
}

/// The same of tables at addresses.
fn part_of_rows<D: Digester>(
    alloc: Global,
    draft: &Draft<D>,
    base: Option<Address>,
    ours: &Address,
    theirs: &Address,
) -> Result<Option<Text>, AllocError>
    requires { (contents : PlainSides) × AreKeptSides D.address (chunks_of draft.now.chunks) base ours.now theirs.now contents }
    ensures { (contents : PlainSides) → AreKeptSides D.address (chunks_of draft.now.chunks) base ours.now theirs.now contents
        → IfOk result (λ part. part ≡ part_in (merged_contents contents)) }
{
    let sides = sides_at(alloc, draft, base, ours, theirs)?;
    part_of_sides(alloc, &sides)
}

/// The part in which the tables of one name are in conflict; the empty one where a side has no such table.
fn part_of<D: Digester>(
    alloc: Global,
    draft: &Draft<D>,
    choice: &Choice,
) -> Result<Option<Text>, AllocError>
    requires { (wanted : Result MergedTable Part) × LeadsTo D.address (chunks_of draft.now.chunks) choice.now wanted }
    ensures { (wanted : Result MergedTable Part) → LeadsTo D.address (chunks_of draft.now.chunks) choice.now wanted
        → IfOk result (λ part. part ≡ part_in wanted) }
{
    match choice {
        Choice::Whole(_) => Ok(None),
        Choice::Rows { base, ours, theirs } => part_of_rows(alloc, draft, *base, ours, theirs),
        Choice::Nothing => Ok(Some(Text::new(alloc))),
    }
}

/// Answers the first table whose schemas don't merge. There are few tables, so the calls don't go deep.
pub(crate) fn judge<D: Digester>(
    alloc: Global,
    draft: &Draft<D>,
    names: &[Named],
) -> Result<(), MergeFault>
    requires { (wanted : List Wanted) × LeadTo D.address (chunks_of draft.now.chunks) names.now wanted }
    ensures ok { (wanted : List Wanted) → LeadTo D.address (chunks_of draft.now.chunks) names.now wanted → OnOk result (AllMerge (together wanted)) }
    ensures fault { (wanted : List Wanted) → LeadTo D.address (chunks_of draft.now.chunks) names.now wanted → IfErr result (IsSchemaFault (together wanted)) }
{
    let [first, rest @ ..] = names else {
        return Ok(());
    };
    match part_of(alloc, draft, &first.choice)? {
        Some(part) => {
            let table = Text::from_slice(alloc, first.name.as_slice())?;
            Err(MergeFault::Schema { table, part })
        }
        None => judge(alloc, draft, rest),
    }
}
