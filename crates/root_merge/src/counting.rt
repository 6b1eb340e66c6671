//! Whether rows meet conflicts where a merged database passes a limit, and so isn't made.

ghost use Rattle.std.specs.Prelude.{◌≡◌, ◌==◌, not, Ok, List, Result, length, IfOk};
ghost use Rattle.schema_model.specs.PlainTables.{PlainDatabase, PlainTable};
ghost use Rattle.chunk_store.specs.Drafts.{chunks_of};
ghost use Rattle.schema_merge.specs.RootMerge.{MergedDatabase, MergedTable, root3};
ghost use Rattle.table_merge.specs.Merging.{PlainSides};
ghost use Rattle.table_root.specs.Kept.{HasKeptAt};
ghost use Rattle.root_merge.specs.Choosing.{LeadsTo};
ghost use Rattle.root_merge.specs.Merging.{AreRoots, CanMergeRows, Part};
ghost use Rattle.root_merge.specs.Names.{LeadTo, Wanted, together};

use crate::choosing::Choice;
use crate::merging::choices;
use crate::names::Named;
use crate::reading::sides_at;
use chunk_store::Draft;
use std::alloc::{AllocError, Global};
use table_merge::count_conflicts;
use tuple_codec::{Address, Digester};

fn rows_conflict<D: Digester>(
    alloc: Global,
    draft: &Draft<D>,
    base: Option<Address>,
    ours: &Address,
    theirs: &Address,
) -> Result<bool, AllocError>
    requires { (contents : PlainSides) × (table : PlainTable) × CanMergeRows D.address (chunks_of draft.now.chunks) base ours.now theirs.now contents table }
    ensures { (contents : PlainSides) (table : PlainTable) → CanMergeRows D.address (chunks_of draft.now.chunks) base ours.now theirs.now contents table
        → IfOk result (λ found. found ≡ not (length table.conflicts == 0)) }
{
    let sides = sides_at(alloc, draft, base, ours, theirs)?;
    let count = count_conflicts(
        alloc,
        draft,
        sides.base.as_ref(),
        &sides.ours,
        &sides.theirs,
    )?;
    Ok(count != 0)
}

/// Whether the tables of one name, whose schemas merge, meet conflicts.
fn choice_conflicts<D: Digester>(
    alloc: Global,
    draft: &Draft<D>,
    choice: &Choice,
) -> Result<bool, AllocError>
    requires { (wanted : Result MergedTable Part) × (merged : MergedTable) × LeadsTo D.address (chunks_of draft.now.chunks) choice.now wanted × (wanted ≡ Ok merged) }
    ensures { (wanted : Result MergedTable Part) (merged : MergedTable) → LeadsTo D.address (chunks_of draft.now.chunks) choice.now wanted → wanted ≡ Ok merged
        → IfOk result (λ found. found ≡ not (merged.conflicts == 0)) }
{
    match choice {
        Choice::Whole(_) => Ok(false),
        Choice::Rows { base, ours, theirs } => rows_conflict(alloc, draft, *base, ours, theirs),
        Choice::Nothing => unreachable!(),
    }
}

/// Whether the tables of some name do. There are few tables, so the calls don't go deep.
fn any_conflicts<D: Digester>(
    alloc: Global,
    draft: &Draft<D>,
    names: &[Named],
) -> Result<bool, AllocError>
    requires { (wanted : List Wanted) × (merged : MergedDatabase) × LeadTo D.address (chunks_of draft.now.chunks) names.now wanted × (together wanted ≡ Ok merged) }
    ensures { (wanted : List Wanted) (merged : MergedDatabase) → LeadTo D.address (chunks_of draft.now.chunks) names.now wanted → together wanted ≡ Ok merged
        → IfOk result (λ found. found ≡ not (merged.conflicts == 0)) }
{
    let [first, rest @ ..] = names else {
        return Ok(false);
    };
    let found = choice_conflicts(alloc, draft, &first.choice)?;
    if found {
        return Ok(true);
    }
    any_conflicts(alloc, draft, rest)
}

/// Whether rows meet conflicts where databases are merged whose schemas merge.
pub(crate) fn roots_conflict<D: Digester>(
    alloc: Global,
    draft: &Draft<D>,
    base: &Address,
    ours: &Address,
    theirs: &Address,
) -> Result<bool, AllocError>
    requires { (b : PlainDatabase) × (o : PlainDatabase) × (t : PlainDatabase) × (merged : MergedDatabase) × AreRoots D.address (chunks_of draft.now.chunks) base.now ours.now theirs.now b o t × (root3 b o t ≡ Ok merged) }
    ensures { (b o t : PlainDatabase) (merged : MergedDatabase) → AreRoots D.address (chunks_of draft.now.chunks) base.now ours.now theirs.now b o t → root3 b o t ≡ Ok merged
        → IfOk result (λ found. found ≡ not (merged.conflicts == 0)) }
{
    let names = choices(alloc, draft, base, ours, theirs)?;
    any_conflicts(alloc, draft, names.as_slice())
}
