//! Databases merged in a draft.

ghost use Rattle.std.specs.Prelude.{◌≡◌, ◌≤◌, ◌*◌, ◌++◌, Ok, List, length, IfOk, IfErr, OnOk};
ghost use Rattle.schema_model.specs.Limits.{is_database_within_limits};
ghost use Rattle.schema_model.specs.PlainTables.{PlainDatabase};
ghost use Rattle.chunk_store.specs.Clashes.{IsReason};
ghost use Rattle.chunk_store.specs.Drafts.{Grows, chunks_of};
ghost use Rattle.chunk_store.specs.Kinds.{is_data, is_database};
ghost use Rattle.schema_merge.specs.RootMerge.{MergedDatabase, root3};
ghost use Rattle.table_merge.specs.Merging.{IsMergeReason};
ghost use Rattle.table_root.specs.Kept.{HasKeptAt, IsKeptAt};
ghost use Rattle.root_merge.specs.Kept.{AreKept};
ghost use Rattle.root_merge.specs.Merging.{AreMade, AreRoots, CanMerge, IsFaultOf, IsLimitFault, IsMadeOf, IsMergedDatabase, are_within};
ghost use Rattle.root_merge.specs.Names.{LeadTo, Wanted, all_wanted, listed_as, together};

use crate::judging::judge;
use crate::laws::laws_of_growth;
use crate::names::{Named, all_chosen};
use crate::reading::read_tables;
use crate::tables::merge_choice;
use chunk_store::{Draft, PutFault};
use schema_model::law_of_sameness;
use schema_model::limits::MOST_TABLES;
use std::alloc::{AllocError, Global};
use table_merge::MergeFault;
use table_root::{TableEntry, law_of_tables, write_database};
use tuple_codec::{Address, Digester, Text};

/// A merged database: its address, and how many conflicts rows met in all its tables.
#[derive(Clone, Copy, PartialEq, Eq)]
pub struct Merged {
    pub root: Address,
    pub conflicts: u64,
}

/// Adds a table to a list, unless it is absent.
fn push_perhaps(
    alloc: Global,
    made: &mut Vec<TableEntry>,
    name: &Text,
    table: Option<Address>,
) -> Result<(), AllocError>
    ensures { OnOk result (made.new.items ≡ made.old.items ++ listed_as name.now table) }
{
    if let Some(table) = table {
        let name = Text::from_slice(alloc, name.as_slice())?;
        made.push(TableEntry { name, table })?;
    }
    Ok(())
}

/// Merges the tables of each name, adds what they come to, and counts the conflicts. There are few tables, so the calls don't go deep.
fn merge_each<D: Digester>(
    alloc: Global,
    draft: &mut Draft<D>,
    names: &[Named],
    made: &mut Vec<TableEntry>,
) -> Result<u64, MergeFault>
    requires few { length names.now ≤ 768 }
    requires lead { (wanted : List Wanted) × (merged : MergedDatabase) × LeadTo D.address (chunks_of draft.old.chunks) names.now wanted × (together wanted ≡ Ok merged) }
    ensures made { (wanted : List Wanted) (merged : MergedDatabase) (done : PlainDatabase) → LeadTo D.address (chunks_of draft.old.chunks) names.now wanted → together wanted ≡ Ok merged
        → AreMade D.address (chunks_of draft.old.chunks) made.old.items done
        → IfOk result (λ conflicts. AreMade D.address (chunks_of draft.new.chunks) made.new.items (done ++ merged.database)) }
    ensures conflicts { (wanted : List Wanted) (merged : MergedDatabase) → LeadTo D.address (chunks_of draft.old.chunks) names.now wanted → together wanted ≡ Ok merged
        → IfOk result (λ conflicts. conflicts ≡ merged.conflicts) }
    ensures fault { (wanted : List Wanted) (merged : MergedDatabase) → LeadTo D.address (chunks_of draft.old.chunks) names.now wanted → together wanted ≡ Ok merged
        → IfErr result (IsLimitFault (are_within merged.database)) }
    ensures bound { IfOk result (λ conflicts. conflicts ≤ length names.now * 30000000) }
    ensures grows { Grows is_data draft.old draft.new }
    ensures cause { IfErr result (IsMergeReason D.address (chunks_of draft.new.chunks)) }
{
    laws_of_growth();
    let [first, rest @ ..] = names else {
        return Ok(0);
    };
    let became = merge_choice(alloc, draft, &first.choice)?;
    push_perhaps(alloc, made, &first.name, became.table)?;
    let more = merge_each(alloc, draft, rest, made)?;
    Ok(became.conflicts + more)
}

/// Writes the database that these tables are.
fn put_database<D: Digester>(
    alloc: Global,
    draft: &mut Draft<D>,
    tables: &[TableEntry],
) -> Result<Address, PutFault>
    requires { (database : PlainDatabase) × AreKept D.address (chunks_of draft.old.chunks) tables.now database }
    ensures stands { (database : PlainDatabase) → AreKept D.address (chunks_of draft.old.chunks) tables.now database
        → IfOk result (λ at. IsKeptAt D.address (chunks_of draft.new.chunks) at.0 database) }
    ensures grows { Grows is_database draft.old draft.new }
    ensures cause { IfErr result (IsReason D.address (chunks_of draft.new.chunks)) }
{
    laws_of_growth();
    let at = write_database(alloc, draft, tables)?;
    Ok(at)
}

/// What becomes of the tables of each name in the databases at three addresses.
pub(crate) fn choices<D: Digester>(
    alloc: Global,
    draft: &Draft<D>,
    base: &Address,
    ours: &Address,
    theirs: &Address,
) -> Result<Vec<Named>, AllocError>
    requires base { HasKeptAt D.address (chunks_of draft.now.chunks) base.now.0 }
    requires ours { HasKeptAt D.address (chunks_of draft.now.chunks) ours.now.0 }
    requires theirs { HasKeptAt D.address (chunks_of draft.now.chunks) theirs.now.0 }
    ensures lead { (b o t : PlainDatabase) → AreRoots D.address (chunks_of draft.now.chunks) base.now ours.now theirs.now b o t
        → IfOk result (λ names. LeadTo D.address (chunks_of draft.now.chunks) names.items (all_wanted b o t)) }
    ensures few { IfOk result (λ names. length names.items ≤ 768) }
{
    law_of_tables();
    law_of_sameness();
    let base = read_tables(alloc, draft, base)?;
    let ours = read_tables(alloc, draft, ours)?;
    let theirs = read_tables(alloc, draft, theirs)?;
    all_chosen(alloc, base.as_slice(), ours.as_slice(), theirs.as_slice())
}

/// Merges the tables of all names, whose schemas merge, and writes the database.
fn merge_chosen<D: Digester>(
    alloc: Global,
    draft: &mut Draft<D>,
    names: &[Named],
) -> Result<Merged, MergeFault>
    requires few { length names.now ≤ 768 }
    requires lead { (wanted : List Wanted) × (merged : MergedDatabase) × CanMerge D.address (chunks_of draft.old.chunks) names.now wanted merged }
    ensures merged { (wanted : List Wanted) (merged : MergedDatabase) → CanMerge D.address (chunks_of draft.old.chunks) names.now wanted merged
        → IfOk result (λ made. IsMadeOf D.address (chunks_of draft.new.chunks) made merged) }
    ensures fault { (wanted : List Wanted) (merged : MergedDatabase) → CanMerge D.address (chunks_of draft.old.chunks) names.now wanted merged
        → IfErr result (IsLimitFault (is_database_within_limits merged.database)) }
    ensures grows { Grows is_data draft.old draft.new }
    ensures cause { IfErr result (IsMergeReason D.address (chunks_of draft.new.chunks)) }
{
    laws_of_growth();
    let mut tables = Vec::new(alloc);
    let conflicts = merge_each(alloc, draft, names, &mut tables)?;
    if tables.len() > MOST_TABLES {
        return Err(MergeFault::Limit);
    }
    let root = put_database(alloc, draft, tables.as_slice())?;
    Ok(Merged { root, conflicts })
}

/// Merges the databases at three addresses table by table: a table that one side alone changed is taken as it stands, and where both changed it
/// its rows are merged.
///
/// Of tables with one address on two sides, and of those that one side alone has, nothing is read. No table is merged before all schemas are.
pub fn merge_roots<D: Digester>(
    alloc: Global,
    draft: &mut Draft<D>,
    base: &Address,
    ours: &Address,
    theirs: &Address,
) -> Result<Merged, MergeFault>
    requires base { HasKeptAt D.address (chunks_of draft.old.chunks) base.now.0 }
    requires ours { HasKeptAt D.address (chunks_of draft.old.chunks) ours.now.0 }
    requires theirs { HasKeptAt D.address (chunks_of draft.old.chunks) theirs.now.0 }
    ensures merged { (b o t : PlainDatabase) → AreRoots D.address (chunks_of draft.old.chunks) base.now ours.now theirs.now b o t
        → IfOk result (λ merged. IsMergedDatabase D.address (chunks_of draft.new.chunks) merged (root3 b o t)) }
    ensures fault { (b o t : PlainDatabase) → AreRoots D.address (chunks_of draft.old.chunks) base.now ours.now theirs.now b o t
        → IfErr result (IsFaultOf (root3 b o t)) }
    ensures grows { Grows is_data draft.old draft.new }
    ensures cause { IfErr result (IsMergeReason D.address (chunks_of draft.new.chunks)) }
{
    laws_of_growth();
    let names = choices(alloc, draft, base, ours, theirs)?;
    judge(alloc, draft, names.as_slice())?;
    merge_chosen(alloc, draft, names.as_slice())
}
