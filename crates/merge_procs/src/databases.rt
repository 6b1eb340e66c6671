//! Databases merged, and judged whole.

ghost use Rattle.std.specs.Prelude.{◌≡◌, IfErr, IfOk, Ok};
ghost use Rattle.chunk_store.specs.Clashes.{IsReason};
ghost use Rattle.chunk_store.specs.Drafts.{Grows, chunks_of};
ghost use Rattle.chunk_store.specs.Kinds.{is_data};
ghost use Rattle.table_root.specs.Kept.{HasKeptAt, IsKeptAt};
ghost use Rattle.schema_model.specs.PlainTables.{PlainDatabase};
ghost use Rattle.schema_merge.specs.RootMerge.{MergedDatabase};
ghost use Rattle.plain_writes.specs.CheckTexts.{checks};
ghost use Rattle.plain_sessions.specs.CommitRule.{is_none, recorded};
ghost use Rattle.plain_writes.specs.Violations.{violations};
ghost use Rattle.root_merge.specs.Merging.{AreRoots, IsMadeOf};
ghost use Rattle.merge_procs.specs.Databases.{AreAllIn, IsMet, merged_of};

use chunk_store::{Draft, PutFault};
use root_merge::{Merged, merge_roots};
use sql_write::laws_of_growth;
use std::alloc::{AllocError, Global};
use table_merge::MergeFault;
use tuple_codec::{Address, Digester};
use violation_lists::{ListedViolation, law_of_recording, record_violations, violations};

/// What three databases come to.
#[derive(Drop)]
pub(crate) enum Met {
    Refused(u16),
    /// Merged, with neither conflicts nor violations.
    Clean(Address),
    /// Merged, with conflicts or violations, and all violations recorded.
    Open(Address),
}

/// All violations of the database at an address. Those that it has recorded take no part.
pub(crate) fn all_violations<D: Digester>(
    alloc: Global,
    draft: &Draft<D>,
    database: &Address,
) -> Result<Vec<ListedViolation>, AllocError>
    requires { HasKeptAt D.address (chunks_of draft.now.chunks) database.now.0 }
    ensures all { (contents : PlainDatabase) → IsKeptAt D.address (chunks_of draft.now.chunks) database.now.0 contents
        → IfOk result (λ list. AreAllIn D.address (chunks_of draft.now.chunks) database.now.0 list.items contents) }
    ensures none { (contents : PlainDatabase) → IsKeptAt D.address (chunks_of draft.now.chunks) database.now.0 contents
        → IfOk result (λ list. is_none list.items ≡ is_none (violations checks contents)) }
{
    law_of_recording();
    violations(alloc, draft, database)
}

/// The database at an address with all of its violations recorded, in place of those that it had recorded.
pub(crate) fn record_all<D: Digester>(
    alloc: Global,
    draft: &mut Draft<D>,
    database: &Address,
    list: &[ListedViolation],
) -> Result<Address, PutFault>
    requires { (contents : PlainDatabase) × AreAllIn D.address (chunks_of draft.old.chunks) database.now.0 list.now contents }
    ensures stands { (contents : PlainDatabase) → AreAllIn D.address (chunks_of draft.old.chunks) database.now.0 list.now contents
        → IfOk result (λ at. IsKeptAt D.address (chunks_of draft.new.chunks) at.0 (recorded contents)) }
    ensures grows { Grows is_data draft.old draft.new }
    ensures cause { IfErr result (IsReason D.address (chunks_of draft.new.chunks)) }
{
    law_of_recording();
    record_violations(alloc, draft, database, list)
}

/// Looks at all rows of a merged database.
fn judged<D: Digester>(
    alloc: Global,
    draft: &mut Draft<D>,
    merged: &Merged,
) -> Result<Met, PutFault>
    requires { (all : MergedDatabase) × IsMadeOf D.address (chunks_of draft.old.chunks) merged.now all }
    ensures is { (all : MergedDatabase) → IsMadeOf D.address (chunks_of draft.old.chunks) merged.now all
        → IfOk result (λ met. IsMet D.address (chunks_of draft.new.chunks) met (Ok all)) }
    ensures grows { Grows is_data draft.old draft.new }
    ensures cause { IfErr result (IsReason D.address (chunks_of draft.new.chunks)) }
{
    laws_of_growth();
    let list = all_violations(alloc, draft, &merged.root)?;
    if merged.conflicts == 0 && list.is_empty() {
        return Ok(Met::Clean(merged.root));
    }
    let working = record_all(alloc, draft, &merged.root, list.as_slice())?;
    Ok(Met::Open(working))
}

/// Merges databases, and looks at all rows of what comes of it.
pub(crate) fn meet<D: Digester>(
    alloc: Global,
    draft: &mut Draft<D>,
    base: &Address,
    ours: &Address,
    theirs: &Address,
) -> Result<Met, PutFault>
    requires base { HasKeptAt D.address (chunks_of draft.old.chunks) base.now.0 }
    requires ours { HasKeptAt D.address (chunks_of draft.old.chunks) ours.now.0 }
    requires theirs { HasKeptAt D.address (chunks_of draft.old.chunks) theirs.now.0 }
    ensures is { (b o t : PlainDatabase) → AreRoots D.address (chunks_of draft.old.chunks) base.now ours.now theirs.now b o t
        → IfOk result (λ met. IsMet D.address (chunks_of draft.new.chunks) met (merged_of b o t)) }
    ensures grows { Grows is_data draft.old draft.new }
    ensures cause { IfErr result (IsReason D.address (chunks_of draft.new.chunks)) }
{
    laws_of_growth();
    match merge_roots(alloc, draft, base, ours, theirs) {
        Ok(merged) => judged(alloc, draft, &merged),
        Err(MergeFault::Schema { .. }) => Ok(Met::Refused(9009)),
        Err(MergeFault::Limit) => Ok(Met::Refused(9010)),
        Err(MergeFault::Memory) => Err(PutFault::Memory),
        Err(MergeFault::Collision(clash)) => Err(PutFault::Collision(clash)),
    }
}
