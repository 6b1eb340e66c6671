//! Tables staged, and set back to the head's: which record the session's own becomes.

ghost use Rattle.std.specs.Prelude.{◌≡◌, IfErr, IfOk, None, Some, if◌then◌else◌, length, nat_lt};
ghost use Rattle.schema_model.specs.Limits.{most_tables};
ghost use Rattle.schema_model.specs.PlainTables.{PlainDatabase};
ghost use Rattle.chunk_store.specs.Clashes.{IsReason};
ghost use Rattle.chunk_store.specs.Drafts.{Grows, chunks_of};
ghost use Rattle.chunk_store.specs.Kinds.{is_database};
ghost use Rattle.plain_sql.specs.Lists.{each};
ghost use Rattle.plain_sessions.specs.Branching.{add, may_stage, reset_to, staged_as};
ghost use Rattle.plain_sessions.specs.Records.{BranchState};
ghost use Rattle.root_merge.specs.States.{BranchStateStands, HasBranchState, IsCandidate};
ghost use Rattle.sql_procedures.specs.declared.requests.Tables.TheVariants as tables;
ghost use Rattle.sql_procedures.specs.declared.requests.Reset.TheVariants as reset;
ghost use Rattle.branch_procs.specs.Staging.{AreBoth, CanStage, StandsOn, absence, first_absence, reset_absence};
ghost use Rattle.session_plan.specs.Calls.{refusal_of};

use crate::listing::{put_database, read_tables};
use crate::opening::{any_is_open, is_open_table};
use crate::taking::take_all;
use chunk_store::{Draft, PutFault};
use root_merge::Candidate;
use schema_model::limits::MOST_TABLES;
use sql_procedures::{Reset, Tables};
use sql_write::{laws_of_growth, table_in};
use std::alloc::{AllocError, Global};
use table_root::TableEntry;
use tuple_codec::{Address, BranchRecord, Digester, Text};

/// The record with another staged database.
pub(crate) fn with_staged(own: &BranchRecord, staged: Address) -> BranchRecord
    ensures { result ≡ record own.now { staged = staged } }
{
    BranchRecord {
        head: own.head,
        working: own.working,
        staged,
        merging: own.merging,
    }
}

/// Whether a database can't have so many.
fn are_too_many(tables: &[TableEntry]) -> bool
    ensures { result ≡ nat_lt most_tables (length tables.now) }
{
    tables.len() > MOST_TABLES
}

/// The record with these tables staged, where they aren't too many.
fn stage_tables<D: Digester>(
    alloc: Global,
    draft: &mut Draft<D>,
    own: &BranchRecord,
    tables: &[TableEntry],
) -> Result<Candidate, PutFault>
    requires { (state : BranchState) × (database : PlainDatabase) × CanStage D.address (chunks_of draft.old.chunks) own.now tables.now state database }
    ensures is { (state : BranchState) (database : PlainDatabase) → CanStage D.address (chunks_of draft.old.chunks) own.now tables.now state database
        → IfOk result (λ made. IsCandidate D.address (chunks_of draft.new.chunks) made (staged_as state database)) }
    ensures grows { Grows is_database draft.old draft.new }
    ensures cause { IfErr result (IsReason D.address (chunks_of draft.new.chunks)) }
{
    laws_of_growth();
    let many = are_too_many(tables);
    if many {
        return Ok(Candidate::Refused(9010));
    }
    let staged = put_database(alloc, draft, tables)?;
    Ok(Candidate::Record(with_staged(own, staged)))
}

/// Why the table of this name can't be staged.
fn may_stage<D: Digester>(
    alloc: Global,
    draft: &Draft<D>,
    working: &[TableEntry],
    staged: &[TableEntry],
    name: &[u8],
) -> Result<Option<u16>, AllocError>
    requires { (state : BranchState) × AreBoth D.address (chunks_of draft.now.chunks) working.now staged.now state.working state.staged }
    ensures { (state : BranchState) → AreBoth D.address (chunks_of draft.now.chunks) working.now staged.now state.working state.staged
        → IfOk result (λ found. found ≡ refusal_of (may_stage state name.now)) }
{
    match table_in(working, name) {
        Some(table) => {
            let open = is_open_table(alloc, draft, &table)?;
            Ok(openness(open))
        }
        None => Ok(absence(staged, name)),
    }
}

/// Why a table with conflicts or violations can't be staged.
fn openness(found: bool) -> Option<u16>
    ensures { result ≡ (if found then Some 9011 else None) }
{
    if found { Some(9011) } else { None }
}

/// Why a table that only this list may have can't be taken.
fn absence(tables: &[TableEntry], name: &[u8]) -> Option<u16>
    ensures { result ≡ absence tables.now name.now }
{
    match table_in(tables, name) {
        Some(_) => None,
        None => Some(1146),
    }
}

/// Why one of these tables can't be staged, by the first.
fn add_refusal<D: Digester>(
    alloc: Global,
    draft: &Draft<D>,
    working: &[TableEntry],
    staged: &[TableEntry],
    names: &[Text],
) -> Result<Option<u16>, AllocError>
    requires { (state : BranchState) × AreBoth D.address (chunks_of draft.now.chunks) working.now staged.now state.working state.staged }
    ensures { (state : BranchState) → AreBoth D.address (chunks_of draft.now.chunks) working.now staged.now state.working state.staged
        → IfOk result (λ found. found ≡ refusal_of (each (may_stage state) names.now)) }
{
    for name in names {
        let found = may_stage(alloc, draft, working, staged, name.as_slice())?;
        if found.is_some() {
            return Ok(found);
        }
    }
    Ok(None)
}

/// Why one of these tables can't be set back, by the first.
fn reset_refusal(root: &[TableEntry], staged: &[TableEntry], names: &[Text]) -> Option<u16>
    ensures { result ≡ first_absence root.now staged.now names.now }
{
    for name in names {
        let found = reset_absence(root, staged, name.as_slice());
        if found.is_some() {
            return found;
        }
    }
    None
}

/// Why a table that neither list may have can't be taken.
fn reset_absence(root: &[TableEntry], staged: &[TableEntry], name: &[u8]) -> Option<u16>
    ensures { result ≡ reset_absence root.now staged.now name.now }
{
    match table_in(root, name) {
        Some(_) => None,
        None => absence(staged, name),
    }
}

/// All working tables staged.
fn add_all<D: Digester>(
    alloc: Global,
    draft: &Draft<D>,
    own: &BranchRecord,
) -> Result<Candidate, AllocError>
    requires { HasBranchState D.address (chunks_of draft.now.chunks) own.now }
    ensures { (state : BranchState) → BranchStateStands D.address (chunks_of draft.now.chunks) own.now state
        → IfOk result (λ made. IsCandidate D.address (chunks_of draft.now.chunks) made (add tables.All state)) }
{
    let working = read_tables(alloc, draft, &own.working)?;
    let open = any_is_open(alloc, draft, working.as_slice())?;
    if open {
        return Ok(Candidate::Refused(9011));
    }
    Ok(Candidate::Record(with_staged(own, own.working)))
}

/// The working tables of these names staged, or their absence.
fn add_named<D: Digester>(
    alloc: Global,
    draft: &mut Draft<D>,
    own: &BranchRecord,
    names: &[Text],
) -> Result<Candidate, PutFault>
    requires { HasBranchState D.address (chunks_of draft.old.chunks) own.now }
    ensures is { (state : BranchState) → BranchStateStands D.address (chunks_of draft.old.chunks) own.now state
        → IfOk result (λ made. IsCandidate D.address (chunks_of draft.new.chunks) made (add (tables.Named names.now) state)) }
    ensures grows { Grows is_database draft.old draft.new }
    ensures cause { IfErr result (IsReason D.address (chunks_of draft.new.chunks)) }
{
    laws_of_growth();
    let working = read_tables(alloc, draft, &own.working)?;
    let staged = read_tables(alloc, draft, &own.staged)?;
    let refusal = add_refusal(alloc, draft, working.as_slice(), staged.as_slice(), names)?;
    match refusal {
        Some(number) => Ok(Candidate::Refused(number)),
        None => {
            let made = take_all(alloc, working.as_slice(), staged, names)?;
            stage_tables(alloc, draft, own, made.as_slice())
        }
    }
}

/// What DOLT_ADD makes of the session's own record.
pub(crate) fn add<D: Digester>(
    alloc: Global,
    draft: &mut Draft<D>,
    own: &BranchRecord,
    tables: &Tables,
) -> Result<Candidate, PutFault>
    requires { HasBranchState D.address (chunks_of draft.old.chunks) own.now }
    ensures is { (state : BranchState) → BranchStateStands D.address (chunks_of draft.old.chunks) own.now state
        → IfOk result (λ made. IsCandidate D.address (chunks_of draft.new.chunks) made (add tables.now state)) }
    ensures grows { Grows is_database draft.old draft.new }
    ensures cause { IfErr result (IsReason D.address (chunks_of draft.new.chunks)) }
{
    laws_of_growth();
    match tables {
        Tables::All => {
            let made = add_all(alloc, draft, own)?;
            Ok(made)
        }
        Tables::Named(names) => add_named(alloc, draft, own, names.as_slice()),
    }
}

/// The head's tables of these names staged, or their absence.
fn reset_named<D: Digester>(
    alloc: Global,
    draft: &mut Draft<D>,
    own: &BranchRecord,
    root: &Address,
    names: &[Text],
) -> Result<Candidate, PutFault>
    requires { (state : BranchState) × (database : PlainDatabase) × StandsOn D.address (chunks_of draft.old.chunks) own.now root.now state database }
    ensures is { (state : BranchState) (database : PlainDatabase) → StandsOn D.address (chunks_of draft.old.chunks) own.now root.now state database
        → IfOk result (λ made. IsCandidate D.address (chunks_of draft.new.chunks) made (reset_to database (reset.Tables (tables.Named names.now)) state)) }
    ensures grows { Grows is_database draft.old draft.new }
    ensures cause { IfErr result (IsReason D.address (chunks_of draft.new.chunks)) }
{
    laws_of_growth();
    let head = read_tables(alloc, draft, root)?;
    let staged = read_tables(alloc, draft, &own.staged)?;
    let refusal = reset_refusal(head.as_slice(), staged.as_slice(), names);
    match refusal {
        Some(number) => Ok(Candidate::Refused(number)),
        None => {
            let made = take_all(alloc, head.as_slice(), staged, names)?;
            stage_tables(alloc, draft, own, made.as_slice())
        }
    }
}

/// The head's tables staged, all or those of some names.
fn reset_tables<D: Digester>(
    alloc: Global,
    draft: &mut Draft<D>,
    own: &BranchRecord,
    root: &Address,
    tables: &Tables,
) -> Result<Candidate, PutFault>
    requires { (state : BranchState) × (database : PlainDatabase) × StandsOn D.address (chunks_of draft.old.chunks) own.now root.now state database }
    ensures is { (state : BranchState) (database : PlainDatabase) → StandsOn D.address (chunks_of draft.old.chunks) own.now root.now state database
        → IfOk result (λ made. IsCandidate D.address (chunks_of draft.new.chunks) made (reset_to database (reset.Tables tables.now) state)) }
    ensures grows { Grows is_database draft.old draft.new }
    ensures cause { IfErr result (IsReason D.address (chunks_of draft.new.chunks)) }
{
    laws_of_growth();
    match tables {
        Tables::All => Ok(Candidate::Record(with_staged(own, *root))),
        Tables::Named(names) => reset_named(alloc, draft, own, root, names.as_slice()),
    }
}

/// What DOLT_RESET makes of the session's own record, by the address of its head's database.
pub(crate) fn reset_to<D: Digester>(
    alloc: Global,
    draft: &mut Draft<D>,
    own: &BranchRecord,
    root: &Address,
    reset: &Reset,
) -> Result<Candidate, PutFault>
    requires { (state : BranchState) × (database : PlainDatabase) × StandsOn D.address (chunks_of draft.old.chunks) own.now root.now state database }
    ensures is { (state : BranchState) (database : PlainDatabase) → StandsOn D.address (chunks_of draft.old.chunks) own.now root.now state database
        → IfOk result (λ made. IsCandidate D.address (chunks_of draft.new.chunks) made (reset_to database reset.now state)) }
    ensures grows { Grows is_database draft.old draft.new }
    ensures cause { IfErr result (IsReason D.address (chunks_of draft.new.chunks)) }
{
    laws_of_growth();
    match reset {
        Reset::Hard => Ok(Candidate::Record(clean_at(own, *root))),
        Reset::Tables(tables) => reset_tables(alloc, draft, own, root, tables),
    }
}

/// The record at its head with this database, and no merge.
fn clean_at(own: &BranchRecord, root: Address) -> BranchRecord
    ensures { result ≡ record { head = own.now.head; working = root; staged = root; merging = None } }
{
    BranchRecord {
        head: own.head,
        working: root,
        staged: root,
        merging: None,
    }
}
