//! What DOLT_COMMIT stages first, and whether it has its decision.

ghost use Rattle.std.specs.Prelude.{◌≡◌, IfErr, IfOk, Some, is_some};
ghost use Rattle.schema_model.specs.PlainTables.{PlainDatabase};
ghost use Rattle.chunk_store.specs.Drafts.{chunks_of};
ghost use Rattle.chunk_store.specs.declared.faults.PutFault.TheVariants.{Memory};
ghost use Rattle.plain_sessions.specs.Branching.{says_something, staged_first, to_commit};
ghost use Rattle.plain_sessions.specs.Records.{BranchState};
ghost use Rattle.plain_sessions.specs.Sessions as plain;
ghost use Rattle.plain_sessions.specs.Statements.{worked};
ghost use Rattle.plain_sessions.specs.declared.commands.Work.TheVariants as work;
ghost use Rattle.session_state.specs.Standing.{IsInTransaction, SessionStands};
ghost use Rattle.sql_procedures.specs.declared.requests.Staging.TheVariants as staging;
ghost use Rattle.branch_procs.specs.Closing.{IsVerdict};
ghost use Rattle.branch_procs.specs.Listing.{AreFewTables};
ghost use Rattle.branch_procs.specs.Staging.{StandsOn, are_same, is_same};
ghost use Rattle.session_plan.specs.Calls.{refusal_of};

use crate::listing::read_tables;
use crate::opening::any_is_open;
use crate::taking::take_named;
use chunk_store::{Draft, PutFault};
use schema_model::law_of_sameness;
use session_plan::head_root;
use session_state::Session;
use sql_procedures::{CommitRequest, Staging};
use sql_write::laws_of_growth;
use std::alloc::{AllocError, Global};
use table_root::TableEntry;
use tuple_codec::{Address, BranchRecord, Digester};

/// The staged tables, with the working ones in place of those that staged or the head names.
fn known_staged<D: Digester>(
    alloc: Global,
    draft: &Draft<D>,
    own: &BranchRecord,
    root: &Address,
) -> Result<Vec<TableEntry>, AllocError>
    requires { (state : BranchState) × (database : PlainDatabase) × StandsOn D.address (chunks_of draft.now.chunks) own.now root.now state database }
    ensures { (state : BranchState) (database : PlainDatabase) → StandsOn D.address (chunks_of draft.now.chunks) own.now root.now state database
        → IfOk result (λ made. AreFewTables D.address (chunks_of draft.now.chunks) made.items (staged_first database staging.Known state)) }
{
    let working = read_tables(alloc, draft, &own.working)?;
    let staged = read_tables(alloc, draft, &own.staged)?;
    let names = read_tables(alloc, draft, &own.staged)?;
    let head = read_tables(alloc, draft, root)?;
    let made = take_named(alloc, working.as_slice(), staged, names.as_slice())?;
    take_named(alloc, working.as_slice(), made, head.as_slice())
}

/// The tables that are staged for a commit.
pub(crate) fn first_staged<D: Digester>(
    alloc: Global,
    draft: &Draft<D>,
    own: &BranchRecord,
    root: &Address,
    staging: Staging,
) -> Result<Vec<TableEntry>, AllocError>
    requires { (state : BranchState) × (database : PlainDatabase) × StandsOn D.address (chunks_of draft.now.chunks) own.now root.now state database }
    ensures { (state : BranchState) (database : PlainDatabase) → StandsOn D.address (chunks_of draft.now.chunks) own.now root.now state database
        → IfOk result (λ made. AreFewTables D.address (chunks_of draft.now.chunks) made.items (staged_first database staging state)) }
{
    match staging {
        Staging::AsIs => read_tables(alloc, draft, &own.staged),
        Staging::Known => known_staged(alloc, draft, own, root),
        Staging::All => read_tables(alloc, draft, &own.working),
    }
}

/// Whether two lists name the same tables.
fn are_same(ones: &[TableEntry], others: &[TableEntry]) -> bool
    ensures { result ≡ are_same ones.now others.now }
{
    match ones {
        [] => others.is_empty(),
        [one, ones @ ..] => match others {
            [] => false,
            [other, others @ ..] => is_same(one, other) && are_same(ones, others),
        },
    }
}

fn is_same(one: &TableEntry, other: &TableEntry) -> bool
    ensures { result ≡ is_same one.now other.now }
{
    one.name.as_slice() == other.name.as_slice() && one.table == other.table
}

fn is_merging(own: &BranchRecord) -> bool
    ensures { result ≡ is_some own.now.merging }
{
    own.merging.is_some()
}

/// Whether a commit of these tables says something that the head doesn't.
fn says_something<D: Digester>(
    alloc: Global,
    draft: &Draft<D>,
    own: &BranchRecord,
    root: &Address,
    request: &CommitRequest,
) -> Result<bool, AllocError>
    requires { (state : BranchState) × (database : PlainDatabase) × StandsOn D.address (chunks_of draft.now.chunks) own.now root.now state database }
    ensures { (state : BranchState) (database : PlainDatabase) → StandsOn D.address (chunks_of draft.now.chunks) own.now root.now state database
        → IfOk result (λ found. found ≡ says_something database request.now (record state { staged = staged_first database request.now.staging state })) }
{
    laws_of_growth();
    law_of_sameness();
    let merging = is_merging(own);
    if merging {
        return Ok(true);
    }
    let allowed = request.allow_empty;
    if allowed {
        return Ok(true);
    }
    let staged = first_staged(alloc, draft, own, root, request.staging)?;
    let head = read_tables(alloc, draft, root)?;
    Ok(!are_same(staged.as_slice(), head.as_slice()))
}

/// Why a DOLT_COMMIT is refused before its decision.
fn commit_refusal<D: Digester>(
    alloc: Global,
    draft: &Draft<D>,
    own: &BranchRecord,
    root: &Address,
    request: &CommitRequest,
) -> Result<Option<u16>, AllocError>
    requires { (state : BranchState) × (database : PlainDatabase) × StandsOn D.address (chunks_of draft.now.chunks) own.now root.now state database }
    ensures { (state : BranchState) (database : PlainDatabase) → StandsOn D.address (chunks_of draft.now.chunks) own.now root.now state database
        → IfOk result (λ found. found ≡ refusal_of (to_commit database request.now state)) }
{
    let working = read_tables(alloc, draft, &own.working)?;
    let open = any_is_open(alloc, draft, working.as_slice())?;
    if open {
        return Ok(Some(9011));
    }
    let says = says_something(alloc, draft, own, root, request)?;
    if says {
        return Ok(None);
    }
    Ok(Some(9007))
}

/// Whether a DOLT_COMMIT has its decision: none where it has, else the number by which it is refused before it.
pub fn commit_closes<D: Digester>(
    alloc: Global,
    session: &Session<D>,
    request: &CommitRequest,
) -> Result<Option<u16>, PutFault>
    requires { IsInTransaction D.address session.now }
    ensures verdict { (p : plain.Session) (t : plain.Transaction) → SessionStands D.address session.now p → p.transaction ≡ Some t
        → IfOk result (λ found. IsVerdict found (worked p t (work.Commit request.now))) }
    ensures fault { IfErr result (λ fault. fault ≡ Memory) }
{
    let root = head_root(alloc, &session.draft, &session.own.head)?;
    let found = commit_refusal(alloc, &session.draft, &session.own, &root, request)?;
    Ok(found)
}
