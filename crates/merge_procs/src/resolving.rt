//! DOLT_CONFLICTS_RESOLVE.

ghost use Rattle.std.specs.Prelude.{◌≡◌, IfErr, IfOk, length, nat_lt};
ghost use Rattle.schema_model.specs.PlainCommits.{Commits};
ghost use Rattle.schema_model.specs.Limits.{most_rows};
ghost use Rattle.schema_model.specs.PlainTables.{PlainDatabase, PlainTable};
ghost use Rattle.chunk_store.specs.Clashes.{IsReason};
ghost use Rattle.chunk_store.specs.Drafts.{Grows, chunks_of};
ghost use Rattle.chunk_store.specs.Kinds.{is_data};
ghost use Rattle.table_root.specs.Standing.{AreThere, IsTableAt};
ghost use Rattle.plain_sessions.specs.Merging.{has_too_many_rows, names_meant, resolve};
ghost use Rattle.plain_sessions.specs.Records.{BranchState};
ghost use Rattle.plain_sessions.specs.Statements.{resolve_worked};
ghost use Rattle.session_state.specs.Records.{RecordStands};
ghost use Rattle.merge_procs.specs.Resolving.{CanJudge, CanResolve, first_absent, first_refusal, has_name};
ghost use Rattle.merge_procs.specs.Steps.{IsStep};

use crate::settling::settle_each;
use crate::steps::{Made, Step};
use crate::takings::{Flaw, take_flawed};
use chunk_store::{Draft, PutFault};
use constraint_scan::first_violation;
use prolly_tree::count;
use schema_model::limits::MOST_ROWS;
use session_plan::status_reply;
use session_state::law_of_records;
use sql_procedures::{Resolution, Tables};
use sql_write::{laws_of_growth, put_database, read_tables};
use std::alloc::{AllocError, Global};
use table_root::{TableEntry, read_table};
use tuple_codec::{Address, BranchRecord, Digester, Sequence, Text};

fn has_name(tables: &[TableEntry], name: &[u8]) -> bool
    ensures { result ≡ has_name tables.now name.now }
{
    tables.iter().any(|entry| entry.name.as_slice() == name)
}

/// Why one of these tables can't be settled: the database hasn't got it.
fn first_absent(tables: &[TableEntry], names: &[Text]) -> Option<u16>
    ensures { result ≡ first_absent tables.now names.now }
{
    for name in names {
        if !has_name(tables, name.as_slice()) {
            return Some(1146);
        }
    }
    None
}

fn absence(tables: &[TableEntry], meant: &Tables) -> Option<u16>
    ensures { result ≡ first_absent tables.now (names_meant meant.now) }
{
    match meant {
        Tables::All => None,
        Tables::Named(names) => first_absent(tables, names.as_slice()),
    }
}

/// Why nothing is settled, so far as is known before anything is.
fn first_refusal<D: Digester>(
    alloc: Global,
    draft: &Draft<D>,
    tables: &[TableEntry],
    request: &Resolution,
) -> Result<Option<u16>, AllocError>
    requires { (database : PlainDatabase) × AreThere D.address (chunks_of draft.now.chunks) database tables.now }
    ensures { (database : PlainDatabase) → AreThere D.address (chunks_of draft.now.chunks) database tables.now
        → IfOk result (λ found. found ≡ first_refusal request.now database) }
{
    let absent = absence(tables, &request.tables);
    if absent.is_some() {
        return Ok(absent);
    }
    let null = take_flawed(alloc, draft, Flaw::Null, tables, request)?;
    if null {
        return Ok(Some(1048));
    }
    let long = take_flawed(alloc, draft, Flaw::Long, tables, request)?;
    if long {
        return Ok(Some(9010));
    }
    Ok(None)
}

/// Whether a table has more rows than a table may have.
fn has_too_many<D: Digester>(
    alloc: Global,
    draft: &Draft<D>,
    address: &Address,
) -> Result<bool, AllocError>
    requires { (contents : PlainTable) × IsTableAt D.address (chunks_of draft.now.chunks) address.now.0 contents }
    ensures { (contents : PlainTable) → IsTableAt D.address (chunks_of draft.now.chunks) address.now.0 contents
        → IfOk result (λ found. found ≡ nat_lt most_rows (length contents.rows)) }
{
    laws_of_growth();
    let table = read_table(alloc, draft, address)?;
    let rows = count(draft, &table.rows);
    Ok(rows > MOST_ROWS)
}

/// Whether one of these tables has. There are few tables, so the calls don't go deep.
fn have_too_many<D: Digester>(
    alloc: Global,
    draft: &Draft<D>,
    tables: &[TableEntry],
) -> Result<bool, AllocError>
    requires { (database : PlainDatabase) × AreThere D.address (chunks_of draft.now.chunks) database tables.now }
    ensures { (database : PlainDatabase) → AreThere D.address (chunks_of draft.now.chunks) database tables.now
        → IfOk result (λ found. found ≡ has_too_many_rows database) }
{
    let [first, rest @ ..] = tables else {
        return Ok(false);
    };
    let found = has_too_many(alloc, draft, &first.table)?;
    if found {
        return Ok(true);
    }
    have_too_many(alloc, draft, rest)
}

/// The record with another working database.
fn with_working(own: &BranchRecord, working: Address) -> BranchRecord
    ensures { result ≡ record own.now { working = working } }
{
    BranchRecord {
        head: own.head,
        working,
        staged: own.staged,
        merging: own.merging,
    }
}

/// What the call comes to once its tables are settled, and stand at an address as a database: refused by the violations that it brings, then by the number of
/// rows.
fn judged<D: Digester>(
    alloc: Global,
    draft: &Draft<D>,
    own: &BranchRecord,
    made: &[TableEntry],
    root: Address,
) -> Result<Step, AllocError>
    requires { (commits : Commits) × (request : Resolution) × (state : BranchState) × (after : PlainDatabase)
        × CanJudge D.address (chunks_of draft.now.chunks) commits own.now made.now root request state after }
    ensures { (commits : Commits) (request : Resolution) (state : BranchState) (after : PlainDatabase)
        → CanJudge D.address (chunks_of draft.now.chunks) commits own.now made.now root request state after
        → IfOk result (λ step. IsStep D.address (chunks_of draft.now.chunks) commits step (resolve_worked state (resolve request state.working))) }
{
    let violated = first_violation(alloc, draft, &own.working, &root)?;
    match violated {
        Some(number) => Ok(Step::Refused(number)),
        None => {
            let many = have_too_many(alloc, draft, made)?;
            if many {
                return Ok(Step::Refused(9010));
            }
            let reply = status_reply(alloc)?;
            let rec = with_working(own, root);
            Ok(Step::Made(Made { rec, reply }))
        }
    }
}

/// Settles the tables that are meant, where nothing refuses it before.
fn settled<D: Digester>(
    alloc: Global,
    draft: &mut Draft<D>,
    own: &BranchRecord,
    tables: &[TableEntry],
    request: &Resolution,
) -> Result<Step, PutFault>
    requires { (commits : Commits) × (state : BranchState) × CanResolve D.address (chunks_of draft.old.chunks) commits own.now tables.now request.now state }
    ensures is { (commits : Commits) (state : BranchState) → CanResolve D.address (chunks_of draft.old.chunks) commits own.now tables.now request.now state
        → IfOk result (λ step. IsStep D.address (chunks_of draft.new.chunks) commits step (resolve_worked state (resolve request.now state.working))) }
    ensures grows { Grows is_data draft.old draft.new }
    ensures cause { IfErr result (IsReason D.address (chunks_of draft.new.chunks)) }
{
    laws_of_growth();
    law_of_records();
    let mut made = Sequence::new(alloc);
    settle_each(alloc, draft, tables, request, &mut made)?;
    let root = put_database(alloc, draft, made.as_slice())?;
    let step = judged(alloc, draft, own, made.as_slice(), root)?;
    Ok(step)
}

/// The tables that are meant lose their conflicts; for theirs each row in conflict becomes theirs.
pub(crate) fn resolved<D: Digester>(
    alloc: Global,
    draft: &mut Draft<D>,
    own: &BranchRecord,
    request: &Resolution,
) -> Result<Step, PutFault>
    requires { (commits : Commits) × (state : BranchState) × RecordStands D.address (chunks_of draft.old.chunks) commits own.now state }
    ensures is { (commits : Commits) (state : BranchState) → RecordStands D.address (chunks_of draft.old.chunks) commits own.now state
        → IfOk result (λ step. IsStep D.address (chunks_of draft.new.chunks) commits step (resolve_worked state (resolve request.now state.working))) }
    ensures grows { Grows is_data draft.old draft.new }
    ensures cause { IfErr result (IsReason D.address (chunks_of draft.new.chunks)) }
{
    laws_of_growth();
    let tables = read_tables(alloc, draft, &own.working)?;
    let refusal = first_refusal(alloc, draft, tables.as_slice(), request)?;
    match refusal {
        Some(number) => Ok(Step::Refused(number)),
        None => settled(alloc, draft, own, tables.as_slice(), request),
    }
}
