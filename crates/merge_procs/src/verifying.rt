//! DOLT_VERIFY_CONSTRAINTS.

ghost use Rattle.std.specs.Prelude.{◌≡◌, ◌∷◌, [], codes, pos, if◌then◌else◌, IfErr, IfOk, Ok};
ghost use Rattle.chunk_store.specs.Clashes.{IsReason};
ghost use Rattle.chunk_store.specs.Drafts.{Grows, chunks_of};
ghost use Rattle.chunk_store.specs.Laws.{DraftsFollow, DraftsGrow};
ghost use Rattle.schema_model.specs.PlainCommits.{Commits};
ghost use Rattle.schema_model.specs.PlainTables.{PlainDatabase};
ghost use Rattle.table_root.specs.Standing.{DatabasesStand};
ghost use Rattle.tuple_codec.specs.declared.values.Value.TheVariants as cell;
ghost use Rattle.chunk_store.specs.Kinds.{is_data};
ghost use Rattle.table_root.specs.Kept.{IsKeptAt};
ghost use Rattle.plain_sessions.specs.Merging.{verified, verify};
ghost use Rattle.plain_sessions.specs.Records.{BranchState};
ghost use Rattle.plain_sessions.specs.Replies.{number_field, one_row};
ghost use Rattle.session_state.specs.Records.{RecordStands};
ghost use Rattle.merge_procs.specs.Databases.{AreAllIn};
ghost use Rattle.merge_procs.specs.Steps.{IsStep};

use crate::databases::{all_violations, record_all};
use crate::steps::{Made, Step};
use chunk_store::{Draft, PutFault, law_of_drafts, law_of_growth};
use script_text::Reply;
use sql_procedures::Verification;
use std::alloc::{AllocError, Global};
use table_root::law_of_databases;
use tuple_codec::{Address, Answer, BranchRecord, Digester, Row, Sequence, SqlType, Text, Value};
use violation_lists::ListedViolation;

/// A row with the column `violations`, and whether there are any.
fn found_reply(alloc: Global, found: bool) -> Result<Reply, AllocError>
    ensures { IfOk result (λ reply. reply ≡ one_row (number_field (codes "violations") (if found then 1 else 0) ∷ [])) }
{
    let mut names = Sequence::new(alloc);
    names.push(Text::from_slice(alloc, b"violations")?)?;
    let mut kinds = Sequence::new(alloc);
    kinds.push(SqlType::BigInt)?;
    let mut rows = Sequence::new(alloc);
    rows.push(found_row(alloc, found)?)?;
    Ok(Reply::Rows(Answer { names, kinds, rows }))
}

fn found_row(alloc: Global, found: bool) -> Result<Row, AllocError>
    ensures { IfOk result (λ row. row ≡ cell.Int (pos (if found then 1 else 0)) ∷ []) }
{
    let mut row = Sequence::new(alloc);
    row.push(Value::Int(if found { 1 } else { 0 }))?;
    Ok(row)
}

/// The working database, with all violations recorded unless they are only to be told.
fn verified_root<D: Digester>(
    alloc: Global,
    draft: &mut Draft<D>,
    working: &Address,
    list: &[ListedViolation],
    way: Verification,
) -> Result<Address, PutFault>
    requires { (contents : PlainDatabase) × AreAllIn D.address (chunks_of draft.old.chunks) working.now.0 list.now contents }
    ensures stands { (contents : PlainDatabase) → AreAllIn D.address (chunks_of draft.old.chunks) working.now.0 list.now contents
        → IfOk result (λ at. IsKeptAt D.address (chunks_of draft.new.chunks) at.0 (verified way contents)) }
    ensures grows { Grows is_data draft.old draft.new }
    ensures cause { IfErr result (IsReason D.address (chunks_of draft.new.chunks)) }
{
    laws();
    match way {
        Verification::Recorded => record_all(alloc, draft, working, list),
        Verification::OutputOnly => Ok(*working),
    }
}

/// Tells whether the working database has violations, and records them all in place of those recorded unless they are only to be told.
pub(crate) fn verified<D: Digester>(
    alloc: Global,
    draft: &mut Draft<D>,
    own: &BranchRecord,
    way: Verification,
) -> Result<Step, PutFault>
    requires { (commits : Commits) × (state : BranchState) × RecordStands D.address (chunks_of draft.old.chunks) commits own.now state }
    ensures is { (commits : Commits) (state : BranchState) → RecordStands D.address (chunks_of draft.old.chunks) commits own.now state
        → IfOk result (λ step. IsStep D.address (chunks_of draft.new.chunks) commits step (Ok (verify way state))) }
    ensures grows { Grows is_data draft.old draft.new }
    ensures cause { IfErr result (IsReason D.address (chunks_of draft.new.chunks)) }
{
    laws();
    let list = all_violations(alloc, draft, &own.working)?;
    let reply = found_reply(alloc, !list.is_empty())?;
    let working = verified_root(alloc, draft, &own.working, list.as_slice(), way)?;
    let rec = BranchRecord {
        head: own.head,
        working,
        staged: own.staged,
        merging: own.merging,
    };
    Ok(Step::Made(Made { rec, reply }))
}

/// What goes on standing in drafts that grow, for proofs. It does nothing.
fn laws()
    ensures drafts { DraftsFollow }
    ensures growth { DraftsGrow }
    ensures databases { DatabasesStand }
{
    law_of_drafts();
    law_of_growth();
    law_of_databases();
}
