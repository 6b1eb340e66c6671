//! Calls that a session answers by itself.

ghost use Rattle.std.specs.Prelude.{◌≡◌, ◌≤◌, IfErr, IfOk, Some, true};
ghost use Rattle.chunk_store.specs.Clashes.{IsReason};
ghost use Rattle.chunk_store.specs.Drafts.{Grows, chunks_of, pages_in};
ghost use Rattle.chunk_store.specs.Kinds.{is_data};
ghost use Rattle.chunk_store.specs.Laws.{ChunksFollow, DraftsFollow, DraftsGrow};
ghost use Rattle.plain_sessions.specs.Moments.{is_in_transaction};
ghost use Rattle.plain_sessions.specs.Replies.{is_refusal};
ghost use Rattle.plain_sessions.specs.Sessions as plain;
ghost use Rattle.plain_sessions.specs.Statements.{worked};
ghost use Rattle.plain_sessions.specs.declared.commands.Command.TheVariants as command;
ghost use Rattle.plain_sessions.specs.declared.commands.Work.TheVariants as work;
ghost use Rattle.script_text.specs.Collisions.{TellsTruly};
ghost use Rattle.session_state.specs.Laws.{RecordsFollow, TransactionsFollow};
ghost use Rattle.session_state.specs.Standing.{IsInTransaction, SessionStands};
ghost use Rattle.session_plan.specs.Answering.{AnswersAlone};
ghost use Rattle.session_plan.specs.Showing.{is_sound_reply};
ghost use Rattle.merge_procs.specs.Steps.{IsSame, IsStep, merges};

use crate::courses::{MergeCourse, find_course};
use crate::resolving::resolved;
use crate::steps::{Step, go_back, is_made, settle};
use crate::verifying::verified;
use chunk_store::{PutFault, law_of_chunks, law_of_drafts, law_of_growth};
use plain_sessions::Work;
use script_text::Reply;
use session_state::{Session, law_of_records, law_of_transactions};
use sql_procedures::MergeRequest;
use std::alloc::Global;
use tuple_codec::Digester;

/// Answers a DOLT_MERGE that has no decision, a DOLT_CONFLICTS_RESOLVE or a DOLT_VERIFY_CONSTRAINTS. Where it is refused, or there is no memory, the session
/// is as it was, but that its pool may have more pages. A DOLT_MERGE that has its decision is answered want of memory here.
pub fn merge_local<D: Digester>(alloc: Global, session: &mut Session<D>, asked: &Work) -> Reply
    requires stands { IsInTransaction D.address session.old }
    requires merges { merges asked.now ≡ true }
    ensures alone { (p : plain.Session) → SessionStands D.address session.old p → is_in_transaction p ≡ true
        → AnswersAlone D.address p (command.Data asked.now) session.new result }
    ensures sound { is_sound_reply result ≡ true }
    ensures truly { TellsTruly D.address result }
    ensures base { session.new.draft.chunks.base ≡ session.old.draft.chunks.base }
    ensures pages { pages_in session.old.draft ≤ pages_in session.new.draft }
    ensures same { is_refusal result ≡ true → session.new ≡ record session.old { draft = session.new.draft } }
    ensures draft { is_refusal result ≡ true → session.new.draft.chunks ≡ session.old.draft.chunks }
{
    laws();
    let mark = session.draft.mark();
    let step = worked(alloc, session, asked);
    session.draft.tell();
    go_back(&mut session.draft, mark, is_made(&step));
    settle(session, step)
}

/// What the call makes of the session's own record. What it puts goes into the draft.
fn worked<D: Digester>(
    alloc: Global,
    session: &mut Session<D>,
    asked: &Work,
) -> Result<Step, PutFault>
    requires stands { IsInTransaction D.address session.old }
    requires merges { merges asked.now ≡ true }
    ensures is { (p : plain.Session) (t : plain.Transaction) → SessionStands D.address session.old p → p.transaction ≡ Some t
        → IfOk result (λ step. IsStep D.address (chunks_of session.new.draft.chunks) t.commits step (worked p t asked.now)) }
    ensures same { IsSame session.old session.new }
    ensures grows { Grows is_data session.old.draft session.new.draft }
    ensures cause { IfErr result (IsReason D.address (chunks_of session.new.draft.chunks)) }
{
    law_of_growth();
    match asked {
        Work::Merge(request) => merged(alloc, session, request),
        Work::Resolve(request) => {
            let own = session.own;
            resolved(alloc, &mut session.draft, &own, request)
        }
        Work::Verify(way) => {
            let own = session.own;
            verified(alloc, &mut session.draft, &own, *way)
        }
        _ => Err(PutFault::Memory),
    }
}

/// What a DOLT_MERGE that has no decision makes of it.
fn merged<D: Digester>(
    alloc: Global,
    session: &mut Session<D>,
    request: &MergeRequest,
) -> Result<Step, PutFault>
    requires { IsInTransaction D.address session.old }
    ensures is { (p : plain.Session) (t : plain.Transaction) → SessionStands D.address session.old p → p.transaction ≡ Some t
        → IfOk result (λ step. IsStep D.address (chunks_of session.new.draft.chunks) t.commits step (worked p t (work.Merge request.now))) }
    ensures same { IsSame session.old session.new }
    ensures grows { Grows is_data session.old.draft session.new.draft }
    ensures cause { IfErr result (IsReason D.address (chunks_of session.new.draft.chunks)) }
{
    match find_course(alloc, session, request)? {
        MergeCourse::Stays(step) => Ok(step),
        MergeCourse::Closes(_) => Err(PutFault::Memory),
    }
}

/// What holds of drafts and of transactions in them, for proofs. It does nothing.
fn laws()
    ensures chunks { ChunksFollow }
    ensures drafts { DraftsFollow }
    ensures growth { DraftsGrow }
    ensures records { RecordsFollow }
    ensures transactions { TransactionsFollow }
{
    law_of_chunks();
    law_of_drafts();
    law_of_growth();
    law_of_records();
    law_of_transactions();
}
