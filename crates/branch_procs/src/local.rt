//! DOLT_ADD and DOLT_RESET of a session in a transaction.

ghost use Rattle.std.specs.Prelude.{◌≡◌, ◌≤◌, IfErr, IfOk, true};
ghost use Rattle.schema_model.specs.PlainCommits.{Commits};
ghost use Rattle.chunk_store.specs.Clashes.{IsReason};
ghost use Rattle.chunk_store.specs.Drafts.{Grows, IsNamed, chunks_of, pages_in};
ghost use Rattle.chunk_store.specs.Kinds.{is_database};
ghost use Rattle.chunk_store.specs.Laws.{ChunksFollow, DraftsFollow, DraftsGrow};
ghost use Rattle.script_text.specs.Collisions.{TellsTruly};
ghost use Rattle.plain_sessions.specs.Moments.{is_in_transaction};
ghost use Rattle.plain_sessions.specs.Records.{BranchState, root_of};
ghost use Rattle.plain_sessions.specs.Replies.{is_refusal};
ghost use Rattle.plain_sessions.specs.Sessions as plain;
ghost use Rattle.plain_sessions.specs.declared.commands.Command.TheVariants as command;
ghost use Rattle.root_merge.specs.States.{IsCandidate};
ghost use Rattle.session_state.specs.Laws.{RecordsFollow, TransactionsFollow};
ghost use Rattle.session_state.specs.Standing.{IsInTransaction, SessionStands};
ghost use Rattle.session_plan.specs.Answering.{AnswersAlone};
ghost use Rattle.session_plan.specs.Showing.{is_sound_reply};
ghost use Rattle.branch_procs.specs.Calls.{IsTold, Settles, Stages, staged_by, stages};
ghost use Rattle.session_plan.specs.Calls.{OwnStands, status_reply};

use crate::staging::{add, reset_to};
use chunk_store::{Draft, DraftMark, PutFault, law_of_chunks, law_of_drafts, law_of_growth};
use plain_sessions::Work;
use root_merge::Candidate;
use script_text::Reply;
use session_plan::{due, head_root, status_reply};
use session_state::{Session, law_of_records, law_of_transactions};
use std::alloc::Global;
use tuple_codec::{BranchRecord, Digester};

/// Answers a DOLT_ADD or a DOLT_RESET. Where it is refused, or there is no memory, the session is as it was, but that its pool may
/// have more pages.
pub fn branch_local<D: Digester>(alloc: Global, session: &mut Session<D>, asked: &Work) -> Reply
    requires stands { IsInTransaction D.address session.old }
    requires stages { stages asked.now ≡ true }
    ensures alone { (p : plain.Session) → SessionStands D.address session.old p → is_in_transaction p ≡ true
        → AnswersAlone D.address p (command.Data asked.now) session.new result }
    ensures sound { is_sound_reply result ≡ true }
    ensures truly { TellsTruly D.address result }
    ensures base { session.new.draft.chunks.base ≡ session.old.draft.chunks.base }
    ensures pages { pages_in session.old.draft ≤ pages_in session.new.draft }
    ensures same { is_refusal result ≡ true → session.new ≡ record session.old { draft = session.new.draft } }
    ensures draft { is_refusal result ≡ true → session.new.draft.chunks ≡ session.old.draft.chunks }
{
    match status_reply(alloc) {
        Ok(reply) => staged(alloc, session, asked, reply),
        Err(_) => Reply::Refused(1),
    }
}

/// Does the call, which is answered by this reply.
fn staged<D: Digester>(alloc: Global, session: &mut Session<D>, asked: &Work, reply: Reply) -> Reply
    requires stands { IsInTransaction D.address session.old }
    requires stages { stages asked.now ≡ true }
    requires reply { reply ≡ status_reply }
    ensures alone { (p : plain.Session) → SessionStands D.address session.old p → is_in_transaction p ≡ true
        → AnswersAlone D.address p (command.Data asked.now) session.new result }
    ensures sound { is_sound_reply result ≡ true }
    ensures truly { TellsTruly D.address result }
    ensures base { session.new.draft.chunks.base ≡ session.old.draft.chunks.base }
    ensures pages { pages_in session.old.draft ≤ pages_in session.new.draft }
    ensures same { is_refusal result ≡ true → session.new ≡ record session.old { draft = session.new.draft } }
    ensures draft { is_refusal result ≡ true → session.new.draft.chunks ≡ session.old.draft.chunks }
{
    laws();
    let mut own = session.own;
    let reply = stage(alloc, &mut session.draft, &mut own, asked, reply);
    session.own = own;
    reply
}

/// Does the call on the session's own record. Where nothing is done, the draft goes back to where it was.
fn stage<D: Digester>(
    alloc: Global,
    draft: &mut Draft<D>,
    own: &mut BranchRecord,
    asked: &Work,
    reply: Reply,
) -> Reply
    requires named { IsNamed D.address draft.old.chunks }
    requires stands { (commits : Commits) × (state : BranchState) × OwnStands D.address draft.old.chunks own.old commits state }
    requires stages { stages asked.now ≡ true }
    requires reply { reply ≡ status_reply }
    ensures stages { (commits : Commits) (state : BranchState) → OwnStands D.address draft.old.chunks own.old commits state
        → Stages D.address draft.old draft.new own.old own.new (staged_by (root_of commits state.head) asked.now state) result }
    ensures sound { is_sound_reply result ≡ true }
    ensures truly { TellsTruly D.address result }
    ensures base { draft.new.chunks.base ≡ draft.old.chunks.base }
    ensures pages { pages_in draft.old ≤ pages_in draft.new }
{
    laws();
    let mark = draft.mark();
    let made = made(alloc, draft, own, asked);
    draft.tell();
    match made {
        Ok(candidate) => settle(draft, mark, own, candidate, reply),
        Err(fault) => {
            draft.back_to(mark);
            told(fault)
        }
    }
}

/// Takes the record on, or goes back to the mark where there is none.
fn settle<D: Digester>(
    draft: &mut Draft<D>,
    mark: DraftMark,
    own: &mut BranchRecord,
    made: Candidate,
    reply: Reply,
) -> Reply
    requires { reply ≡ status_reply }
    ensures settles { Settles mark.own draft.old draft.new own.old own.new made result }
    ensures sound { is_sound_reply result ≡ true }
    ensures base { draft.new.chunks.base ≡ draft.old.chunks.base }
    ensures pages { pages_in draft.new ≡ pages_in draft.old }
{
    match made {
        Candidate::Record(rec) => {
            *own = rec;
            reply
        }
        Candidate::Refused(number) => {
            draft.back_to(mark);
            due(Reply::Refused(number), 1)
        }
    }
}

/// What the call makes of the session's own record.
fn made<D: Digester>(
    alloc: Global,
    draft: &mut Draft<D>,
    own: &BranchRecord,
    asked: &Work,
) -> Result<Candidate, PutFault>
    requires stands { (commits : Commits) × (state : BranchState) × OwnStands D.address draft.old.chunks own.now commits state }
    requires stages { stages asked.now ≡ true }
    ensures is { (commits : Commits) (state : BranchState) → OwnStands D.address draft.old.chunks own.now commits state
        → IfOk result (λ made. IsCandidate D.address (chunks_of draft.new.chunks) made (staged_by (root_of commits state.head) asked.now state)) }
    ensures grows { Grows is_database draft.old draft.new }
    ensures cause { IfErr result (IsReason D.address (chunks_of draft.new.chunks)) }
{
    law_of_growth();
    match asked {
        Work::Add(tables) => add(alloc, draft, own, tables),
        Work::ResetTo(reset) => {
            let root = head_root(alloc, draft, &own.head)?;
            reset_to(alloc, draft, own, &root, reset)
        }
        _ => Err(PutFault::Memory),
    }
}

/// Why nothing was done, as a reply.
fn told(fault: PutFault) -> Reply
    ensures told { IsTold fault result }
    ensures sound { is_sound_reply result ≡ true }
{
    match fault {
        PutFault::Memory => Reply::Refused(1),
        PutFault::Collision(clash) => Reply::collided(clash),
    }
}

/// What holds of drafts and of transactions in them, for proofs. It does nothing.
fn laws()
    ensures chunks { ChunksFollow }
    ensures drafts { DraftsFollow }
    ensures growth { DraftsGrow }
    ensures records { RecordsFollow }
    ensures transactions { TransactionsFollow }
{
    law_of_chunks();
    law_of_drafts();
    law_of_growth();
    law_of_records();
    law_of_transactions();
}
