//! DOLT_COMMIT's decision, planned on a look.

ghost use Rattle.std.specs.Prelude.{◌≡◌, ◌≤◌, ◌≤ℤ◌, Bool, IfErr, IfOk, Ok, length, pos, true};
ghost use Rattle.chunk_store.specs.Clashes.{IsReason};
ghost use Rattle.chunk_store.specs.Drafts.{Grows, IsNamed, chunks_of};
ghost use Rattle.chunk_store.specs.Kinds.{is_data};
ghost use Rattle.chunk_store.specs.Laws.{ChunksFollow, DraftsFollow, DraftsGrow};
ghost use Rattle.schema_model.specs.PlainCommits.{Commits};
ghost use Rattle.script_text.specs.Collisions.{IsFault};
ghost use Rattle.sql_procedures.specs.Arguments.{is_message};
ghost use Rattle.table_root.specs.Standing.{DatabasesStand};
ghost use Rattle.plain_sessions.specs.CommitRule.{decide};
ghost use Rattle.plain_sessions.specs.Merging.{Closes, Committing};
ghost use Rattle.plain_sessions.specs.Moments.{closed};
ghost use Rattle.plain_sessions.specs.Records.{BranchState, Shared, commit_on};
ghost use Rattle.plain_sessions.specs.Sessions as plain;
ghost use Rattle.plain_sessions.specs.Statements.{worked};
ghost use Rattle.plain_sessions.specs.declared.commands.Work.TheVariants as work;
ghost use Rattle.root_merge.specs.Deciding.{set};
ghost use Rattle.root_merge.specs.States.{IsCandidate};
ghost use Rattle.session_state.specs.Laws.{CommitsFollow, RecordsFollow};
ghost use Rattle.session_plan.specs.Answering.{Decides};
ghost use Rattle.session_plan.specs.Committing.{CanCommit, parents_on};
ghost use Rattle.shared_db.specs.Plans.{PlanIs};
ghost use Rattle.branch_procs.specs.Committing.{CanDecide, IsCommitted, staged_in};

use crate::making::staged_for;
use crate::replying::hash_reply;
use chunk_store::{Draft, PutFault, law_of_chunks, law_of_drafts, law_of_growth};
use root_merge::{Candidate, candidate};
use session_plan::{refused, sealed, work_of, written};
use session_state::{Session, law_of_records, law_of_standing_commits};
use shared_db::DecisionPlan;
use sql_procedures::{CommitRequest, Staging};
use std::alloc::Global;
use table_root::{Look, law_of_databases};
use tuple_codec::{Address, BranchRecord, Digester, Text};

/// What a DOLT_COMMIT decides on the branch as the session looks at it, where it isn't refused before its decision. The session stays as it was: where
/// the branch has moved on before this is settled, it plans anew.
pub fn plan_dolt_commit<D: Digester>(
    alloc: Global,
    session: &Session<D>,
    request: &CommitRequest,
    look: &Look,
    epoch: i64,
) -> Result<DecisionPlan, PutFault>
    requires decides { (p : plain.Session) × (t : plain.Transaction) × (shared : Shared) × (present : BranchState) × Decides D.address session.now look.now p t shared present }
    requires date { pos 0 ≤ℤ epoch }
    requires message { is_message request.now.message ≡ true }
    ensures planned { (p : plain.Session) (t : plain.Transaction) (shared : Shared) (present own : BranchState) → Decides D.address session.now look.now p t shared present
        → worked p t (work.Commit request.now) ≡ Ok (Closes (Committing own request.now.message))
        → IfOk result (λ plan. PlanIs D.address look.now shared.commits plan (closed D.address epoch shared.commits p t present (Committing own request.now.message))) }
    ensures fault { IfErr result (IsFault D.address) }
{
    laws();
    let Some(start) = &session.start else {
        return Err(PutFault::Memory);
    };
    let mut work = work_of(session, look)?;
    let made = decided(
        alloc,
        &mut work,
        &start.rec,
        &look.rec,
        session,
        request.staging,
    );
    work.tell();
    match made? {
        Candidate::Refused(number) => Ok(refused(number)),
        Candidate::Record(rec) => committed(
            alloc,
            work,
            &rec,
            &look.rec.head,
            &session.name,
            &request.message,
            epoch,
        ),
    }
}

/// What the commit rule makes of the own record with the tables that the commit stages first.
fn decided<D: Digester>(
    alloc: Global,
    work: &mut Draft<D>,
    start: &BranchRecord,
    present: &BranchRecord,
    session: &Session<D>,
    staging: Staging,
) -> Result<Candidate, PutFault>
    requires { (commits : Commits) × (s p o : BranchState) × CanDecide D.address work.old.chunks start.now present.now session.now.own commits s p o }
    ensures is { (commits : Commits) (s p o : BranchState) (autocommit : Bool) → CanDecide D.address work.old.chunks start.now present.now session.now.own commits s p o
        → IfOk result (λ made. IsCandidate D.address (chunks_of work.new.chunks) made (decide s p (staged_in commits staging o) (set autocommit session.now.allow session.now.force))) }
    ensures grows { Grows is_data work.old work.new }
    ensures cause { IfErr result (IsReason D.address (chunks_of work.new.chunks)) }
{
    laws();
    let own = staged_for(alloc, work, &session.own, staging)?;
    let made = candidate(
        alloc,
        work,
        start,
        present,
        &own,
        session.allow,
        session.force,
    )?;
    Ok(made)
}

/// Writes the commit, and plans the record that is at it.
fn committed<D: Digester>(
    alloc: Global,
    mut work: Draft<D>,
    rec: &BranchRecord,
    present: &Address,
    committer: &Text,
    message: &Text,
    epoch: i64,
) -> Result<DecisionPlan, PutFault>
    requires can { (commits : Commits) × (state : BranchState) × CanCommit D.address work.chunks rec.now present.now commits state }
    requires committer { length committer.now ≤ 32 }
    requires date { pos 0 ≤ℤ epoch }
    requires message { length message.now ≤ 8192 }
    requires named { IsNamed D.address work.chunks }
    ensures planned { (commits : Commits) (state : BranchState) → CanCommit D.address work.chunks rec.now present.now commits state
        → IfOk result (λ plan. IsCommitted D.address work (commit_on commits epoch committer.now state.staged (parents_on present.now state) message.now) rec.now plan) }
    ensures fault { IfErr result (IsFault D.address) }
{
    laws();
    let made = written(alloc, &mut work, rec, present, committer, message, epoch);
    work.tell();
    let head = made?;
    let reply = hash_reply(alloc, &head)?;
    sealed(work, at_commit(rec, head), reply)
}

/// The record at its commit: nothing is being merged.
fn at_commit(rec: &BranchRecord, head: Address) -> BranchRecord
    ensures { result ≡ record { head = head; working = rec.now.working; staged = rec.now.staged; merging = None } }
{
    BranchRecord {
        head,
        working: rec.working,
        staged: rec.staged,
        merging: None,
    }
}

/// What follows of chunks, drafts, databases, records and commits.
fn laws()
    ensures chunks { ChunksFollow }
    ensures drafts { DraftsFollow }
    ensures growth { DraftsGrow }
    ensures databases { DatabasesStand }
    ensures records { RecordsFollow }
    ensures commits { CommitsFollow }
{
    law_of_chunks();
    law_of_drafts();
    law_of_growth();
    law_of_databases();
    law_of_records();
    law_of_standing_commits();
}
