//! The steps of a decision: the draft in which one is worked, the commit, and the plan.

ghost use Rattle.std.specs.Prelude.{◌≤◌, ◌≤ℤ◌, IfErr, IfOk, length, pos};
ghost use Rattle.chunk_store.specs.Clashes.{IsReason};
ghost use Rattle.chunk_store.specs.Drafts.{Grows, chunks_of};
ghost use Rattle.chunk_store.specs.Kinds.{is_commit};
ghost use Rattle.schema_model.specs.PlainCommits.{Commits};
ghost use Rattle.script_text.specs.Collisions.{IsFault};
ghost use Rattle.plain_sessions.specs.Records.{BranchState, Shared, commit_on};
ghost use Rattle.plain_sessions.specs.Sessions as plain;
ghost use Rattle.session_plan.specs.Answering.{Decides};
ghost use Rattle.session_plan.specs.Committing.{CanCommit, IsCommitWritten, IsPlannedOf, IsWorkOf, parents_on};
ghost use Rattle.shared_db.specs.Plans.{IsRefusedBy};

use crate::making::new_commit;
use chunk_store::{Draft, PutFault, SealFault, law_of_chunks, law_of_growth};
use commit_graph::write_commit;
use script_text::Reply;
use session_state::Session;
use shared_db::{DecisionPlan, RecordChange};
use std::alloc::Global;
use table_root::Look;
use tuple_codec::{Address, BranchRecord, Digester, Text};

/// A draft over the look's store with the session's own chunks, in which to work on a decision: what stands in the session's draft stands in it, and so does
/// what the look shows.
pub fn work_of<D: Digester>(session: &Session<D>, look: &Look) -> Result<Draft<D>, PutFault>
    requires { (p : plain.Session) × (t : plain.Transaction) × (shared : Shared) × (present : BranchState) × Decides D.address session.now look.now p t shared present }
    ensures work { IfOk result (λ work. IsWorkOf session.now look.now work) }
    ensures fault { IfErr result (IsFault D.address) }
{
    law_of_chunks();
    look.store.tell();
    session.draft.tell();
    let store = look.store.share()?;
    session.draft.copied(store)
}

/// Writes the commit of the record's staged database, on the commit that is given and on the one that the record says is being merged. Only its chunk is
/// put, and none where it was there before.
pub fn written<D: Digester>(
    alloc: Global,
    work: &mut Draft<D>,
    rec: &BranchRecord,
    present: &Address,
    committer: &Text,
    message: &Text,
    epoch: i64,
) -> Result<Address, PutFault>
    requires can { (commits : Commits) × (state : BranchState) × CanCommit D.address work.old.chunks rec.now present.now commits state }
    requires committer { length committer.now ≤ 32 }
    requires date { pos 0 ≤ℤ epoch }
    requires message { length message.now ≤ 8192 }
    ensures written { (commits : Commits) (state : BranchState) → CanCommit D.address work.old.chunks rec.now present.now commits state
        → IfOk result (λ k. IsCommitWritten D.address work.old.chunks work.new.chunks (commit_on commits epoch committer.now state.staged (parents_on present.now state) message.now) k) }
    ensures grows { Grows is_commit work.old work.new }
    ensures cause { IfErr result (IsReason D.address (chunks_of work.new.chunks)) }
{
    law_of_growth();
    let commit = new_commit(alloc, work, rec, present, committer, message, epoch)?;
    let k = write_commit(alloc, work, &commit)?;
    Ok(k)
}

/// A decision for this record, with all that was worked in the draft.
pub fn sealed<D: Digester>(
    work: Draft<D>,
    rec: BranchRecord,
    reply: Reply,
) -> Result<DecisionPlan, PutFault>
    ensures sealed { IfOk result (λ plan. IsPlannedOf work rec reply plan) }
    ensures fault { IfErr result (IsFault D.address) }
{
    match work.seal_own() {
        Ok((segment, _)) => Ok(DecisionPlan {
            change: RecordChange::Record(rec),
            reply,
            sealed: Some(segment),
        }),
        Err(SealFault::Memory(_)) => Err(PutFault::Memory),
    }
}

/// A decision that changes nothing, and answers this refusal.
pub fn refused(number: u16) -> DecisionPlan
    ensures { IsRefusedBy number result }
{
    DecisionPlan {
        change: RecordChange::Nothing,
        reply: Reply::Refused(number),
        sealed: None,
    }
}
