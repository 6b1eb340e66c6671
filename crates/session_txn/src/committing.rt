//! Decisions by the commit rule, planned on a look.

ghost use Rattle.std.specs.Prelude.{◌≡◌, IfErr, IfOk, IfSome};
ghost use Rattle.std.specs.Arc.{arc_value};
ghost use Rattle.chunk_store.specs.Drafts.{chunks_of};
ghost use Rattle.chunk_store.specs.Laws.{ChunksFollow, DraftsFollow};
ghost use Rattle.script_text.specs.Collisions.{IsFault};
ghost use Rattle.plain_sessions.specs.Moments.{ruled};
ghost use Rattle.plain_sessions.specs.Records.{BranchState, Shared};
ghost use Rattle.plain_sessions.specs.Replies.{done};
ghost use Rattle.plain_sessions.specs.Sessions as plain;
ghost use Rattle.root_merge.specs.States.{HasBranchState};
ghost use Rattle.session_state.specs.Laws.{CommitsFollow, RecordsFollow};
ghost use Rattle.session_plan.specs.Answering.{Decides};
ghost use Rattle.session_txn.specs.Committing.{IsDecisionFor, IsOwnFor};
ghost use Rattle.shared_db.specs.Plans.{PlanIs};

use chunk_store::{PutFault, Segment, law_of_chunks, law_of_drafts};
use root_merge::{Candidate, candidate, unmoved_candidate};
use script_text::Reply;
use session_plan::{refused, sealed, work_of};
use session_state::{Session, law_of_records, law_of_standing_commits};
use shared_db::{DecisionPlan, RecordChange};
use std::alloc::Global;
use std::sync::Arc;
use table_root::Look;
use tuple_codec::{BranchRecord, Digester};

/// What COMMIT decides on the branch as the session looks at it. The session stays as it was: where the branch has moved on before this is
/// settled, it plans anew.
pub fn plan_commit<D: Digester>(
    alloc: Global,
    session: &Session<D>,
    look: &Look,
) -> Result<DecisionPlan, PutFault>
    requires { (p : plain.Session) × (t : plain.Transaction) × (shared : Shared) × (present : BranchState) × Decides D.address session.now look.now p t shared present }
    ensures planned { (p : plain.Session) (t : plain.Transaction) (shared : Shared) (present : BranchState) → Decides D.address session.now look.now p t shared present
        → IfOk result (λ plan. PlanIs D.address look.now shared.commits plan (ruled p t present done)) }
    ensures fault { IfErr result (IsFault D.address) }
{
    let Some(start) = &session.start else {
        return Err(PutFault::Memory);
    };
    if look.rec == start.rec {
        plan_own(alloc, session, look)
    } else {
        plan_merged(alloc, session, look)
    }
}

/// The decision where the branch has the record on which the transaction began: its own becomes the branch's, with the session's own chunks.
fn plan_own<D: Digester>(
    alloc: Global,
    session: &Session<D>,
    look: &Look,
) -> Result<DecisionPlan, PutFault>
    requires decides { (p : plain.Session) × (t : plain.Transaction) × (shared : Shared) × (present : BranchState) × Decides D.address session.now look.now p t shared present }
    requires unmoved { IfSome session.now.start (λ start. look.now.rec ≡ start.rec) }
    requires own { HasBranchState D.address (chunks_of session.now.draft.chunks) session.now.own }
    ensures planned { (p : plain.Session) (t : plain.Transaction) (shared : Shared) (present : BranchState) → Decides D.address session.now look.now p t shared present
        → IfOk result (λ plan. PlanIs D.address look.now shared.commits plan (ruled p t present done)) }
    ensures fault { IfErr result (IsFault D.address) }
{
    laws();
    session.draft.tell();
    let sealed = sealed_own(session, look)?;
    let made = unmoved_candidate(
        alloc,
        &session.draft,
        &session.own,
        session.allow,
        session.force,
    )?;
    match made {
        Candidate::Refused(number) => Ok(refused(number)),
        Candidate::Record(rec) => Ok(decision(rec, sealed)),
    }
}

/// The session's own chunks, sealed to be appended to the look's store.
fn sealed_own<D: Digester>(session: &Session<D>, look: &Look) -> Result<Arc<Segment>, PutFault>
    requires { (p : plain.Session) × (t : plain.Transaction) × (shared : Shared) × (present : BranchState) × Decides D.address session.now look.now p t shared present }
    ensures sealed { IfOk result (λ sealed. IsOwnFor session.now look.now (arc_value sealed)) }
    ensures fault { IfErr result (IsFault D.address) }
{
    law_of_chunks();
    look.store.tell();
    session.draft.tell();
    session.draft.sealed_for(&look.store)
}

/// A decision for this record, with what was sealed.
fn decision(rec: BranchRecord, sealed: Arc<Segment>) -> DecisionPlan
    ensures { IsDecisionFor rec (arc_value sealed) result }
{
    DecisionPlan {
        change: RecordChange::Record(rec),
        reply: Reply::Done,
        sealed: Some(sealed),
    }
}

/// The decision where the branch has moved on: what it has now and the transaction's own are merged, in a draft over the look's store.
fn plan_merged<D: Digester>(
    alloc: Global,
    session: &Session<D>,
    look: &Look,
) -> Result<DecisionPlan, PutFault>
    requires { (p : plain.Session) × (t : plain.Transaction) × (shared : Shared) × (present : BranchState) × Decides D.address session.now look.now p t shared present }
    ensures planned { (p : plain.Session) (t : plain.Transaction) (shared : Shared) (present : BranchState) → Decides D.address session.now look.now p t shared present
        → IfOk result (λ plan. PlanIs D.address look.now shared.commits plan (ruled p t present done)) }
    ensures fault { IfErr result (IsFault D.address) }
{
    laws();
    let Some(start) = &session.start else {
        return Err(PutFault::Memory);
    };
    let mut work = work_of(session, look)?;
    let made = candidate(
        alloc,
        &mut work,
        &start.rec,
        &look.rec,
        &session.own,
        session.allow,
        session.force,
    );
    work.tell();
    match made? {
        Candidate::Refused(number) => Ok(refused(number)),
        Candidate::Record(rec) => sealed(work, rec, Reply::Done),
    }
}

/// What follows of chunks, drafts, records and commits.
fn laws()
    ensures chunks { ChunksFollow }
    ensures drafts { DraftsFollow }
    ensures records { RecordsFollow }
    ensures commits { CommitsFollow }
{
    law_of_chunks();
    law_of_drafts();
    law_of_records();
    law_of_standing_commits();
}
