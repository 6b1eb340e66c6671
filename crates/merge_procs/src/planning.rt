//! DOLT_MERGE's decision, planned on a look.

ghost use Rattle.std.specs.Prelude.{◌≡◌, ◌≤◌, ◌≤ℤ◌, ◌∷◌, [], IfErr, IfOk, Ok, length, not, pos, true};
ghost use Rattle.chunk_store.specs.Chunks.{chunk_bytes};
ghost use Rattle.chunk_store.specs.Drafts.{IsNamed, chunks_of};
ghost use Rattle.chunk_store.specs.Laws.{ChunksFollow, DraftsFollow, DraftsGrow};
ghost use Rattle.schema_merge.specs.RootMerge.{MergedDatabase};
ghost use Rattle.plain_sessions.specs.Fitness.{is_fit_merge};
ghost use Rattle.plain_sessions.specs.Merging.{Closes, Ending, Joining, merge_message, merged_with};
ghost use Rattle.plain_sessions.specs.Moments.{closed, forwarded, unless_moved};
ghost use Rattle.plain_sessions.specs.Records.{BranchState, Shared, commit_on, is_same_state, root_of};
ghost use Rattle.plain_sessions.specs.Sessions as plain;
ghost use Rattle.plain_sessions.specs.Statements.{worked};
ghost use Rattle.plain_sessions.specs.declared.commands.Work.TheVariants as work;
ghost use Rattle.schema_model.specs.PlainCommits.{Commits, is_known};
ghost use Rattle.schema_model.specs.PlainTables.{PlainDatabase};
ghost use Rattle.script_text.specs.Collisions.{IsFault};
ghost use Rattle.session_state.specs.Commits.{CommitsAreThere};
ghost use Rattle.session_state.specs.Laws.{CommitsFollow, RecordsFollow};
ghost use Rattle.session_plan.specs.Answering.{Decides};
ghost use Rattle.session_plan.specs.Committing.{CanCommit, IsWorkOf, parents_on};
ghost use Rattle.shared_db.specs.Plans.{PlanIs};
ghost use Rattle.sql_procedures.specs.declared.requests.MergeRequest.TheVariants as merging;
ghost use Rattle.table_root.specs.Standing.{DatabasesStand};
ghost use Rattle.merge_procs.specs.Courses.{IsClosing, IsJoin, IsShort};
ghost use Rattle.merge_procs.specs.Databases.{merged_of};
ghost use Rattle.merge_procs.specs.Planning.{CanMergeRoots, IsForwarded, IsJoined, IsMergeCommitted, clean_record, joining_record};
ghost use Rattle.merge_procs.specs.Ways.{IsThree};

use crate::courses::{Closing, Joined};
use crate::databases::{Met, meet};
use crate::messages::merge_message;
use crate::replying::merge_reply;
use crate::ways::{Three, Way, find_way};
use chunk_store::{Draft, PutFault, law_of_chunks, law_of_drafts, law_of_growth};
use session_plan::{head_root, refused, sealed, work_of, written};
use session_state::{Session, law_of_records, law_of_standing_commits};
use shared_db::DecisionPlan;
use sql_procedures::{MergeOf, MergeRequest};
use std::alloc::Global;
use table_root::{Look, law_of_databases};
use tuple_codec::{Address, BranchRecord, Digester, Text};

/// Plans the decision of a DOLT_MERGE that was found. Where the branch isn't as it was at the transaction's start, it is refused 1213. The session stays as it
/// was: where the branch has moved on before this is settled, it plans anew, and nothing is merged for it again.
pub fn plan_closing<D: Digester>(
    alloc: Global,
    session: &Session<D>,
    closing: &Closing,
    look: &Look,
    epoch: i64,
) -> Result<DecisionPlan, PutFault>
    requires decides { (p : plain.Session) × (t : plain.Transaction) × (shared : Shared) × (present : BranchState) × (ending : Ending) × Decides D.address session.now look.now p t shared present
        × IsClosing D.address (chunks_of session.now.draft.chunks) t.commits closing.now ending }
    requires short { IsShort closing.now }
    requires date { pos 0 ≤ℤ epoch }
    ensures planned { (p : plain.Session) (t : plain.Transaction) (shared : Shared) (present : BranchState) (ending : Ending) → Decides D.address session.now look.now p t shared present
        → IsClosing D.address (chunks_of session.now.draft.chunks) t.commits closing.now ending
        → IfOk result (λ plan. PlanIs D.address look.now shared.commits plan (closed D.address epoch shared.commits p t present ending)) }
    ensures fault { IfErr result (IsFault D.address) }
{
    match closing {
        Closing::Forward(other) => plan_forward(alloc, session, look, *other),
        Closing::Join(merged) => plan_joined(alloc, session, look, merged, epoch),
    }
}

/// The commit of the database that was merged, unless the branch has moved.
fn plan_joined<D: Digester>(
    alloc: Global,
    session: &Session<D>,
    look: &Look,
    merged: &Joined,
    epoch: i64,
) -> Result<DecisionPlan, PutFault>
    requires decides { (p : plain.Session) × (t : plain.Transaction) × (shared : Shared) × (present : BranchState) × (ending : Ending) × Decides D.address session.now look.now p t shared present
        × IsJoin D.address (chunks_of session.now.draft.chunks) t.commits merged.now ending }
    requires short { length merged.now.message ≤ 8192 }
    requires date { pos 0 ≤ℤ epoch }
    ensures planned { (p : plain.Session) (t : plain.Transaction) (shared : Shared) (present : BranchState) (ending : Ending) → Decides D.address session.now look.now p t shared present
        → IsJoin D.address (chunks_of session.now.draft.chunks) t.commits merged.now ending
        → IfOk result (λ plan. PlanIs D.address look.now shared.commits plan (closed D.address epoch shared.commits p t present ending)) }
    ensures fault { IfErr result (IsFault D.address) }
{
    laws();
    let work = work_of(session, look)?;
    if is_moved(session, look, &work) {
        return Ok(refused(1213));
    }
    joined(
        alloc,
        work,
        &joining(session.own.head, merged.root, merged.other),
        &session.name,
        &merged.message,
        epoch,
    )
}

/// The same of a DOLT_MERGE whose way is still to be found: what is merged is merged in a draft of the plan's own. A merge that is neither a fast-forward nor
/// clean is answered want of memory here.
pub fn plan_merge<D: Digester>(
    alloc: Global,
    session: &Session<D>,
    request: &MergeRequest,
    look: &Look,
    epoch: i64,
) -> Result<DecisionPlan, PutFault>
    requires decides { (p : plain.Session) × (t : plain.Transaction) × (shared : Shared) × (present : BranchState) × Decides D.address session.now look.now p t shared present }
    requires date { pos 0 ≤ℤ epoch }
    requires fit { is_fit_merge request.now ≡ true }
    ensures planned { (p : plain.Session) (t : plain.Transaction) (shared : Shared) (present : BranchState) (ending : Ending) → Decides D.address session.now look.now p t shared present
        → worked p t (work.Merge request.now) ≡ Ok (Closes ending)
        → IfOk result (λ plan. PlanIs D.address look.now shared.commits plan (closed D.address epoch shared.commits p t present ending)) }
    ensures fault { IfErr result (IsFault D.address) }
{
    let MergeRequest::Merge(merge) = request else {
        return Err(PutFault::Memory);
    };
    match find_way(alloc, session, merge)? {
        Way::Forward(other) => plan_forward(alloc, session, look, other),
        Way::Merge(three) => plan_join(alloc, session, look, &three, merge, epoch),
        Way::Refused(_) | Way::UpToDate => Err(PutFault::Memory),
    }
}

/// A fast-forward to the other commit, unless the branch has moved.
fn plan_forward<D: Digester>(
    alloc: Global,
    session: &Session<D>,
    look: &Look,
    other: Address,
) -> Result<DecisionPlan, PutFault>
    requires decides { (p : plain.Session) × (t : plain.Transaction) × (shared : Shared) × (present : BranchState) × Decides D.address session.now look.now p t shared present × (is_known t.commits other.0 ≡ true) }
    ensures planned { (p : plain.Session) (t : plain.Transaction) (shared : Shared) (present : BranchState) → Decides D.address session.now look.now p t shared present → is_known t.commits other.0 ≡ true
        → IfOk result (λ plan. PlanIs D.address look.now shared.commits plan (unless_moved t present (forwarded shared.commits other.0))) }
    ensures fault { IfErr result (IsFault D.address) }
{
    laws();
    let work = work_of(session, look)?;
    work.tell();
    if is_moved(session, look, &work) {
        return Ok(refused(1213));
    }
    forwarded(alloc, work, other)
}

/// A clean merge of three databases, unless the branch has moved.
fn plan_join<D: Digester>(
    alloc: Global,
    session: &Session<D>,
    look: &Look,
    three: &Three,
    merge: &MergeOf,
    epoch: i64,
) -> Result<DecisionPlan, PutFault>
    requires decides { (p : plain.Session) × (t : plain.Transaction) × (shared : Shared) × (present : BranchState) × Decides D.address session.now look.now p t shared present
        × IsThree D.address (chunks_of session.now.draft.chunks) t merge.now three.now }
    requires date { pos 0 ≤ℤ epoch }
    requires fit { is_fit_merge (merging.Merge merge.now) ≡ true }
    ensures planned { (p : plain.Session) (t : plain.Transaction) (shared : Shared) (present : BranchState) (merged : MergedDatabase) → Decides D.address session.now look.now p t shared present
        → IsThree D.address (chunks_of session.now.draft.chunks) t merge.now three.now → merged_with t three.now.other.0 ≡ Ok merged
        → IfOk result (λ plan. PlanIs D.address look.now shared.commits plan (closed D.address epoch shared.commits p t present (Joining merged.database three.now.other.0 (merge_message p merge.now)))) }
    ensures fault { IfErr result (IsFault D.address) }
{
    laws();
    let message = merge_message(alloc, &session.branch, merge)?;
    let work = work_of(session, look)?;
    if is_moved(session, look, &work) {
        return Ok(refused(1213));
    }
    merged(
        alloc,
        work,
        session.own.head,
        three,
        &session.name,
        &message,
        epoch,
    )
}

/// Whether the branch isn't as it was at the transaction's start, in a draft where both stand.
fn is_moved<D: Digester>(session: &Session<D>, look: &Look, work: &Draft<D>) -> bool
    requires { IsWorkOf session.now look.now work.now }
    ensures { (p : plain.Session) (t : plain.Transaction) (shared : Shared) (present : BranchState) → Decides D.address session.now look.now p t shared present
        → result ≡ not (is_same_state present t.start) }
{
    laws();
    match &session.start {
        Some(start) => start.rec != look.rec,
        None => false,
    }
}

/// A fast-forward: the branch is at the other commit.
fn forwarded<D: Digester>(
    alloc: Global,
    work: Draft<D>,
    other: Address,
) -> Result<DecisionPlan, PutFault>
    requires known { (commits : Commits) × CommitsAreThere D.address (chunk_bytes work.chunks.base) commits × (is_known commits other.0 ≡ true) }
    ensures planned { (commits : Commits) → CommitsAreThere D.address (chunk_bytes work.chunks.base) commits → is_known commits other.0 ≡ true
        → IfOk result (λ plan. IsForwarded D.address work other (root_of commits other.0) plan) }
    ensures fault { IfErr result (IsFault D.address) }
{
    let root = head_root(alloc, &work, &other)?;
    let reply = merge_reply(alloc, &other.text(), 1, 0, b"merge successful")?;
    sealed(work, clean(other, root), reply)
}

/// A merge of three databases, where it is clean.
fn merged<D: Digester>(
    alloc: Global,
    mut work: Draft<D>,
    head: Address,
    three: &Three,
    committer: &Text,
    message: &Text,
    epoch: i64,
) -> Result<DecisionPlan, PutFault>
    requires can { (commits : Commits) × (b : PlainDatabase) × (o : PlainDatabase) × (t : PlainDatabase) × CanMergeRoots D.address work.chunks head three.now commits b o t }
    requires committer { length committer.now ≤ 32 }
    requires date { pos 0 ≤ℤ epoch }
    requires message { length message.now ≤ 8192 }
    requires named { IsNamed D.address work.chunks }
    ensures planned { (commits : Commits) (b o t : PlainDatabase) (merged : MergedDatabase) → CanMergeRoots D.address work.chunks head three.now commits b o t → merged_of b o t ≡ Ok merged
        → IfOk result (λ plan. IsMergeCommitted D.address work (commit_on commits epoch committer.now merged.database (head.0 ∷ three.now.other.0 ∷ []) message.now) plan) }
    ensures fault { IfErr result (IsFault D.address) }
{
    laws();
    let met = meet(alloc, &mut work, &three.base, &three.ours, &three.theirs);
    work.tell();
    match met? {
        Met::Clean(root) => joined(
            alloc,
            work,
            &joining(head, root, three.other),
            committer,
            message,
            epoch,
        ),
        Met::Refused(_) | Met::Open(_) => Err(PutFault::Memory),
    }
}

/// Writes the commit of a merged database, and plans the record that is at it.
fn joined<D: Digester>(
    alloc: Global,
    mut work: Draft<D>,
    rec: &BranchRecord,
    committer: &Text,
    message: &Text,
    epoch: i64,
) -> Result<DecisionPlan, PutFault>
    requires can { (commits : Commits) × (state : BranchState) × CanCommit D.address work.chunks rec.now rec.now.head commits state }
    requires committer { length committer.now ≤ 32 }
    requires date { pos 0 ≤ℤ epoch }
    requires message { length message.now ≤ 8192 }
    requires named { IsNamed D.address work.chunks }
    ensures planned { (commits : Commits) (state : BranchState) → CanCommit D.address work.chunks rec.now rec.now.head commits state
        → IfOk result (λ plan. IsJoined D.address work (commit_on commits epoch committer.now state.staged (parents_on rec.now.head state) message.now) rec.now.staged plan) }
    ensures fault { IfErr result (IsFault D.address) }
{
    laws();
    let made = written(alloc, &mut work, rec, &rec.head, committer, message, epoch);
    work.tell();
    let head = made?;
    let reply = merge_reply(alloc, &head.text(), 0, 0, b"merge successful")?;
    sealed(work, clean(head, rec.staged), reply)
}

/// The record at a commit with this database.
fn clean(head: Address, root: Address) -> BranchRecord
    ensures { result ≡ clean_record head root }
{
    BranchRecord {
        head,
        working: root,
        staged: root,
        merging: None,
    }
}

/// The record of a merged database, which the commit is to be of.
fn joining(head: Address, root: Address, other: Address) -> BranchRecord
    ensures { result ≡ joining_record head root other }
{
    BranchRecord {
        head,
        working: root,
        staged: root,
        merging: Some(other),
    }
}

/// What follows of chunks, drafts, databases, records and commits.
fn laws()
    ensures chunks { ChunksFollow }
    ensures drafts { DraftsFollow }
    ensures growth { DraftsGrow }
    ensures databases { DatabasesStand }
    ensures records { RecordsFollow }
    ensures commits { CommitsFollow }
{
    law_of_chunks();
    law_of_drafts();
    law_of_growth();
    law_of_databases();
    law_of_records();
    law_of_standing_commits();
}
