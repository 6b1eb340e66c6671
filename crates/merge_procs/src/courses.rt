//! Where a DOLT_MERGE leads, found once: what is merged stays in the session's draft, and is what is decided on.

ghost use Rattle.std.specs.Prelude.{◌≡◌, ◌≤◌, IfErr, IfOk, Some, [], false, true};
ghost use Rattle.chunk_store.specs.Clashes.{IsReason};
ghost use Rattle.chunk_store.specs.Drafts.{Grows, chunks_of, pages_in};
ghost use Rattle.chunk_store.specs.Kinds.{is_data};
ghost use Rattle.chunk_store.specs.Laws.{ChunksFollow, DraftsFollow, DraftsGrow};
ghost use Rattle.plain_sessions.specs.Fitness.{is_fit_merge};
ghost use Rattle.plain_sessions.specs.Merging.{merge, merge_reply};
ghost use Rattle.plain_sessions.specs.Sessions as plain;
ghost use Rattle.plain_sessions.specs.Statements.{worked};
ghost use Rattle.plain_sessions.specs.declared.commands.Work.TheVariants as work;
ghost use Rattle.script_text.specs.Collisions.{IsFault};
ghost use Rattle.session_state.specs.Laws.{RecordsFollow, TransactionsFollow};
ghost use Rattle.session_state.specs.Standing.{IsInTransaction, SessionStands};
ghost use Rattle.sql_procedures.specs.declared.requests.MergeRequest.TheVariants as merging;
ghost use Rattle.merge_procs.specs.Courses.{IsMergeCourse, IsReasonOver, IsShortCourse, keeps_put};
ghost use Rattle.merge_procs.specs.Steps.{IsSame, IsStep};
ghost use Rattle.merge_procs.specs.Ways.{IsThree};
ghost use Rattle.merge_procs.specs.declared.steps.Step.TheVariants as step;

use crate::databases::{Met, meet};
use crate::messages::merge_message;
use crate::replying::merge_reply;
use crate::steps::{Made, Step, go_back};
use crate::ways::{Three, Way, find_way};
use chunk_store::{PutFault, law_of_chunks, law_of_drafts, law_of_growth};
use session_plan::head_root;
use session_state::{Session, law_of_records, law_of_transactions};
use sql_procedures::{MergeOf, MergeRequest};
use std::alloc::{AllocError, Global};
use tuple_codec::{Address, BranchRecord, Digester, Text};

/// A clean merge: where the merged database is in the session's draft, the commit that is merged, and the message of the commit that is to be made.
#[derive(Drop)]
pub struct Joined {
    pub root: Address,
    pub other: Address,
    pub message: Text,
}

/// What a merge that is a fast-forward or clean decides.
#[derive(Drop)]
pub enum Closing {
    /// A fast-forward to the commit.
    Forward(Address),
    Join(Joined),
}

/// Where a DOLT_MERGE leads.
#[derive(Drop)]
pub enum MergeCourse {
    /// It has its decision.
    Closes(Closing),
    /// The session answers it by itself, or it is refused.
    Stays(Step),
}

/// Finds where a DOLT_MERGE leads. What was merged stands in the session's draft, so that neither its decision nor its answer merges again. Where it is
/// a fast-forward, or refused, or there is a fault, the draft goes back to where it was.
pub fn merge_course<D: Digester>(
    alloc: Global,
    session: &mut Session<D>,
    request: &MergeRequest,
) -> Result<MergeCourse, PutFault>
    requires stands { IsInTransaction D.address session.old }
    ensures course { (p : plain.Session) (t : plain.Transaction) → SessionStands D.address session.old p → p.transaction ≡ Some t
        → IfOk result (λ course. IsMergeCourse D.address (chunks_of session.new.draft.chunks) t.commits course (worked p t (work.Merge request.now))) }
    ensures short { is_fit_merge request.now ≡ true → IfOk result IsShortCourse }
    ensures stands { (p : plain.Session) → SessionStands D.address session.old p → SessionStands D.address session.new p }
    ensures same { IsSame session.old session.new }
    ensures grows { Grows is_data session.old.draft session.new.draft }
    ensures back { keeps_put result ≡ false → session.new.draft.chunks ≡ session.old.draft.chunks }
    ensures cause { IfErr result (IsReasonOver D.address session.old.draft) }
    ensures fault { IfErr result (IsFault D.address) }
    ensures pages { pages_in session.old.draft ≤ pages_in session.new.draft }
{
    laws();
    let mark = session.draft.mark();
    let course = find_course(alloc, session, request);
    session.draft.tell();
    go_back(&mut session.draft, mark, keeps_put(&course));
    course
}

/// Whether it needs what was put into the draft.
fn keeps_put(course: &Result<MergeCourse, PutFault>) -> bool
    ensures { result ≡ keeps_put course.now }
{
    match course {
        Ok(MergeCourse::Closes(closing)) => matches!(closing, Closing::Join(_)),
        Ok(MergeCourse::Stays(step)) => matches!(step, Step::Made(_)),
        Err(_) => false,
    }
}

/// Finds where a DOLT_MERGE leads. The draft keeps what was put, whatever comes of it.
pub(crate) fn find_course<D: Digester>(
    alloc: Global,
    session: &mut Session<D>,
    request: &MergeRequest,
) -> Result<MergeCourse, PutFault>
    requires { IsInTransaction D.address session.old }
    ensures course { (p : plain.Session) (t : plain.Transaction) → SessionStands D.address session.old p → p.transaction ≡ Some t
        → IfOk result (λ course. IsMergeCourse D.address (chunks_of session.new.draft.chunks) t.commits course (worked p t (work.Merge request.now))) }
    ensures short { is_fit_merge request.now ≡ true → IfOk result IsShortCourse }
    ensures same { IsSame session.old session.new }
    ensures grows { Grows is_data session.old.draft session.new.draft }
    ensures cause { IfErr result (IsReason D.address (chunks_of session.new.draft.chunks)) }
{
    law_of_growth();
    match request {
        MergeRequest::Abort => Ok(MergeCourse::Stays(aborted(alloc, session)?)),
        MergeRequest::Merge(request) => named_course(alloc, session, request),
    }
}

/// Gives up the merge in progress: the session is at its head again.
fn aborted<D: Digester>(alloc: Global, session: &Session<D>) -> Result<Step, AllocError>
    requires { IsInTransaction D.address session.now }
    ensures { (p : plain.Session) (t : plain.Transaction) → SessionStands D.address session.now p → p.transaction ≡ Some t
        → IfOk result (λ step. IsStep D.address (chunks_of session.now.draft.chunks) t.commits step (merge p t merging.Abort)) }
{
    if session.own.merging.is_none() {
        return Ok(Step::Refused(9012));
    }
    let head = session.own.head;
    let root = head_root(alloc, &session.draft, &head)?;
    let rec = BranchRecord {
        head,
        working: root,
        staged: root,
        merging: None,
    };
    answered(alloc, rec, 0, b"merge aborted")
}

/// Where a merge of a name leads.
fn named_course<D: Digester>(
    alloc: Global,
    session: &mut Session<D>,
    request: &MergeOf,
) -> Result<MergeCourse, PutFault>
    requires { IsInTransaction D.address session.old }
    ensures course { (p : plain.Session) (t : plain.Transaction) → SessionStands D.address session.old p → p.transaction ≡ Some t
        → IfOk result (λ course. IsMergeCourse D.address (chunks_of session.new.draft.chunks) t.commits course (merge p t (merging.Merge request.now))) }
    ensures short { is_fit_merge (merging.Merge request.now) ≡ true → IfOk result IsShortCourse }
    ensures same { IsSame session.old session.new }
    ensures grows { Grows is_data session.old.draft session.new.draft }
    ensures cause { IfErr result (IsReason D.address (chunks_of session.new.draft.chunks)) }
{
    law_of_growth();
    match find_way(alloc, session, request)? {
        Way::Refused(number) => Ok(MergeCourse::Stays(Step::Refused(number))),
        Way::UpToDate => Ok(MergeCourse::Stays(answered(alloc, session.own, 0, b"up to date")?)),
        Way::Forward(other) => Ok(MergeCourse::Closes(Closing::Forward(other))),
        Way::Merge(three) => merged(alloc, session, &three, request),
    }
}

/// Merges the three databases. What isn't clean is in progress from here on.
fn merged<D: Digester>(
    alloc: Global,
    session: &mut Session<D>,
    three: &Three,
    request: &MergeOf,
) -> Result<MergeCourse, PutFault>
    requires { (p : plain.Session) × (t : plain.Transaction) × SessionStands D.address session.old p × (p.transaction ≡ Some t)
        × IsThree D.address (chunks_of session.old.draft.chunks) t request.now three.now }
    ensures course { (p : plain.Session) (t : plain.Transaction) → SessionStands D.address session.old p → p.transaction ≡ Some t
        → IsThree D.address (chunks_of session.old.draft.chunks) t request.now three.now
        → IfOk result (λ course. IsMergeCourse D.address (chunks_of session.new.draft.chunks) t.commits course (merge p t (merging.Merge request.now))) }
    ensures short { is_fit_merge (merging.Merge request.now) ≡ true → IfOk result IsShortCourse }
    ensures same { IsSame session.old session.new }
    ensures grows { Grows is_data session.old.draft session.new.draft }
    ensures cause { IfErr result (IsReason D.address (chunks_of session.new.draft.chunks)) }
{
    laws();
    match meet(
        alloc,
        &mut session.draft,
        &three.base,
        &three.ours,
        &three.theirs,
    )? {
        Met::Refused(number) => Ok(MergeCourse::Stays(Step::Refused(number))),
        Met::Clean(root) => {
            let message = merge_message(alloc, &session.branch, request)?;
            let joined = Joined {
                root,
                other: three.other,
                message,
            };
            Ok(MergeCourse::Closes(Closing::Join(joined)))
        }
        Met::Open(working) => {
            let rec = in_progress(session.own, working, three.other);
            let step = answered(alloc, rec, 1, b"conflicts found")?;
            Ok(MergeCourse::Stays(step))
        }
    }
}

/// The record with a merged database, and the commit that is being merged.
fn in_progress(own: BranchRecord, working: Address, other: Address) -> BranchRecord
    ensures { result ≡ record own { working = working; merging = Some other } }
{
    BranchRecord {
        head: own.head,
        working,
        staged: own.staged,
        merging: Some(other),
    }
}

/// This record, with a row that names no commit.
fn answered(
    alloc: Global,
    rec: BranchRecord,
    conflicts: u32,
    message: &[u8],
) -> Result<Step, AllocError>
    ensures { IfOk result (λ made. made ≡ step.Made (record { rec = rec; reply = merge_reply [] 0 conflicts message.now })) }
{
    let reply = merge_reply(alloc, b"", 0, conflicts, message)?;
    Ok(Step::Made(Made { rec, reply }))
}

/// What holds of drafts and of transactions in them, for proofs. It does nothing.
fn laws()
    ensures chunks { ChunksFollow }
    ensures drafts { DraftsFollow }
    ensures growth { DraftsGrow }
    ensures records { RecordsFollow }
    ensures transactions { TransactionsFollow }
{
    law_of_chunks();
    law_of_drafts();
    law_of_growth();
    law_of_records();
    law_of_transactions();
}
