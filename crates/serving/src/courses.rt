//! How a call goes on that may have a decision of its own.

ghost use Rattle.std.specs.Prelude.{◌≡◌, IfErr, IfOk, Some, false, true};
ghost use Rattle.chunk_store.specs.Drafts.{Grows, chunks_of};
ghost use Rattle.chunk_store.specs.Kinds.{is_data};
ghost use Rattle.plain_sessions.specs.Fitness.{IsFitWork, is_fit_merge};
ghost use Rattle.plain_sessions.specs.Sessions as plain;
ghost use Rattle.plain_sessions.specs.Statements.{worked};
ghost use Rattle.plain_sessions.specs.declared.commands.Work.TheVariants as work;
ghost use Rattle.script_text.specs.Collisions.{IsFault};
ghost use Rattle.session_state.specs.Standing.{IsInTransaction, SessionStands};
ghost use Rattle.merge_procs.specs.Steps.{IsSame};
ghost use Rattle.serving.specs.Closing.{IsCourse, leads_on};
ghost use Rattle.serving.specs.Kinds.{may_close};

use branch_procs::commit_closes;
use chunk_store::{PutFault, law_of_growth};
use merge_procs::{Closing, MergeCourse, Step, merge_course as find_merge};
use plain_sessions::Work;
use session_state::Session;
use sql_procedures::{CommitRequest, MergeRequest};
use std::alloc::Global;
use tuple_codec::Digester;

/// How a call goes on in its transaction.
#[derive(Drop)]
pub(crate) enum Course {
    /// It is decided on at a moment.
    Closes(Found),
    /// It is refused before its decision.
    Refused(u16),
    /// The session takes the step by itself.
    Stays(Step),
}

/// What was found of a call that is decided on at a moment.
#[derive(Drop)]
pub enum Found {
    /// A DOLT_COMMIT: what it commits is made anew for each try.
    Commit,
    /// A DOLT_MERGE: where it leads. What was merged for it is in the session's draft.
    Merge(Closing),
}

/// Finds how a DOLT_COMMIT or a DOLT_MERGE of a name goes on. What was merged for it stays in the session's draft, unless it is refused or there is a fault.
pub(crate) fn find_course<D: Digester>(
    alloc: Global,
    session: &mut Session<D>,
    asked: &Work,
) -> Result<Course, PutFault>
    requires stands { IsInTransaction D.address session.old }
    requires closes { may_close asked.now ≡ true }
    requires fit { IsFitWork asked.now }
    ensures course { (p : plain.Session) (t : plain.Transaction) → SessionStands D.address session.old p → p.transaction ≡ Some t
        → IfOk result (λ course. IsCourse D.address (chunks_of session.new.draft.chunks) t.commits course asked.now (worked p t asked.now)) }
    ensures stands { (p : plain.Session) → SessionStands D.address session.old p → SessionStands D.address session.new p }
    ensures fault { IfErr result (IsFault D.address) }
    ensures same { IsSame session.old session.new }
    ensures grows { Grows is_data session.old.draft session.new.draft }
    ensures back { leads_on result ≡ false → session.new.draft.chunks ≡ session.old.draft.chunks }
{
    law_of_growth();
    match asked {
        Work::Commit(request) => commit_course(alloc, session, request),
        Work::Merge(request) => merge_course(alloc, session, request),
        Work::Ask(_)
        | Work::Change(_)
        | Work::Add(_)
        | Work::ResetTo(_)
        | Work::Resolve(_)
        | Work::Verify(_) => unreachable!(),
    }
}

/// A DOLT_COMMIT that isn't refused has its decision.
fn commit_course<D: Digester>(
    alloc: Global,
    session: &Session<D>,
    request: &CommitRequest,
) -> Result<Course, PutFault>
    requires stands { IsInTransaction D.address session.now }
    ensures course { (p : plain.Session) (t : plain.Transaction) → SessionStands D.address session.now p → p.transaction ≡ Some t
        → IfOk result (λ course. IsCourse D.address (chunks_of session.now.draft.chunks) t.commits course (work.Commit request.now) (worked p t (work.Commit request.now))) }
    ensures fault { IfErr result (IsFault D.address) }
{
    match commit_closes(alloc, session, request)? {
        None => Ok(Course::Closes(Found::Commit)),
        Some(number) => Ok(Course::Refused(number)),
    }
}

/// A DOLT_MERGE has its decision, or all else that it may come to is the session's own.
fn merge_course<D: Digester>(
    alloc: Global,
    session: &mut Session<D>,
    request: &MergeRequest,
) -> Result<Course, PutFault>
    requires stands { IsInTransaction D.address session.old }
    requires fit { is_fit_merge request.now ≡ true }
    ensures course { (p : plain.Session) (t : plain.Transaction) → SessionStands D.address session.old p → p.transaction ≡ Some t
        → IfOk result (λ course. IsCourse D.address (chunks_of session.new.draft.chunks) t.commits course (work.Merge request.now) (worked p t (work.Merge request.now))) }
    ensures stands { (p : plain.Session) → SessionStands D.address session.old p → SessionStands D.address session.new p }
    ensures fault { IfErr result (IsFault D.address) }
    ensures same { IsSame session.old session.new }
    ensures grows { Grows is_data session.old.draft session.new.draft }
    ensures back { leads_on result ≡ false → session.new.draft.chunks ≡ session.old.draft.chunks }
{
    match find_merge(alloc, session, request)? {
        MergeCourse::Closes(closing) => Ok(Course::Closes(Found::Merge(closing))),
        MergeCourse::Stays(step) => Ok(Course::Stays(step)),
    }
}
