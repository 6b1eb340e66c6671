//! Whether a DOLT_MERGE has its decision.

ghost use Rattle.std.specs.Prelude.{◌≡◌, ◌≤◌, IfErr, IfOk, Some};
ghost use Rattle.chunk_store.specs.Drafts.{pages_in};
ghost use Rattle.chunk_store.specs.Laws.{ChunksFollow, DraftsFollow, DraftsGrow};
ghost use Rattle.plain_sessions.specs.Sessions as plain;
ghost use Rattle.plain_sessions.specs.Statements.{worked};
ghost use Rattle.plain_sessions.specs.declared.commands.Work.TheVariants as work;
ghost use Rattle.script_text.specs.Collisions.{IsFault};
ghost use Rattle.session_state.specs.Standing.{IsInTransaction, SessionStands};
ghost use Rattle.merge_procs.specs.Closing.{IsAsBefore, is_closing};
ghost use Rattle.merge_procs.specs.Courses.{is_decided};

use crate::courses::{MergeCourse, find_course};
use chunk_store::{PutFault, law_of_chunks, law_of_drafts, law_of_growth};
use session_state::Session;
use sql_procedures::MergeRequest;
use std::alloc::Global;
use tuple_codec::Digester;

/// Whether a DOLT_MERGE is a fast-forward or clean. To know it of rows that both sides changed, they are merged in the session's draft, which then goes
/// back to where it was.
pub fn merge_closes<D: Digester>(
    alloc: Global,
    session: &mut Session<D>,
    request: &MergeRequest,
) -> Result<bool, PutFault>
    requires { IsInTransaction D.address session.old }
    ensures closes { (p : plain.Session) (t : plain.Transaction) → SessionStands D.address session.old p → p.transaction ≡ Some t
        → IfOk result (λ closes. closes ≡ is_closing (worked p t (work.Merge request.now))) }
    ensures fault { IfErr result (IsFault D.address) }
    ensures same { IsAsBefore session.old session.new }
    ensures pages { pages_in session.old.draft ≤ pages_in session.new.draft }
{
    laws();
    let mark = session.draft.mark();
    let course = find_course(alloc, session, request);
    session.draft.tell();
    session.draft.back_to(mark);
    match course {
        Ok(course) => Ok(is_decided(&course)),
        Err(fault) => Err(fault),
    }
}

/// Whether a merge has its decision.
fn is_decided(course: &MergeCourse) -> bool
    ensures { result ≡ is_decided course.now }
{
    matches!(course, MergeCourse::Closes(_))
}

/// What drafts hold as they grow, and where they go back, for proofs. It does nothing.
fn laws()
    ensures chunks { ChunksFollow }
    ensures drafts { DraftsFollow }
    ensures growth { DraftsGrow }
{
    law_of_chunks();
    law_of_drafts();
    law_of_growth();
}
