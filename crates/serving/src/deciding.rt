//! A decision on the open transaction, over a session's meeting with what all sessions share.

ghost use Rattle.std.specs.Prelude.{◌≡◌, ◌<◌, ◌≤◌, ◌≤ℤ◌, pos, true, Option, None, Some, IfErr, IfOk, IfSome, OnErr};
ghost use Rattle.chunk_store.specs.Drafts.{pages_in};
ghost use Rattle.chunk_store.specs.Stores.{all_chunks};
ghost use Rattle.script_text.specs.Collisions.{IsFault, TellsTruly};
ghost use Rattle.plain_sessions.specs.Merging.{Ending};
ghost use Rattle.plain_sessions.specs.Records.{Shared};
ghost use Rattle.plain_sessions.specs.Sessions as plain;
ghost use Rattle.plain_sessions.specs.Sessions.{taken, within};
ghost use Rattle.session_state.specs.Standing.{SessionStands};
ghost use Rattle.session_state.specs.Transactions.{IsLookOf};
ghost use Rattle.session_plan.specs.Showing.{is_sound_reply};
ghost use Rattle.shared_history.specs.Meeting.{room_of};
ghost use Rattle.script_text.specs.Output.{shortage};
ghost use Rattle.serving.specs.Deciding.{Asks, DecidedAs, DecidesOnce, EndsAs, HasEndedBy, MomentOn, PlansDecision, ShowsAfter};
ghost use Rattle.serving.specs.Meetings.{HoldsAfterThree, InOneMoment, IsAtMeeting, WaitsFree};
ghost use Rattle.serving.specs.Planning.{HasLooked};

use crate::faults::reply_to;
use crate::filling::start_at;
use crate::trying::{Made, try_free, try_held};
use branch_procs::plan_dolt_commit;
use chunk_store::{PutFault, law_of_chunks};
use merge_procs::{Closing, plan_closing, plan_merge};
use script_text::Reply;
use session_state::{Session, law_of_records, law_of_standing_commits, law_of_states};
use session_txn::plan_commit;
use shared_db::DecisionPlan;
use shared_history::Meeting;
use sql_procedures::{CommitRequest, MergeRequest};
use std::alloc::Global;
use table_root::Look;
use tuple_codec::Digester;

/// What is decided on at a moment.
#[derive(Clone, Copy)]
pub enum Decision<'a> {
    /// What the open transaction changed, by the commit rule.
    Commit,
    /// The same, and the next transaction starts on what that leaves.
    Begin,
    /// A DOLT_COMMIT.
    DoltCommit(&'a CommitRequest),
    /// A DOLT_MERGE of which nothing is kept: each try merges for it.
    Merge(&'a MergeRequest),
    /// A DOLT_MERGE on what was found for it; what was merged is in the session's draft.
    Close(&'a Closing),
}

/// Decides on the open transaction: looks at the session's branch, plans, and settles at one moment where the branch still has the record that was looked at. After
/// three tries that were lost it holds what is shared and decides on that. Want of memory, or an address that fails, is answered at once, and leaves the
/// session as it was; else the transaction is over.
pub fn decide<D: Digester, T: Meeting<D>>(
    alloc: Global,
    session: &mut Session<D>,
    decision: Decision<'_>,
    meeting: &mut T,
    epoch: i64,
) -> Reply
    requires ready { (first : T) × T.ready first meeting.old }
    requires asks { (p : plain.Session) × (t : plain.Transaction) × (ending : Option Ending) × IsAtMeeting D.address session.old (T.tells meeting.old) p × Asks D.address session.old decision p t ending }
    requires room { 0 < room_of (T.tells meeting.old) }
    requires epoch { pos 0 ≤ℤ epoch }
    ensures ready { (first : T) → T.ready first meeting.old → T.ready first meeting.new }
    ensures decided { (p : plain.Session) (t : plain.Transaction) (ending : Option Ending) → IsAtMeeting D.address session.old (T.tells meeting.old) p → Asks D.address session.old decision.entry p t ending
        → EndsAs D.address epoch decision.entry p t ending session.old (T.tells meeting.old) (T.tells meeting.new) session.new result }
    ensures holds { HoldsAfterThree (T.tells meeting.old) (T.tells meeting.new) }
    ensures pages { pages_in session.old.draft ≤ pages_in session.new.draft }
    ensures sound { is_sound_reply result ≡ true }
    ensures truly { TellsTruly D.address result }
{
    match decide_in(alloc, session, decision, meeting, epoch) {
        Ok(reply) => reply,
        Err(fault) => reply_to(fault),
    }
}

/// The decision, and the session behind it. A fault leaves the session as it was.
pub(crate) fn decide_in<D: Digester, T: Meeting<D>>(
    alloc: Global,
    session: &mut Session<D>,
    decision: Decision<'_>,
    meeting: &mut T,
    epoch: i64,
) -> Result<Reply, PutFault>
    requires ready { (first : T) × T.ready first meeting.old }
    requires asks { (p : plain.Session) × (t : plain.Transaction) × (ending : Option Ending) × IsAtMeeting D.address session.old (T.tells meeting.old) p × Asks D.address session.old decision p t ending }
    requires room { 0 < room_of (T.tells meeting.old) }
    requires epoch { pos 0 ≤ℤ epoch }
    ensures ready { (first : T) → T.ready first meeting.old → T.ready first meeting.new }
    ensures decided { IfOk result (λ reply. (p : plain.Session) (t : plain.Transaction) (ending : Option Ending) → IsAtMeeting D.address session.old (T.tells meeting.old) p → Asks D.address session.old decision.entry p t ending
        → InOneMoment D.address (λ found shared left. HasEndedBy D.address epoch decision.entry p t ending session.old found shared left session.new reply) (T.tells meeting.old) (T.tells meeting.new)) }
    ensures once { IfOk result (λ reply. (p : plain.Session) (t : plain.Transaction) (ending : Option Ending) → IsAtMeeting D.address session.old (T.tells meeting.old) p → Asks D.address session.old decision.entry p t ending
        → DecidesOnce D.address epoch decision.entry p t ending session.old (T.tells meeting.old) (T.tells meeting.new) session.new reply) }
    ensures waits { OnErr result (WaitsFree (T.tells meeting.old) (T.tells meeting.new)) }
    ensures kept { OnErr result (session.new ≡ session.old) }
    ensures fault { IfErr result (IsFault D.address) }
    ensures holds { HoldsAfterThree (T.tells meeting.old) (T.tells meeting.new) }
    ensures pages { pages_in session.old.draft ≤ pages_in session.new.draft }
    ensures sound { IfOk result (λ reply. is_sound_reply reply ≡ true) }
    ensures truly { IfOk result (TellsTruly D.address) }
{
    law_of_states();
    let made = decide_on(alloc, session, decision, meeting, epoch)?;
    let Made { reply, next } = made;
    end_decided(alloc, session, next);
    Ok(reply)
}

/// The transaction is over; or the next one is begun on the look at what the decision left.
fn end_decided<D: Digester>(alloc: Global, session: &mut Session<D>, next: Option<Look>)
    requires stands { (p : plain.Session) × SessionStands D.address session.old p }
    requires look { IfSome next (λ look. (shared : Shared) × IsLookOf D.address look shared × (look.branch ≡ session.old.branch)) }
    ensures over { next ≡ None → session.new ≡ record session.old { start = None } }
    ensures begun { IfSome next (λ look. (p : plain.Session) (shared : Shared) → SessionStands D.address session.old p → IsLookOf D.address look shared
        → (t : plain.Transaction) × (taken shared p ≡ Some t) × SessionStands D.address session.new (within p t)) }
    ensures base { IfSome next (λ look. session.new.draft.chunks.base ≡ all_chunks look.store) }
    ensures pages { pages_in session.old.draft ≤ pages_in session.new.draft }
{
    match next {
        Some(look) => start_at(alloc, session, look),
        None => session.start = None,
    }
}

/// The decision; the session is left to the caller.
pub(crate) fn decide_on<D: Digester, T: Meeting<D>>(
    alloc: Global,
    session: &Session<D>,
    decision: Decision<'_>,
    meeting: &mut T,
    epoch: i64,
) -> Result<Made, PutFault>
    requires ready { (first : T) × T.ready first meeting.old }
    requires asks { (p : plain.Session) × (t : plain.Transaction) × (ending : Option Ending) × IsAtMeeting D.address session.now (T.tells meeting.old) p × Asks D.address session.now decision p t ending }
    requires room { 0 < room_of (T.tells meeting.old) }
    requires epoch { pos 0 ≤ℤ epoch }
    ensures ready { (first : T) → T.ready first meeting.old → T.ready first meeting.new }
    ensures decided { IfOk result (λ made. (p : plain.Session) (t : plain.Transaction) (ending : Option Ending) → IsAtMeeting D.address session.now (T.tells meeting.old) p → Asks D.address session.now decision.entry p t ending
        → MomentOn D.address (λ found shared left. DecidedAs D.address epoch p t ending found shared left made.reply × ShowsAfter D.address decision.entry p.branch left made) session.now.branch (T.tells meeting.old) (T.tells meeting.new)) }
    ensures short { IfOk result (λ made. shortage made.reply ≡ None) }
    ensures waits { OnErr result (WaitsFree (T.tells meeting.old) (T.tells meeting.new)) }
    ensures fault { IfErr result (IsFault D.address) }
    ensures holds { HoldsAfterThree (T.tells meeting.old) (T.tells meeting.new) }
    ensures sound { IfOk result (λ made. is_sound_reply made.reply ≡ true) }
    ensures truly { IfOk result (λ made. TellsTruly D.address made.reply) }
{
    law_of_chunks();
    law_of_records();
    law_of_standing_commits();
    law_of_states();
    match try_free(alloc, session, decision, meeting, epoch)? {
        Some(made) => Ok(made),
        None => try_held(alloc, session, decision, meeting, epoch),
    }
}

/// Plans the decision by a look at the session's branch, without the meeting.
pub(crate) fn plan_by<D: Digester>(
    alloc: Global,
    session: &Session<D>,
    decision: Decision<'_>,
    look: &Look,
    epoch: i64,
) -> Result<DecisionPlan, PutFault>
    requires asks { (p : plain.Session) × (t : plain.Transaction) × (ending : Option Ending) × Asks D.address session.now decision p t ending }
    requires looked { HasLooked D.address session.now look.now }
    requires epoch { pos 0 ≤ℤ epoch }
    ensures planned { IfOk result (λ plan. PlansDecision D.address epoch session.now decision.entry look.now plan) }
    ensures fault { IfErr result (IsFault D.address) }
{
    match decision {
        Decision::Commit => plan_commit(alloc, session, look),
        Decision::Begin => plan_commit(alloc, session, look),
        Decision::DoltCommit(request) => plan_dolt_commit(alloc, session, request, look, epoch),
        Decision::Merge(request) => plan_merge(alloc, session, request, look, epoch),
        Decision::Close(closing) => plan_closing(alloc, session, closing, look, epoch),
    }
}
