//! Calls that may have a decision of their own: DOLT_COMMIT, and DOLT_MERGE of a name.

ghost use Rattle.std.specs.Prelude.{◌≡◌, ◌<◌, ◌≤ℤ◌, ℤ, pos, true, IfErr, IfOk, OnErr, Ok, Some};
ghost use Rattle.script_text.specs.Collisions.{IsFault, TellsTruly};
ghost use Rattle.plain_sessions.specs.Fitness.{IsFitWork};
ghost use Rattle.plain_sessions.specs.Merging.{Closes, Ending};
ghost use Rattle.plain_sessions.specs.Records.{Shared};
ghost use Rattle.plain_sessions.specs.Sessions as plain;
ghost use Rattle.plain_sessions.specs.Statements.{worked};
ghost use Rattle.plain_sessions.specs.declared.commands.Command.TheVariants as command;
ghost use Rattle.session_state.specs.Changes.{Parts};
ghost use Rattle.session_plan.specs.Showing.{is_sound_reply};
ghost use Rattle.shared_history.specs.Meeting.{room_of};
ghost use Rattle.serving.specs.Answering.{Concluded, HasMet};
ghost use Rattle.serving.specs.Branching.{Went};
ghost use Rattle.serving.specs.Closing.{is_commit};
ghost use Rattle.serving.specs.Kinds.{may_close};
ghost use Rattle.serving.specs.Meetings.{HoldsAfterThree, InOneMoment, IsBeforeAt, IsBetweenAt, WaitsFree};
ghost use Rattle.serving.specs.Serving.{IsSoundMet, MetTellsTruly};
ghost use Rattle.serving.specs.Starting.{HasStarted};
ghost use Rattle.serving.specs.declared.courses.Found.TheVariants as finding;
ghost use Rattle.serving.specs.declared.meeting.Pending.TheVariants as pending;

use crate::courses::{Course, Found, find_course};
use crate::deciding::{Decision, decide_in};
use crate::faults::reply_to;
use crate::meeting::{Met, Pending};
use crate::starting::{end_answered, refuse_started};
use chunk_store::PutFault;
use merge_procs::take_step;
use plain_sessions::Work;
use script_text::Reply;
use session_plan::due;
use session_state::Session;
use shared_history::Meeting;
use std::alloc::Global;
use tuple_codec::Digester;

/// The decision on the open transaction, which is over where it was decided on. A fault leaves the session as it was. A commit that is made has the epoch
/// as its date.
pub(crate) fn decide_open<D: Digester, T: Meeting<D>>(
    alloc: Global,
    session: &mut Session<D>,
    asked: &Work,
    meeting: &mut T,
    epoch: i64,
) -> Result<Reply, PutFault>
    requires ready { (first : T) × T.ready first meeting.old }
    requires closing { (p : plain.Session) × (t : plain.Transaction) × (ending : Ending) × IsBeforeAt D.address session.old (T.tells meeting.old) p × (p.transaction ≡ Some t)
        × (worked p t asked.now ≡ Ok (Closes ending)) }
    requires closes { may_close asked.now ≡ true }
    requires fit { IsFitWork asked.now }
    requires room { 0 < room_of (T.tells meeting.old) }
    requires epoch { pos 0 ≤ℤ epoch }
    ensures ready { (first : T) → T.ready first meeting.old → T.ready first meeting.new }
    ensures went { IfOk result (λ reply. (p : plain.Session) (t : plain.Transaction) (ending : Ending) → IsBeforeAt D.address session.old (T.tells meeting.old) p → p.transaction ≡ Some t
        → worked p t asked.now ≡ Ok (Closes ending)
        → InOneMoment D.address (λ found shared left. Went D.address epoch p (command.Data asked.now) shared found left session.new reply) (T.tells meeting.old) (T.tells meeting.new)) }
    ensures sound { IfOk result (λ reply. is_sound_reply reply ≡ true) }
    ensures truly { IfOk result (TellsTruly D.address) }
    ensures fault { IfErr result (IsFault D.address) }
    ensures waits { OnErr result (WaitsFree (T.tells meeting.old) (T.tells meeting.new)) }
    ensures kept { OnErr result (session.new ≡ session.old) }
    ensures holds { HoldsAfterThree (T.tells meeting.old) (T.tells meeting.new) }
{
    match asked {
        Work::Commit(request) => decide_in(
            alloc,
            session,
            Decision::DoltCommit(request),
            meeting,
            epoch,
        ),
        Work::Merge(request) => decide_in(alloc, session, Decision::Merge(request), meeting, epoch),
        Work::Ask(_)
        | Work::Change(_)
        | Work::Add(_)
        | Work::ResetTo(_)
        | Work::Resolve(_)
        | Work::Verify(_) => unreachable!(),
    }
}

/// In the transaction that was started: its decision is to come, or it is refused before it, or the session answers it by itself.
pub(crate) fn follow_started<D: Digester>(
    alloc: Global,
    session: &mut Session<D>,
    asked: &Work,
) -> Met
    requires started { (parts : Parts) × (now : Parts) × (p : plain.Session) × (t : plain.Transaction) × (shared : Shared) × HasStarted D.address session.old parts now p t shared }
    requires closes { may_close asked.now ≡ true }
    requires fit { IsFitWork asked.now }
    ensures met { (epoch : ℤ) (parts : Parts) (now : Parts) (p : plain.Session) (t : plain.Transaction) (shared : Shared) → HasStarted D.address session.old parts now p t shared
        → HasMet D.address epoch p (command.Data asked.now) shared parts now session.new result }
    ensures sound { IsSoundMet result }
    ensures truly { MetTellsTruly D.address result }
{
    match find_course(alloc, session, asked) {
        Ok(Course::Closes(found)) => Met::Pending(Pending::Closing(found)),
        Ok(Course::Refused(number)) => {
            Met::Answered(refuse_started(session, due(Reply::Refused(number), 1)))
        }
        Ok(Course::Stays(step)) => {
            let reply = take_step(session, step);
            end_answered(session, reply)
        }
        Err(fault) => Met::Answered(refuse_started(session, reply_to(fault))),
    }
}

/// The decision behind the start, on what was found for the call. Its transaction is over. A fault leaves the session as it was.
pub(crate) fn close_found<D: Digester, T: Meeting<D>>(
    alloc: Global,
    session: &mut Session<D>,
    asked: &Work,
    found: &Found,
    meeting: &mut T,
    epoch: i64,
) -> Result<Reply, PutFault>
    requires ready { (first : T) × T.ready first meeting.old }
    requires between { (q : plain.Session) × IsBetweenAt D.address session.old (T.tells meeting.old) q (command.Data asked.now) (pending.Closing found.now) }
    requires fit { IsFitWork asked.now }
    requires room { 0 < room_of (T.tells meeting.old) }
    requires epoch { pos 0 ≤ℤ epoch }
    ensures ready { (first : T) → T.ready first meeting.old → T.ready first meeting.new }
    ensures concluded { IfOk result (λ reply. (q : plain.Session) → IsBetweenAt D.address session.old (T.tells meeting.old) q (command.Data asked.now) (pending.Closing found.now)
        → InOneMoment D.address (λ at shared left. Concluded D.address epoch q (command.Data asked.now) shared at left session.new reply) (T.tells meeting.old) (T.tells meeting.new)) }
    ensures sound { IfOk result (λ reply. is_sound_reply reply ≡ true) }
    ensures truly { IfOk result (TellsTruly D.address) }
    ensures fault { IfErr result (IsFault D.address) }
    ensures waits { OnErr result (WaitsFree (T.tells meeting.old) (T.tells meeting.new)) }
    ensures kept { OnErr result (session.new ≡ session.old) }
    ensures holds { HoldsAfterThree (T.tells meeting.old) (T.tells meeting.new) }
{
    match found {
        Found::Merge(closing) => decide_in(
            alloc,
            session,
            Decision::Close(closing),
            meeting,
            epoch,
        ),
        Found::Commit => close_commit(alloc, session, asked, meeting, epoch),
    }
}

/// The decision of a DOLT_COMMIT behind its start.
fn close_commit<D: Digester, T: Meeting<D>>(
    alloc: Global,
    session: &mut Session<D>,
    asked: &Work,
    meeting: &mut T,
    epoch: i64,
) -> Result<Reply, PutFault>
    requires ready { (first : T) × T.ready first meeting.old }
    requires between { (q : plain.Session) × IsBetweenAt D.address session.old (T.tells meeting.old) q (command.Data asked.now) (pending.Closing finding.Commit) }
    requires commits { is_commit asked.now ≡ true }
    requires fit { IsFitWork asked.now }
    requires room { 0 < room_of (T.tells meeting.old) }
    requires epoch { pos 0 ≤ℤ epoch }
    ensures ready { (first : T) → T.ready first meeting.old → T.ready first meeting.new }
    ensures concluded { IfOk result (λ reply. (q : plain.Session) → IsBetweenAt D.address session.old (T.tells meeting.old) q (command.Data asked.now) (pending.Closing finding.Commit)
        → InOneMoment D.address (λ at shared left. Concluded D.address epoch q (command.Data asked.now) shared at left session.new reply) (T.tells meeting.old) (T.tells meeting.new)) }
    ensures sound { IfOk result (λ reply. is_sound_reply reply ≡ true) }
    ensures truly { IfOk result (TellsTruly D.address) }
    ensures fault { IfErr result (IsFault D.address) }
    ensures waits { OnErr result (WaitsFree (T.tells meeting.old) (T.tells meeting.new)) }
    ensures kept { OnErr result (session.new ≡ session.old) }
    ensures holds { HoldsAfterThree (T.tells meeting.old) (T.tells meeting.new) }
{
    match asked {
        Work::Commit(request) => decide_in(
            alloc,
            session,
            Decision::DoltCommit(request),
            meeting,
            epoch,
        ),
        Work::Ask(_)
        | Work::Change(_)
        | Work::Add(_)
        | Work::ResetTo(_)
        | Work::Merge(_)
        | Work::Resolve(_)
        | Work::Verify(_) => unreachable!(),
    }
}
