//! COMMIT, and SET autocommit where it ends a transaction.

ghost use Rattle.std.specs.Prelude.{◌≡◌, ◌<◌, ◌≤ℤ◌, ℤ, pos, true, Some, IfErr, IfOk, OnErr};
ghost use Rattle.script_text.specs.Collisions.{IsFault, TellsTruly};
ghost use Rattle.plain_sessions.specs.Moments.{ends_by_set};
ghost use Rattle.plain_sessions.specs.Sessions as plain;
ghost use Rattle.plain_sessions.specs.Sessions.{is_changed};
ghost use Rattle.plain_sessions.specs.declared.commands.Command.TheVariants as command;
ghost use Rattle.session_plan.specs.Showing.{is_sound_reply};
ghost use Rattle.shared_history.specs.Meeting.{room_of};
ghost use Rattle.serving.specs.Answering.{Answered};
ghost use Rattle.serving.specs.Meetings.{HoldsAfterThree, InOneMoment, IsBeforeAt, WaitsFree};
ghost use Rattle.serving.specs.Steps.{switched_by};

use crate::deciding::{Decision, decide_in};
use chunk_store::PutFault;
use script_text::Reply;
use session_state::Session;
use shared_history::Meeting;
use sql_ast::Setting;
use std::alloc::Global;
use tuple_codec::Digester;

/// COMMIT where the open transaction has changed something. A fault leaves the session as it was.
pub(crate) fn commit_changed<D: Digester, T: Meeting<D>>(
    alloc: Global,
    session: &mut Session<D>,
    meeting: &mut T,
    epoch: i64,
) -> Result<Reply, PutFault>
    requires ready { (first : T) × T.ready first meeting.old }
    requires open { (p : plain.Session) × (t : plain.Transaction) × IsBeforeAt D.address session.old (T.tells meeting.old) p × (p.transaction ≡ Some t) }
    requires room { 0 < room_of (T.tells meeting.old) }
    requires epoch { pos 0 ≤ℤ epoch }
    ensures ready { (first : T) → T.ready first meeting.old → T.ready first meeting.new }
    ensures answered { IfOk result (λ reply. (e : ℤ) (p : plain.Session) (t : plain.Transaction) → IsBeforeAt D.address session.old (T.tells meeting.old) p
        → p.transaction ≡ Some t → is_changed p ≡ true
        → InOneMoment D.address (λ found shared left. Answered D.address e p command.CommitAll shared found left session.new reply) (T.tells meeting.old) (T.tells meeting.new)) }
    ensures sound { IfOk result (λ reply. is_sound_reply reply ≡ true) }
    ensures truly { IfOk result (TellsTruly D.address) }
    ensures fault { IfErr result (IsFault D.address) }
    ensures waits { OnErr result (WaitsFree (T.tells meeting.old) (T.tells meeting.new)) }
    ensures kept { OnErr result (session.new ≡ session.old) }
    ensures holds { HoldsAfterThree (T.tells meeting.old) (T.tells meeting.new) }
{
    decide_in(alloc, session, Decision::Commit, meeting, epoch)
}

/// SET autocommit from 0 to 1 where the open transaction has changed something: a COMMIT, and the variable is set where that is well. A
/// fault leaves the session as it was.
pub(crate) fn switch_changed<D: Digester, T: Meeting<D>>(
    alloc: Global,
    session: &mut Session<D>,
    setting: &Setting,
    meeting: &mut T,
    epoch: i64,
) -> Result<Reply, PutFault>
    requires ready { (first : T) × T.ready first meeting.old }
    requires open { (p : plain.Session) × (t : plain.Transaction) × IsBeforeAt D.address session.old (T.tells meeting.old) p × (p.transaction ≡ Some t) }
    requires room { 0 < room_of (T.tells meeting.old) }
    requires epoch { pos 0 ≤ℤ epoch }
    ensures ready { (first : T) → T.ready first meeting.old → T.ready first meeting.new }
    ensures answered { IfOk result (λ reply. (e : ℤ) (p : plain.Session) (t : plain.Transaction) → IsBeforeAt D.address session.old (T.tells meeting.old) p
        → p.transaction ≡ Some t → is_changed p ≡ true → ends_by_set p setting.now.variable setting.now.on ≡ true
        → InOneMoment D.address (λ found shared left. Answered D.address e p (command.Switch setting.now) shared found left session.new reply) (T.tells meeting.old) (T.tells meeting.new)) }
    ensures sound { IfOk result (λ reply. is_sound_reply reply ≡ true) }
    ensures truly { IfOk result (TellsTruly D.address) }
    ensures fault { IfErr result (IsFault D.address) }
    ensures waits { OnErr result (WaitsFree (T.tells meeting.old) (T.tells meeting.new)) }
    ensures kept { OnErr result (session.new ≡ session.old) }
    ensures holds { HoldsAfterThree (T.tells meeting.old) (T.tells meeting.new) }
{
    let reply = decide_in(alloc, session, Decision::Commit, meeting, epoch)?;
    switch_by(session, setting.on, &reply);
    Ok(reply)
}

/// Sets autocommit where the decision is well.
fn switch_by<D: Digester>(session: &mut Session<D>, on: bool, reply: &Reply)
    ensures { session.new ≡ switched_by on reply.now session.old }
{
    if let Reply::Done = reply {
        session.autocommit = on;
    }
}
