//! BEGIN.

ghost use Rattle.std.specs.Prelude.{◌≡◌, ◌<◌, ◌≤ℤ◌, ℤ, pos, true, false, Some, IfOk, IfErr, OnErr, OnOk};
ghost use Rattle.script_text.specs.Collisions.{IsFault, TellsTruly};
ghost use Rattle.plain_sessions.specs.Sessions as plain;
ghost use Rattle.plain_sessions.specs.Sessions.{is_changed};
ghost use Rattle.plain_sessions.specs.declared.commands.Command.TheVariants as command;
ghost use Rattle.session_plan.specs.Showing.{is_sound_reply};
ghost use Rattle.script_text.specs.declared.replies.Reply.TheVariants.{Done};
ghost use Rattle.shared_history.specs.Meeting.{room_of};
ghost use Rattle.serving.specs.Answering.{Answered};
ghost use Rattle.serving.specs.Meetings.{HoldsAfterThree, InOneMoment, IsBeforeAt, WaitsFree};

use crate::deciding::{Decision, decide_in};
use crate::filling::start_at;
use chunk_store::PutFault;
use script_text::Reply;
use session_state::{Session, law_of_states};
use shared_history::Meeting;
use std::alloc::{AllocError, Global};
use tuple_codec::Digester;

/// BEGIN: it takes its start, and an open transaction that changed nothing is given up; one that changed something is decided on first, at
/// the same moment. A fault leaves the session as it was.
pub(crate) fn begin<D: Digester, T: Meeting<D>>(
    alloc: Global,
    session: &mut Session<D>,
    meeting: &mut T,
    epoch: i64,
) -> Result<Reply, PutFault>
    requires ready { (first : T) × T.ready first meeting.old }
    requires before { (p : plain.Session) × IsBeforeAt D.address session.old (T.tells meeting.old) p }
    requires room { 0 < room_of (T.tells meeting.old) }
    requires epoch { pos 0 ≤ℤ epoch }
    ensures ready { (first : T) → T.ready first meeting.old → T.ready first meeting.new }
    ensures answered { IfOk result (λ reply. (e : ℤ) (p : plain.Session) → IsBeforeAt D.address session.old (T.tells meeting.old) p
        → InOneMoment D.address (λ found shared left. Answered D.address e p command.Begin shared found left session.new reply) (T.tells meeting.old) (T.tells meeting.new)) }
    ensures sound { IfOk result (λ reply. is_sound_reply reply ≡ true) }
    ensures truly { IfOk result (TellsTruly D.address) }
    ensures fault { IfErr result (IsFault D.address) }
    ensures waits { OnErr result (WaitsFree (T.tells meeting.old) (T.tells meeting.new)) }
    ensures kept { OnErr result (session.new ≡ session.old) }
    ensures holds { HoldsAfterThree (T.tells meeting.old) (T.tells meeting.new) }
{
    if session.is_changed() {
        begin_anew(alloc, session, meeting, epoch)
    } else {
        begin_unchanged(alloc, session, meeting)?;
        Ok(Reply::Done)
    }
}

/// BEGIN where nothing has changed.
fn begin_unchanged<D: Digester, T: Meeting<D>>(
    alloc: Global,
    session: &mut Session<D>,
    meeting: &mut T,
) -> Result<(), AllocError>
    requires ready { (first : T) × T.ready first meeting.old }
    requires before { (p : plain.Session) × IsBeforeAt D.address session.old (T.tells meeting.old) p }
    requires room { 0 < room_of (T.tells meeting.old) }
    ensures ready { (first : T) → T.ready first meeting.old → T.ready first meeting.new }
    ensures answered { OnOk result ((e : ℤ) (p : plain.Session) → IsBeforeAt D.address session.old (T.tells meeting.old) p → is_changed p ≡ false
        → InOneMoment D.address (λ found shared left. Answered D.address e p command.Begin shared found left session.new Done) (T.tells meeting.old) (T.tells meeting.new)) }
    ensures waits { OnErr result (WaitsFree (T.tells meeting.old) (T.tells meeting.new)) }
    ensures kept { OnErr result (session.new ≡ session.old) }
    ensures holds { HoldsAfterThree (T.tells meeting.old) (T.tells meeting.new) }
{
    law_of_states();
    let look = meeting.start(alloc, &session.branch)?;
    start_at(alloc, session, look);
    Ok(())
}

/// Decides and begins at one moment.
fn begin_anew<D: Digester, T: Meeting<D>>(
    alloc: Global,
    session: &mut Session<D>,
    meeting: &mut T,
    epoch: i64,
) -> Result<Reply, PutFault>
    requires ready { (first : T) × T.ready first meeting.old }
    requires open { (p : plain.Session) × (t : plain.Transaction) × IsBeforeAt D.address session.old (T.tells meeting.old) p × (p.transaction ≡ Some t) }
    requires room { 0 < room_of (T.tells meeting.old) }
    requires epoch { pos 0 ≤ℤ epoch }
    ensures ready { (first : T) → T.ready first meeting.old → T.ready first meeting.new }
    ensures answered { IfOk result (λ reply. (e : ℤ) (p : plain.Session) (t : plain.Transaction) → IsBeforeAt D.address session.old (T.tells meeting.old) p
        → p.transaction ≡ Some t → is_changed p ≡ true
        → InOneMoment D.address (λ found shared left. Answered D.address e p command.Begin shared found left session.new reply) (T.tells meeting.old) (T.tells meeting.new)) }
    ensures sound { IfOk result (λ reply. is_sound_reply reply ≡ true) }
    ensures truly { IfOk result (TellsTruly D.address) }
    ensures fault { IfErr result (IsFault D.address) }
    ensures waits { OnErr result (WaitsFree (T.tells meeting.old) (T.tells meeting.new)) }
    ensures kept { OnErr result (session.new ≡ session.old) }
    ensures holds { HoldsAfterThree (T.tells meeting.old) (T.tells meeting.new) }
{
    law_of_states();
    decide_in(alloc, session, Decision::Begin, meeting, epoch)
}
