//! Database statements outside a transaction: each takes a start of its own.

ghost use Rattle.std.specs.Prelude.{◌≡◌, ◌<◌, ℤ, true, None, OnErr, OnOk};
ghost use Rattle.script_text.specs.Collisions.{TellsTruly};
ghost use Rattle.plain_sessions.specs.Fitness.{IsFitCommand};
ghost use Rattle.plain_sessions.specs.Records.{Shared};
ghost use Rattle.plain_sessions.specs.Replies.{is_refusal};
ghost use Rattle.plain_sessions.specs.Sessions as plain;
ghost use Rattle.plain_sessions.specs.declared.commands.Command.TheVariants as command;
ghost use Rattle.plain_sessions.specs.declared.commands.Work.{Work};
ghost use Rattle.session_state.specs.Changes.{Parts};
ghost use Rattle.session_plan.specs.Showing.{is_sound_reply};
ghost use Rattle.shared_history.specs.Meeting.{room_of};
ghost use Rattle.serving.specs.Answering.{HasMet};
ghost use Rattle.serving.specs.Kinds.{is_in_place};
ghost use Rattle.serving.specs.Meetings.{HoldsAfterThree, InOneMoment, IsBeforeAt, WaitsFree};
ghost use Rattle.serving.specs.Serving.{IsSoundMet, MetTellsTruly};
ghost use Rattle.serving.specs.Starting.{HasAnswered, HasStarted, HasWorked, IsStarted};
ghost use Rattle.serving.specs.Steps.{after_start};

use crate::alone::answer_alone;
use crate::faults::after_start;
use crate::filling::start_at;
use crate::meeting::{Met, Pending};
use plain_sessions::Command;
use script_text::Reply;
use session_state::{Session, law_of_states};
use shared_history::Meeting;
use std::alloc::{AllocError, Global};
use tuple_codec::Digester;

/// Takes the start of a transaction: its moment is made, and the session is in it.
pub(crate) fn take_start<D: Digester, T: Meeting<D>>(
    alloc: Global,
    session: &mut Session<D>,
    meeting: &mut T,
) -> Result<(), AllocError>
    requires ready { (first : T) × T.ready first meeting.old }
    requires before { (p : plain.Session) × IsBeforeAt D.address session.old (T.tells meeting.old) p × (p.transaction ≡ None) }
    requires room { 0 < room_of (T.tells meeting.old) }
    ensures ready { (first : T) → T.ready first meeting.old → T.ready first meeting.new }
    ensures started { OnOk result ((p : plain.Session) → IsBeforeAt D.address session.old (T.tells meeting.old) p → p.transaction ≡ None
        → InOneMoment D.address (λ found shared left. (t : plain.Transaction) × HasStarted D.address session.new found left p t shared) (T.tells meeting.old) (T.tells meeting.new)) }
    ensures waits { OnErr result (WaitsFree (T.tells meeting.old) (T.tells meeting.new)) }
    ensures kept { OnErr result (session.new ≡ session.old) }
    ensures holds { HoldsAfterThree (T.tells meeting.old) (T.tells meeting.new) }
{
    law_of_states();
    let look = meeting.start(alloc, &session.branch)?;
    start_at(alloc, session, look);
    Ok(())
}

/// The work of a statement that has no decision but the commit rule's, in the transaction that was started: it is answered, or what it did is
/// to be decided on.
pub(crate) fn answer_started<D: Digester>(
    alloc: Global,
    session: &mut Session<D>,
    asked: &Command,
) -> Met
    requires started { (p : plain.Session) × (shared : Shared) × (old : Parts) × (new : Parts) × IsStarted D.address p asked.now shared old new session.old }
    requires fit { IsFitCommand asked.now }
    requires call { is_in_place asked.now ≡ true }
    ensures met { (epoch : ℤ) (p : plain.Session) (shared : Shared) (old : Parts) (new : Parts) → IsStarted D.address p asked.now shared old new session.old
        → HasMet D.address epoch p asked.now shared old new session.new result }
    ensures sound { IsSoundMet result }
    ensures truly { MetTellsTruly D.address result }
{
    let reply = answer_alone(alloc, session, asked);
    end_answered(session, reply)
}

/// Ends what was answered in the transaction that was started. A refusal drops it.
pub(crate) fn end_answered<D: Digester>(session: &mut Session<D>, reply: Reply) -> Met
    requires answered { (parts : Parts) × (now : Parts) × (p : plain.Session) × (asked : Work) × (shared : Shared) × HasAnswered D.address session.old parts now p asked shared reply }
    requires sound { is_sound_reply reply ≡ true }
    requires truly { TellsTruly D.address reply }
    ensures met { (epoch : ℤ) (parts : Parts) (now : Parts) (p : plain.Session) (asked : Work) (shared : Shared) → HasAnswered D.address session.old parts now p asked shared reply
        → HasMet D.address epoch p (command.Data asked) shared parts now session.new result }
    ensures sound { IsSoundMet result }
    ensures truly { MetTellsTruly D.address result }
{
    if is_refusal(&reply) {
        Met::Answered(refuse_started(session, reply))
    } else {
        end_started(session, reply)
    }
}

/// A refusal, or a fault, behind the start: the transaction is dropped.
pub(crate) fn refuse_started<D: Digester>(session: &mut Session<D>, reply: Reply) -> Reply
    requires sound { is_sound_reply reply ≡ true }
    requires truly { TellsTruly D.address reply }
    ensures session { session.new ≡ record session.old { start = None } }
    ensures reply { result ≡ after_start reply }
    ensures sound { is_sound_reply result ≡ true }
    ensures truly { TellsTruly D.address result }
{
    session.start = None;
    after_start(reply)
}

/// Ends what went well: without autocommit the transaction stays open, else what it changed is to be decided on.
fn end_started<D: Digester>(session: &mut Session<D>, reply: Reply) -> Met
    requires worked { (parts : Parts) × (now : Parts) × (p : plain.Session) × (asked : Work) × (shared : Shared) × HasWorked D.address session.old parts now p asked shared reply }
    requires sound { is_sound_reply reply ≡ true }
    requires truly { TellsTruly D.address reply }
    ensures met { (epoch : ℤ) (parts : Parts) (now : Parts) (p : plain.Session) (asked : Work) (shared : Shared) → HasWorked D.address session.old parts now p asked shared reply
        → HasMet D.address epoch p (command.Data asked) shared parts now session.new result }
    ensures sound { IsSoundMet result }
    ensures truly { MetTellsTruly D.address result }
{
    if !session.autocommit {
        return Met::Answered(reply);
    }
    if !session.is_changed() {
        session.start = None;
        return Met::Answered(reply);
    }
    Met::Pending(Pending::Between(reply))
}

/// Whether the statement was refused, by a rule or for want of memory.
fn is_refusal(reply: &Reply) -> bool
    ensures { result ≡ is_refusal reply.now }
{
    match reply {
        Reply::Done | Reply::Count(_) | Reply::Rows(_) => false,
        Reply::Refused(_) | Reply::Syntax(_) | Reply::Collided(_) => true,
    }
}
