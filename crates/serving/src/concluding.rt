//! The decision behind a statement's start, whatever other sessions did in between.

ghost use Rattle.std.specs.Prelude.{◌≡◌, ◌<◌, ◌≤ℤ◌, ◌+◌, ◌^◌, ℤ, pos, true, false, None, Some, IfErr, IfOk, OnErr};
ghost use Rattle.script_text.specs.Collisions.{IsFault, TellsTruly};
ghost use Rattle.plain_sessions.specs.Fitness.{IsFitCommand};
ghost use Rattle.plain_sessions.specs.Sessions as plain;
ghost use Rattle.plain_sessions.specs.Sessions.{is_before_statement};
ghost use Rattle.plain_sessions.specs.declared.commands.Command.{Command};
ghost use Rattle.session_state.specs.Standing.{SessionStands};
ghost use Rattle.session_plan.specs.Showing.{is_sound_reply};
ghost use Rattle.shared_history.specs.Meeting.{room_of};
ghost use Rattle.serving.specs.Answering.{Concluded};
ghost use Rattle.serving.specs.Meetings.{HoldsAfterThree, InOneMoment, IsBetweenAt, WaitsFree};
ghost use Rattle.serving.specs.Serving.{Concludes, Drops};
ghost use Rattle.serving.specs.Starting.{with_reply};
ghost use Rattle.serving.specs.Steps.{number_at};
ghost use Rattle.serving.specs.declared.meeting.Pending.TheVariants as pending;

use crate::closing::close_found;
use crate::courses::Found;
use crate::deciding::{Decision, decide_in};
use crate::faults::{after_start, reply_to};
use crate::meeting::Pending;
use crate::places::{go_on, number_of};
use chunk_store::PutFault;
use plain_sessions::Command;
use script_text::Reply;
use session_state::Session;
use shared_history::Meeting;
use std::alloc::Global;
use tuple_codec::Digester;

/// Makes the decision that is to come, on the state found, and the session goes on to its next statement. Where memory was wanting or an
/// address failed there is no moment, and all is as it was.
pub fn conclude<D: Digester, T: Meeting<D>>(
    alloc: Global,
    session: &mut Session<D>,
    asked: &Command,
    wanted: Pending,
    meeting: &mut T,
    epoch: i64,
) -> Result<Reply, PutFault>
    requires ready { (first : T) × T.ready first meeting.old }
    requires between { (q : plain.Session) × IsBetweenAt D.address session.old (T.tells meeting.old) q asked.now wanted }
    requires place { number_at session.old.position + 1 < 2 ^ 32 }
    requires room { 0 < room_of (T.tells meeting.old) }
    requires epoch { pos 0 ≤ℤ epoch }
    requires fit { IsFitCommand asked.now }
    ensures ready { (first : T) → T.ready first meeting.old → T.ready first meeting.new }
    ensures concluded { IfOk result (λ reply. (q : plain.Session) → IsBetweenAt D.address session.old (T.tells meeting.old) q asked.now wanted
        → InOneMoment D.address (λ found shared left. Concludes D.address epoch q asked.now shared found left session.new reply) (T.tells meeting.old) (T.tells meeting.new)) }
    ensures sound { IfOk result (λ reply. is_sound_reply reply ≡ true) }
    ensures truly { IfOk result (TellsTruly D.address) }
    ensures fault { IfErr result (IsFault D.address) }
    ensures waits { OnErr result (WaitsFree (T.tells meeting.old) (T.tells meeting.new)) }
    ensures kept { OnErr result (session.new ≡ session.old) }
    ensures holds { HoldsAfterThree (T.tells meeting.old) (T.tells meeting.new) }
{
    let number = number_of(session.position);
    let reply = conclude_wanted(alloc, session, asked, wanted, meeting, epoch)?;
    go_on(session, number);
    Ok(reply)
}

/// The decision that is to come, before the session goes on.
fn conclude_wanted<D: Digester, T: Meeting<D>>(
    alloc: Global,
    session: &mut Session<D>,
    asked: &Command,
    wanted: Pending,
    meeting: &mut T,
    epoch: i64,
) -> Result<Reply, PutFault>
    requires ready { (first : T) × T.ready first meeting.old }
    requires between { (q : plain.Session) × IsBetweenAt D.address session.old (T.tells meeting.old) q asked.now wanted }
    requires room { 0 < room_of (T.tells meeting.old) }
    requires epoch { pos 0 ≤ℤ epoch }
    requires fit { IsFitCommand asked.now }
    ensures ready { (first : T) → T.ready first meeting.old → T.ready first meeting.new }
    ensures concluded { IfOk result (λ reply. (q : plain.Session) → IsBetweenAt D.address session.old (T.tells meeting.old) q asked.now wanted
        → InOneMoment D.address (λ found shared left. Concluded D.address epoch q asked.now shared found left session.new reply) (T.tells meeting.old) (T.tells meeting.new)) }
    ensures sound { IfOk result (λ reply. is_sound_reply reply ≡ true) }
    ensures truly { IfOk result (TellsTruly D.address) }
    ensures fault { IfErr result (IsFault D.address) }
    ensures waits { OnErr result (WaitsFree (T.tells meeting.old) (T.tells meeting.new)) }
    ensures kept { OnErr result (session.new ≡ session.old) }
    ensures holds { HoldsAfterThree (T.tells meeting.old) (T.tells meeting.new) }
{
    match wanted {
        Pending::Between(reply) => conclude_work(alloc, session, reply, meeting, epoch),
        Pending::Closing(found) => conclude_closing(alloc, session, asked, &found, meeting, epoch),
    }
}

/// The commit rule's decision on what a statement changed; its transaction is over.
fn conclude_work<D: Digester, T: Meeting<D>>(
    alloc: Global,
    session: &mut Session<D>,
    reply: Reply,
    meeting: &mut T,
    epoch: i64,
) -> Result<Reply, PutFault>
    requires ready { (first : T) × T.ready first meeting.old }
    requires between { (q : plain.Session) × (asked : Command) × IsBetweenAt D.address session.old (T.tells meeting.old) q asked (pending.Between reply) }
    requires room { 0 < room_of (T.tells meeting.old) }
    requires epoch { pos 0 ≤ℤ epoch }
    ensures ready { (first : T) → T.ready first meeting.old → T.ready first meeting.new }
    ensures concluded { IfOk result (λ said. (date : ℤ) (q : plain.Session) (asked : Command) → IsBetweenAt D.address session.old (T.tells meeting.old) q asked (pending.Between reply)
        → InOneMoment D.address (λ found shared left. Concluded D.address date q asked shared found left session.new said) (T.tells meeting.old) (T.tells meeting.new)) }
    ensures sound { IfOk result (λ said. is_sound_reply said ≡ true) }
    ensures truly { IfOk result (TellsTruly D.address) }
    ensures fault { IfErr result (IsFault D.address) }
    ensures waits { OnErr result (WaitsFree (T.tells meeting.old) (T.tells meeting.new)) }
    ensures kept { OnErr result (session.new ≡ session.old) }
    ensures holds { HoldsAfterThree (T.tells meeting.old) (T.tells meeting.new) }
{
    let verdict = decide_in(alloc, session, Decision::Commit, meeting, epoch)?;
    Ok(with_reply(reply, verdict))
}

/// The decision of DOLT_COMMIT or DOLT_MERGE; its transaction is over.
fn conclude_closing<D: Digester, T: Meeting<D>>(
    alloc: Global,
    session: &mut Session<D>,
    asked: &Command,
    found: &Found,
    meeting: &mut T,
    epoch: i64,
) -> Result<Reply, PutFault>
    requires ready { (first : T) × T.ready first meeting.old }
    requires between { (q : plain.Session) × IsBetweenAt D.address session.old (T.tells meeting.old) q asked.now (pending.Closing found.now) }
    requires room { 0 < room_of (T.tells meeting.old) }
    requires epoch { pos 0 ≤ℤ epoch }
    requires fit { IsFitCommand asked.now }
    ensures ready { (first : T) → T.ready first meeting.old → T.ready first meeting.new }
    ensures concluded { IfOk result (λ said. (q : plain.Session) → IsBetweenAt D.address session.old (T.tells meeting.old) q asked.now (pending.Closing found.now)
        → InOneMoment D.address (λ found shared left. Concluded D.address epoch q asked.now shared found left session.new said) (T.tells meeting.old) (T.tells meeting.new)) }
    ensures sound { IfOk result (λ reply. is_sound_reply reply ≡ true) }
    ensures truly { IfOk result (TellsTruly D.address) }
    ensures fault { IfErr result (IsFault D.address) }
    ensures waits { OnErr result (WaitsFree (T.tells meeting.old) (T.tells meeting.new)) }
    ensures kept { OnErr result (session.new ≡ session.old) }
    ensures holds { HoldsAfterThree (T.tells meeting.old) (T.tells meeting.new) }
{
    match asked {
        Command::Data(work) => close_found(alloc, session, work, found, meeting, epoch),
        Command::Faulty(_)
        | Command::Begin
        | Command::CommitAll
        | Command::Rollback
        | Command::Switch(_)
        | Command::Say(_)
        | Command::OnBranches(_)
        | Command::Checkout(_) => unreachable!(),
    }
}

/// The statement's own reply in place of the decision's, where that is well.
pub(crate) fn with_reply(reply: Reply, verdict: Reply) -> Reply
    ensures { result ≡ with_reply reply verdict }
{
    match verdict {
        Reply::Done => reply,
        other => other,
    }
}

/// Answers a statement whose decision met a fault: it is dropped with its transaction, and the session goes on to the next one.
pub fn drop_started<D: Digester>(session: &mut Session<D>, fault: PutFault) -> Reply
    requires between { (q : plain.Session) × (t : plain.Transaction) × SessionStands D.address session.old q × (q.transaction ≡ Some t) × (is_before_statement q.place ≡ false) }
    requires place { number_at session.old.position + 1 < 2 ^ 32 }
    requires fault { IsFault D.address fault }
    ensures drops { (q : plain.Session) → SessionStands D.address session.old q → is_before_statement q.place ≡ false → Drops D.address q session.new result }
    ensures sound { is_sound_reply result ≡ true }
    ensures truly { TellsTruly D.address result }
    ensures same { session.new ≡ record session.old { start = None; position = session.new.position } }
{
    let number = number_of(session.position);
    session.start = None;
    go_on(session, number);
    after_start(reply_to(fault))
}
