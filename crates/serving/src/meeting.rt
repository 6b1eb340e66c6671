//! A statement at its first moment.

ghost use Rattle.std.specs.Prelude.{◌≡◌, ◌<◌, ◌≤ℤ◌, ◌+◌, ◌^◌, pos, true, false, None, IfErr, IfOk, OnErr};
ghost use Rattle.script_text.specs.Collisions.{IsFault, TellsTruly};
ghost use Rattle.plain_sessions.specs.Fitness.{IsFitCommand, IsFitWork};
ghost use Rattle.plain_sessions.specs.Moments.{alone};
ghost use Rattle.plain_sessions.specs.Sessions as plain;
ghost use Rattle.plain_sessions.specs.declared.commands.Command.TheVariants.{Data};
ghost use Rattle.session_plan.specs.Showing.{is_sound_reply};
ghost use Rattle.shared_history.specs.Meeting.{room_of};
ghost use Rattle.serving.specs.Branching.{Went};
ghost use Rattle.serving.specs.Kinds.{is_data};
ghost use Rattle.serving.specs.Meetings.{HoldsAfterThree, InOneMoment, IsBeforeAt, WaitsFree};
ghost use Rattle.serving.specs.Serving.{Fails, IsSoundMet, MetTellsTruly, Meets};
ghost use Rattle.serving.specs.Starting.{Begins, BegunTellsTruly, HasBegun, IsSoundBegun};
ghost use Rattle.serving.specs.Steps.{number_at};

use crate::beginning::begin;
use crate::branching::{go_to, step_branches};
use crate::closing::decide_open;
use crate::courses::Found;
use crate::places::{go_on, number_of};
use crate::starting::take_start;
use crate::switching::{commit_changed, switch_changed};
use crate::working::work_started;
use chunk_store::PutFault;
use plain_sessions::{Command, Work};
use script_text::Reply;
use session_state::Session;
use shared_history::Meeting;
use std::alloc::Global;
use tuple_codec::Digester;

/// What a statement has come to when the shared database may be left.
#[derive(Drop)]
pub(crate) enum Begun {
    /// It is answered, and its session stands before the next one.
    Answered(Reply),
    /// Its start was made; its work is to be done.
    Started,
}

/// What a statement has come to at its first moment.
#[derive(Drop)]
pub enum Met {
    /// It is answered, and its session stands before the next one.
    Answered(Reply),
    /// It took its start, and its decision is to come.
    Pending(Pending),
}

/// A decision that is to come.
#[derive(Drop)]
pub enum Pending {
    /// The commit rule's, on what the statement changed; where it is well the statement is answered so.
    Between(Reply),
    /// That of DOLT_COMMIT or DOLT_MERGE, on what was found for it.
    Closing(Found),
}

/// Leads a statement that needs a moment to its first one, on the state found, and a database statement that takes a start through its work. Where
/// memory was wanting or an address failed there is no moment, and all is as it was.
pub fn meet<D: Digester, T: Meeting<D>>(
    alloc: Global,
    session: &mut Session<D>,
    asked: &Command,
    meeting: &mut T,
    epoch: i64,
) -> Result<Met, PutFault>
    requires ready { (first : T) × T.ready first meeting.old }
    requires before { (p : plain.Session) × IsBeforeAt D.address session.old (T.tells meeting.old) p × (alone None p asked.now ≡ None) }
    requires place { number_at session.old.position + 1 < 2 ^ 32 }
    requires room { 0 < room_of (T.tells meeting.old) }
    requires epoch { pos 0 ≤ℤ epoch }
    requires fit { IsFitCommand asked.now }
    ensures ready { (first : T) → T.ready first meeting.old → T.ready first meeting.new }
    ensures met { IfOk result (λ met. (p : plain.Session) → IsBeforeAt D.address session.old (T.tells meeting.old) p → alone None p asked.now ≡ None
        → InOneMoment D.address (λ found shared left. Meets D.address epoch p asked.now shared found left session.new met) (T.tells meeting.old) (T.tells meeting.new)) }
    ensures sound { IfOk result IsSoundMet }
    ensures truly { IfOk result (MetTellsTruly D.address) }
    ensures fails { IfErr result (λ fault. (p : plain.Session) → IsBeforeAt D.address session.old (T.tells meeting.old) p → alone None p asked.now ≡ None → Fails p asked.now fault) }
    ensures fault { IfErr result (IsFault D.address) }
    ensures waits { OnErr result (WaitsFree (T.tells meeting.old) (T.tells meeting.new)) }
    ensures kept { OnErr result (session.new ≡ session.old) }
    ensures holds { HoldsAfterThree (T.tells meeting.old) (T.tells meeting.new) }
{
    match meet_start(alloc, session, asked, meeting, epoch)? {
        Begun::Answered(reply) => Ok(Met::Answered(reply)),
        Begun::Started => Ok(work_started(alloc, session, asked)),
    }
}

/// Makes the first moment of a statement that needs one, on the state found. A start makes its moment alone, so that the statement's work can be done
/// after the database was left (`work_started`). Where memory was wanting or an address failed there is no moment, and all is as it was.
fn meet_start<D: Digester, T: Meeting<D>>(
    alloc: Global,
    session: &mut Session<D>,
    asked: &Command,
    meeting: &mut T,
    epoch: i64,
) -> Result<Begun, PutFault>
    requires ready { (first : T) × T.ready first meeting.old }
    requires before { (p : plain.Session) × IsBeforeAt D.address session.old (T.tells meeting.old) p × (alone None p asked.now ≡ None) }
    requires place { number_at session.old.position + 1 < 2 ^ 32 }
    requires room { 0 < room_of (T.tells meeting.old) }
    requires epoch { pos 0 ≤ℤ epoch }
    requires fit { IsFitCommand asked.now }
    ensures ready { (first : T) → T.ready first meeting.old → T.ready first meeting.new }
    ensures begun { IfOk result (λ begun. (p : plain.Session) → IsBeforeAt D.address session.old (T.tells meeting.old) p → alone None p asked.now ≡ None
        → InOneMoment D.address (λ found shared left. Begins D.address epoch p asked.now shared found left session.new begun) (T.tells meeting.old) (T.tells meeting.new)) }
    ensures sound { IfOk result IsSoundBegun }
    ensures truly { IfOk result (BegunTellsTruly D.address) }
    ensures fails { IfErr result (λ fault. (p : plain.Session) → IsBeforeAt D.address session.old (T.tells meeting.old) p → alone None p asked.now ≡ None → Fails p asked.now fault) }
    ensures fault { IfErr result (IsFault D.address) }
    ensures waits { OnErr result (WaitsFree (T.tells meeting.old) (T.tells meeting.new)) }
    ensures kept { OnErr result (session.new ≡ session.old) }
    ensures holds { HoldsAfterThree (T.tells meeting.old) (T.tells meeting.new) }
{
    let number = number_of(session.position);
    match meet_first(alloc, session, asked, meeting, epoch)? {
        Begun::Answered(reply) => {
            go_on(session, number);
            Ok(Begun::Answered(reply))
        }
        Begun::Started => Ok(Begun::Started),
    }
}

/// The first moment, before the session goes on.
fn meet_first<D: Digester, T: Meeting<D>>(
    alloc: Global,
    session: &mut Session<D>,
    asked: &Command,
    meeting: &mut T,
    epoch: i64,
) -> Result<Begun, PutFault>
    requires ready { (first : T) × T.ready first meeting.old }
    requires before { (p : plain.Session) × IsBeforeAt D.address session.old (T.tells meeting.old) p × (alone None p asked.now ≡ None) }
    requires room { 0 < room_of (T.tells meeting.old) }
    requires epoch { pos 0 ≤ℤ epoch }
    requires fit { IsFitCommand asked.now }
    ensures ready { (first : T) → T.ready first meeting.old → T.ready first meeting.new }
    ensures begun { IfOk result (λ begun. (p : plain.Session) → IsBeforeAt D.address session.old (T.tells meeting.old) p → alone None p asked.now ≡ None
        → InOneMoment D.address (λ found shared left. HasBegun D.address epoch p asked.now shared found left session.new begun) (T.tells meeting.old) (T.tells meeting.new)) }
    ensures sound { IfOk result IsSoundBegun }
    ensures truly { IfOk result (BegunTellsTruly D.address) }
    ensures fails { IfErr result (λ fault. (p : plain.Session) → IsBeforeAt D.address session.old (T.tells meeting.old) p → alone None p asked.now ≡ None → Fails p asked.now fault) }
    ensures fault { IfErr result (IsFault D.address) }
    ensures waits { OnErr result (WaitsFree (T.tells meeting.old) (T.tells meeting.new)) }
    ensures kept { OnErr result (session.new ≡ session.old) }
    ensures holds { HoldsAfterThree (T.tells meeting.old) (T.tells meeting.new) }
{
    match asked {
        Command::Data(work) => meet_work(alloc, session, work, meeting, epoch),
        Command::Begin
        | Command::CommitAll
        | Command::Switch(_)
        | Command::OnBranches(_)
        | Command::Checkout(_)
        | Command::Faulty(_)
        | Command::Rollback
        | Command::Say(_) => Ok(Begun::Answered(meet_once(alloc, session, asked, meeting, epoch)?)),
    }
}

/// A statement that is answered at its first moment, before the session goes on.
fn meet_once<D: Digester, T: Meeting<D>>(
    alloc: Global,
    session: &mut Session<D>,
    asked: &Command,
    meeting: &mut T,
    epoch: i64,
) -> Result<Reply, PutFault>
    requires ready { (first : T) × T.ready first meeting.old }
    requires before { (p : plain.Session) × IsBeforeAt D.address session.old (T.tells meeting.old) p × (alone None p asked.now ≡ None) }
    requires plain { is_data asked.now ≡ false }
    requires room { 0 < room_of (T.tells meeting.old) }
    requires epoch { pos 0 ≤ℤ epoch }
    requires fit { IsFitCommand asked.now }
    ensures ready { (first : T) → T.ready first meeting.old → T.ready first meeting.new }
    ensures went { IfOk result (λ reply. (p : plain.Session) → IsBeforeAt D.address session.old (T.tells meeting.old) p → alone None p asked.now ≡ None
        → InOneMoment D.address (λ found shared left. Went D.address epoch p asked.now shared found left session.new reply) (T.tells meeting.old) (T.tells meeting.new)) }
    ensures sound { IfOk result (λ reply. is_sound_reply reply ≡ true) }
    ensures truly { IfOk result (TellsTruly D.address) }
    ensures fails { IfErr result (λ fault. (p : plain.Session) → IsBeforeAt D.address session.old (T.tells meeting.old) p → alone None p asked.now ≡ None → Fails p asked.now fault) }
    ensures fault { IfErr result (IsFault D.address) }
    ensures waits { OnErr result (WaitsFree (T.tells meeting.old) (T.tells meeting.new)) }
    ensures kept { OnErr result (session.new ≡ session.old) }
    ensures holds { HoldsAfterThree (T.tells meeting.old) (T.tells meeting.new) }
{
    match asked {
        Command::Begin => begin(alloc, session, meeting, epoch),
        Command::CommitAll => commit_changed(alloc, session, meeting, epoch),
        Command::Switch(setting) => switch_changed(alloc, session, setting, meeting, epoch),
        Command::OnBranches(request) => step_branches(alloc, session, request, meeting),
        Command::Checkout(request) => go_to(alloc, session, request, meeting),
        Command::Data(_) | Command::Faulty(_) | Command::Rollback | Command::Say(_) => {
            unreachable!()
        }
    }
}

/// A database statement at its first moment: its decision in the open transaction, or a start of its own.
fn meet_work<D: Digester, T: Meeting<D>>(
    alloc: Global,
    session: &mut Session<D>,
    asked: &Work,
    meeting: &mut T,
    epoch: i64,
) -> Result<Begun, PutFault>
    requires ready { (first : T) × T.ready first meeting.old }
    requires before { (p : plain.Session) × IsBeforeAt D.address session.old (T.tells meeting.old) p × (alone None p (Data asked.now) ≡ None) }
    requires room { 0 < room_of (T.tells meeting.old) }
    requires epoch { pos 0 ≤ℤ epoch }
    requires fit { IsFitWork asked.now }
    ensures ready { (first : T) → T.ready first meeting.old → T.ready first meeting.new }
    ensures begun { IfOk result (λ begun. (p : plain.Session) → IsBeforeAt D.address session.old (T.tells meeting.old) p → alone None p (Data asked.now) ≡ None
        → InOneMoment D.address (λ found shared left. HasBegun D.address epoch p (Data asked.now) shared found left session.new begun) (T.tells meeting.old) (T.tells meeting.new)) }
    ensures sound { IfOk result IsSoundBegun }
    ensures truly { IfOk result (BegunTellsTruly D.address) }
    ensures fails { IfErr result (λ fault. (p : plain.Session) → IsBeforeAt D.address session.old (T.tells meeting.old) p → alone None p (Data asked.now) ≡ None → Fails p (Data asked.now) fault) }
    ensures fault { IfErr result (IsFault D.address) }
    ensures waits { OnErr result (WaitsFree (T.tells meeting.old) (T.tells meeting.new)) }
    ensures kept { OnErr result (session.new ≡ session.old) }
    ensures holds { HoldsAfterThree (T.tells meeting.old) (T.tells meeting.new) }
{
    if session.start.is_some() {
        Ok(Begun::Answered(decide_open(alloc, session, asked, meeting, epoch)?))
    } else {
        take_start(alloc, session, meeting)?;
        Ok(Begun::Started)
    }
}
