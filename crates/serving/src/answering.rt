//! A statement whole, over the session's meeting with what all sessions share.

ghost use Rattle.std.specs.Prelude.{◌≡◌, ◌≢◌, ◌<◌, ◌≤◌, ◌≤ℤ◌, ◌+◌, ◌^◌, ◌⊎◌, pos, true, None};
ghost use Rattle.script_text.specs.Collisions.{TellsTruly};
ghost use Rattle.plain_sessions.specs.Fitness.{IsFitCommand};
ghost use Rattle.plain_sessions.specs.Moments.{alone};
ghost use Rattle.plain_sessions.specs.Sessions as plain;
ghost use Rattle.session_plan.specs.Showing.{is_sound_reply};
ghost use Rattle.shared_history.specs.Meeting.{room_of};
ghost use Rattle.serving.specs.Meetings.{HoldsAfterThree, InOneMoment, IsBeforeAt, IsBetweenAt, ServesAt, WaitsFree};
ghost use Rattle.serving.specs.Serving.{Concludes, Drops};
ghost use Rattle.serving.specs.Steps.{number_at};

use crate::coming::come_to;
use crate::concluding::{conclude, drop_started};
use crate::faults::answer_fault;
use crate::meeting::{Met, Pending, meet};
use plain_sessions::Command;
use script_text::Reply;
use session_state::Session;
use shared_history::Meeting;
use std::alloc::Global;
use tuple_codec::Digester;

/// Serves a statement: it is answered, with the moments that it takes, and the session goes on to the next one. A commit that is made has the
/// epoch as its date.
pub fn serve<D: Digester, T: Meeting<D>>(
    alloc: Global,
    session: &mut Session<D>,
    asked: &Command,
    meeting: &mut T,
    epoch: i64,
) -> Reply
    requires ready { (first : T) × T.ready first meeting.old }
    requires before { (p : plain.Session) × IsBeforeAt D.address session.old (T.tells meeting.old) p }
    requires place { number_at session.old.position + 1 < 2 ^ 32 }
    requires room { 2 ≤ room_of (T.tells meeting.old) }
    requires epoch { pos 0 ≤ℤ epoch }
    requires fit { IsFitCommand asked.now }
    ensures ready { (first : T) → T.ready first meeting.old → T.ready first meeting.new }
    ensures served { (p : plain.Session) → IsBeforeAt D.address session.old (T.tells meeting.old) p
        → ServesAt D.address epoch p asked.now (T.tells meeting.old) (T.tells meeting.new) session.new result }
    ensures calls { (T.tells meeting.new).calls ≢ (T.tells meeting.old).calls → (p : plain.Session) → IsBeforeAt D.address session.old (T.tells meeting.old) p → alone None p asked.now ≡ None }
    ensures holds { HoldsAfterThree (T.tells meeting.old) (T.tells meeting.new) }
    ensures sound { is_sound_reply result ≡ true }
    ensures truly { TellsTruly D.address result }
{
    match come_to(alloc, session, asked) {
        Some(reply) => reply,
        None => serve_at_moments(alloc, session, asked, meeting, epoch),
    }
}

/// A statement that needs a moment.
fn serve_at_moments<D: Digester, T: Meeting<D>>(
    alloc: Global,
    session: &mut Session<D>,
    asked: &Command,
    meeting: &mut T,
    epoch: i64,
) -> Reply
    requires ready { (first : T) × T.ready first meeting.old }
    requires before { (p : plain.Session) × IsBeforeAt D.address session.old (T.tells meeting.old) p × (alone None p asked.now ≡ None) }
    requires place { number_at session.old.position + 1 < 2 ^ 32 }
    requires room { 2 ≤ room_of (T.tells meeting.old) }
    requires epoch { pos 0 ≤ℤ epoch }
    requires fit { IsFitCommand asked.now }
    ensures ready { (first : T) → T.ready first meeting.old → T.ready first meeting.new }
    ensures served { (p : plain.Session) → IsBeforeAt D.address session.old (T.tells meeting.old) p → alone None p asked.now ≡ None
        → ServesAt D.address epoch p asked.now (T.tells meeting.old) (T.tells meeting.new) session.new result }
    ensures holds { HoldsAfterThree (T.tells meeting.old) (T.tells meeting.new) }
    ensures sound { is_sound_reply result ≡ true }
    ensures truly { TellsTruly D.address result }
{
    match meet(alloc, session, asked, meeting, epoch) {
        Ok(Met::Answered(reply)) => reply,
        Ok(Met::Pending(wanted)) => finish(alloc, session, asked, wanted, meeting, epoch),
        Err(fault) => answer_fault(session, fault),
    }
}

/// The decision behind the start; where it met a fault the statement is dropped.
fn finish<D: Digester, T: Meeting<D>>(
    alloc: Global,
    session: &mut Session<D>,
    asked: &Command,
    wanted: Pending,
    meeting: &mut T,
    epoch: i64,
) -> Reply
    requires ready { (first : T) × T.ready first meeting.old }
    requires between { (q : plain.Session) × IsBetweenAt D.address session.old (T.tells meeting.old) q asked.now wanted }
    requires place { number_at session.old.position + 1 < 2 ^ 32 }
    requires room { 0 < room_of (T.tells meeting.old) }
    requires epoch { pos 0 ≤ℤ epoch }
    requires fit { IsFitCommand asked.now }
    ensures ready { (first : T) → T.ready first meeting.old → T.ready first meeting.new }
    ensures finished { (q : plain.Session) → IsBetweenAt D.address session.old (T.tells meeting.old) q asked.now wanted
        → InOneMoment D.address (λ found shared left. Concludes D.address epoch q asked.now shared found left session.new result) (T.tells meeting.old) (T.tells meeting.new)
        ⊎ (WaitsFree (T.tells meeting.old) (T.tells meeting.new) × Drops D.address q session.new result × (session.new.draft ≡ session.old.draft) × (session.new.branch ≡ session.old.branch)) }
    ensures holds { HoldsAfterThree (T.tells meeting.old) (T.tells meeting.new) }
    ensures sound { is_sound_reply result ≡ true }
    ensures truly { TellsTruly D.address result }
{
    match conclude(alloc, session, asked, wanted, meeting, epoch) {
        Ok(reply) => reply,
        Err(fault) => drop_started(session, fault),
    }
}
