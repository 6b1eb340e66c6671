//! One session on its way along a given order: its statements without a moment, and its next moment.

ghost use Rattle.std.specs.Prelude.{◌≡◌, ◌⊎◌, ◌<◌, ◌≤◌, ◌≤ℤ◌, ◌+◌, ℕ, pos, true, false, length};
ghost use Rattle.plain_sessions.specs.Records.{Shared};
ghost use Rattle.plain_sessions.specs.Runs.{Runner};
ghost use Rattle.session_state.specs.Changes.{Parts};
ghost use Rattle.shared_history.specs.Meeting.{room_of};
ghost use Rattle.serving.specs.Meetings.{HoldsAfterThree, InOneMoment, WaitsFree};
ghost use Rattle.script_run.specs.Following.{HasFollowed, IsAsked, IsFurther, IsLed, IsPlayer, is_free, is_next_at, is_settled, moments_left};
ghost use Rattle.script_run.specs.Seats.{IsAtRest, IsSeatOf, room_at};
ghost use Rattle.script_run.specs.declared.players.Stage.TheVariants as stage;

use crate::asking::asked_by;
use crate::lines::number_of;
use crate::players::{Player, Stage};
use chunk_store::PutFault;
use plain_sessions::Command;
use serving::{Met, Pending, answer_fault, come_to, conclude, drop_started, meet};
use shared_history::{LoneDb, Meeting};
use std::alloc::Global;
use std::mem::replace;
use tuple_codec::{Boxed, Digester};
use wire_io::Pacer;

/// Answers the session's statements up to the next one that needs a moment, or to its last one.
pub fn go_on<D: Digester, P: Pacer>(alloc: Global, pacer: &P, player: &mut Player<D>)
    requires { (parts : Parts) × (shared : Shared) × (place : ℕ) × (runner : Runner) × IsPlayer D.address parts shared place runner player.old }
    ensures goes { (parts : Parts) (shared : Shared) (place : ℕ) (runner : Runner) → IsPlayer D.address parts shared place runner player.old
        → IsFurther D.address parts shared place runner player.new }
    ensures settled { is_settled player.new ≡ true }
    ensures same { is_settled player.old ≡ true → player.new ≡ player.old }
    ensures left { moments_left player.new ≤ moments_left player.old }
{
    'statements: while go_on_once(alloc, pacer, player) {}
}

/// Answers the next statement where it needs no moment. False where it needs one, or where none is left.
fn go_on_once<D: Digester, P: Pacer>(alloc: Global, pacer: &P, player: &mut Player<D>) -> bool
    requires player { (parts : Parts) × (shared : Shared) × (place : ℕ) × (runner : Runner) × IsPlayer D.address parts shared place runner player.old }
    ensures goes { (parts : Parts) (shared : Shared) (place : ℕ) (runner : Runner) → IsPlayer D.address parts shared place runner player.old
        → IsFurther D.address parts shared place runner player.new }
    ensures settled { result ≡ false → is_settled player.new ≡ true }
    ensures same { is_settled player.old ≡ true → player.new ≡ player.old }
    ensures stops { is_settled player.old ≡ true → result ≡ false }
    ensures left { moments_left player.new ≤ moments_left player.old }
    ensures one { result ≡ true → length player.new.replies.items ≡ length player.old.replies.items + 1 }
    ensures more { result ≡ true → length player.old.replies.items < length player.old.texts }
    ensures texts { player.new.texts ≡ player.old.texts }
{
    if !is_free(&player.stage) {
        return false;
    }
    let at = player.replies.len();
    let all = player.texts.as_slice().len();
    if at >= all {
        return false;
    }
    pacer.before(player.session.number, number_of(player.session.position));
    match asked_by(alloc, player.texts.as_slice()[at].as_slice()) {
        Ok(asked) => come(alloc, player, asked),
        Err(_) => {
            let reply = answer_fault(&mut player.session, PutFault::Memory);
            player.replies.push_reserved(reply);
            true
        }
    }
}

/// Comes to the next statement, which asks this.
fn come<D: Digester>(alloc: Global, player: &mut Player<D>, asked: Boxed<Command>) -> bool
    requires player { (parts : Parts) × (shared : Shared) × (place : ℕ) × (runner : Runner) × IsPlayer D.address parts shared place runner player.old × IsAsked asked runner }
    requires free { is_free player.old.stage ≡ true }
    ensures goes { (parts : Parts) (shared : Shared) (place : ℕ) (runner : Runner) → IsPlayer D.address parts shared place runner player.old → IsAsked asked runner
        → IsFurther D.address parts shared place runner player.new }
    ensures settled { result ≡ false → is_free player.new.stage ≡ false }
    ensures left { moments_left player.new ≤ moments_left player.old }
    ensures one { result ≡ true → length player.new.replies.items ≡ length player.old.replies.items + 1 }
    ensures texts { player.new.texts ≡ player.old.texts }
{
    match come_to(alloc, &mut player.session, asked.get()) {
        Some(reply) => {
            player.replies.push_reserved(reply);
            true
        }
        None => {
            player.stage = Stage::Waits(asked);
            false
        }
    }
}

/// Whether nothing is known of its next statement: the session hasn't come to it, or has none left.
pub fn is_free(stage: &Stage) -> bool
    ensures { result ≡ is_free stage.now }
{
    match stage {
        Stage::Free => true,
        Stage::Waits(_) | Stage::Between(_, _) => false,
    }
}

/// Leads the session to the moment of this statement, where that is the one that it needs next, and on to its next one. Tells whether the moment
/// was made.
pub(crate) fn follow<D: Digester, P: Pacer>(
    alloc: Global,
    pacer: &P,
    lone: &mut LoneDb<D>,
    player: &mut Player<D>,
    statement: u32,
    epoch: i64,
) -> bool
    requires player { (shared : Shared) × (place : ℕ) × (runner : Runner) × IsPlayer D.address lone.old.db.parts shared place runner player.old
        × (moments_left player.old ≤ room_at lone.old.db.parts place) }
    requires rest { IsAtRest D.address lone.old }
    requires epoch { pos 0 ≤ℤ epoch }
    ensures made { result ≡ true → (shared : Shared) (place : ℕ) (runner : Runner) → IsPlayer D.address lone.old.db.parts shared place runner player.old
        → HasFollowed D.address epoch place statement runner shared lone.old.db.parts lone.new.db.parts player.new }
    ensures missed { result ≡ false → (shared : Shared) (place : ℕ) (runner : Runner) → IsPlayer D.address lone.old.db.parts shared place runner player.old
        → IsFurther D.address lone.old.db.parts shared place runner player.new }
    ensures same { result ≡ false → lone.new.db.parts ≡ lone.old.db.parts }
    ensures rest { IsAtRest D.address lone.new }
    ensures settled { is_settled player.new ≡ true }
    ensures past { result ≡ false → is_next_at statement player.new ≡ false }
    ensures left { moments_left player.new ≤ moments_left player.old }
    ensures one_less { result ≡ true → moments_left player.new + 1 ≤ moments_left player.old }
{
    go_on(alloc, pacer, player);
    let made = lead_at(alloc, lone, player, statement, epoch);
    go_on(alloc, pacer, player);
    made
}

/// Leads the session to the moment of this statement, where that is the one that it needs next.
fn lead_at<D: Digester>(
    alloc: Global,
    lone: &mut LoneDb<D>,
    player: &mut Player<D>,
    statement: u32,
    epoch: i64,
) -> bool
    requires player { (shared : Shared) × (place : ℕ) × (runner : Runner) × IsPlayer D.address lone.old.db.parts shared place runner player.old
        × (moments_left player.old ≤ room_at lone.old.db.parts place) }
    requires rest { IsAtRest D.address lone.old }
    requires epoch { pos 0 ≤ℤ epoch }
    ensures led { result ≡ true → (shared : Shared) (place : ℕ) (runner : Runner) → IsPlayer D.address lone.old.db.parts shared place runner player.old
        → (runner.session.statement ≡ statement) × IsLed D.address epoch place runner shared lone.old.db.parts lone.new.db.parts player.new }
    ensures missed { result ≡ false → (shared : Shared) (place : ℕ) (runner : Runner) → IsPlayer D.address lone.old.db.parts shared place runner player.old
        → IsFurther D.address lone.old.db.parts shared place runner player.new }
    ensures same { result ≡ false → lone.new.db.parts ≡ lone.old.db.parts }
    ensures rest { IsAtRest D.address lone.new }
    ensures past { result ≡ false → ((player.new ≡ player.old) × (is_next_at statement player.old ≡ false)) ⊎ (statement ≤ length player.new.replies.items) }
    ensures left { moments_left player.new ≤ moments_left player.old }
    ensures one_less { result ≡ true → moments_left player.new + 1 ≤ moments_left player.old }
{
    if !is_next(player, statement) {
        return false;
    }
    lone.seat(player.session.number, statement);
    lead(alloc, lone, player, epoch)
}

/// Whether the session needs its next moment at this statement.
fn is_next<D: Digester>(player: &Player<D>, statement: u32) -> bool
    ensures { result ≡ is_next_at statement player.now }
{
    !is_free(&player.stage) && number_of(player.session.position) == statement
}

/// Leads the session, which needs a moment, to it, and through the work behind a start. Where memory is wanting or an address fails no moment is made,
/// and the statement is answered.
pub fn lead<D: Digester, T: Meeting<D>>(
    alloc: Global,
    meeting: &mut T,
    player: &mut Player<D>,
    epoch: i64,
) -> bool
    requires ready { (first : T) × T.ready first meeting.old }
    requires player { (shared : Shared) × (place : ℕ) × (runner : Runner) × IsPlayer D.address (T.tells meeting.old).seen shared place runner player.old }
    requires seat { IsSeatOf (T.tells meeting.old) player.old.session }
    requires waits { is_free player.old.stage ≡ false }
    requires epoch { pos 0 ≤ℤ epoch }
    requires room { 0 < room_of (T.tells meeting.old) }
    ensures ready { (first : T) → T.ready first meeting.old → T.ready first meeting.new }
    ensures led { result ≡ true → (shared : Shared) (place : ℕ) (runner : Runner) → IsPlayer D.address (T.tells meeting.old).seen shared place runner player.old
        → InOneMoment D.address (λ found shared left. IsLed D.address epoch place runner shared found left player.new) (T.tells meeting.old) (T.tells meeting.new) }
    ensures missed { result ≡ false → (parts : Parts) (shared : Shared) (place : ℕ) (runner : Runner) → IsPlayer D.address parts shared place runner player.old
        → IsFurther D.address parts shared place runner player.new }
    ensures stays { result ≡ false → WaitsFree (T.tells meeting.old) (T.tells meeting.new) }
    ensures answered { result ≡ false → length player.new.replies.items ≡ length player.old.replies.items + 1 }
    ensures left { moments_left player.new + 1 ≤ moments_left player.old }
    ensures holds { HoldsAfterThree (T.tells meeting.old) (T.tells meeting.new) }
{
    match replace(&mut player.stage, Stage::Free) {
        Stage::Free => unreachable!(),
        Stage::Waits(asked) => meet_first(alloc, meeting, player, asked, epoch),
        Stage::Between(asked, wanted) => decide(alloc, meeting, player, &asked, wanted, epoch),
    }
}

/// The first moment of its statement. Behind a start the session stands before its decision.
fn meet_first<D: Digester, T: Meeting<D>>(
    alloc: Global,
    meeting: &mut T,
    player: &mut Player<D>,
    asked: Boxed<Command>,
    epoch: i64,
) -> bool
    requires ready { (first : T) × T.ready first meeting.old }
    requires player { (shared : Shared) × (place : ℕ) × (runner : Runner) × IsPlayer D.address (T.tells meeting.old).seen shared place runner (record player.old { stage = stage.Waits asked }) }
    requires seat { IsSeatOf (T.tells meeting.old) player.old.session }
    requires free { player.old.stage ≡ stage.Free }
    requires epoch { pos 0 ≤ℤ epoch }
    requires room { 0 < room_of (T.tells meeting.old) }
    ensures ready { (first : T) → T.ready first meeting.old → T.ready first meeting.new }
    ensures led { result ≡ true → (shared : Shared) (place : ℕ) (runner : Runner) → IsPlayer D.address (T.tells meeting.old).seen shared place runner (record player.old { stage = stage.Waits asked })
        → InOneMoment D.address (λ found shared left. IsLed D.address epoch place runner shared found left player.new) (T.tells meeting.old) (T.tells meeting.new) }
    ensures missed { result ≡ false → (parts : Parts) (shared : Shared) (place : ℕ) (runner : Runner) → IsPlayer D.address parts shared place runner (record player.old { stage = stage.Waits asked })
        → IsFurther D.address parts shared place runner player.new }
    ensures stays { result ≡ false → WaitsFree (T.tells meeting.old) (T.tells meeting.new) }
    ensures answered { result ≡ false → length player.new.replies.items ≡ length player.old.replies.items + 1 }
    ensures left { moments_left player.new + 1 ≤ moments_left (record player.old { stage = stage.Waits asked }) }
    ensures holds { HoldsAfterThree (T.tells meeting.old) (T.tells meeting.new) }
{
    match meet(alloc, &mut player.session, asked.get(), meeting, epoch) {
        Ok(Met::Answered(reply)) => {
            player.replies.push_reserved(reply);
            true
        }
        Ok(Met::Pending(wanted)) => {
            player.stage = Stage::Between(asked, wanted);
            true
        }
        Err(fault) => {
            let reply = answer_fault(&mut player.session, fault);
            player.replies.push_reserved(reply);
            false
        }
    }
}

/// The decision behind its start.
fn decide<D: Digester, T: Meeting<D>>(
    alloc: Global,
    meeting: &mut T,
    player: &mut Player<D>,
    asked: &Boxed<Command>,
    wanted: Pending,
    epoch: i64,
) -> bool
    requires ready { (first : T) × T.ready first meeting.old }
    requires player { (shared : Shared) × (place : ℕ) × (runner : Runner) × IsPlayer D.address (T.tells meeting.old).seen shared place runner (record player.old { stage = stage.Between asked.now wanted }) }
    requires seat { IsSeatOf (T.tells meeting.old) player.old.session }
    requires free { player.old.stage ≡ stage.Free }
    requires epoch { pos 0 ≤ℤ epoch }
    requires room { 0 < room_of (T.tells meeting.old) }
    ensures ready { (first : T) → T.ready first meeting.old → T.ready first meeting.new }
    ensures led { result ≡ true → (shared : Shared) (place : ℕ) (runner : Runner) → IsPlayer D.address (T.tells meeting.old).seen shared place runner (record player.old { stage = stage.Between asked.now wanted })
        → InOneMoment D.address (λ found shared left. IsLed D.address epoch place runner shared found left player.new) (T.tells meeting.old) (T.tells meeting.new) }
    ensures missed { result ≡ false → (parts : Parts) (shared : Shared) (place : ℕ) (runner : Runner) → IsPlayer D.address parts shared place runner (record player.old { stage = stage.Between asked.now wanted })
        → IsFurther D.address parts shared place runner player.new }
    ensures stays { result ≡ false → WaitsFree (T.tells meeting.old) (T.tells meeting.new) }
    ensures answered { result ≡ false → length player.new.replies.items ≡ length player.old.replies.items + 1 }
    ensures left { moments_left player.new + 1 ≤ moments_left (record player.old { stage = stage.Between asked.now wanted }) }
    ensures holds { HoldsAfterThree (T.tells meeting.old) (T.tells meeting.new) }
{
    match conclude(
        alloc,
        &mut player.session,
        asked.get(),
        wanted,
        meeting,
        epoch,
    ) {
        Ok(reply) => {
            player.replies.push_reserved(reply);
            true
        }
        Err(fault) => {
            let reply = drop_started(&mut player.session, fault);
            player.replies.push_reserved(reply);
            false
        }
    }
}
