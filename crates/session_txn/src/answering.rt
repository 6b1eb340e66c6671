//! Statements that need no moment, or whose start was taken.

ghost use Rattle.std.specs.Prelude.{◌≡◌, ◌≤◌, if◌then◌else◌, true};
ghost use Rattle.chunk_store.specs.Drafts.{pages_in};
ghost use Rattle.script_text.specs.Collisions.{TellsTruly};
ghost use Rattle.script_text.specs.declared.replies.Reply.TheVariants.{Done};
ghost use Rattle.plain_sessions.specs.Fitness.{IsFitCommand};
ghost use Rattle.plain_sessions.specs.Moments.{ends_by_set};
ghost use Rattle.plain_sessions.specs.Replies.{is_refusal, refused_by};
ghost use Rattle.plain_sessions.specs.Sessions as plain;
ghost use Rattle.plain_sessions.specs.Sessions.{over, with_variable};
ghost use Rattle.plain_sessions.specs.declared.commands.Command.TheVariants as command;
ghost use Rattle.session_state.specs.Standing.{SessionStands};
ghost use Rattle.session_plan.specs.Answering.{AnswersAlone};
ghost use Rattle.session_txn.specs.Answering.{is_always_done, is_local};
ghost use Rattle.session_plan.specs.Showing.{IsDue, is_sound_reply};

use crate::selecting::{ask, say};
use crate::writing::change;
use plain_sessions::{Command, Work};
use script_text::Reply;
use session_plan::due;
use session_state::Session;
use sql_ast::{Refusal, Setting};
use std::alloc::Global;
use tuple_codec::Digester;

/// Answers a statement that needs no moment, or whose start was taken. Where it is refused, or there is no memory, the session is as it was, but that
/// its pool may have more pages; so it is at a statement that isn't the session's alone, which gets want of memory.
pub fn local<D: Digester>(alloc: Global, session: &mut Session<D>, asked: &Command) -> Reply
    requires stands { (p : plain.Session) × SessionStands D.address session.old p × (is_local p asked.now ≡ true) }
    requires fit { IsFitCommand asked.now }
    ensures alone { (p : plain.Session) → SessionStands D.address session.old p → is_local p asked.now ≡ true
        → AnswersAlone D.address p asked.now session.new result }
    ensures sound { is_sound_reply result ≡ true }
    ensures truly { TellsTruly D.address result }
    ensures base { session.new.draft.chunks.base ≡ session.old.draft.chunks.base }
    ensures pages { pages_in session.old.draft ≤ pages_in session.new.draft }
    ensures rollback { asked.now ≡ command.Rollback → session.new.draft.taken ≡ 0 }
    ensures done { is_always_done asked.now ≡ true → result ≡ Done }
    ensures same { is_refusal result ≡ true → session.new ≡ record session.old { draft = session.new.draft } }
    ensures draft { is_refusal result ≡ true → session.new.draft.chunks ≡ session.old.draft.chunks }
{
    match asked {
        Command::Faulty(refusal) => refuse(*refusal),
        Command::CommitAll | Command::Rollback => end(session),
        Command::Switch(setting) => switch(session, setting),
        Command::Data(work) => do_work(alloc, session, work),
        Command::Say(select) => say(alloc, session, select),
        Command::Begin | Command::OnBranches(_) | Command::Checkout(_) => Reply::Refused(1),
    }
}

/// A database statement in the transaction that is open.
fn do_work<D: Digester>(alloc: Global, session: &mut Session<D>, work: &Work) -> Reply
    requires stands { (p : plain.Session) × SessionStands D.address session.old p × (is_local p (command.Data work.now) ≡ true) }
    requires fit { IsFitCommand (command.Data work.now) }
    ensures alone { (p : plain.Session) → SessionStands D.address session.old p → is_local p (command.Data work.now) ≡ true
        → AnswersAlone D.address p (command.Data work.now) session.new result }
    ensures sound { is_sound_reply result ≡ true }
    ensures truly { TellsTruly D.address result }
    ensures base { session.new.draft.chunks.base ≡ session.old.draft.chunks.base }
    ensures pages { pages_in session.old.draft ≤ pages_in session.new.draft }
    ensures same { is_refusal result ≡ true → session.new ≡ record session.old { draft = session.new.draft } }
    ensures draft { is_refusal result ≡ true → session.new.draft.chunks ≡ session.old.draft.chunks }
{
    match work {
        Work::Ask(select) => ask(alloc, session, select),
        Work::Change(statement) => change(alloc, session, statement),
        _ => Reply::Refused(1),
    }
}

/// A text that is no statement, or a call with arguments that its procedure doesn't take.
fn refuse(refusal: Refusal) -> Reply
    ensures due { IsDue 1 (refused_by refusal) result }
    ensures sound { is_sound_reply result ≡ true }
{
    if refusal.number == 1064 {
        Reply::Syntax(refusal.at)
    } else {
        due(Reply::Refused(refusal.number), 1)
    }
}

/// Ends the transaction, if one is open. The pages that it took are free again.
fn end<D: Digester>(session: &mut Session<D>) -> Reply
    ensures over { (p : plain.Session) → SessionStands D.address session.old p → SessionStands D.address session.new (over p) }
    ensures done { result ≡ Done }
    ensures base { session.new.draft.chunks.base ≡ session.old.draft.chunks.base }
    ensures pages { pages_in session.old.draft ≤ pages_in session.new.draft }
    ensures freed { session.new.draft.taken ≡ 0 }
{
    session.draft.clear();
    session.start = None;
    Reply::Done
}

/// Gives a variable its value. Autocommit that comes on ends the transaction, which changed nothing.
fn switch<D: Digester>(session: &mut Session<D>, setting: &Setting) -> Reply
    ensures alone { (p : plain.Session) → SessionStands D.address session.old p → is_local p (command.Switch setting.now) ≡ true
        → AnswersAlone D.address p (command.Switch setting.now) session.new result }
    ensures done { result ≡ Done }
    ensures base { session.new.draft.chunks.base ≡ session.old.draft.chunks.base }
    ensures pages { pages_in session.old.draft ≤ pages_in session.new.draft }
{
    let variable = setting.variable.as_slice();
    let ends = ends_transaction(session, variable, setting.on);
    end_if(session, ends);
    set_variable(session, variable, setting.on);
    Reply::Done
}

fn end_if<D: Digester>(session: &mut Session<D>, ends: bool)
    ensures stands { (p : plain.Session) → SessionStands D.address session.old p → SessionStands D.address session.new (if ends then over p else p) }
    ensures base { session.new.draft.chunks.base ≡ session.old.draft.chunks.base }
    ensures pages { pages_in session.old.draft ≤ pages_in session.new.draft }
{
    if ends {
        session.start = None;
    }
}

/// Whether this value ends an open transaction as COMMIT does.
pub fn ends_transaction<D: Digester>(session: &Session<D>, variable: &[u8], on: bool) -> bool
    ensures { (p : plain.Session) → SessionStands D.address session.now p → result ≡ ends_by_set p variable.now on }
{
    variable == b"autocommit".as_slice() && on && !session.autocommit
}

fn set_variable<D: Digester>(session: &mut Session<D>, variable: &[u8], on: bool)
    ensures stands { (p : plain.Session) → SessionStands D.address session.old p → SessionStands D.address session.new (with_variable variable.now on p) }
    ensures base { session.new.draft.chunks.base ≡ session.old.draft.chunks.base }
    ensures pages { pages_in session.old.draft ≤ pages_in session.new.draft }
{
    if variable == b"autocommit".as_slice() {
        session.autocommit = on;
    } else if variable == b"dolt_allow_commit_conflicts".as_slice() {
        session.allow = on;
    } else {
        session.force = on;
    }
}
