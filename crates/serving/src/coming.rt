//! Statements that need no moment.

ghost use Rattle.std.specs.Prelude.{◌≡◌, ◌<◌, ◌+◌, ◌^◌, ◌&&◌, true, false, None, IfSome};
ghost use Rattle.script_text.specs.Collisions.{TellsTruly};
ghost use Rattle.plain_sessions.specs.Fitness.{IsFitCommand, IsFitWork};
ghost use Rattle.plain_sessions.specs.Moments.{alone, alone_by, ends_by_set};
ghost use Rattle.plain_sessions.specs.Sessions as plain;
ghost use Rattle.plain_sessions.specs.Sessions.{is_changed};
ghost use Rattle.script_text.specs.declared.replies.Reply.TheVariants.{Refused};
ghost use Rattle.plain_sessions.specs.declared.commands.Command.TheVariants as command;
ghost use Rattle.session_state.specs.Standing.{SessionStands};
ghost use Rattle.session_plan.specs.Answering.{AnswersAlone};
ghost use Rattle.session_plan.specs.Showing.{is_sound_reply};
ghost use Rattle.serving.specs.Kinds.{is_alone, is_in_place, may_close};
ghost use Rattle.serving.specs.Serving.{PassesAlone};
ghost use Rattle.serving.specs.Steps.{is_undone, number_at};

use crate::alone::answer_alone;
use crate::courses::{Course, find_course};
use crate::faults::reply_to;
use crate::places::{go_on, number_of};
use chunk_store::{law_of_drafts, law_of_growth};
use merge_procs::take_step;
use plain_sessions::{Command, Work};
use script_text::Reply;
use session_plan::due;
use session_state::Session;
use session_txn::ends_transaction;
use sql_ast::Setting;
use sql_procedures::MergeRequest;
use std::alloc::Global;
use tuple_codec::Digester;

/// Answers a statement that needs no moment, and the session goes on to the next one. `None` where it needs one; the session then stands
/// for the same one before the same statement.
pub fn come_to<D: Digester>(
    alloc: Global,
    session: &mut Session<D>,
    asked: &Command,
) -> Option<Reply>
    requires before { (p : plain.Session) × SessionStands D.address session.old p × (p.place ≡ plain.Before) }
    requires place { number_at session.old.position + 1 < 2 ^ 32 }
    requires fit { IsFitCommand asked.now }
    ensures alone { IfSome result (λ reply. (p : plain.Session) → SessionStands D.address session.old p → p.place ≡ plain.Before → PassesAlone D.address p asked.now session.new reply) }
    ensures waits { result ≡ None → (p : plain.Session) → SessionStands D.address session.old p → p.place ≡ plain.Before
        → (alone None p asked.now ≡ None) × SessionStands D.address session.new p }
    ensures base { session.new.draft.chunks.base ≡ session.old.draft.chunks.base }
    ensures place { result ≡ None → session.new.position ≡ session.old.position }
    ensures sound { IfSome result (λ reply. is_sound_reply reply ≡ true) }
    ensures truly { IfSome result (TellsTruly D.address) }
    ensures same { is_undone result ≡ true → session.new ≡ record session.old { position = session.new.position; draft = session.new.draft } }
    ensures draft { is_undone result ≡ true → session.new.draft.chunks ≡ session.old.draft.chunks }
{
    let number = number_of(session.position);
    let reply = answer_at_once(alloc, session, asked)?;
    go_on(session, number);
    Some(reply)
}

/// The answer, before the session goes on.
fn answer_at_once<D: Digester>(
    alloc: Global,
    session: &mut Session<D>,
    asked: &Command,
) -> Option<Reply>
    requires stands { (p : plain.Session) × SessionStands D.address session.old p }
    requires fit { IsFitCommand asked.now }
    ensures alone { IfSome result (λ reply. (p : plain.Session) → SessionStands D.address session.old p → AnswersAlone D.address p asked.now session.new reply) }
    ensures waits { result ≡ None → (p : plain.Session) → SessionStands D.address session.old p → (alone_by None p asked.now ≡ None) × SessionStands D.address session.new p }
    ensures place { result ≡ None → session.new.position ≡ session.old.position }
    ensures sound { IfSome result (λ reply. is_sound_reply reply ≡ true) }
    ensures truly { IfSome result (TellsTruly D.address) }
    ensures base { session.new.draft.chunks.base ≡ session.old.draft.chunks.base }
    ensures same { is_undone result ≡ true → session.new ≡ record session.old { draft = session.new.draft } }
    ensures draft { is_undone result ≡ true → session.new.draft.chunks ≡ session.old.draft.chunks }
{
    match asked {
        Command::Checkout(_) => changed_alone(session),
        Command::OnBranches(_) => None,
        Command::Data(work) => work_at_once(alloc, session, asked, work),
        Command::Faulty(_)
        | Command::Begin
        | Command::CommitAll
        | Command::Rollback
        | Command::Switch(_)
        | Command::Say(_) => in_place_at_once(alloc, session, asked),
    }
}

/// A database statement.
fn work_at_once<D: Digester>(
    alloc: Global,
    session: &mut Session<D>,
    asked: &Command,
    work: &Work,
) -> Option<Reply>
    requires stands { (p : plain.Session) × SessionStands D.address session.old p }
    requires work { asked.now ≡ command.Data work.now }
    requires fit { IsFitCommand asked.now }
    ensures alone { IfSome result (λ reply. (p : plain.Session) → SessionStands D.address session.old p → AnswersAlone D.address p asked.now session.new reply) }
    ensures waits { result ≡ None → (p : plain.Session) → SessionStands D.address session.old p → (alone_by None p asked.now ≡ None) × SessionStands D.address session.new p }
    ensures place { result ≡ None → session.new.position ≡ session.old.position }
    ensures sound { IfSome result (λ reply. is_sound_reply reply ≡ true) }
    ensures truly { IfSome result (TellsTruly D.address) }
    ensures base { session.new.draft.chunks.base ≡ session.old.draft.chunks.base }
    ensures same { is_undone result ≡ true → session.new ≡ record session.old { draft = session.new.draft } }
    ensures draft { is_undone result ≡ true → session.new.draft.chunks ≡ session.old.draft.chunks }
{
    match work {
        Work::Commit(_) | Work::Merge(MergeRequest::Merge(_)) => closing_at_once(
            alloc, session, work,
        ),
        Work::Ask(_)
        | Work::Change(_)
        | Work::Add(_)
        | Work::ResetTo(_)
        | Work::Merge(MergeRequest::Abort)
        | Work::Resolve(_)
        | Work::Verify(_) => in_place_at_once(alloc, session, asked),
    }
}

/// A statement that leaves its session on its branch, and has no decision but the commit rule's.
fn in_place_at_once<D: Digester>(
    alloc: Global,
    session: &mut Session<D>,
    asked: &Command,
) -> Option<Reply>
    requires stands { (p : plain.Session) × SessionStands D.address session.old p }
    requires in_place { is_in_place asked.now ≡ true }
    requires fit { IsFitCommand asked.now }
    ensures alone { IfSome result (λ reply. (p : plain.Session) → SessionStands D.address session.old p → AnswersAlone D.address p asked.now session.new reply) }
    ensures waits { result ≡ None → (p : plain.Session) → SessionStands D.address session.old p → (alone_by None p asked.now ≡ None) × SessionStands D.address session.new p }
    ensures place { result ≡ None → session.new.position ≡ session.old.position }
    ensures sound { IfSome result (λ reply. is_sound_reply reply ≡ true) }
    ensures truly { IfSome result (TellsTruly D.address) }
    ensures base { session.new.draft.chunks.base ≡ session.old.draft.chunks.base }
    ensures same { is_undone result ≡ true → session.new ≡ record session.old { draft = session.new.draft } }
    ensures draft { is_undone result ≡ true → session.new.draft.chunks ≡ session.old.draft.chunks }
{
    if is_alone(session, asked) {
        Some(answer_alone(alloc, session, asked))
    } else {
        None
    }
}

/// A transaction with changes keeps the session on its branch.
fn changed_alone<D: Digester>(session: &Session<D>) -> Option<Reply>
    requires { (p : plain.Session) × SessionStands D.address session.now p }
    ensures refused { IfSome result (λ reply. (reply ≡ Refused 9006) × ((p : plain.Session) → SessionStands D.address session.now p → is_changed p ≡ true)) }
    ensures waits { result ≡ None → (p : plain.Session) → SessionStands D.address session.now p → is_changed p ≡ false }
{
    if session.is_changed() {
        Some(Reply::Refused(9006))
    } else {
        None
    }
}

/// DOLT_COMMIT, or DOLT_MERGE of a name, where it has no decision of its own in the open transaction.
fn closing_at_once<D: Digester>(
    alloc: Global,
    session: &mut Session<D>,
    asked: &Work,
) -> Option<Reply>
    requires stands { (p : plain.Session) × SessionStands D.address session.old p }
    requires closes { may_close asked.now ≡ true }
    requires fit { IsFitWork asked.now }
    ensures alone { IfSome result (λ reply. (p : plain.Session) → SessionStands D.address session.old p → AnswersAlone D.address p (command.Data asked.now) session.new reply) }
    ensures waits { result ≡ None → (p : plain.Session) → SessionStands D.address session.old p
        → (alone_by None p (command.Data asked.now) ≡ None) × SessionStands D.address session.new p }
    ensures place { result ≡ None → session.new.position ≡ session.old.position }
    ensures sound { IfSome result (λ reply. is_sound_reply reply ≡ true) }
    ensures truly { IfSome result (TellsTruly D.address) }
    ensures base { session.new.draft.chunks.base ≡ session.old.draft.chunks.base }
    ensures same { is_undone result ≡ true → session.new ≡ record session.old { draft = session.new.draft } }
    ensures draft { is_undone result ≡ true → session.new.draft.chunks ≡ session.old.draft.chunks }
{
    if session.start.is_none() {
        return None;
    }
    law_of_drafts();
    law_of_growth();
    let mark = session.draft.mark();
    match find_course(alloc, session, asked) {
        Ok(Course::Closes(_)) => {
            session.draft.back_to(mark);
            None
        }
        Ok(Course::Refused(number)) => Some(due(Reply::Refused(number), 1)),
        Ok(Course::Stays(step)) => Some(take_step(session, step)),
        Err(fault) => Some(reply_to(fault)),
    }
}

/// Whether the statement needs no moment.
fn is_alone<D: Digester>(session: &Session<D>, asked: &Command) -> bool
    requires { (p : plain.Session) × SessionStands D.address session.now p }
    ensures { (p : plain.Session) → SessionStands D.address session.now p → result ≡ is_alone p asked.now }
{
    match asked {
        Command::Faulty(_) | Command::Rollback | Command::Say(_) => true,
        Command::CommitAll => !session.is_changed(),
        Command::Switch(setting) => !ends_changed(session, setting),
        Command::Data(work) => is_alone_work(session, work),
        Command::Begin | Command::OnBranches(_) | Command::Checkout(_) => false,
    }
}

/// A database statement needs no start in a transaction.
fn is_alone_work<D: Digester>(session: &Session<D>, work: &Work) -> bool
    ensures { (p : plain.Session) → SessionStands D.address session.now p → result ≡ is_alone p (command.Data work.now) }
{
    match work {
        Work::Commit(_) | Work::Merge(MergeRequest::Merge(_)) => false,
        Work::Ask(_)
        | Work::Change(_)
        | Work::Add(_)
        | Work::ResetTo(_)
        | Work::Merge(MergeRequest::Abort)
        | Work::Resolve(_)
        | Work::Verify(_) => session.start.is_some(),
    }
}

/// Whether a SET ends a transaction that changed something.
fn ends_changed<D: Digester>(session: &Session<D>, setting: &Setting) -> bool
    requires { (p : plain.Session) × SessionStands D.address session.now p }
    ensures { (p : plain.Session) → SessionStands D.address session.now p
        → result ≡ (ends_by_set p setting.now.variable setting.now.on && is_changed p) }
{
    ends_transaction(session, setting.variable.as_slice(), setting.on) && session.is_changed()
}
