//! What a session answers by itself.

ghost use Rattle.std.specs.Prelude.{◌≡◌, false, true};
ghost use Rattle.script_text.specs.Collisions.{TellsTruly};
ghost use Rattle.plain_sessions.specs.Fitness.{IsFitCommand};
ghost use Rattle.plain_sessions.specs.Moments.{is_in_transaction};
ghost use Rattle.plain_sessions.specs.Replies.{is_refusal};
ghost use Rattle.plain_sessions.specs.Sessions as plain;
ghost use Rattle.plain_sessions.specs.declared.commands.Command.TheVariants as command;
ghost use Rattle.session_state.specs.Standing.{IsInTransaction, SessionStands};
ghost use Rattle.session_plan.specs.Answering.{AnswersAlone};
ghost use Rattle.session_plan.specs.Showing.{is_sound_reply};
ghost use Rattle.serving.specs.Kinds.{calls, is_alone, is_call};

use branch_procs::branch_local;
use merge_procs::merge_local;
use plain_sessions::{Command, Work};
use script_text::Reply;
use session_state::Session;
use session_txn::local;
use sql_procedures::MergeRequest;
use std::alloc::Global;
use tuple_codec::Digester;

/// Answers a statement that needs no moment, or whose start was taken.
pub(crate) fn answer_alone<D: Digester>(
    alloc: Global,
    session: &mut Session<D>,
    asked: &Command,
) -> Reply
    requires stands { (p : plain.Session) × SessionStands D.address session.old p × (is_alone p asked.now ≡ true) }
    requires fit { IsFitCommand asked.now }
    ensures alone { (p : plain.Session) → SessionStands D.address session.old p → is_alone p asked.now ≡ true
        → AnswersAlone D.address p asked.now session.new result }
    ensures sound { is_sound_reply result ≡ true }
    ensures truly { TellsTruly D.address result }
    ensures base { session.new.draft.chunks.base ≡ session.old.draft.chunks.base }
    ensures same { is_refusal result ≡ true → session.new ≡ record session.old { draft = session.new.draft } }
    ensures draft { is_refusal result ≡ true → session.new.draft.chunks ≡ session.old.draft.chunks }
{
    if calls(asked) {
        call(alloc, session, asked)
    } else {
        local(alloc, session, asked)
    }
}

/// A call of a procedure.
fn call<D: Digester>(alloc: Global, session: &mut Session<D>, asked: &Command) -> Reply
    requires stands { IsInTransaction D.address session.old }
    requires call { calls asked.now ≡ true }
    ensures alone { (p : plain.Session) → SessionStands D.address session.old p → is_in_transaction p ≡ true
        → AnswersAlone D.address p asked.now session.new result }
    ensures sound { is_sound_reply result ≡ true }
    ensures truly { TellsTruly D.address result }
    ensures base { session.new.draft.chunks.base ≡ session.old.draft.chunks.base }
    ensures same { is_refusal result ≡ true → session.new ≡ record session.old { draft = session.new.draft } }
    ensures draft { is_refusal result ≡ true → session.new.draft.chunks ≡ session.old.draft.chunks }
{
    match asked {
        Command::Data(work) => call_local(alloc, session, work),
        Command::Faulty(_)
        | Command::Begin
        | Command::CommitAll
        | Command::Rollback
        | Command::Switch(_)
        | Command::Say(_)
        | Command::OnBranches(_)
        | Command::Checkout(_) => unreachable!(),
    }
}

/// DOLT_ADD, DOLT_RESET, DOLT_MERGE that aborts, DOLT_CONFLICTS_RESOLVE and DOLT_VERIFY_CONSTRAINTS.
fn call_local<D: Digester>(alloc: Global, session: &mut Session<D>, asked: &Work) -> Reply
    requires stands { IsInTransaction D.address session.old }
    requires call { is_call asked.now ≡ true }
    ensures alone { (p : plain.Session) → SessionStands D.address session.old p → is_in_transaction p ≡ true
        → AnswersAlone D.address p (command.Data asked.now) session.new result }
    ensures sound { is_sound_reply result ≡ true }
    ensures truly { TellsTruly D.address result }
    ensures base { session.new.draft.chunks.base ≡ session.old.draft.chunks.base }
    ensures same { is_refusal result ≡ true → session.new ≡ record session.old { draft = session.new.draft } }
    ensures draft { is_refusal result ≡ true → session.new.draft.chunks ≡ session.old.draft.chunks }
{
    match asked {
        Work::Add(_) | Work::ResetTo(_) => branch_local(alloc, session, asked),
        Work::Merge(_) | Work::Resolve(_) | Work::Verify(_) => merge_local(alloc, session, asked),
        Work::Ask(_) | Work::Change(_) | Work::Commit(_) => unreachable!(),
    }
}

fn calls(asked: &Command) -> bool
    ensures { result ≡ calls asked.now }
{
    match asked {
        Command::Data(work) => is_call(work),
        Command::Faulty(_)
        | Command::Begin
        | Command::CommitAll
        | Command::Rollback
        | Command::Switch(_)
        | Command::Say(_)
        | Command::OnBranches(_)
        | Command::Checkout(_) => false,
    }
}

fn is_call(asked: &Work) -> bool
    ensures { result ≡ is_call asked.now }
{
    match asked {
        Work::Add(_)
        | Work::ResetTo(_)
        | Work::Merge(MergeRequest::Abort)
        | Work::Resolve(_)
        | Work::Verify(_) => true,
        Work::Ask(_) | Work::Change(_) | Work::Commit(_) | Work::Merge(MergeRequest::Merge(_)) => {
            false
        }
    }
}
