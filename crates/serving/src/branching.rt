//! Steps on the list of branches, each at one moment: DOLT_BRANCH and DOLT_CHECKOUT.

ghost use Rattle.std.specs.Prelude.{◌≡◌, ◌≢◌, ◌<◌, ℤ, true, false, None, IfErr, IfOk, OnErr};
ghost use Rattle.script_text.specs.Collisions.{IsFault, TellsTruly};
ghost use Rattle.plain_sessions.specs.Branching.{checkout_name};
ghost use Rattle.plain_sessions.specs.Fitness.{is_fit_branch, is_fit_checkout, is_fit_new};
ghost use Rattle.plain_sessions.specs.Sessions as plain;
ghost use Rattle.plain_sessions.specs.Sessions.{is_changed};
ghost use Rattle.plain_sessions.specs.declared.commands.Command.TheVariants as command;
ghost use Rattle.sql_procedures.specs.Arguments.{is_point};
ghost use Rattle.session_plan.specs.Showing.{is_sound_reply};
ghost use Rattle.shared_db.specs.Stepping.{point_of, step_of_branch, step_of_checkout};
ghost use Rattle.shared_db.specs.declared.changes.BranchReply.TheVariants as reply;
ghost use Rattle.shared_history.specs.Meeting.{room_of};
ghost use Rattle.serving.specs.Branching.{Went, step_reply};
ghost use Rattle.serving.specs.Meetings.{HoldsAfterThree, InOneMoment, IsBeforeAt, WaitsFree};

use crate::rows::{status_row, switched_row};
use chunk_store::PutFault;
use script_text::Reply;
use session_state::Session;
use shared_db::{BranchReply, BranchStep, Point, law_of_steps};
use shared_history::Meeting;
use sql_procedures::{BranchRequest, CheckoutRequest, NewBranch};
use std::alloc::Global;
use table_root::BranchName;
use tuple_codec::{Answer, Digester, Text};

/// DOLT_BRANCH. Where memory was wanting there is no moment.
pub(crate) fn step_branches<D: Digester, T: Meeting<D>>(
    alloc: Global,
    session: &Session<D>,
    request: &BranchRequest,
    meeting: &mut T,
) -> Result<Reply, PutFault>
    requires ready { (first : T) × T.ready first meeting.old }
    requires before { (p : plain.Session) × IsBeforeAt D.address session.now (T.tells meeting.old) p }
    requires fit { is_fit_branch request.now ≡ true }
    requires room { 0 < room_of (T.tells meeting.old) }
    ensures ready { (first : T) → T.ready first meeting.old → T.ready first meeting.new }
    ensures went { IfOk result (λ reply. (epoch : ℤ) (p : plain.Session) → IsBeforeAt D.address session.now (T.tells meeting.old) p
        → InOneMoment D.address (λ found shared left. Went D.address epoch p (command.OnBranches request.now) shared found left session.now reply) (T.tells meeting.old) (T.tells meeting.new)) }
    ensures sound { IfOk result (λ reply. is_sound_reply reply ≡ true) }
    ensures truly { IfOk result (TellsTruly D.address) }
    ensures fault { IfErr result (IsFault D.address) }
    ensures waits { OnErr result (WaitsFree (T.tells meeting.old) (T.tells meeting.new)) }
    ensures holds { HoldsAfterThree (T.tells meeting.old) (T.tells meeting.new) }
{
    law_of_steps();
    let step = step_of_branch(request);
    let row = status_row(alloc)?;
    let ended = meeting.branch_step(&step);
    Ok(step_reply(row, ended))
}

/// DOLT_CHECKOUT, but in a transaction that changed something: the session is on the branch that it is on then, and its transaction is over.
/// Where memory was wanting there is no moment, and all is as it was.
pub(crate) fn go_to<D: Digester, T: Meeting<D>>(
    alloc: Global,
    session: &mut Session<D>,
    request: &CheckoutRequest,
    meeting: &mut T,
) -> Result<Reply, PutFault>
    requires ready { (first : T) × T.ready first meeting.old }
    requires before { (p : plain.Session) × IsBeforeAt D.address session.old (T.tells meeting.old) p × (is_changed p ≡ false) }
    requires fit { is_fit_checkout request.now ≡ true }
    requires room { 0 < room_of (T.tells meeting.old) }
    ensures ready { (first : T) → T.ready first meeting.old → T.ready first meeting.new }
    ensures went { IfOk result (λ reply. (epoch : ℤ) (p : plain.Session) → IsBeforeAt D.address session.old (T.tells meeting.old) p → is_changed p ≡ false
        → InOneMoment D.address (λ found shared left. Went D.address epoch p (command.Checkout request.now) shared found left session.new reply) (T.tells meeting.old) (T.tells meeting.new)) }
    ensures position { session.new.position ≡ session.old.position }
    ensures sound { IfOk result (λ reply. is_sound_reply reply ≡ true) }
    ensures truly { IfOk result (TellsTruly D.address) }
    ensures fault { IfErr result (IsFault D.address) }
    ensures waits { OnErr result (WaitsFree (T.tells meeting.old) (T.tells meeting.new)) }
    ensures kept { OnErr result (session.new ≡ session.old) }
    ensures holds { HoldsAfterThree (T.tells meeting.old) (T.tells meeting.new) }
{
    law_of_steps();
    let branch = checkout_name(request);
    let row = switched_row(alloc, branch.bytes())?;
    let step = step_of_checkout(request);
    let ended = meeting.branch_step(&step);
    arrive(session, branch, ended);
    Ok(step_reply(row, ended))
}

/// Where the step was done the session is on that branch, outside any transaction.
fn arrive<D: Digester>(session: &mut Session<D>, branch: BranchName, ended: BranchReply)
    ensures done { ended ≡ reply.Done → session.new ≡ record session.old { branch = branch; start = None } }
    ensures same { ended ≢ reply.Done → session.new ≡ session.old }
    ensures draft { session.new.draft ≡ session.old.draft }
    ensures position { session.new.position ≡ session.old.position }
{
    if ended == BranchReply::Done {
        session.branch = branch;
        session.start = None;
    }
}

/// What a step that ended so is answered.
fn step_reply(row: Answer, ended: BranchReply) -> Reply
    ensures { result ≡ step_reply row ended }
{
    match ended {
        BranchReply::Done => Reply::Rows(row),
        BranchReply::NoSuch => Reply::Refused(9004),
        BranchReply::Exists => Reply::Refused(9005),
        BranchReply::Full => Reply::Refused(9010),
        BranchReply::CheckedOut => Reply::Refused(9014),
    }
}

// ---- requests as steps

fn step_of_branch(request: &BranchRequest) -> BranchStep
    requires { is_fit_branch request.now ≡ true }
    ensures { result ≡ step_of_branch request.now }
{
    match request {
        BranchRequest::Create(made) => BranchStep::Create(new_name(made), new_point(made)),
        BranchRequest::Delete(name) => BranchStep::Delete(name_in(name)),
    }
}

fn step_of_checkout(request: &CheckoutRequest) -> BranchStep
    requires { is_fit_checkout request.now ≡ true }
    ensures { result ≡ step_of_checkout request.now }
{
    match request {
        CheckoutRequest::Existing(name) => BranchStep::Checkout(name_in(name)),
        CheckoutRequest::New(made) => BranchStep::CheckoutNew(new_name(made), new_point(made)),
    }
}

/// The branch on which the session is to be.
fn checkout_name(request: &CheckoutRequest) -> BranchName
    requires { is_fit_checkout request.now ≡ true }
    ensures { result ≡ checkout_name request.now }
{
    match request {
        CheckoutRequest::Existing(name) => name_in(name),
        CheckoutRequest::New(made) => new_name(made),
    }
}

fn new_name(made: &NewBranch) -> BranchName
    requires { is_fit_new made.now ≡ true }
    ensures { result ≡ made.now.name }
{
    name_in(&made.name)
}

/// The point at which a branch is to be made.
fn new_point(made: &NewBranch) -> Point
    requires { is_fit_new made.now ≡ true }
    ensures { result ≡ point_of made.now.point }
{
    match &made.point {
        Some(name) => Point::Named(name_in(name)),
        None => Point::Own,
    }
}

/// A name that was judged with its call.
fn name_in(text: &Text) -> BranchName
    requires { is_point text.now ≡ true }
    ensures { result ≡ text.now }
{
    match BranchName::read(text.as_slice()) {
        Some(name) => name,
        None => unreachable!(),
    }
}
