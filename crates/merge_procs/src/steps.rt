//! What a call makes of the session's own record, and how that is taken on.

ghost use Rattle.std.specs.Prelude.{◌≡◌, IfErr, IfOk, Some, false, true};
ghost use Rattle.chunk_store.specs.Drafts.{chunks_of};
ghost use Rattle.plain_sessions.specs.Replies.{is_refusal};
ghost use Rattle.plain_sessions.specs.Sessions as plain;
ghost use Rattle.plain_sessions.specs.Statements.{worked};
ghost use Rattle.plain_sessions.specs.declared.commands.Command.TheVariants as command;
ghost use Rattle.plain_sessions.specs.declared.commands.Work.{Work};
ghost use Rattle.script_text.specs.Collisions.{IsFault, TellsTruly};
ghost use Rattle.session_state.specs.Standing.{SessionStands};
ghost use Rattle.session_plan.specs.Answering.{AnswersAlone};
ghost use Rattle.session_plan.specs.Showing.{is_sound_reply};
ghost use Rattle.merge_procs.specs.Steps.{IsBackUnless, IsStep, IsToldFault, is_made, is_made_by};

use chunk_store::{Draft, DraftMark, PutFault, law_of_drafts};
use script_text::Reply;
use session_plan::due;
use session_state::{Session, law_of_transactions};
use tuple_codec::{BranchRecord, Digester};

/// What a call makes of the session's own record, with what it answers.
#[derive(Drop)]
pub struct Made {
    pub rec: BranchRecord,
    pub reply: Reply,
}

/// What a call that isn't decided on comes to.
#[derive(Drop)]
pub enum Step {
    Made(Made),
    Refused(u16),
}

/// Whether a record was made.
pub(crate) fn is_made(found: &Result<Step, PutFault>) -> bool
    ensures { result ≡ is_made_by found.now }
{
    matches!(found, Ok(Step::Made(_)))
}

/// Brings the draft back to the mark, unless all in it stays.
pub(crate) fn go_back<D: Digester>(draft: &mut Draft<D>, mark: DraftMark, stays: bool)
    ensures { IsBackUnless mark.own stays draft.old draft.new }
{
    if !stays {
        draft.back_to(mark);
    }
}

/// Takes on what was made of the session's own record, and answers. A refusal changes nothing.
pub fn take_step<D: Digester>(session: &mut Session<D>, step: Step) -> Reply
    requires { (p : plain.Session) × (t : plain.Transaction) × (asked : Work) × SessionStands D.address session.old p × (p.transaction ≡ Some t)
        × IsStep D.address (chunks_of session.old.draft.chunks) t.commits step (worked p t asked) }
    ensures alone { (p : plain.Session) (t : plain.Transaction) (asked : Work) → SessionStands D.address session.old p → p.transaction ≡ Some t
        → IsStep D.address (chunks_of session.old.draft.chunks) t.commits step (worked p t asked) → AnswersAlone D.address p (command.Data asked) session.new result }
    ensures made { is_made step ≡ true → is_refusal result ≡ false }
    ensures sound { is_sound_reply result ≡ true }
    ensures truly { TellsTruly D.address result }
    ensures draft { session.new.draft ≡ session.old.draft }
    ensures same { is_refusal result ≡ true → session.new ≡ session.old }
{
    law_of_drafts();
    law_of_transactions();
    match step {
        Step::Made(made) => {
            session.own = made.rec;
            made.reply
        }
        Step::Refused(number) => due(Reply::Refused(number), 1),
    }
}

/// Takes on what was found, or answers why nothing was.
pub(crate) fn settle<D: Digester>(session: &mut Session<D>, found: Result<Step, PutFault>) -> Reply
    requires stands { (p : plain.Session) × (t : plain.Transaction) × (asked : Work) × SessionStands D.address session.old p × (p.transaction ≡ Some t)
        × IfOk found (λ step. IsStep D.address (chunks_of session.old.draft.chunks) t.commits step (worked p t asked)) }
    requires fault { IfErr found (IsFault D.address) }
    ensures alone { (p : plain.Session) (t : plain.Transaction) (asked : Work) → SessionStands D.address session.old p → p.transaction ≡ Some t
        → IfOk found (λ step. IsStep D.address (chunks_of session.old.draft.chunks) t.commits step (worked p t asked)) → AnswersAlone D.address p (command.Data asked) session.new result }
    ensures made { is_made_by found ≡ true → is_refusal result ≡ false }
    ensures sound { is_sound_reply result ≡ true }
    ensures truly { TellsTruly D.address result }
    ensures draft { session.new.draft ≡ session.old.draft }
    ensures same { is_refusal result ≡ true → session.new ≡ session.old }
{
    match found {
        Ok(step) => take_step(session, step),
        Err(fault) => fault_reply(fault),
    }
}

/// The reply that tells a fault, where no moment was made.
fn fault_reply(fault: PutFault) -> Reply
    ensures tells { IsToldFault fault result }
    ensures sound { is_sound_reply result ≡ true }
{
    match fault {
        PutFault::Memory => Reply::Refused(1),
        PutFault::Collision(clash) => Reply::collided(clash),
    }
}
