//! The work of a database statement whose start was made. It needs the session alone.

ghost use Rattle.std.specs.Prelude.{◌≡◌, ◌<◌, ◌+◌, ◌^◌, ℤ};
ghost use Rattle.plain_sessions.specs.Fitness.{IsFitCommand};
ghost use Rattle.plain_sessions.specs.Records.{Shared};
ghost use Rattle.plain_sessions.specs.Sessions as plain;
ghost use Rattle.session_state.specs.Changes.{Parts};
ghost use Rattle.serving.specs.Answering.{HasMet, place_after};
ghost use Rattle.serving.specs.Kinds.{may_close};
ghost use Rattle.serving.specs.Serving.{IsSoundMet, MetTellsTruly, Meets};
ghost use Rattle.serving.specs.Starting.{IsStarted};
ghost use Rattle.serving.specs.Steps.{number_at};

use crate::closing::follow_started;
use crate::meeting::Met;
use crate::places::number_of;
use crate::starting::answer_started;
use plain_sessions::{Command, Work};
use session_state::{Position, Session};
use sql_procedures::MergeRequest;
use std::alloc::Global;
use tuple_codec::Digester;

/// Does the work of a statement whose start was made, on what its start found: the statement is answered, or its decision is to come. Where
/// memory was wanting or an address failed it is answered so.
pub(crate) fn work_started<D: Digester>(
    alloc: Global,
    session: &mut Session<D>,
    asked: &Command,
) -> Met
    requires started { (p : plain.Session) × (shared : Shared) × (old : Parts) × (new : Parts) × IsStarted D.address p asked.now shared old new session.old }
    requires place { number_at session.old.position + 1 < 2 ^ 32 }
    requires fit { IsFitCommand asked.now }
    ensures met { (epoch : ℤ) (p : plain.Session) (shared : Shared) (old : Parts) (new : Parts) → IsStarted D.address p asked.now shared old new session.old
        → Meets D.address epoch p asked.now shared old new session.new result }
    ensures sound { IsSoundMet result }
    ensures truly { MetTellsTruly D.address result }
{
    let number = number_of(session.position);
    let met = do_work(alloc, session, asked);
    pass_on(session, number, &met);
    met
}

/// The work, before the session goes on.
fn do_work<D: Digester>(alloc: Global, session: &mut Session<D>, asked: &Command) -> Met
    requires started { (p : plain.Session) × (shared : Shared) × (old : Parts) × (new : Parts) × IsStarted D.address p asked.now shared old new session.old }
    requires fit { IsFitCommand asked.now }
    ensures met { (epoch : ℤ) (p : plain.Session) (shared : Shared) (old : Parts) (new : Parts) → IsStarted D.address p asked.now shared old new session.old
        → HasMet D.address epoch p asked.now shared old new session.new result }
    ensures sound { IsSoundMet result }
    ensures truly { MetTellsTruly D.address result }
{
    match asked {
        Command::Data(work) => {
            if may_close(work) {
                follow_started(alloc, session, work)
            } else {
                answer_started(alloc, session, asked)
            }
        }
        Command::Faulty(_)
        | Command::Begin
        | Command::CommitAll
        | Command::Rollback
        | Command::Switch(_)
        | Command::Say(_)
        | Command::OnBranches(_)
        | Command::Checkout(_) => unreachable!(),
    }
}

/// Whether the call may have a decision of its own.
fn may_close(work: &Work) -> bool
    ensures { result ≡ may_close work.now }
{
    match work {
        Work::Commit(_) | Work::Merge(MergeRequest::Merge(_)) => true,
        Work::Ask(_)
        | Work::Change(_)
        | Work::Add(_)
        | Work::ResetTo(_)
        | Work::Merge(MergeRequest::Abort)
        | Work::Resolve(_)
        | Work::Verify(_) => false,
    }
}

/// The session goes on to its next statement, or rests before its decision.
fn pass_on<D: Digester>(session: &mut Session<D>, number: u32, met: &Met)
    requires { number + 1 < 2 ^ 32 }
    ensures { session.new ≡ record session.old { position = place_after number met.now } }
{
    session.position = match met {
        Met::Answered(_) => Position::Before(number + 1),
        Met::Pending(_) => Position::Between(number),
    };
}
