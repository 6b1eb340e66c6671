//! A statement by its text.

ghost use Rattle.std.specs.Prelude.{◌≡◌, ◌<◌, ◌≤◌, ◌≤ℤ◌, ◌+◌, ◌^◌, pos, true, IfOk};
ghost use Rattle.script_text.specs.Collisions.{TellsTruly};
ghost use Rattle.plain_sessions.specs.Fitness.{IsFitCommand};
ghost use Rattle.plain_sessions.specs.Commands.{command};
ghost use Rattle.plain_sessions.specs.Sessions as plain;
ghost use Rattle.shared_history.specs.Meeting.{room_of};
ghost use Rattle.serving.specs.Meetings.{IsBeforeAt, ServesAt};
ghost use Rattle.serving.specs.Serving.{is_sound_reply};
ghost use Rattle.serving.specs.Steps.{number_at};
ghost use Rattle.script_run.specs.Scripts.{is_statement_text};

use chunk_store::PutFault;
use plain_sessions::{Command, read_command};
use script_text::Reply;
use serving::{answer_fault, serve};
use session_state::Session;
use shared_history::Meeting;
use std::alloc::{AllocError, Global};
use tuple_codec::{Boxed, Digester};

/// Serves a statement by its text. One that can't be read for want of memory is passed over.
pub fn serve_text<D: Digester, T: Meeting<D>>(
    alloc: Global,
    session: &mut Session<D>,
    text: &[u8],
    meeting: &mut T,
    epoch: i64,
) -> Reply
    requires ready { (first : T) × T.ready first meeting.old }
    requires before { (p : plain.Session) × IsBeforeAt D.address session.old (T.tells meeting.old) p }
    requires place { number_at session.old.position + 1 < 2 ^ 32 }
    requires room { 2 ≤ room_of (T.tells meeting.old) }
    requires epoch { pos 0 ≤ℤ epoch }
    requires spelled { is_statement_text text.now ≡ true }
    ensures ready { (first : T) → T.ready first meeting.old → T.ready first meeting.new }
    ensures served { (p : plain.Session) → IsBeforeAt D.address session.old (T.tells meeting.old) p
        → ServesAt D.address epoch p (command text.now) (T.tells meeting.old) (T.tells meeting.new) session.new result }
    ensures sound { is_sound_reply result ≡ true }
    ensures truly { TellsTruly D.address result }
{
    match asked_by(alloc, text) {
        Ok(asked) => serve(alloc, session, asked.get(), meeting, epoch),
        Err(_) => answer_fault(session, PutFault::Memory),
    }
}

/// What a statement of a script asks.
pub(crate) fn asked_by(alloc: Global, text: &[u8]) -> Result<Boxed<Command>, AllocError>
    requires { is_statement_text text.now ≡ true }
    ensures is { IfOk result (λ asked. asked ≡ command text.now) }
    ensures fit { IfOk result IsFitCommand }
{
    read_command(alloc, text)
}
