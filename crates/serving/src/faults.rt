//! What is answered where memory was wanting or an address failed.

ghost use Rattle.std.specs.Prelude.{◌≡◌, ◌<◌, ◌+◌, ◌^◌, true};
ghost use Rattle.script_text.specs.Collisions.{IsFault, TellsTruly};
ghost use Rattle.plain_sessions.specs.Sessions as plain;
ghost use Rattle.plain_sessions.specs.declared.commands.Command.{Command};
ghost use Rattle.session_state.specs.Standing.{SessionStands};
ghost use Rattle.session_plan.specs.Showing.{is_sound_reply};
ghost use Rattle.serving.specs.Serving.{Fails, PassesAlone};
ghost use Rattle.serving.specs.Steps.{after_start, fault_reply, number_at};

use crate::places::{go_on, number_of};
use chunk_store::PutFault;
use script_text::Reply;
use session_state::Session;
use tuple_codec::Digester;

/// What a fault is answered before any moment.
pub(crate) fn reply_to(fault: PutFault) -> Reply
    ensures reply { result ≡ fault_reply fault }
    ensures sound { is_sound_reply result ≡ true }
{
    match fault {
        PutFault::Memory => Reply::Refused(1),
        PutFault::Collision(clash) => Reply::collided(clash),
    }
}

/// A want of memory that came after the start is told so.
pub(crate) fn after_start(reply: Reply) -> Reply
    ensures reply { result ≡ after_start reply }
{
    match reply {
        Reply::Refused(number) => {
            if number == 1 {
                Reply::Refused(2)
            } else {
                Reply::Refused(number)
            }
        }
        other => other,
    }
}

/// Answers a statement that met a fault before its first moment, and the session goes on to the next one.
pub fn answer_fault<D: Digester>(session: &mut Session<D>, fault: PutFault) -> Reply
    requires before { (p : plain.Session) × SessionStands D.address session.old p × (p.place ≡ plain.Before) }
    requires place { number_at session.old.position + 1 < 2 ^ 32 }
    requires fault { IsFault D.address fault }
    ensures alone { (p : plain.Session) (asked : Command) → SessionStands D.address session.old p → p.place ≡ plain.Before → Fails p asked fault → PassesAlone D.address p asked session.new result }
    ensures sound { is_sound_reply result ≡ true }
    ensures truly { TellsTruly D.address result }
    ensures same { session.new ≡ record session.old { position = session.new.position } }
{
    let number = number_of(session.position);
    go_on(session, number);
    reply_to(fault)
}
