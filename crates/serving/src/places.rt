//! Where a session stands in its script.

ghost use Rattle.std.specs.Prelude.{◌≡◌, ◌<◌, ◌+◌, ◌^◌, ℕ};
ghost use Rattle.plain_sessions.specs.Sessions as plain;
ghost use Rattle.session_state.specs.Standing.{IsAt};
ghost use Rattle.session_state.specs.declared.sessions.Position.TheVariants as place;
ghost use Rattle.serving.specs.Steps.{number_at};

use session_state::{Position, Session};
use tuple_codec::Digester;

/// The number of the statement before or in which a session is.
pub(crate) fn number_of(position: Position) -> u32
    ensures { result ≡ number_at position }
{
    match position {
        Position::Before(number) | Position::Between(number) => number,
    }
}

/// The session goes on to its next statement.
pub(crate) fn go_on<D: Digester>(session: &mut Session<D>, number: u32)
    requires { number + 1 < 2 ^ 32 }
    ensures { session.new ≡ record session.old { position = place.Before (number + 1) } }
{
    session.position = Position::Before(number + 1);
}
