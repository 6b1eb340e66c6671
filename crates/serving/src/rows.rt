//! The row that a call answers.

ghost use Rattle.std.specs.Prelude.{◌≡◌, ◌∷◌, [], IfOk};
ghost use Rattle.script_text.specs.declared.replies.Reply.TheVariants.{Rows};
ghost use Rattle.plain_sessions.specs.Branching.{status, switched_to};
ghost use Rattle.plain_sessions.specs.Replies.{one_row};
ghost use Rattle.serving.specs.Branching.{switched_message};

use std::alloc::{AllocError, Global};
use tuple_codec::{Answer, Row, Sequence, SqlType, Text, Value};

/// `status` is 0: all went well.
pub(crate) fn status_row(alloc: Global) -> Result<Answer, AllocError>
    ensures { IfOk result (λ answer. Rows answer ≡ one_row (status ∷ [])) }
{
    let mut names = Sequence::new(alloc);
    names.push(Text::from_slice(alloc, b"status")?)?;
    let mut kinds = Sequence::new(alloc);
    kinds.push(SqlType::BigInt)?;
    let mut row = Sequence::new(alloc);
    row.push(Value::Int(0))?;
    answer_of(alloc, names, kinds, row)
}

/// The session is on another branch.
pub(crate) fn switched_row(alloc: Global, name: &[u8]) -> Result<Answer, AllocError>
    ensures { IfOk result (λ answer. Rows answer ≡ switched_to name.now) }
{
    let mut names = Sequence::new(alloc);
    names.push(Text::from_slice(alloc, b"status")?)?;
    names.push(Text::from_slice(alloc, b"message")?)?;
    let mut kinds = Sequence::new(alloc);
    kinds.push(SqlType::BigInt)?;
    kinds.push(SqlType::Varchar(u16::MAX))?;
    let mut row = Sequence::new(alloc);
    row.push(Value::Int(0))?;
    row.push(Value::Text(switched_message(alloc, name)?))?;
    answer_of(alloc, names, kinds, row)
}

fn switched_message(alloc: Global, name: &[u8]) -> Result<Text, AllocError>
    ensures { IfOk result (λ message. message ≡ switched_message name.now) }
{
    let mut message = Text::from_slice(alloc, b"Switched to branch '")?;
    message.extend_from_slice(name)?;
    message.push(b'\'')?;
    Ok(message)
}

fn answer_of(
    alloc: Global,
    names: Sequence<Text>,
    kinds: Sequence<SqlType>,
    row: Row,
) -> Result<Answer, AllocError>
    ensures { IfOk result (λ answer. answer ≡ record { names = names; kinds = kinds; rows = row ∷ [] }) }
{
    let mut rows = Sequence::new(alloc);
    rows.push(row)?;
    Ok(Answer { names, kinds, rows })
}
