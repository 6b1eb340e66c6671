//! Replies that can be printed and read back.

ghost use Rattle.std.specs.Prelude.{◌≡◌, ◌||◌, ◌==◌, ◌^◌, length, nat_lt, true};
ghost use Rattle.std.specs.List.{list_all};
ghost use Rattle.script_text.specs.Shown.{is_one_line, is_printable_answer, is_printable_row, is_printable_value};
ghost use Rattle.script_text.specs.declared.replies.Reply.TheVariants.{Refused, Rows};
ghost use Rattle.session_plan.specs.Showing.{IsDue, is_plain_reply, is_sound_reply};

use script_text::{Reply, refusal_words};
use tuple_codec::{Answer, Row, SqlType, Text, Value};

fn is_printable_value(kind: &SqlType, value: &Value) -> bool
    ensures { result ≡ is_printable_value kind.now value.now }
{
    match kind {
        SqlType::Decimal(_, _) => true,
        _ => match value {
            Value::Decimal(_) => false,
            _ => true,
        },
    }
}

fn is_printable_row(kinds: &[SqlType], values: &[Value]) -> bool
    ensures { result ≡ is_printable_row kinds.now values.now }
{
    match kinds {
        [] => values.is_empty(),
        [kind, kinds @ ..] => match values {
            [] => false,
            [value, values @ ..] => {
                is_printable_value(kind, value) && is_printable_row(kinds, values)
            }
        },
    }
}

fn are_printable_rows(kinds: &[SqlType], rows: &[Row]) -> bool
    ensures { result ≡ list_all (is_printable_row kinds.now) rows.now }
{
    rows.iter()
        .all(|row| is_printable_row(kinds, row.as_slice()))
}

fn is_one_line(name: &Text) -> bool
    ensures { result ≡ is_one_line name.now }
{
    name.as_slice().iter().all(|byte| *byte != b'\n')
}

fn are_on_one_line(names: &[Text]) -> bool
    ensures { result ≡ list_all is_one_line names.now }
{
    names.iter().all(|name| is_one_line(name))
}

fn is_printable_answer(answer: &Answer) -> bool
    ensures { result ≡ is_printable_answer answer.now }
{
    answer.names.as_slice().len() == answer.kinds.as_slice().len()
        && are_printable_rows(answer.kinds.as_slice(), answer.rows.as_slice())
}

/// A list of rows has no more than a line can tell.
fn are_countable(rows: &[Row]) -> bool
    ensures { result ≡ nat_lt (length rows.now) (2 ^ 64) }
{
    u64::try_from(rows.len()).is_ok()
}

fn is_plain_answer(answer: &Answer) -> bool
    ensures { result ≡ is_plain_reply (Rows answer.now) }
{
    is_printable_answer(answer)
        && are_countable(answer.rows.as_slice())
        && are_on_one_line(answer.names.as_slice())
}

fn is_plain_number(number: u16) -> bool
    ensures { result ≡ is_plain_reply (Refused number) }
{
    refusal_words(number).is_some() && number > 3
}

fn is_plain(reply: &Reply) -> bool
    ensures { result ≡ is_plain_reply reply.now }
{
    match reply {
        Reply::Done | Reply::Count(_) | Reply::Syntax(_) => true,
        Reply::Rows(answer) => is_plain_answer(answer),
        Reply::Refused(number) => is_plain_number(*number),
        Reply::Collided(_) => false,
    }
}

/// The reply that is due. One that couldn't be printed and read back would be answered by want of memory, by this number; none is known.
pub fn due(reply: Reply, starved: u16) -> Reply
    requires { starved == 1 || starved == 2 ≡ true }
    ensures due { IsDue starved reply result }
    ensures sound { is_sound_reply result ≡ true }
{
    if is_plain(&reply) {
        reply
    } else {
        Reply::Refused(starved)
    }
}
