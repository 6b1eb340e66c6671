//! The reply with a row of `status`.

ghost use Rattle.std.specs.Prelude.{◌≡◌, ◌∷◌, [], pos, IfOk};
ghost use Rattle.tuple_codec.specs.declared.values.Value.TheVariants as cell;
ghost use Rattle.session_plan.specs.Calls.{status_reply};

use script_text::Reply;
use std::alloc::{AllocError, Global};
use tuple_codec::{Answer, Row, Sequence, SqlType, Text, Value};

/// A row with the column `status` and 0 in it.
pub fn status_reply(alloc: Global) -> Result<Reply, AllocError>
    ensures { IfOk result (λ reply. reply ≡ status_reply) }
{
    let mut names = Sequence::new(alloc);
    names.push(Text::from_slice(alloc, b"status")?)?;
    let mut kinds = Sequence::new(alloc);
    kinds.push(SqlType::BigInt)?;
    let mut rows = Sequence::new(alloc);
    rows.push(status_row(alloc)?)?;
    Ok(Reply::Rows(Answer { names, kinds, rows }))
}

fn status_row(alloc: Global) -> Result<Row, AllocError>
    ensures { IfOk result (λ row. row ≡ cell.Int (pos 0) ∷ []) }
{
    let mut row = Sequence::new(alloc);
    row.push(Value::Int(0))?;
    Ok(row)
}
