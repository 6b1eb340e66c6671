//! The rows that calls answer.

ghost use Rattle.std.specs.Prelude.{◌≡◌, ◌∷◌, [], codes, pos, IfOk};
ghost use Rattle.tuple_codec.specs.declared.values.SqlType.TheVariants as kind;
ghost use Rattle.tuple_codec.specs.declared.values.Value.TheVariants as cell;
ghost use Rattle.plain_sessions.specs.Merging.{merge_reply};

use script_text::Reply;
use std::alloc::{AllocError, Global};
use tuple_codec::{Answer, Row, Sequence, SqlType, Text, Value};

/// DOLT_MERGE's row: the new head's address or nothing, whether it was a fast-forward, whether there are conflicts or violations, and a message.
pub(crate) fn merge_reply(
    alloc: Global,
    hash: &[u8],
    fast_forward: u32,
    conflicts: u32,
    message: &[u8],
) -> Result<Reply, AllocError>
    ensures { IfOk result (λ reply. reply ≡ merge_reply hash.now fast_forward conflicts message.now) }
{
    let names = merge_names(alloc)?;
    let kinds = merge_kinds(alloc)?;
    let mut rows = Sequence::new(alloc);
    rows.push(merge_row(alloc, hash, fast_forward, conflicts, message)?)?;
    Ok(Reply::Rows(Answer { names, kinds, rows }))
}

fn merge_names(alloc: Global) -> Result<Sequence<Text>, AllocError>
    ensures { IfOk result (λ names. names ≡ codes "hash" ∷ codes "fast_forward" ∷ codes "conflicts" ∷ codes "message" ∷ []) }
{
    let mut names = Sequence::new(alloc);
    names.push(Text::from_slice(alloc, b"hash")?)?;
    names.push(Text::from_slice(alloc, b"fast_forward")?)?;
    names.push(Text::from_slice(alloc, b"conflicts")?)?;
    names.push(Text::from_slice(alloc, b"message")?)?;
    Ok(names)
}

fn merge_kinds(alloc: Global) -> Result<Sequence<SqlType>, AllocError>
    ensures { IfOk result (λ kinds. kinds ≡ kind.Varchar 65535 ∷ kind.BigInt ∷ kind.BigInt ∷ kind.Varchar 65535 ∷ []) }
{
    let mut kinds = Sequence::new(alloc);
    kinds.push(SqlType::Varchar(65535))?;
    kinds.push(SqlType::BigInt)?;
    kinds.push(SqlType::BigInt)?;
    kinds.push(SqlType::Varchar(65535))?;
    Ok(kinds)
}

fn merge_row(
    alloc: Global,
    hash: &[u8],
    fast_forward: u32,
    conflicts: u32,
    message: &[u8],
) -> Result<Row, AllocError>
    ensures { IfOk result (λ row. row ≡ cell.Text hash.now ∷ cell.Int (pos fast_forward) ∷ cell.Int (pos conflicts) ∷ cell.Text message.now ∷ []) }
{
    let mut row = Sequence::new(alloc);
    row.push(Value::Text(Text::from_slice(alloc, hash)?))?;
    row.push(Value::Int(i64::from(fast_forward)))?;
    row.push(Value::Int(i64::from(conflicts)))?;
    row.push(Value::Text(Text::from_slice(alloc, message)?))?;
    Ok(row)
}
