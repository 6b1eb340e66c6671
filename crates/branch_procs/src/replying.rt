//! The reply with a commit's hash.

ghost use Rattle.std.specs.Prelude.{◌≡◌, ◌∷◌, [], IfOk};
ghost use Rattle.tuple_codec.specs.declared.values.Value.TheVariants as cell;
ghost use Rattle.tuple_codec.specs.AddressTexts.{address_text};
ghost use Rattle.branch_procs.specs.Committing.{hash_reply};

use script_text::Reply;
use std::alloc::{AllocError, Global};
use tuple_codec::{Address, Answer, Row, Sequence, SqlType, Text, Value};

/// A row with the column `hash` and an address's text in it.
pub(crate) fn hash_reply(alloc: Global, address: &Address) -> Result<Reply, AllocError>
    ensures { IfOk result (λ reply. reply ≡ hash_reply address.now.0) }
{
    let mut names = Sequence::new(alloc);
    names.push(Text::from_slice(alloc, b"hash")?)?;
    let mut kinds = Sequence::new(alloc);
    kinds.push(SqlType::Varchar(65535))?;
    let mut rows = Sequence::new(alloc);
    rows.push(hash_row(alloc, address)?)?;
    Ok(Reply::Rows(Answer { names, kinds, rows }))
}

fn hash_row(alloc: Global, address: &Address) -> Result<Row, AllocError>
    ensures { IfOk result (λ row. row ≡ cell.Text (address_text address.now.0) ∷ []) }
{
    let text = address.text();
    let mut row = Sequence::new(alloc);
    row.push(Value::Text(Text::from_slice(alloc, &text)?))?;
    Ok(row)
}
