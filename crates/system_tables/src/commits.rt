//! What commits show of themselves.

ghost use Rattle.std.specs.Prelude.{◌≡◌, ◌++◌, ◌∷◌, [], IfOk, OnOk};
ghost use Rattle.chunk_store.specs.Drafts.{chunks_of};
ghost use Rattle.plain_sessions.specs.SystemTables.{committed};
ghost use Rattle.schema_model.specs.PlainCommits.{Commits};
ghost use Rattle.tuple_codec.specs.declared.values.Value.TheVariants as cell;
ghost use Rattle.system_tables.specs.Rows.{AreKnown, AreSomeKnown, bytes_of, commit_rows};

use crate::cells::hash;
use chunk_store::Draft;
use commit_graph::{CommitRecord, law_of_commits, law_of_standing_commits, read_commit};
use std::alloc::{AllocError, Global};
use tuple_codec::{Address, Digester, Row, Sequence, Value};

fn date_cell(commit: &CommitRecord) -> Value
    ensures { result ≡ cell.Int commit.now.date }
{
    Value::Int(commit.date)
}

/// Adds a commit's committer, date and message.
pub(crate) fn push_committed<D: Digester>(
    alloc: Global,
    draft: &Draft<D>,
    address: &Address,
    row: &mut Row,
) -> Result<(), AllocError>
    requires { AreSomeKnown D.address (chunks_of draft.now.chunks) (address.now.0 ∷ []) }
    ensures { (commits : Commits) → AreKnown D.address (chunks_of draft.now.chunks) commits (address.now.0 ∷ [])
        → OnOk result (row.new ≡ row.old ++ committed (commits address.now.0)) }
{
    law_of_commits();
    law_of_standing_commits();
    let commit = read_commit(alloc, draft, address)?;
    let date = date_cell(&commit);
    row.push(Value::Text(commit.committer))?;
    row.push(date)?;
    row.push(Value::Text(commit.message))?;
    Ok(())
}

/// Adds a row for a commit: its address, its committer, its date and its message.
fn push_commit<D: Digester>(
    alloc: Global,
    draft: &Draft<D>,
    address: &Address,
    rows: &mut Sequence<Row>,
) -> Result<(), AllocError>
    requires { AreSomeKnown D.address (chunks_of draft.now.chunks) (address.now.0 ∷ []) }
    ensures { (commits : Commits) → AreKnown D.address (chunks_of draft.now.chunks) commits (address.now.0 ∷ [])
        → OnOk result (rows.new ≡ rows.old ++ commit_rows commits (address.now.0 ∷ [])) }
{
    let mut row = Row::new(alloc);
    row.push(hash(alloc, address)?)?;
    push_committed(alloc, draft, address, &mut row)?;
    rows.push(row)?;
    Ok(())
}

/// A row for each of these commits.
pub(crate) fn commit_rows<D: Digester>(
    alloc: Global,
    draft: &Draft<D>,
    addresses: &[Address],
) -> Result<Sequence<Row>, AllocError>
    requires { AreSomeKnown D.address (chunks_of draft.now.chunks) (bytes_of addresses.now) }
    ensures { (commits : Commits) → AreKnown D.address (chunks_of draft.now.chunks) commits (bytes_of addresses.now)
        → IfOk result (λ rows. rows ≡ commit_rows commits (bytes_of addresses.now)) }
{
    let mut rows = Sequence::new(alloc);
    for address in addresses {
        push_commit(alloc, draft, address, &mut rows)?;
    }
    Ok(rows)
}
