//! `dolt_commit_ancestors`: the parents of the head's ancestors.

ghost use Rattle.std.specs.Prelude.{◌≡◌, ◌+◌, ◌<◌, ◌^◌, ◌++◌, ◌∷◌, [], IfOk, OnOk, length, map};
ghost use Rattle.std.specs.List.{enumerate_from};
ghost use Rattle.chunk_store.specs.Drafts.{chunks_of};
ghost use Rattle.plain_sessions.specs.Sessions.{Transaction};
ghost use Rattle.plain_sessions.specs.SystemTables as plain;
ghost use Rattle.plain_sessions.specs.SystemTables.{parent_row};
ghost use Rattle.schema_model.specs.PlainCommits.{Commits};
ghost use Rattle.system_tables.specs.Known.{with_rows};
ghost use Rattle.system_tables.specs.Rows.{AreKnown, AreSomeKnown, IsAtHead, IsSomeHead, all_parent_rows, bytes_of};

use crate::cells::{hash, number_column, text_column};
use chunk_store::Draft;
use commit_graph::{ancestors, law_of_commits, law_of_standing_commits, read_commit};
use plain_sql::{Known, NamedType};
use schema_model::law_of_ancestors;
use std::alloc::{AllocError, Global};
use tuple_codec::{Address, Digester, Row, Sequence, Text, Value};

fn parent_columns(alloc: Global) -> Result<Sequence<NamedType>, AllocError>
    ensures { (t : Transaction) → IfOk result (λ columns. columns ≡ (plain.commit_ancestors t).columns) }
{
    let mut columns = Sequence::new(alloc);
    columns.push(text_column(alloc, b"commit_hash")?)?;
    columns.push(text_column(alloc, b"parent_hash")?)?;
    columns.push(number_column(alloc, b"parent_index")?)?;
    Ok(columns)
}

fn ancestors_of(alloc: Global, rows: Sequence<Row>) -> Result<Known, AllocError>
    ensures { (t : Transaction) → IfOk result (λ known. known ≡ with_rows (plain.commit_ancestors t) rows) }
{
    Ok(Known {
        name: Text::from_slice(alloc, b"dolt_commit_ancestors")?,
        columns: parent_columns(alloc)?,
        rows,
    })
}

fn parent_row(
    alloc: Global,
    commit: &Address,
    parent: &Address,
    index: u32,
) -> Result<Row, AllocError>
    ensures { IfOk result (λ row. row ≡ parent_row commit.now.0 (index, parent.now.0)) }
{
    let mut row = Row::new(alloc);
    row.push(hash(alloc, commit)?)?;
    row.push(hash(alloc, parent)?)?;
    row.push(Value::Int(i64::from(index)))?;
    Ok(row)
}

/// Adds a row for each of these parents of a commit, counted on from a number. There are few parents, so the calls don't go deep.
fn push_parents(
    alloc: Global,
    commit: &Address,
    parents: &[Address],
    index: u32,
    rows: &mut Sequence<Row>,
) -> Result<(), AllocError>
    requires { index + length parents.now < 2 ^ 32 }
    ensures { OnOk result (rows.new ≡ rows.old ++ map (parent_row commit.now.0) (enumerate_from index (bytes_of parents.now))) }
{
    if let [first, rest @ ..] = parents {
        rows.push(parent_row(alloc, commit, first, index)?)?;
        push_parents(alloc, commit, rest, index + 1, rows)?;
    }
    Ok(())
}

/// Adds a row for each parent of a commit.
fn push_parents_of<D: Digester>(
    alloc: Global,
    draft: &Draft<D>,
    address: &Address,
    rows: &mut Sequence<Row>,
) -> Result<(), AllocError>
    requires { AreSomeKnown D.address (chunks_of draft.now.chunks) (address.now.0 ∷ []) }
    ensures { (commits : Commits) → AreKnown D.address (chunks_of draft.now.chunks) commits (address.now.0 ∷ [])
        → OnOk result (rows.new ≡ rows.old ++ all_parent_rows commits (address.now.0 ∷ [])) }
{
    law_of_commits();
    law_of_standing_commits();
    let commit = read_commit(alloc, draft, address)?;
    push_parents(alloc, address, commit.parents.as_slice(), 0, rows)
}

fn parent_rows<D: Digester>(
    alloc: Global,
    draft: &Draft<D>,
    addresses: &[Address],
) -> Result<Sequence<Row>, AllocError>
    requires { AreSomeKnown D.address (chunks_of draft.now.chunks) (bytes_of addresses.now) }
    ensures { (commits : Commits) → AreKnown D.address (chunks_of draft.now.chunks) commits (bytes_of addresses.now)
        → IfOk result (λ rows. rows ≡ all_parent_rows commits (bytes_of addresses.now)) }
{
    let mut rows = Sequence::new(alloc);
    for address in addresses {
        push_parents_of(alloc, draft, address, &mut rows)?;
    }
    Ok(rows)
}

/// The parents of each commit from the head back, counted from 0.
pub(crate) fn commit_ancestors<D: Digester>(
    alloc: Global,
    draft: &Draft<D>,
    head: &Address,
) -> Result<Known, AllocError>
    requires { IsSomeHead D.address (chunks_of draft.now.chunks) head.now.0 }
    ensures { (t : Transaction) → IsAtHead D.address (chunks_of draft.now.chunks) head.now.0 t
        → IfOk result (λ known. known ≡ plain.commit_ancestors t) }
{
    law_of_ancestors();
    let commits = ancestors(alloc, draft, head)?;
    let rows = parent_rows(alloc, draft, commits.as_slice())?;
    ancestors_of(alloc, rows)
}
