//! `dolt_log`: the head's ancestors.

ghost use Rattle.std.specs.Prelude.{◌≡◌, IfOk};
ghost use Rattle.chunk_store.specs.Drafts.{chunks_of};
ghost use Rattle.plain_sessions.specs.Sessions.{Transaction};
ghost use Rattle.plain_sessions.specs.SystemTables as plain;
ghost use Rattle.system_tables.specs.Known.{with_rows};
ghost use Rattle.system_tables.specs.Rows.{IsAtHead, IsSomeHead};

use crate::cells::{number_column, text_column};
use crate::commits::commit_rows;
use chunk_store::Draft;
use commit_graph::ancestors;
use plain_sql::{Known, NamedType};
use schema_model::law_of_ancestors;
use std::alloc::{AllocError, Global};
use tuple_codec::{Address, Digester, Row, Sequence, Text};

fn log_columns(alloc: Global) -> Result<Sequence<NamedType>, AllocError>
    ensures { (t : Transaction) → IfOk result (λ columns. columns ≡ (plain.log t).columns) }
{
    let mut columns = Sequence::new(alloc);
    columns.push(text_column(alloc, b"commit_hash")?)?;
    columns.push(text_column(alloc, b"committer")?)?;
    columns.push(number_column(alloc, b"date")?)?;
    columns.push(text_column(alloc, b"message")?)?;
    Ok(columns)
}

fn log_of(alloc: Global, rows: Sequence<Row>) -> Result<Known, AllocError>
    ensures { (t : Transaction) → IfOk result (λ known. known ≡ with_rows (plain.log t) rows) }
{
    Ok(Known {
        name: Text::from_slice(alloc, b"dolt_log")?,
        columns: log_columns(alloc)?,
        rows,
    })
}

/// The commits from the head back, height falling, and then by address.
pub(crate) fn log<D: Digester>(
    alloc: Global,
    draft: &Draft<D>,
    head: &Address,
) -> Result<Known, AllocError>
    requires { IsSomeHead D.address (chunks_of draft.now.chunks) head.now.0 }
    ensures { (t : Transaction) → IsAtHead D.address (chunks_of draft.now.chunks) head.now.0 t → IfOk result (λ known. known ≡ plain.log t) }
{
    law_of_ancestors();
    let commits = ancestors(alloc, draft, head)?;
    let rows = commit_rows(alloc, draft, commits.as_slice())?;
    log_of(alloc, rows)
}
