//! `dolt_status`: tables that differ from the head to staged, and from staged to working.

ghost use Rattle.std.specs.Prelude.{◌≡◌, ◌++◌, ◌∷◌, [], IfOk, OnOk, Some};
ghost use Rattle.chunk_store.specs.Drafts.{chunks_of};
ghost use Rattle.table_root.specs.Kept.{HasKeptAt, IsKeptAt};
ghost use Rattle.schema_merge.specs.KeyByKey.{all_keys};
ghost use Rattle.plain_sessions.specs.Sessions.{Transaction, own_root};
ghost use Rattle.plain_sessions.specs.SystemTables as plain;
ghost use Rattle.plain_sessions.specs.SystemTables.{row_if};
ghost use Rattle.schema_model.specs.PlainTables.{PlainDatabase};
ghost use Rattle.table_root.specs.Standing.{named_tables};
ghost use Rattle.tuple_codec.specs.Edits.{order};
ghost use Rattle.system_tables.specs.Known.{with_rows};
ghost use Rattle.system_tables.specs.Changes.{AreSomeStates, AreStates, IsRootOf, IsSomeRoot, address_in, all_changed_rows, change_at, changed_row, changed_rows, names_in};

use crate::cells::{text_column, truth_column};
use crate::names::all_names;
use chunk_store::Draft;
use commit_graph::{law_of_commits, law_of_standing_commits, read_commit};
use plain_sql::{Known, NamedType};
use schema_model::law_of_sameness;
use std::alloc::{AllocError, Global};
use table_root::{TableEntry, law_of_databases, law_of_tables, read_database};
use tuple_codec::{Address, Digester, Row, Sequence, Text, Value};

fn status_columns(alloc: Global) -> Result<Sequence<NamedType>, AllocError>
    ensures { (t : Transaction) → IfOk result (λ columns. columns ≡ (plain.status t).columns) }
{
    let mut columns = Sequence::new(alloc);
    columns.push(text_column(alloc, b"table_name")?)?;
    columns.push(truth_column(alloc, b"staged")?)?;
    columns.push(text_column(alloc, b"status")?)?;
    Ok(columns)
}

fn status_of(alloc: Global, rows: Sequence<Row>) -> Result<Known, AllocError>
    ensures { (t : Transaction) → IfOk result (λ known. known ≡ with_rows (plain.status t) rows) }
{
    Ok(Known {
        name: Text::from_slice(alloc, b"dolt_status")?,
        columns: status_columns(alloc)?,
        rows,
    })
}

/// The address of the table of a name. There are few tables, so the calls don't go deep.
fn address_in(name: &[u8], tables: &[TableEntry]) -> Option<Address>
    ensures { result ≡ address_in name.now tables.now }
{
    match tables {
        [] => None,
        [named, rest @ ..] => {
            if named.name.as_slice() == name {
                Some(named.table)
            } else {
                address_in(name, rest)
            }
        }
    }
}

fn modified(alloc: Global, old: &Address, new: &Address) -> Result<Option<Text>, AllocError>
    ensures { IfOk result (λ change. change ≡ change_at (Some old.now) (Some new.now)) }
{
    if *old == *new {
        Ok(None)
    } else {
        Ok(Some(Text::from_slice(alloc, b"modified")?))
    }
}

/// What became of a table that stood at the one address and stands at the other.
fn change_at(
    alloc: Global,
    old: &Option<Address>,
    new: &Option<Address>,
) -> Result<Option<Text>, AllocError>
    ensures { IfOk result (λ change. change ≡ change_at old.now new.now) }
{
    match (old, new) {
        (None, None) => Ok(None),
        (None, Some(_)) => Ok(Some(Text::from_slice(alloc, b"new table")?)),
        (Some(_), None) => Ok(Some(Text::from_slice(alloc, b"deleted")?)),
        (Some(old), Some(new)) => modified(alloc, old, new),
    }
}

fn status_row(alloc: Global, name: &Text, staged: bool, change: Text) -> Result<Row, AllocError>
    ensures { IfOk result (λ row. row_if name.now staged (Some change) ≡ row ∷ []) }
{
    let mut row = Row::new(alloc);
    row.push(Value::Text(Text::from_slice(alloc, name.as_slice())?))?;
    row.push(Value::Bool(staged))?;
    row.push(Value::Text(change))?;
    Ok(row)
}

/// Adds a row for a table of a name, if it differs between two databases.
fn push_changed(
    alloc: Global,
    staged: bool,
    old: &[TableEntry],
    new: &[TableEntry],
    name: &Text,
    rows: &mut Sequence<Row>,
) -> Result<(), AllocError>
    ensures { OnOk result (rows.new ≡ rows.old ++ changed_row staged old.now new.now name.now) }
{
    let before = address_in(name.as_slice(), old);
    let after = address_in(name.as_slice(), new);
    if let Some(change) = change_at(alloc, &before, &after)? {
        rows.push(status_row(alloc, name, staged, change)?)?;
    }
    Ok(())
}

/// Adds the rows for the tables of a name.
fn push_both(
    alloc: Global,
    head: &[TableEntry],
    staged: &[TableEntry],
    working: &[TableEntry],
    name: &Text,
    rows: &mut Sequence<Row>,
) -> Result<(), AllocError>
    ensures { OnOk result (rows.new ≡ rows.old ++ changed_rows head.now staged.now working.now name.now) }
{
    push_changed(alloc, true, head, staged, name, rows)?;
    push_changed(alloc, false, staged, working, name, rows)
}

fn changed_rows(
    alloc: Global,
    head: &[TableEntry],
    staged: &[TableEntry],
    working: &[TableEntry],
    names: &[Text],
) -> Result<Sequence<Row>, AllocError>
    ensures { IfOk result (λ rows. rows ≡ all_changed_rows head.now staged.now working.now names.now) }
{
    let mut rows = Sequence::new(alloc);
    for name in names {
        push_both(alloc, head, staged, working, name, &mut rows)?;
    }
    Ok(rows)
}

/// The address of the head's database.
pub(crate) fn own_root<D: Digester>(
    alloc: Global,
    draft: &Draft<D>,
    head: &Address,
) -> Result<Address, AllocError>
    requires { IsSomeRoot D.address (chunks_of draft.now.chunks) head.now.0 }
    ensures { (t : Transaction) → IsRootOf D.address (chunks_of draft.now.chunks) head.now.0 t
        → IfOk result (λ root. IsKeptAt D.address (chunks_of draft.now.chunks) root.0 (own_root t)) }
{
    law_of_commits();
    law_of_standing_commits();
    let commit = read_commit(alloc, draft, head)?;
    Ok(commit.root)
}

/// The tables that differ, by name: no row is read, since a table's address tells its contents.
pub(crate) fn status<D: Digester>(
    alloc: Global,
    draft: &Draft<D>,
    head: &Address,
    staged: &Address,
    working: &Address,
) -> Result<Known, AllocError>
    requires { AreSomeStates D.address (chunks_of draft.now.chunks) head.now.0 staged.now.0 working.now.0 }
    ensures { (t : Transaction) → AreStates D.address (chunks_of draft.now.chunks) head.now.0 staged.now.0 working.now.0 t
        → IfOk result (λ known. known ≡ plain.status t) }
{
    let rows = status_rows(alloc, draft, head, staged, working)?;
    status_of(alloc, rows)
}

/// The tables of the database at an address.
pub(crate) fn tables_of<D: Digester>(
    alloc: Global,
    draft: &Draft<D>,
    database: &Address,
) -> Result<Vec<TableEntry>, AllocError>
    requires { HasKeptAt D.address (chunks_of draft.now.chunks) database.now.0 }
    ensures { (contents : PlainDatabase) → IsKeptAt D.address (chunks_of draft.now.chunks) database.now.0 contents
        → IfOk result (λ tables. tables.items ≡ named_tables D.address contents) }
{
    law_of_databases();
    let tables = read_database(alloc, draft, database)?;
    Ok(tables)
}

fn status_rows<D: Digester>(
    alloc: Global,
    draft: &Draft<D>,
    head: &Address,
    staged: &Address,
    working: &Address,
) -> Result<Sequence<Row>, AllocError>
    requires { AreSomeStates D.address (chunks_of draft.now.chunks) head.now.0 staged.now.0 working.now.0 }
    ensures { (t : Transaction) → AreStates D.address (chunks_of draft.now.chunks) head.now.0 staged.now.0 working.now.0 t
        → IfOk result (λ rows. rows ≡ (plain.status t).rows) }
{
    law_of_tables();
    law_of_sameness();
    let head = tables_of(alloc, draft, head)?;
    let staged = tables_of(alloc, draft, staged)?;
    let working = tables_of(alloc, draft, working)?;
    rows_between(
        alloc,
        head.as_slice(),
        staged.as_slice(),
        working.as_slice(),
    )
}

fn rows_between(
    alloc: Global,
    head: &[TableEntry],
    staged: &[TableEntry],
    working: &[TableEntry],
) -> Result<Sequence<Row>, AllocError>
    ensures { IfOk result (λ rows. rows ≡ all_changed_rows head.now staged.now working.now
        (all_keys order (names_in head.now) (names_in staged.now) (names_in working.now))) }
{
    let names = all_names(alloc, head, staged, working)?;
    changed_rows(alloc, head, staged, working, names.as_slice())
}
