//! The tables that a SELECT names, read.

ghost use Rattle.std.specs.Prelude.{◌≡◌, ◌++◌, IfOk, OnOk, bytes_eq, filter, map};
ghost use Rattle.std.specs.List.{list_any};
ghost use Rattle.schema_model.specs.PlainTables.{PlainDatabase, PlainTable};
ghost use Rattle.chunk_store.specs.Drafts.{chunks_of};
ghost use Rattle.table_root.specs.Standing.{AreThere, CanRead, IsReadAt, IsTableAt};
ghost use Rattle.sql_ast.specs.declared.selects.Select.TheVariants as select;
ghost use Rattle.plain_sql.specs.Plans.{answer};
ghost use Rattle.sql_select.specs.Seeks.{AddsServing, ServesQuery};
ghost use Rattle.sql_select.specs.Sources.{is_read, known_read, known_system, known_table, typed, typed_column};

use crate::seeking::rows_needed;
use crate::sources::NamedAnswer;
use chunk_store::Draft;
use plain_sql::{Known, NamedType};
use schema_model::Column;
use sql_ast::{FromClause, Join, Query};
use std::alloc::{AllocError, Global};
use table_root::{TableEntry, law_of_databases, law_of_tables, read_database, read_table};
use tuple_codec::{Address, Digester, Row, Sequence, SqlType, Text, copy_row};

fn is_joined(joins: &[Join], name: &[u8]) -> bool
    ensures { result ≡ list_any (λ join. bytes_eq name.now join.source.table) joins.now }
{
    joins
        .iter()
        .any(|join| name == join.source.table.as_slice())
}

/// Whether the SELECT names it among its sources.
fn is_read(from: &FromClause, name: &[u8]) -> bool
    ensures { result ≡ is_read from.now name.now }
{
    name == from.first.table.as_slice() || is_joined(from.joins.as_slice(), name)
}

fn typed_columns(alloc: Global, columns: &[Column]) -> Result<Sequence<NamedType>, AllocError>
    ensures { IfOk result (λ found. found ≡ map typed_column columns.now) }
{
    let mut found = Sequence::new(alloc);
    for column in columns {
        found.push(NamedType {
            name: Text::from_slice(alloc, column.name.as_slice())?,
            kind: column.kind,
        })?;
    }
    Ok(found)
}

/// A table's columns, and of its rows those that the query needs.
fn table_known<D: Digester>(
    alloc: Global,
    draft: &Draft<D>,
    query: &Query,
    name: &Text,
    address: &Address,
) -> Result<Known, AllocError>
    requires { (contents : PlainTable) × IsTableAt D.address (chunks_of draft.now.chunks) address.now.0 contents }
    ensures { (contents : PlainTable) → IsTableAt D.address (chunks_of draft.now.chunks) address.now.0 contents
        → IfOk result (λ known. ServesQuery query.now (known_table (record { name = name.now; table = contents })) known) }
{
    law_of_tables();
    let table = read_table(alloc, draft, address)?;
    let rows = rows_needed(alloc, draft, query, &table)?;
    Ok(Known {
        name: Text::from_slice(alloc, name.as_slice())?,
        columns: typed_columns(alloc, table.schema.columns.as_slice())?,
        rows,
    })
}

/// Reads each of the tables that the SELECT names. There are few tables, so the calls don't go deep.
fn push_tables<D: Digester>(
    alloc: Global,
    draft: &Draft<D>,
    query: &Query,
    tables: &[TableEntry],
    known: &mut Sequence<Known>,
) -> Result<(), AllocError>
    requires { (database : PlainDatabase) × AreThere D.address (chunks_of draft.now.chunks) database tables.now }
    ensures { (database : PlainDatabase) → AreThere D.address (chunks_of draft.now.chunks) database tables.now
        → OnOk result (AddsServing query.now known.old known.new (map known_table (filter (λ named. is_read query.now.from named.name) database))) }
{
    if let [first, rest @ ..] = tables {
        if is_read(&query.from, first.name.as_slice()) {
            known.push(table_known(alloc, draft, query, &first.name, &first.table)?)?;
        }
        push_tables(alloc, draft, query, rest, known)?;
    }
    Ok(())
}

/// Each name with the type at its place.
fn push_typed(
    alloc: Global,
    names: &[Text],
    kinds: &[SqlType],
    found: &mut Sequence<NamedType>,
) -> Result<(), AllocError>
    ensures { OnOk result (found.new ≡ found.old ++ typed names.now kinds.now) }
{
    if let [name, names @ ..] = names {
        if let [kind, kinds @ ..] = kinds {
            found.push(NamedType {
                name: Text::from_slice(alloc, name.as_slice())?,
                kind: *kind,
            })?;
            push_typed(alloc, names, kinds, found)?;
        }
    }
    Ok(())
}

fn typed(
    alloc: Global,
    names: &[Text],
    kinds: &[SqlType],
) -> Result<Sequence<NamedType>, AllocError>
    ensures { IfOk result (λ found. found ≡ typed names.now kinds.now) }
{
    let mut found = Sequence::new(alloc);
    push_typed(alloc, names, kinds, &mut found)?;
    Ok(found)
}

fn copied_rows(alloc: Global, rows: &[Row]) -> Result<Sequence<Row>, AllocError>
    ensures { IfOk result (λ copies. copies ≡ rows.now) }
{
    let mut copies = Sequence::new(alloc);
    for row in rows {
        copies.push(copy_row(alloc, row.as_slice())?)?;
    }
    Ok(copies)
}

fn system_known(alloc: Global, named: &NamedAnswer) -> Result<Known, AllocError>
    ensures { IfOk result (λ known. known ≡ known_system named.now) }
{
    let answer = &named.answer;
    Ok(Known {
        name: Text::from_slice(alloc, named.name.as_slice())?,
        columns: typed(alloc, answer.names.as_slice(), answer.kinds.as_slice())?,
        rows: copied_rows(alloc, answer.rows.as_slice())?,
    })
}

/// Adds each of the system tables that the SELECT names.
fn push_system(
    alloc: Global,
    from: &FromClause,
    system: &[NamedAnswer],
    known: &mut Sequence<Known>,
) -> Result<(), AllocError>
    ensures { OnOk result (known.new ≡ known.old ++ map known_system (filter (λ named. is_read from.now named.name) system.now)) }
{
    if let [first, rest @ ..] = system {
        if is_read(from, first.name.as_slice()) {
            known.push(system_known(alloc, first)?)?;
        }
        push_system(alloc, from, rest, known)?;
    }
    Ok(())
}

/// The tables and system tables that the SELECT names, with the rows that it needs.
pub(crate) fn known_read<D: Digester>(
    alloc: Global,
    draft: &Draft<D>,
    query: &Query,
    database: &Address,
    system: &[NamedAnswer],
) -> Result<Sequence<Known>, AllocError>
    requires { CanRead D.address (chunks_of draft.now.chunks) database.now.0 }
    ensures { (contents : PlainDatabase) → IsReadAt D.address (chunks_of draft.now.chunks) database.now.0 contents
        → IfOk result (λ known. answer known (select.From query.now) ≡ answer (known_read query.now.from contents system.now) (select.From query.now)) }
{
    law_of_databases();
    let tables = read_database(alloc, draft, database)?;
    let mut known = Sequence::new(alloc);
    push_tables(alloc, draft, query, tables.as_slice(), &mut known)?;
    push_system(alloc, &query.from, system, &mut known)?;
    Ok(known)
}
