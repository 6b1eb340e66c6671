//! Theirs' rows in the conflicts of tables, and what forbids to take them.

ghost use Rattle.std.specs.Prelude.{◌≡◌, ◌++◌, ◌&&◌, IfOk, List, OnOk, bytes_eq, true};
ghost use Rattle.std.specs.List.{list_all, list_any};
ghost use Rattle.std.specs.Option.{option_to_list};
ghost use Rattle.tuple_codec.specs.Rows.{cell_at};
ghost use Rattle.schema_model.specs.Limits.{is_short_in};
ghost use Rattle.schema_model.specs.PlainTables as plain;
ghost use Rattle.schema_model.specs.PlainTables.{Conflict, PlainDatabase, PlainTable};
ghost use Rattle.schema_model.specs.Schemas.{is_schema};
ghost use Rattle.chunk_store.specs.Drafts.{chunks_of};
ghost use Rattle.violation_lists.specs.Recording.{IsEntryOf};
ghost use Rattle.table_root.specs.Standing.{AreThere, IsTableAt};
ghost use Rattle.plain_sql.specs.Answers.{is_null};
ghost use Rattle.plain_sessions.specs.Merging.{breaks_index, breaks_null, has_null_at, is_meant, is_theirs, takes_bad_row, their_rows};
ghost use Rattle.merge_procs.specs.Resolving.{AreTakings, IsTaking, is_flawed, takes_flawed, theirs_of};

use chunk_store::Draft;
use conflict_tables::theirs_edits;
use plain_sql::is_null;
use schema_model::limits::MOST_INDEX_BYTES;
use schema_model::{Column, IndexDef, Schema};
use sql_procedures::{Resolution, Side, Tables};
use sql_write::laws_of_growth;
use std::alloc::{AllocError, Global};
use table_root::{TableEntry, read_table, row_of};
use tuple_codec::{Address, Digester, Edit, Row, Sequence, Text, Value, key_of, key_size};

/// What forbids to take a row.
#[derive(Clone, Copy, PartialEq, Eq)]
pub(crate) enum Flaw {
    /// NULL in a NOT NULL column.
    Null,
    /// More bytes for an index than it takes.
    Long,
}

fn is_null_at(row: &[Value], place: usize) -> bool
    ensures { result ≡ is_null (cell_at row.now place) }
{
    match row.get(place) {
        Some(value) => is_null(value),
        None => true,
    }
}

fn has_null_at(row: &[Value], place: usize, column: &Column) -> bool
    ensures { result ≡ has_null_at row.now (place, column.now) }
{
    column.not_null && is_null_at(row, place)
}

fn breaks_null(schema: &Schema, row: &[Value]) -> bool
    ensures { result ≡ breaks_null schema.now row.now }
{
    schema
        .columns
        .as_slice()
        .iter()
        .enumerate()
        .any(|(place, column)| has_null_at(row, place, column))
}

fn is_short_in(alloc: Global, row: &[Value], index: &IndexDef) -> Result<bool, AllocError>
    ensures { IfOk result (λ short. short ≡ is_short_in row.now index.now) }
{
    let cells = key_of(alloc, index.columns.as_slice(), row)?;
    Ok(key_size(cells.as_slice()) <= MOST_INDEX_BYTES as u64)
}

fn are_short_in(alloc: Global, row: &[Value], indexes: &[IndexDef]) -> Result<bool, AllocError>
    ensures { IfOk result (λ short. short ≡ list_all (is_short_in row.now) indexes.now) }
{
    for index in indexes {
        if !is_short_in(alloc, row, index)? {
            return Ok(false);
        }
    }
    Ok(true)
}

fn breaks_index(alloc: Global, schema: &Schema, row: &[Value]) -> Result<bool, AllocError>
    ensures { IfOk result (λ found. found ≡ breaks_index schema.now row.now) }
{
    Ok(!are_short_in(alloc, row, schema.indexes.as_slice())?)
}

fn is_flawed(alloc: Global, flaw: Flaw, schema: &Schema, row: &[Value]) -> Result<bool, AllocError>
    ensures { IfOk result (λ found. found ≡ is_flawed flaw schema.now row.now) }
{
    match flaw {
        Flaw::Null => Ok(breaks_null(schema, row)),
        Flaw::Long => breaks_index(alloc, schema, row),
    }
}

fn any_flawed(alloc: Global, flaw: Flaw, schema: &Schema, rows: &[Row]) -> Result<bool, AllocError>
    ensures { IfOk result (λ found. found ≡ list_any (is_flawed flaw schema.now) rows.now) }
{
    for row in rows {
        if is_flawed(alloc, flaw, schema, row.as_slice())? {
            return Ok(true);
        }
    }
    Ok(false)
}

/// The row that such an edit puts.
fn taken_row(alloc: Global, schema: &Schema, edit: &Edit) -> Result<Option<Row>, AllocError>
    requires schema { is_schema schema.now ≡ true }
    requires edit { (conflict : Conflict) × IsTaking schema.now edit.now conflict }
    ensures { (conflict : Conflict) → IsTaking schema.now edit.now conflict → IfOk result (λ row. row ≡ conflict.theirs) }
{
    match &edit.value {
        None => Ok(None),
        Some(value) => Ok(Some(row_of(alloc, schema, edit.key.as_slice(), value.as_slice())?)),
    }
}

/// The rows that such edits put, one after another.
fn taken_rows(alloc: Global, schema: &Schema, edits: &[Edit]) -> Result<Sequence<Row>, AllocError>
    requires schema { is_schema schema.now ≡ true }
    requires edits { (conflicts : List Conflict) × AreTakings schema.now edits.now conflicts }
    ensures { (conflicts : List Conflict) → AreTakings schema.now edits.now conflicts → IfOk result (λ rows. rows ≡ theirs_of conflicts) }
{
    let mut rows = Sequence::new(alloc);
    for edit in edits {
        push_taken(alloc, schema, edit, &mut rows)?;
    }
    Ok(rows)
}

/// Adds the row that such an edit puts, if it puts one.
fn push_taken(
    alloc: Global,
    schema: &Schema,
    edit: &Edit,
    rows: &mut Sequence<Row>,
) -> Result<(), AllocError>
    requires schema { is_schema schema.now ≡ true }
    requires edit { (conflict : Conflict) × IsTaking schema.now edit.now conflict }
    ensures { (conflict : Conflict) → IsTaking schema.now edit.now conflict → OnOk result (rows.new ≡ rows.old ++ option_to_list conflict.theirs) }
{
    match taken_row(alloc, schema, edit)? {
        None => {}
        Some(row) => rows.push(row)?,
    }
    Ok(())
}

/// Whether one of the rows that theirs has at the conflicts' keys has the flaw.
fn table_takes_flawed<D: Digester>(
    alloc: Global,
    draft: &Draft<D>,
    flaw: Flaw,
    address: &Address,
) -> Result<bool, AllocError>
    requires { (contents : PlainTable) × IsTableAt D.address (chunks_of draft.now.chunks) address.now.0 contents }
    ensures { (contents : PlainTable) → IsTableAt D.address (chunks_of draft.now.chunks) address.now.0 contents
        → IfOk result (λ found. found ≡ list_any (is_flawed flaw contents.schema) (their_rows contents)) }
{
    laws_of_growth();
    let table = read_table(alloc, draft, address)?;
    let edits = theirs_edits(alloc, draft, &table)?;
    let rows = taken_rows(alloc, &table.schema, edits.as_slice())?;
    any_flawed(alloc, flaw, &table.schema, rows.as_slice())
}

pub(crate) fn is_meant(tables: &Tables, name: &[u8]) -> bool
    ensures { result ≡ is_meant tables.now name.now }
{
    match tables {
        Tables::All => true,
        Tables::Named(names) => is_one_of(name, names.as_slice()),
    }
}

fn is_one_of(name: &[u8], names: &[Text]) -> bool
    ensures { result ≡ list_any (bytes_eq name.now) names.now }
{
    names.iter().any(|other| name == other.as_slice())
}

fn is_theirs(side: Side) -> bool
    ensures { result ≡ is_theirs side }
{
    match side {
        Side::Ours => false,
        Side::Theirs => true,
    }
}

fn takes_theirs(request: &Resolution, name: &[u8]) -> bool
    ensures { result ≡ (is_theirs request.now.side && is_meant request.now.tables name.now) }
{
    is_theirs(request.side) && is_meant(&request.tables, name)
}

/// Whether a table takes a row that has the flaw.
fn named_takes_flawed<D: Digester>(
    alloc: Global,
    draft: &Draft<D>,
    flaw: Flaw,
    entry: &TableEntry,
    request: &Resolution,
) -> Result<bool, AllocError>
    requires { (named : plain.NamedTable) × IsEntryOf D.address (chunks_of draft.now.chunks) entry.now named }
    ensures { (named : plain.NamedTable) → IsEntryOf D.address (chunks_of draft.now.chunks) entry.now named
        → IfOk result (λ found. found ≡ takes_flawed flaw request.now named) }
{
    if takes_theirs(request, entry.name.as_slice()) {
        table_takes_flawed(alloc, draft, flaw, &entry.table)
    } else {
        Ok(false)
    }
}

/// Whether one of these tables takes a row that has the flaw. There are few tables, so the calls don't go deep.
pub(crate) fn take_flawed<D: Digester>(
    alloc: Global,
    draft: &Draft<D>,
    flaw: Flaw,
    entries: &[TableEntry],
    request: &Resolution,
) -> Result<bool, AllocError>
    requires { (database : PlainDatabase) × AreThere D.address (chunks_of draft.now.chunks) database entries.now }
    ensures { (database : PlainDatabase) → AreThere D.address (chunks_of draft.now.chunks) database entries.now
        → IfOk result (λ found. found ≡ takes_bad_row (is_flawed flaw) request.now database) }
{
    let [first, rest @ ..] = entries else {
        return Ok(false);
    };
    let found = named_takes_flawed(alloc, draft, flaw, first, request)?;
    if found {
        return Ok(true);
    }
    take_flawed(alloc, draft, flaw, rest, request)
}
