//! The tables of a database with those rows alone that may break a constraint, or that a foreign key looks for.

ghost use Rattle.std.specs.Prelude.{◌≡◌, ◌∷◌, ◌++◌, ◌||◌, true, [], IfOk, List, OnOk, filter, if◌then◌else◌, map};
ghost use Rattle.std.specs.List.{enumerate_from, list_any};
ghost use Rattle.tuple_codec.specs.Rows.{Cells};
ghost use Rattle.schema_model.specs.PlainTables.{PlainDatabase, PlainTable};
ghost use Rattle.schema_model.specs.Schemas.{is_schema};
ghost use Rattle.chunk_store.specs.Drafts.{chunks_of};
ghost use Rattle.plain_writes.specs.Seen.{named_seen};
ghost use Rattle.table_root.specs.Standing.{AreThere, IsTableAt};
ghost use Rattle.table_root.specs.Rows.{AreRowsAt, HasRowsAt};
ghost use Rattle.violation_lists.specs.Scanning.{is_constrained};
ghost use Rattle.violation_lists.specs.Thinned.{has_null_key, is_guarded, is_judged, is_parent, is_sole, looks_for, thin_named, thinned};

use crate::reading::{bare_table, push_schemas};
use chunk_store::Draft;
use plain_writes::NamedTable;
use prolly_tree::get;
use schema_model::{Column, IndexDef, Schema};
use std::alloc::{AllocError, Global};
use table_root::{TableEntry, law_of_tables, read_rows, read_table, row_of};
use tuple_codec::{Address, Digester, Row, Sequence, Text};

fn is_sole(key: &[u8], place: usize) -> bool
    ensures { result ≡ is_sole key.now place }
{
    match key {
        [] => false,
        [only] => usize::from(*only) == place,
        [_, _, ..] => false,
    }
}

fn is_guarded(key: &[u8], place: usize, column: &Column) -> bool
    ensures { result ≡ is_guarded key.now (place, column.now) }
{
    column.not_null && !is_sole(key, place)
}

fn has_guarded(key: &[u8], columns: &[Column]) -> bool
    ensures { result ≡ list_any (is_guarded key.now) (enumerate_from 0 columns.now) }
{
    for (place, column) in columns.iter().enumerate() {
        if is_guarded(key, place, column) {
            return true;
        }
    }
    false
}

fn is_any_unique(indexes: &[IndexDef]) -> bool
    ensures { result ≡ list_any (λ index. index.unique) indexes.now }
{
    indexes.iter().any(|index| index.unique)
}

/// Whether the schema has a unique index, a CHECK or a foreign key.
pub fn is_constrained(schema: &Schema) -> bool
    ensures { result ≡ is_constrained schema.now }
{
    is_any_unique(schema.indexes.as_slice())
        || (!schema.checks.as_slice().is_empty() || !schema.foreign.as_slice().is_empty())
}

/// Whether a row may break a constraint whose primary key isn't NULL.
pub(crate) fn is_judged(schema: &Schema) -> bool
    ensures { result ≡ is_judged schema.now }
{
    is_constrained(schema) || has_guarded(schema.key.as_slice(), schema.columns.as_slice())
}

fn looks_for(name: &[u8], schema: &Schema) -> bool
    ensures { result ≡ looks_for name.now schema.now }
{
    schema
        .foreign
        .as_slice()
        .iter()
        .any(|foreign| foreign.parent.as_slice() == name)
}

/// Whether some table's foreign key looks for rows of the table of this name.
fn is_parent(tables: &[NamedTable], name: &[u8]) -> bool
    ensures { result ≡ is_parent (map named_seen tables.now) name.now }
{
    match tables {
        [] => false,
        [first, rest @ ..] => looks_for(name, &first.table.schema) || is_parent(rest, name),
    }
}

/// Whether all rows of a table are read: one of them may break a constraint, or a foreign key looks for them.
fn is_whole(tables: &[NamedTable], name: &[u8], schema: &Schema) -> bool
    ensures { result ≡ (is_judged schema.now || is_parent (map named_seen tables.now) name.now) }
{
    is_judged(schema) || is_parent(tables, name)
}

fn one_row(alloc: Global, row: Row) -> Result<Sequence<Row>, AllocError>
    ensures { IfOk result (λ rows. rows ≡ row ∷ []) }
{
    let mut rows = Sequence::new(alloc);
    rows.push(row)?;
    Ok(rows)
}

/// The row of the tree at an address whose primary key is NULL, if it has one. NULL is spelled as a zero byte.
fn null_row<D: Digester>(
    alloc: Global,
    draft: &Draft<D>,
    schema: &Schema,
    root: &Address,
) -> Result<Sequence<Row>, AllocError>
    requires schema { is_schema schema.now ≡ true }
    requires tree { HasRowsAt D.address (chunks_of draft.now.chunks) root.now.0 schema.now }
    ensures { (rows : List Cells) → AreRowsAt D.address (chunks_of draft.now.chunks) root.now.0 schema.now rows
        → IfOk result (λ read. read ≡ filter (has_null_key schema.now) rows) }
{
    match get(draft, root, &[0]) {
        None => Ok(Sequence::new(alloc)),
        Some(value) => one_row(alloc, row_of(alloc, schema, &[0], value)?),
    }
}

/// All rows of the tree at an address, or that of key NULL alone.
fn thin_rows<D: Digester>(
    alloc: Global,
    draft: &Draft<D>,
    schema: &Schema,
    root: &Address,
    whole: bool,
) -> Result<Sequence<Row>, AllocError>
    requires schema { is_schema schema.now ≡ true }
    requires tree { HasRowsAt D.address (chunks_of draft.now.chunks) root.now.0 schema.now }
    ensures { (rows : List Cells) → AreRowsAt D.address (chunks_of draft.now.chunks) root.now.0 schema.now rows
        → IfOk result (λ read. read ≡ (if whole then rows else filter (has_null_key schema.now) rows)) }
{
    if whole {
        read_rows(alloc, draft, schema, root)
    } else {
        null_row(alloc, draft, schema, root)
    }
}

/// A table with the rows that may break a constraint. `schemas` are those of all tables.
fn thin_read<D: Digester>(
    alloc: Global,
    draft: &Draft<D>,
    schemas: &[NamedTable],
    entry: &TableEntry,
) -> Result<NamedTable, AllocError>
    requires { (contents : PlainTable) × IsTableAt D.address (chunks_of draft.now.chunks) entry.now.table.0 contents }
    ensures { (contents : PlainTable) → IsTableAt D.address (chunks_of draft.now.chunks) entry.now.table.0 contents
        → IfOk result (λ named. named_seen named ≡ thin_named (map named_seen schemas.now) (record { name = entry.now.name; table = contents })) }
{
    law_of_tables();
    let table = read_table(alloc, draft, &entry.table)?;
    let whole = is_whole(schemas, entry.name.as_slice(), &table.schema);
    let rows = thin_rows(alloc, draft, &table.schema, &table.rows, whole)?;
    let name = Text::from_slice(alloc, entry.name.as_slice())?;
    Ok(NamedTable {
        name,
        table: bare_table(alloc, table.schema, rows),
    })
}

/// Reads each of these tables so. There are few tables, so the calls don't go deep.
fn push_thin<D: Digester>(
    alloc: Global,
    draft: &Draft<D>,
    schemas: &[NamedTable],
    entries: &[TableEntry],
    tables: &mut Sequence<NamedTable>,
) -> Result<(), AllocError>
    requires { (database : PlainDatabase) × AreThere D.address (chunks_of draft.now.chunks) database entries.now }
    ensures { (database : PlainDatabase) → AreThere D.address (chunks_of draft.now.chunks) database entries.now
        → OnOk result (map named_seen tables.new ≡ map named_seen tables.old ++ map (thin_named (map named_seen schemas.now)) database) }
{
    if let [first, rest @ ..] = entries {
        tables.push(thin_read(alloc, draft, schemas, first)?)?;
        push_thin(alloc, draft, schemas, rest, tables)?;
    }
    Ok(())
}

/// These tables, each with all of its rows or with that of key NULL alone: what may break a constraint, and what foreign keys look for.
pub(crate) fn read_thinned<D: Digester>(
    alloc: Global,
    draft: &Draft<D>,
    entries: &[TableEntry],
) -> Result<Sequence<NamedTable>, AllocError>
    requires { (database : PlainDatabase) × AreThere D.address (chunks_of draft.now.chunks) database entries.now }
    ensures { (database : PlainDatabase) → AreThere D.address (chunks_of draft.now.chunks) database entries.now
        → IfOk result (λ tables. map named_seen tables ≡ thinned database) }
{
    let mut schemas = Sequence::new(alloc);
    push_schemas(alloc, draft, entries, &mut schemas)?;
    let mut tables = Sequence::new(alloc);
    push_thin(alloc, draft, schemas.as_slice(), entries, &mut tables)?;
    Ok(tables)
}
