//! The tables of a database, read from a draft.

ghost use Rattle.std.specs.Prelude.{◌≡◌, ◌++◌, [], IfOk, OnOk, map};
ghost use Rattle.schema_model.specs.PlainTables.{PlainDatabase, PlainTable};
ghost use Rattle.chunk_store.specs.Drafts.{chunks_of};
ghost use Rattle.plain_writes.specs.Seen.{named_seen, table_seen};
ghost use Rattle.table_root.specs.Standing.{AreThere, CanRead, IsReadAt, IsTableAt};
ghost use Rattle.violation_lists.specs.Scanning.{bare, bare_table, empty_table, skeleton};

use chunk_store::Draft;
use plain_writes::{NamedTable, Table};
use schema_model::Schema;
use std::alloc::{AllocError, Global};
use table_root::{
    TableEntry, law_of_databases, law_of_tables, read_database, read_rows, read_table,
};
use tuple_codec::{Address, Digester, Row, Sequence, Text};

/// A table of this schema and these rows, in which no merge left anything open.
pub(crate) fn bare_table(alloc: Global, schema: Schema, rows: Sequence<Row>) -> Table
    ensures { result ≡ record { schema = schema; rows = rows; conflicts = []; violations = [] } }
{
    Table {
        schema,
        rows,
        conflicts: Sequence::new(alloc),
        violations: Sequence::new(alloc),
    }
}

/// The table at an address by its schema and rows.
fn table_read<D: Digester>(
    alloc: Global,
    draft: &Draft<D>,
    address: &Address,
) -> Result<Table, AllocError>
    requires { (contents : PlainTable) × IsTableAt D.address (chunks_of draft.now.chunks) address.now.0 contents }
    ensures { (contents : PlainTable) → IsTableAt D.address (chunks_of draft.now.chunks) address.now.0 contents
        → IfOk result (λ table. table_seen table ≡ bare_table contents) }
{
    law_of_tables();
    let table = read_table(alloc, draft, address)?;
    let rows = read_rows(alloc, draft, &table.schema, &table.rows)?;
    Ok(bare_table(alloc, table.schema, rows))
}

/// The table at an address by its schema alone.
fn schema_read<D: Digester>(
    alloc: Global,
    draft: &Draft<D>,
    address: &Address,
) -> Result<Table, AllocError>
    requires { (contents : PlainTable) × IsTableAt D.address (chunks_of draft.now.chunks) address.now.0 contents }
    ensures { (contents : PlainTable) → IsTableAt D.address (chunks_of draft.now.chunks) address.now.0 contents
        → IfOk result (λ table. table_seen table ≡ empty_table contents) }
{
    law_of_tables();
    let table = read_table(alloc, draft, address)?;
    Ok(bare_table(alloc, table.schema, Sequence::new(alloc)))
}

/// A table by its name, its schema and its rows.
fn named_read<D: Digester>(
    alloc: Global,
    draft: &Draft<D>,
    entry: &TableEntry,
) -> Result<NamedTable, AllocError>
    requires { (contents : PlainTable) × IsTableAt D.address (chunks_of draft.now.chunks) entry.now.table.0 contents }
    ensures { (contents : PlainTable) → IsTableAt D.address (chunks_of draft.now.chunks) entry.now.table.0 contents
        → IfOk result (λ named. named_seen named ≡ record { name = entry.now.name; table = bare_table contents }) }
{
    let table = table_read(alloc, draft, &entry.table)?;
    Ok(NamedTable {
        name: Text::from_slice(alloc, entry.name.as_slice())?,
        table,
    })
}

/// A table by its name and its schema.
fn named_schema<D: Digester>(
    alloc: Global,
    draft: &Draft<D>,
    entry: &TableEntry,
) -> Result<NamedTable, AllocError>
    requires { (contents : PlainTable) × IsTableAt D.address (chunks_of draft.now.chunks) entry.now.table.0 contents }
    ensures { (contents : PlainTable) → IsTableAt D.address (chunks_of draft.now.chunks) entry.now.table.0 contents
        → IfOk result (λ named. named_seen named ≡ record { name = entry.now.name; table = empty_table contents }) }
{
    let table = schema_read(alloc, draft, &entry.table)?;
    Ok(NamedTable {
        name: Text::from_slice(alloc, entry.name.as_slice())?,
        table,
    })
}

/// Reads each of these tables. There are few tables, so the calls don't go deep.
fn push_tables<D: Digester>(
    alloc: Global,
    draft: &Draft<D>,
    entries: &[TableEntry],
    tables: &mut Sequence<NamedTable>,
) -> Result<(), AllocError>
    requires { (database : PlainDatabase) × AreThere D.address (chunks_of draft.now.chunks) database entries.now }
    ensures { (database : PlainDatabase) → AreThere D.address (chunks_of draft.now.chunks) database entries.now
        → OnOk result (map named_seen tables.new ≡ map named_seen tables.old ++ bare database) }
{
    if let [first, rest @ ..] = entries {
        tables.push(named_read(alloc, draft, first)?)?;
        push_tables(alloc, draft, rest, tables)?;
    }
    Ok(())
}

/// Reads the schema of each of these tables.
pub(crate) fn push_schemas<D: Digester>(
    alloc: Global,
    draft: &Draft<D>,
    entries: &[TableEntry],
    tables: &mut Sequence<NamedTable>,
) -> Result<(), AllocError>
    requires { (database : PlainDatabase) × AreThere D.address (chunks_of draft.now.chunks) database entries.now }
    ensures { (database : PlainDatabase) → AreThere D.address (chunks_of draft.now.chunks) database entries.now
        → OnOk result (map named_seen tables.new ≡ map named_seen tables.old ++ skeleton database) }
{
    if let [first, rest @ ..] = entries {
        tables.push(named_schema(alloc, draft, first)?)?;
        push_schemas(alloc, draft, rest, tables)?;
    }
    Ok(())
}

/// The tables of the database at an address, by their schemas and rows. What merges left open isn't read.
pub fn read_tables<D: Digester>(
    alloc: Global,
    draft: &Draft<D>,
    database: &Address,
) -> Result<Sequence<NamedTable>, AllocError>
    requires { CanRead D.address (chunks_of draft.now.chunks) database.now.0 }
    ensures { (contents : PlainDatabase) → IsReadAt D.address (chunks_of draft.now.chunks) database.now.0 contents
        → IfOk result (λ tables. map named_seen tables ≡ bare contents) }
{
    law_of_databases();
    let entries = read_database(alloc, draft, database)?;
    let mut tables = Sequence::new(alloc);
    push_tables(alloc, draft, entries.as_slice(), &mut tables)?;
    Ok(tables)
}

/// The tables of the database at an address by their schemas alone: no row is read.
pub fn read_schemas<D: Digester>(
    alloc: Global,
    draft: &Draft<D>,
    database: &Address,
) -> Result<Sequence<NamedTable>, AllocError>
    requires { CanRead D.address (chunks_of draft.now.chunks) database.now.0 }
    ensures { (contents : PlainDatabase) → IsReadAt D.address (chunks_of draft.now.chunks) database.now.0 contents
        → IfOk result (λ tables. map named_seen tables ≡ skeleton contents) }
{
    law_of_databases();
    let entries = read_database(alloc, draft, database)?;
    let mut tables = Sequence::new(alloc);
    push_schemas(alloc, draft, entries.as_slice(), &mut tables)?;
    Ok(tables)
}
