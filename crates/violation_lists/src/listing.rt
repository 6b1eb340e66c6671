//! Violations with the bytes of their keys and rows.

ghost use Rattle.std.specs.Prelude.{◌≡◌, ◌++◌, IfOk, OnOk, map, true};
ghost use Rattle.std.specs.List.{flat_map, list_all};
ghost use Rattle.schema_model.specs.PlainTables.{IsDatabase, PlainDatabase};
ghost use Rattle.chunk_store.specs.Drafts.{chunks_of};
ghost use Rattle.table_root.specs.Standing.{AreThere, CanRead, IsReadAt};
ghost use Rattle.plain_writes.specs.Seen.{broken_seen, found_seen, named_seen};
ghost use Rattle.plain_writes.specs.Violations.{violations};
ghost use Rattle.plain_writes.specs.CheckTexts.{checks};
ghost use Rattle.violation_lists.specs.Written.{fits, fits_in, written, written_in};

use crate::canonical::CanonicalChecks;
use crate::quiet::are_quiet;
use crate::thinning::read_thinned;
use chunk_store::Draft;
use plain_writes::{Found, NamedTable, table_in, violations as violations_of_tables};
use schema_model::Schema;
use std::alloc::{AllocError, Global};
use table_root::{TableEntry, law_of_databases, read_database, row_item};
use tuple_codec::{Address, Blob, Digester, Text};

/// A row that breaks a constraint, as the list of a table's violations keeps it.
#[derive(Drop)]
pub struct ListedViolation {
    pub table: Text,
    /// 1 a foreign key, 2 a unique index, 3 a CHECK, 4 NULL in a NOT NULL column.
    pub kind: u8,
    /// The constraint's name, of kind 4 the column's.
    pub constraint: Text,
    /// The bytes of the row's primary key.
    pub key: Blob,
    /// The bytes of the row's other cells.
    pub row: Blob,
}

fn written(alloc: Global, schema: &Schema, one: &Found) -> Result<ListedViolation, AllocError>
    requires { fits schema.now (broken_seen one.now.violation) ≡ true }
    ensures { IfOk result (λ violation. violation ≡ written schema.now (found_seen one.now)) }
{
    let item = row_item(alloc, schema, one.violation.row.as_slice())?;
    Ok(ListedViolation {
        table: Text::from_slice(alloc, one.table.as_slice())?,
        kind: one.violation.kind,
        constraint: Text::from_slice(alloc, one.violation.constraint.as_slice())?,
        key: item.key,
        row: item.value,
    })
}

/// Adds a violation, by the schema of its table.
fn push_written(
    alloc: Global,
    tables: &[NamedTable],
    one: &Found,
    list: &mut Vec<ListedViolation>,
) -> Result<(), AllocError>
    requires { fits_in (map named_seen tables.now) (found_seen one.now) ≡ true }
    ensures { OnOk result (list.new.items ≡ list.old.items ++ written_in (map named_seen tables.now) (found_seen one.now)) }
{
    if let Some(table) = table_in(tables, one.table.as_slice()) {
        list.push(written(alloc, &table.schema, one)?)?;
    }
    Ok(())
}

fn written_all(
    alloc: Global,
    tables: &[NamedTable],
    found: &[Found],
) -> Result<Vec<ListedViolation>, AllocError>
    requires { list_all (fits_in (map named_seen tables.now)) (map found_seen found.now) ≡ true }
    ensures { IfOk result (λ list. list.items ≡ flat_map (written_in (map named_seen tables.now)) (map found_seen found.now)) }
{
    let mut list = Vec::new(alloc);
    for one in found {
        push_written(alloc, tables, one, &mut list)?;
    }
    Ok(list)
}

/// The violations of the database of these tables, some of which may have any.
fn violations_among<D: Digester>(
    alloc: Global,
    draft: &Draft<D>,
    entries: &[TableEntry],
) -> Result<Vec<ListedViolation>, AllocError>
    requires { (contents : PlainDatabase) × AreThere D.address (chunks_of draft.now.chunks) contents entries.now × IsDatabase contents }
    ensures { (contents : PlainDatabase) → AreThere D.address (chunks_of draft.now.chunks) contents entries.now → IsDatabase contents
        → IfOk result (λ list. list.items ≡ flat_map (written_in contents) (violations checks contents)) }
{
    let tables = read_thinned(alloc, draft, entries)?;
    let found = violations_of_tables::<CanonicalChecks>(alloc, tables.as_slice())?;
    written_all(alloc, tables.as_slice(), found.as_slice())
}

/// The violations of the database at an address, by table, kind, constraint and key. Those that merges recorded take no part.
///
/// Rows are read of tables with a unique index, a CHECK, a foreign key, or a NOT NULL column that isn't the whole primary key, and of those that a
/// foreign key names; of others that of key NULL alone, if there is one. Where there is no such table and no such row, each table is read once, and
/// nothing else.
pub fn violations<D: Digester>(
    alloc: Global,
    draft: &Draft<D>,
    database: &Address,
) -> Result<Vec<ListedViolation>, AllocError>
    requires { CanRead D.address (chunks_of draft.now.chunks) database.now.0 }
    ensures { (contents : PlainDatabase) → IsReadAt D.address (chunks_of draft.now.chunks) database.now.0 contents
        → IfOk result (λ list. list.items ≡ flat_map (written_in contents) (violations checks contents)) }
{
    law_of_databases();
    let entries = read_database(alloc, draft, database)?;
    let quiet = are_quiet(alloc, draft, entries.as_slice())?;
    if quiet {
        return Ok(Vec::new(alloc));
    }
    violations_among(alloc, draft, entries.as_slice())
}
