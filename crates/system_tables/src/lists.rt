//! A table's list of conflicts or of violations, as a table that a SELECT knows.

ghost use Rattle.std.specs.Prelude.{◌≡◌, ◌++◌, IfOk, OnOk};
ghost use Rattle.chunk_store.specs.Drafts.{chunks_of};
ghost use Rattle.conflict_tables.specs.Conflicts.{IsSomeTable};
ghost use Rattle.plain_sessions.specs.SystemTables as plain;
ghost use Rattle.schema_model.specs.PlainTables.{PlainTable};
ghost use Rattle.table_root.specs.Standing.{IsTableAt, IsTableOf};
ghost use Rattle.system_tables.specs.Entries.{HasTableAt, columns_of, entries_of, front_of, fronted, known_list, list_shown};

use crate::cells::text_column;
use crate::conflicts::conflict_entries;
use crate::entries::{ListEntry, Listed, rows_of};
use crate::violations::violation_entries;
use chunk_store::Draft;
use plain_sql::{Known, NamedType};
use schema_model::{Column, Schema};
use std::alloc::{AllocError, Global};
use table_root::{StoredTable, TableEntry, law_of_tables, read_table};
use tuple_codec::{Address, Digester, Sequence, Text};

/// The table at an address.
pub(crate) fn table_of<D: Digester>(
    alloc: Global,
    draft: &Draft<D>,
    address: &Address,
) -> Result<StoredTable, AllocError>
    requires { HasTableAt D.address (chunks_of draft.now.chunks) address.now.0 }
    ensures { (contents : PlainTable) → IsTableAt D.address (chunks_of draft.now.chunks) address.now.0 contents
        → IfOk result (λ table. IsTableOf D.address (chunks_of draft.now.chunks) table contents) }
{
    law_of_tables();
    let table = read_table(alloc, draft, address)?;
    Ok(table)
}

/// The entries of one of the table's lists, by rising key.
pub fn entries_of<D: Digester>(
    alloc: Global,
    draft: &Draft<D>,
    which: Listed,
    table: &StoredTable,
) -> Result<Sequence<ListEntry>, AllocError>
    requires { IsSomeTable D.address (chunks_of draft.now.chunks) table.now }
    ensures { (contents : PlainTable) → IsTableOf D.address (chunks_of draft.now.chunks) table.now contents
        → IfOk result (λ entries. entries ≡ entries_of which contents) }
{
    match which {
        Listed::Conflicts => conflict_entries(alloc, draft, table),
        Listed::Violations => violation_entries(alloc, draft, table),
    }
}

fn front_of(which: Listed) -> &'static [u8]
    ensures { result.now ≡ front_of which }
{
    match which {
        Listed::Conflicts => b"dolt_conflicts_",
        Listed::Violations => b"dolt_constraint_violations_",
    }
}

fn joined(alloc: Global, front: &[u8], name: &[u8]) -> Result<Text, AllocError>
    ensures { IfOk result (λ text. text ≡ front.now ++ name.now) }
{
    let mut bytes = Vec::new(alloc);
    bytes.extend_from_slice(front)?;
    bytes.extend_from_slice(name)?;
    Text::from_slice(alloc, bytes.as_slice())
}

/// The name under which a table's list is shown.
pub(crate) fn list_name(alloc: Global, which: Listed, name: &Text) -> Result<Text, AllocError>
    ensures { IfOk result (λ text. text ≡ front_of which ++ name.now) }
{
    joined(alloc, front_of(which), name.as_slice())
}

/// Adds these columns with the bytes in front of each name.
fn push_fronted(
    alloc: Global,
    front: &[u8],
    columns: &[Column],
    out: &mut Sequence<NamedType>,
) -> Result<(), AllocError>
    ensures { OnOk result (out.new ≡ out.old ++ fronted front.now columns.now) }
{
    for column in columns {
        out.push(NamedType {
            name: joined(alloc, front, column.name.as_slice())?,
            kind: column.kind,
        })?;
    }
    Ok(())
}

fn conflict_columns(alloc: Global, schema: &Schema) -> Result<Sequence<NamedType>, AllocError>
    ensures { IfOk result (λ columns. columns ≡ plain.conflict_columns schema.now) }
{
    let own = schema.columns.as_slice();
    let mut columns = Sequence::new(alloc);
    push_fronted(alloc, b"base_", own, &mut columns)?;
    push_fronted(alloc, b"our_", own, &mut columns)?;
    columns.push(text_column(alloc, b"our_diff_type")?)?;
    push_fronted(alloc, b"their_", own, &mut columns)?;
    columns.push(text_column(alloc, b"their_diff_type")?)?;
    Ok(columns)
}

fn violation_columns(alloc: Global, schema: &Schema) -> Result<Sequence<NamedType>, AllocError>
    ensures { IfOk result (λ columns. columns ≡ plain.violation_columns schema.now) }
{
    let mut columns = Sequence::new(alloc);
    columns.push(text_column(alloc, b"violation_type")?)?;
    push_fronted(alloc, b"", schema.columns.as_slice(), &mut columns)?;
    columns.push(text_column(alloc, b"violation_constraint")?)?;
    Ok(columns)
}

/// The columns of the table that shows such a list.
pub fn columns_of(
    alloc: Global,
    which: Listed,
    schema: &Schema,
) -> Result<Sequence<NamedType>, AllocError>
    ensures { IfOk result (λ columns. columns ≡ columns_of which schema.now) }
{
    match which {
        Listed::Conflicts => conflict_columns(alloc, schema),
        Listed::Violations => violation_columns(alloc, schema),
    }
}

/// One of the lists of a table, as a table.
pub(crate) fn list_shown<D: Digester>(
    alloc: Global,
    draft: &Draft<D>,
    which: Listed,
    named: &TableEntry,
) -> Result<Known, AllocError>
    requires { HasTableAt D.address (chunks_of draft.now.chunks) named.now.table.0 }
    ensures { (table : PlainTable) → IsTableAt D.address (chunks_of draft.now.chunks) named.now.table.0 table
        → IfOk result (λ known. known ≡ list_shown which (record { name = named.now.name; table = table })) }
{
    let table = table_of(alloc, draft, &named.table)?;
    let entries = entries_of(alloc, draft, which, &table)?;
    known_list(alloc, which, &named.name, &table.schema, entries)
}

fn known_list(
    alloc: Global,
    which: Listed,
    name: &Text,
    schema: &Schema,
    entries: Sequence<ListEntry>,
) -> Result<Known, AllocError>
    ensures { IfOk result (λ known. known ≡ known_list which name.now schema.now entries) }
{
    Ok(Known {
        name: list_name(alloc, which, name)?,
        columns: columns_of(alloc, which, schema)?,
        rows: rows_of(alloc, entries)?,
    })
}
