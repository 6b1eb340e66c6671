//! The conflicts of a table as rows: each side's row, and what it did to the base's.

ghost use Rattle.std.specs.Prelude.{◌≡◌, ◌++◌, ◌∷◌, [], IfOk, List, OnOk, Option, Some, map, true};
ghost use Rattle.chunk_store.specs.Drafts.{chunks_of};
ghost use Rattle.conflict_tables.specs.Conflicts.{IsSomeTable};
ghost use Rattle.plain_sessions.specs.SystemTables as plain;
ghost use Rattle.plain_sessions.specs.SystemTables.{side_cells};
ghost use Rattle.schema_model.specs.PlainTables.{Conflict, PlainTable};
ghost use Rattle.schema_model.specs.Schemas.{is_schema};
ghost use Rattle.table_root.specs.Standing.{IsTableOf};
ghost use Rattle.tuple_codec.specs.Rows.{Cells};
ghost use Rattle.tuple_codec.specs.declared.values.Value.TheVariants as cell;
ghost use Rattle.system_tables.specs.Entries.{AreConflictsOf, HasConflict, HasConflicts, HasSide, IsConflictOf, IsSideOf, conflict_entry, diff_text, entries_of};
ghost use Rattle.system_tables.specs.declared.entries.Listed.TheVariants as listed;

use crate::cells::{copy_bytes, push_cells};
use crate::entries::ListEntry;
use chunk_store::Draft;
use conflict_tables::{ConflictEntry, conflicts};
use schema_model::{Column, Schema};
use std::alloc::{AllocError, Global};
use table_root::{StoredTable, row_of};
use tuple_codec::{Blob, Digester, Row, Sequence, Text, Value, same_cells_are_one};

/// Adds NULL for each column.
fn push_nulls(columns: &[Column], row: &mut Row) -> Result<(), AllocError>
    ensures { OnOk result (row.new ≡ row.old ++ map (λ column. cell.Null) columns.now) }
{
    for _column in columns {
        row.push(Value::Null)?;
    }
    Ok(())
}

/// Adds a side's row.
fn push_row(
    alloc: Global,
    schema: &Schema,
    key: &[u8],
    bytes: &[u8],
    row: &mut Row,
) -> Result<(), AllocError>
    requires schema { is_schema schema.now ≡ true }
    requires side { HasSide schema.now key.now (Some bytes.now) }
    ensures { (cells : Option Cells) → IsSideOf schema.now key.now (Some bytes.now) cells → OnOk result (row.new ≡ row.old ++ side_cells schema.now cells) }
{
    let cells = row_of(alloc, schema, key, bytes)?;
    push_cells(alloc, cells.as_slice(), row)
}

/// Adds a side's row, or NULL for each column where the side has none.
fn push_side(
    alloc: Global,
    schema: &Schema,
    key: &[u8],
    side: &Option<Blob>,
    row: &mut Row,
) -> Result<(), AllocError>
    requires schema { is_schema schema.now ≡ true }
    requires side { HasSide schema.now key.now side.now }
    ensures { (cells : Option Cells) → IsSideOf schema.now key.now side.now cells → OnOk result (row.new ≡ row.old ++ side_cells schema.now cells) }
{
    match side {
        Some(bytes) => push_row(alloc, schema, key, bytes.as_slice(), row),
        None => push_nulls(schema.columns.as_slice(), row),
    }
}

/// What a side did to the base's row.
fn diff(alloc: Global, base: &Option<Blob>, side: &Option<Blob>) -> Result<Value, AllocError>
    ensures { IfOk result (λ value. value ≡ cell.Text (diff_text base.now side.now)) }
{
    let text = match base {
        None => Text::from_slice(alloc, b"added")?,
        Some(_) => match side {
            None => Text::from_slice(alloc, b"removed")?,
            Some(_) => Text::from_slice(alloc, b"modified")?,
        },
    };
    Ok(Value::Text(text))
}

/// Adds a side's cells, and what the side did to the base's row.
fn push_changed(
    alloc: Global,
    schema: &Schema,
    entry: &ConflictEntry,
    side: &Option<Blob>,
    row: &mut Row,
) -> Result<(), AllocError>
    requires schema { is_schema schema.now ≡ true }
    requires side { HasSide schema.now entry.now.key side.now }
    ensures { (cells : Option Cells) → IsSideOf schema.now entry.now.key side.now cells
        → OnOk result (row.new ≡ row.old ++ side_cells schema.now cells ++ cell.Text (diff_text entry.now.base side.now) ∷ []) }
{
    push_side(alloc, schema, entry.key.as_slice(), side, row)?;
    row.push(diff(alloc, &entry.base, side)?)?;
    Ok(())
}

fn conflict_row(alloc: Global, schema: &Schema, entry: &ConflictEntry) -> Result<Row, AllocError>
    requires schema { is_schema schema.now ≡ true }
    requires entry { HasConflict schema.now entry.now }
    ensures { (conflict : Conflict) → IsConflictOf schema.now entry.now conflict → IfOk result (λ row. row ≡ plain.conflict_row schema.now conflict) }
{
    let mut row = Row::new(alloc);
    push_side(alloc, schema, entry.key.as_slice(), &entry.base, &mut row)?;
    push_changed(alloc, schema, entry, &entry.ours, &mut row)?;
    push_changed(alloc, schema, entry, &entry.theirs, &mut row)?;
    Ok(row)
}

fn conflict_entry(
    alloc: Global,
    schema: &Schema,
    entry: &ConflictEntry,
) -> Result<ListEntry, AllocError>
    requires schema { is_schema schema.now ≡ true }
    requires entry { HasConflict schema.now entry.now }
    ensures { (conflict : Conflict) → IsConflictOf schema.now entry.now conflict → IfOk result (λ made. made ≡ conflict_entry schema.now conflict) }
{
    let row = conflict_row(alloc, schema, entry)?;
    Ok(ListEntry {
        key: copy_bytes(alloc, entry.key.as_slice())?,
        row,
    })
}

fn entries_of(
    alloc: Global,
    schema: &Schema,
    list: &[ConflictEntry],
) -> Result<Sequence<ListEntry>, AllocError>
    requires schema { is_schema schema.now ≡ true }
    requires list { HasConflicts schema.now list.now }
    ensures { (conflicts : List Conflict) → AreConflictsOf schema.now list.now conflicts
        → IfOk result (λ entries. entries ≡ map (conflict_entry schema.now) conflicts) }
{
    same_cells_are_one();
    let mut entries = Sequence::new(alloc);
    for entry in list {
        entries.push(conflict_entry(alloc, schema, entry)?)?;
    }
    Ok(entries)
}

/// The table's conflicts, by rising key.
pub(crate) fn conflict_entries<D: Digester>(
    alloc: Global,
    draft: &Draft<D>,
    table: &StoredTable,
) -> Result<Sequence<ListEntry>, AllocError>
    requires { IsSomeTable D.address (chunks_of draft.now.chunks) table.now }
    ensures { (contents : PlainTable) → IsTableOf D.address (chunks_of draft.now.chunks) table.now contents
        → IfOk result (λ entries. entries ≡ entries_of listed.Conflicts contents) }
{
    let list = conflicts(alloc, draft, table)?;
    entries_of(alloc, &table.schema, list.as_slice())
}
