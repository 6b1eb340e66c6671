//! `dolt_conflicts` and `dolt_constraint_violations`: how many entries the tables have.

ghost use Rattle.std.specs.Prelude.{◌≡◌, ◌++◌, ◌<◌, ◌^◌, IfOk, OnOk};
ghost use Rattle.chunk_store.specs.Drafts.{chunks_of};
ghost use Rattle.schema_model.specs.PlainTables.{PlainDatabase, PlainTable};
ghost use Rattle.table_root.specs.Standing.{AreThere, IsTableAt};
ghost use Rattle.system_tables.specs.Entries.{HasTableAt, count_columns, count_in, counted_row, counted_rows, counts_of, counts_shown};

use crate::cells::{number_column, text_column};
use crate::entries::Listed;
use crate::lists::table_of;
use chunk_store::Draft;
use plain_sql::{Known, NamedType};
use prolly_tree::count;
use std::alloc::{AllocError, Global};
use table_root::TableEntry;
use tuple_codec::{Address, Digester, Row, Sequence, Text, Value};

/// How many entries such a list of the table at an address has. No entry is read.
fn count_in<D: Digester>(
    alloc: Global,
    draft: &Draft<D>,
    which: Listed,
    address: &Address,
) -> Result<u64, AllocError>
    requires { HasTableAt D.address (chunks_of draft.now.chunks) address.now.0 }
    ensures few { IfOk result (λ count. count < 2 ^ 63) }
    ensures is { (table : PlainTable) → IsTableAt D.address (chunks_of draft.now.chunks) address.now.0 table
        → IfOk result (λ count. count ≡ count_in which table) }
{
    let table = table_of(alloc, draft, address)?;
    match which {
        Listed::Conflicts => Ok(count(draft, &table.conflicts)),
        Listed::Violations => Ok(count(draft, &table.violations)),
    }
}

/// Adds a row for a table of which there is some entry: its name, and how many.
fn push_count(
    alloc: Global,
    name: &Text,
    count: u64,
    rows: &mut Sequence<Row>,
) -> Result<(), AllocError>
    requires { count < 2 ^ 63 }
    ensures { OnOk result (rows.new ≡ rows.old ++ counted_row name.now count) }
{
    if count != 0 {
        let mut row = Row::new(alloc);
        row.push(Value::Text(Text::from_slice(alloc, name.as_slice())?))?;
        row.push(Value::Int(count as i64))?;
        rows.push(row)?;
    }
    Ok(())
}

/// Adds a row for each of these tables of which there is some entry. There are few tables, so the calls don't go deep.
fn push_counts<D: Digester>(
    alloc: Global,
    draft: &Draft<D>,
    which: Listed,
    tables: &[TableEntry],
    rows: &mut Sequence<Row>,
) -> Result<(), AllocError>
    requires { (database : PlainDatabase) × AreThere D.address (chunks_of draft.now.chunks) database tables.now }
    ensures { (database : PlainDatabase) → AreThere D.address (chunks_of draft.now.chunks) database tables.now
        → OnOk result (rows.new ≡ rows.old ++ counted_rows which database) }
{
    if let [first, rest @ ..] = tables {
        let count = count_in(alloc, draft, which, &first.table)?;
        push_count(alloc, &first.name, count, rows)?;
        push_counts(alloc, draft, which, rest, rows)?;
    }
    Ok(())
}

fn count_columns(alloc: Global, number: &[u8]) -> Result<Sequence<NamedType>, AllocError>
    ensures { IfOk result (λ columns. columns ≡ count_columns number.now) }
{
    let mut columns = Sequence::new(alloc);
    columns.push(text_column(alloc, b"table")?)?;
    columns.push(number_column(alloc, number)?)?;
    Ok(columns)
}

fn known_counts(
    alloc: Global,
    name: &[u8],
    number: &[u8],
    rows: Sequence<Row>,
) -> Result<Known, AllocError>
    ensures { IfOk result (λ known. known ≡ record { name = name.now; columns = count_columns number.now; rows = rows }) }
{
    Ok(Known {
        name: Text::from_slice(alloc, name)?,
        columns: count_columns(alloc, number)?,
        rows,
    })
}

/// The tables of which there is some such entry, and how many there are.
pub(crate) fn counts_shown<D: Digester>(
    alloc: Global,
    draft: &Draft<D>,
    which: Listed,
    tables: &[TableEntry],
) -> Result<Known, AllocError>
    requires { (database : PlainDatabase) × AreThere D.address (chunks_of draft.now.chunks) database tables.now }
    ensures { (database : PlainDatabase) → AreThere D.address (chunks_of draft.now.chunks) database tables.now
        → IfOk result (λ known. known ≡ counts_shown which database) }
{
    let mut rows = Sequence::new(alloc);
    push_counts(alloc, draft, which, tables, &mut rows)?;
    counts_of(alloc, which, rows)
}

fn counts_of(alloc: Global, which: Listed, rows: Sequence<Row>) -> Result<Known, AllocError>
    ensures { IfOk result (λ known. known ≡ counts_of which rows) }
{
    match which {
        Listed::Conflicts => known_counts(alloc, b"dolt_conflicts", b"num_conflicts", rows),
        Listed::Violations => known_counts(
            alloc,
            b"dolt_constraint_violations",
            b"num_violations",
            rows,
        ),
    }
}
