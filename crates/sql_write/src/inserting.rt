//! INSERT.

ghost use Rattle.std.specs.Prelude.{◌≡◌, ◌+◌, ◌++◌, ◌<◌, ◌^◌, IfOk, List, length, true};
ghost use Rattle.std.specs.List.{list_all};
ghost use Rattle.tuple_codec.specs.Nodes.{Item};
ghost use Rattle.tuple_codec.specs.Rows.{Cells};
ghost use Rattle.schema_model.specs.PlainTables.{PlainDatabase, PlainTable};
ghost use Rattle.schema_model.specs.Schemas.{is_schema};
ghost use Rattle.chunk_store.specs.Drafts.{Grows, chunks_of};
ghost use Rattle.chunk_store.specs.Kinds.{is_data};
ghost use Rattle.chunk_store.specs.Standing.{IsTree};
ghost use Rattle.prolly_tree.specs.Lists.{StandsForRows};
ghost use Rattle.plain_sql.specs.Gives.{Gives, GivesBy};
ghost use Rattle.plain_writes.specs.Writes.{insert_effect, inserted, result_of};
ghost use Rattle.plain_writes.specs.CheckTexts.{checks};
ghost use Rattle.table_root.specs.Kept.{HasKeptAt, IsKeptAt};
ghost use Rattle.sql_write.specs.Finding.{IsFound};
ghost use Rattle.sql_write.specs.Inserting.{MayInsert, MayInsertSorted, MayPut, is_good, listed_rows, row_said, rows_in, rows_said};
ghost use Rattle.sql_write.specs.Making.{Makes};

use crate::edits::{edit_of, edits_of, repeats_key};
use crate::faults::SqlFault;
use crate::finding::{Found, find};
use crate::putting::fill_table;
use crate::writing::Written;
use chunk_store::Draft;
use index_keep::sort_edits;
use plain_sql::Refused;
use plain_writes::{new_row, new_rows, places_named, tuple_said, tuples_said};
use prolly_tree::count;
use schema_model::Schema;
use sql_ast::{Insert, Tuple};
use std::alloc::{AllocError, Global};
use table_root::law_of_row_items;
use tuple_codec::{Address, Digester, Edit, Row, Sequence};

/// The rows that an INSERT brings. One alone takes no list.
#[derive(Drop)]
enum NewRows {
    One([Row; 1]),
    Listed(Sequence<Row>),
}

impl NewRows {
    fn as_slice(&self) -> &[Row]
        ensures { result.now ≡ rows_in self.now }
    {
        match self {
            NewRows::One(row) => row,
            NewRows::Listed(rows) => rows.as_slice(),
        }
    }
}

/// The row that a tuple brings.
fn row_said(alloc: Global, schema: &Schema, places: &[usize], tuple: &Tuple) -> Result<Row, Refused>
    requires { is_schema schema.now ≡ true }
    ensures { Gives result (row_said schema.now places.now tuple.now) }
{
    let said = tuple_said(alloc, schema, places, tuple)?;
    new_row(alloc, schema, places, said.as_slice())
}

/// The rows that tuples bring, none of which is looked at before each has been said.
fn listed_rows(
    alloc: Global,
    schema: &Schema,
    places: &[usize],
    tuples: &[Tuple],
) -> Result<Sequence<Row>, Refused>
    requires { is_schema schema.now ≡ true }
    ensures { Gives result (listed_rows schema.now places.now tuples.now) }
{
    let said = tuples_said(alloc, schema, places, tuples)?;
    new_rows(alloc, schema, places, said.as_slice())
}

fn rows_of_tuples(
    alloc: Global,
    schema: &Schema,
    places: &[usize],
    tuples: &[Tuple],
) -> Result<NewRows, Refused>
    requires { is_schema schema.now ≡ true }
    ensures { GivesBy rows_in result (listed_rows schema.now places.now tuples.now) }
{
    match tuples {
        [tuple] => Ok(NewRows::One([row_said(alloc, schema, places, tuple)?])),
        tuples => Ok(NewRows::Listed(listed_rows(alloc, schema, places, tuples)?)),
    }
}

/// The rows that an INSERT brings, or its first refusal before any row of the table is looked at.
fn rows_said(alloc: Global, schema: &Schema, insert: &Insert) -> Result<NewRows, Refused>
    requires { is_schema schema.now ≡ true }
    ensures said { GivesBy rows_in result (rows_said schema.now insert.now) }
    ensures good { IfOk result (λ rows. list_all (is_good schema.now) (rows_in rows) ≡ true) }
{
    let places = places_named(alloc, schema, &insert.columns)?;
    rows_of_tuples(alloc, schema, places.as_slice(), insert.tuples.as_slice())
}

/// How many rows there are where so many more come. No memory holds 2^63 of them.
fn rows_after<D: Digester>(
    draft: &Draft<D>,
    root: &Address,
    written: u64,
) -> Result<u64, AllocError>
    requires { StandsForRows D.address (chunks_of draft.now.chunks) root.now.0 }
    ensures { (items : List Item) → IsTree D.address (chunks_of draft.now.chunks) root.now.0 items
        → IfOk result (λ rows. (rows ≡ length items + written) × (rows < 2 ^ 63)) }
{
    match count(draft, root).checked_add(written) {
        Some(rows) => {
            if rows < 1 << 63 {
                Ok(rows)
            } else {
                Err(AllocError)
            }
        }
        None => Err(AllocError),
    }
}

/// Puts the rows that so many edits put, which come in the order of their keys. No row may have a key that stands already, or twice among them.
fn insert_sorted<D: Digester>(
    alloc: Global,
    draft: &mut Draft<D>,
    database: &Address,
    found: Found,
    name: &[u8],
    edits: &[Edit],
    written: u64,
) -> Result<Written, SqlFault>
    requires { (before : PlainDatabase) × (contents : PlainTable) × (rows : List Cells) × MayInsertSorted D.address (chunks_of draft.old.chunks) database.now.0 name.now found edits.now written before contents rows }
    ensures done { (before : PlainDatabase) (contents : PlainTable) (rows : List Cells) → MayInsertSorted D.address (chunks_of draft.old.chunks) database.now.0 name.now found edits.now written before contents rows
        → Makes D.address (chunks_of draft.new.chunks) result (result_of checks before name.now contents (contents.rows ++ rows) (length rows)) }
    ensures grows { Grows is_data draft.old draft.new }
{
    law_of_row_items();
    if repeats_key(draft, &found.table.rows, edits) {
        return Err(SqlFault::Refused(1062));
    }
    let rows = rows_after(draft, &found.table.rows, written)?;
    fill_table(
        alloc,
        draft,
        database,
        found.tables,
        name,
        found.table,
        edits,
        rows,
        written,
    )
}

/// Puts the rows that edits put, in whatever order these come.
fn insert_edits<D: Digester>(
    alloc: Global,
    draft: &mut Draft<D>,
    database: &Address,
    found: Found,
    name: &[u8],
    mut edits: Vec<Edit>,
) -> Result<Written, SqlFault>
    requires { (before : PlainDatabase) × (contents : PlainTable) × (rows : List Cells) × MayInsert D.address (chunks_of draft.old.chunks) database.now.0 name.now found edits.items before contents rows }
    ensures done { (before : PlainDatabase) (contents : PlainTable) (rows : List Cells) → MayInsert D.address (chunks_of draft.old.chunks) database.now.0 name.now found edits.items before contents rows
        → Makes D.address (chunks_of draft.new.chunks) result (result_of checks before name.now contents (contents.rows ++ rows) (length rows)) }
    ensures grows { Grows is_data draft.old draft.new }
{
    let written = edits.len() as u64;
    sort_edits(&mut edits)?;
    insert_sorted(
        alloc,
        draft,
        database,
        found,
        name,
        edits.as_slice(),
        written,
    )
}

/// Puts these rows. One alone is put by one edit, which takes no list.
fn insert_rows<D: Digester>(
    alloc: Global,
    draft: &mut Draft<D>,
    database: &Address,
    found: Found,
    name: &[u8],
    rows: &[Row],
) -> Result<Written, SqlFault>
    requires { (before : PlainDatabase) × (contents : PlainTable) × MayPut D.address (chunks_of draft.old.chunks) database.now.0 name.now found before contents rows.now }
    ensures done { (before : PlainDatabase) (contents : PlainTable) → MayPut D.address (chunks_of draft.old.chunks) database.now.0 name.now found before contents rows.now
        → Makes D.address (chunks_of draft.new.chunks) result (result_of checks before name.now contents (contents.rows ++ rows.now) (length rows.now)) }
    ensures grows { Grows is_data draft.old draft.new }
{
    match rows {
        [row] => {
            let edit = edit_of(alloc, &found.table.schema, row)?;
            insert_sorted(alloc, draft, database, found, name, &[edit], 1)
        }
        rows => {
            let edits = edits_of(alloc, &found.table.schema, rows)?;
            insert_edits(alloc, draft, database, found, name, edits)
        }
    }
}

/// Inserts into the table that was found.
fn insert_into<D: Digester>(
    alloc: Global,
    draft: &mut Draft<D>,
    database: &Address,
    found: Found,
    insert: &Insert,
) -> Result<Written, SqlFault>
    requires { (before : PlainDatabase) × (contents : PlainTable) × IsFound D.address (chunks_of draft.old.chunks) database.now.0 insert.now.table before contents found }
    ensures done { (before : PlainDatabase) (contents : PlainTable) → IsFound D.address (chunks_of draft.old.chunks) database.now.0 insert.now.table before contents found
        → Makes D.address (chunks_of draft.new.chunks) result (inserted checks before insert.now contents) }
    ensures grows { Grows is_data draft.old draft.new }
{
    let rows = rows_said(alloc, &found.table.schema, insert)?;
    insert_rows(
        alloc,
        draft,
        database,
        found,
        insert.table.as_slice(),
        rows.as_slice(),
    )
}

/// Adds rows to a table. Of the table's own rows, those alone are read whose keys or index entries lie beside those of new ones.
pub(crate) fn insert<D: Digester>(
    alloc: Global,
    draft: &mut Draft<D>,
    database: &Address,
    insert: &Insert,
) -> Result<Written, SqlFault>
    requires { HasKeptAt D.address (chunks_of draft.old.chunks) database.now.0 }
    ensures done { (contents : PlainDatabase) → IsKeptAt D.address (chunks_of draft.old.chunks) database.now.0 contents
        → Makes D.address (chunks_of draft.new.chunks) result (insert_effect checks contents insert.now) }
    ensures grows { Grows is_data draft.old draft.new }
{
    let found = find(alloc, draft, database, insert.table.as_slice())?;
    insert_into(alloc, draft, database, found, insert)
}
