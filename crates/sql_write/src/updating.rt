//! UPDATE and DELETE.

ghost use Rattle.std.specs.Prelude.{◌≡◌, ◌+◌, List, length};
ghost use Rattle.tuple_codec.specs.Rows.{Cells};
ghost use Rattle.schema_model.specs.PlainTables.{PlainDatabase, PlainTable};
ghost use Rattle.chunk_store.specs.Drafts.{Grows, chunks_of};
ghost use Rattle.chunk_store.specs.Kinds.{is_data};
ghost use Rattle.plain_writes.specs.Writes.{delete_effect, deleted, filled, update_effect, updated};
ghost use Rattle.plain_writes.specs.CheckTexts.{checks};
ghost use Rattle.table_root.specs.Kept.{HasKeptAt, IsKeptAt};
ghost use Rattle.sql_write.specs.Finding.{IsFound};
ghost use Rattle.sql_write.specs.Making.{Makes};
ghost use Rattle.sql_write.specs.Updating.{HasSome, MayTurn};

use crate::differences::row_edits;
use crate::faults::SqlFault;
use crate::finding::{Found, find};
use crate::putting::fill_table;
use crate::reading::{rows_to_test, rows_to_turn};
use crate::turning::{Turned, change_of, delete_tests, deleted_by, rows_come_first, updated_by};
use crate::writing::Written;
use chunk_store::Draft;
use prolly_tree::count;
use sql_ast::{Delete, Update};
use std::alloc::Global;
use table_root::law_of_row_items;
use tuple_codec::{Address, Digester, Row, edits_by_key};

/// How many rows the table that was found has with new rows in place of old ones of its own.
fn rows_then<D: Digester>(draft: &Draft<D>, found: &Found, old: &[Row], new: &[Row]) -> u64
    requires { (contents : PlainTable) × HasSome D.address (chunks_of draft.now.chunks) found.now.table old.now contents }
    ensures { (contents : PlainTable) → HasSome D.address (chunks_of draft.now.chunks) found.now.table old.now contents
        → result + length old.now ≡ length contents.rows + length new.now }
{
    count(draft, &found.table.rows) - old.len() as u64 + new.len() as u64
}

/// Puts the rows that were turned in place of those of the table that were read: only rows that differ are written.
fn put_turned<D: Digester>(
    alloc: Global,
    draft: &mut Draft<D>,
    database: &Address,
    found: Found,
    name: &[u8],
    old: &[Row],
    turned: &Turned,
) -> Result<Written, SqlFault>
    requires { (before : PlainDatabase) × (contents : PlainTable) × (rows : List Cells)
        × MayTurn D.address (chunks_of draft.old.chunks) database.now.0 name.now found old.now turned.now before contents rows }
    ensures done { (before : PlainDatabase) (contents : PlainTable) (rows : List Cells)
        → MayTurn D.address (chunks_of draft.old.chunks) database.now.0 name.now found old.now turned.now before contents rows
        → Makes D.address (chunks_of draft.new.chunks) result (filled checks before name.now contents turned.now.count rows) }
    ensures grows { Grows is_data draft.old draft.new }
{
    edits_by_key();
    law_of_row_items();
    let rows = turned.rows.as_slice();
    let edits = row_edits(alloc, &found.table.schema, old, rows)?;
    let count = rows_then(draft, &found, old, rows);
    fill_table(
        alloc,
        draft,
        database,
        found.tables,
        name,
        found.table,
        edits.as_slice(),
        count,
        turned.count,
    )
}

fn update_found<D: Digester>(
    alloc: Global,
    draft: &mut Draft<D>,
    database: &Address,
    found: Found,
    update: &Update,
) -> Result<Written, SqlFault>
    requires { (before : PlainDatabase) × (contents : PlainTable) × IsFound D.address (chunks_of draft.old.chunks) database.now.0 update.now.table before contents found }
    ensures done { (before : PlainDatabase) (contents : PlainTable) → IsFound D.address (chunks_of draft.old.chunks) database.now.0 update.now.table before contents found
        → Makes D.address (chunks_of draft.new.chunks) result (updated checks before update.now contents) }
    ensures grows { Grows is_data draft.old draft.new }
{
    rows_come_first();
    let change = change_of(alloc, &found.table.schema, update)?;
    let old = rows_to_turn(alloc, draft, &found, &change)?;
    let turned = updated_by(alloc, &found.table.schema, &change, old.as_slice())?;
    let name = update.table.as_slice();
    put_turned(alloc, draft, database, found, name, old.as_slice(), &turned)
}

fn delete_found<D: Digester>(
    alloc: Global,
    draft: &mut Draft<D>,
    database: &Address,
    found: Found,
    delete: &Delete,
) -> Result<Written, SqlFault>
    requires { (before : PlainDatabase) × (contents : PlainTable) × IsFound D.address (chunks_of draft.old.chunks) database.now.0 delete.now.table before contents found }
    ensures done { (before : PlainDatabase) (contents : PlainTable) → IsFound D.address (chunks_of draft.old.chunks) database.now.0 delete.now.table before contents found
        → Makes D.address (chunks_of draft.new.chunks) result (deleted checks before delete.now contents) }
    ensures grows { Grows is_data draft.old draft.new }
{
    rows_come_first();
    let tests = delete_tests(alloc, &found.table.schema, delete)?;
    let old = rows_to_test(alloc, draft, &found, tests.as_slice())?;
    let turned = deleted_by(alloc, &found.table.schema, tests.as_slice(), old.as_slice())?;
    let name = delete.table.as_slice();
    put_turned(alloc, draft, database, found, name, old.as_slice(), &turned)
}

/// Changes rows of a table. Where the statement names primary keys or entries of an index, and sets no column of the primary key, the rows of
/// these alone are read, else all rows; those that differ are written.
pub(crate) fn update<D: Digester>(
    alloc: Global,
    draft: &mut Draft<D>,
    database: &Address,
    update: &Update,
) -> Result<Written, SqlFault>
    requires { HasKeptAt D.address (chunks_of draft.old.chunks) database.now.0 }
    ensures done { (contents : PlainDatabase) → IsKeptAt D.address (chunks_of draft.old.chunks) database.now.0 contents
        → Makes D.address (chunks_of draft.new.chunks) result (update_effect checks contents update.now) }
    ensures grows { Grows is_data draft.old draft.new }
{
    let found = find(alloc, draft, database, update.table.as_slice())?;
    update_found(alloc, draft, database, found, update)
}

/// Takes rows out of a table. Where the statement names primary keys or entries of an index, the rows of these alone are read, else all rows.
pub(crate) fn delete<D: Digester>(
    alloc: Global,
    draft: &mut Draft<D>,
    database: &Address,
    delete: &Delete,
) -> Result<Written, SqlFault>
    requires { HasKeptAt D.address (chunks_of draft.old.chunks) database.now.0 }
    ensures done { (contents : PlainDatabase) → IsKeptAt D.address (chunks_of draft.old.chunks) database.now.0 contents
        → Makes D.address (chunks_of draft.new.chunks) result (delete_effect checks contents delete.now) }
    ensures grows { Grows is_data draft.old draft.new }
{
    let found = find(alloc, draft, database, delete.table.as_slice())?;
    delete_found(alloc, draft, database, found, delete)
}
