//! A table whose rows are edited, put into the database in which it stands, and judged there.

ghost use Rattle.std.specs.Prelude.{◌≡◌, IfErr, IfOk, List, Some, nat_lt};
ghost use Rattle.tuple_codec.specs.Rows.{Cells};
ghost use Rattle.schema_model.specs.Limits.{most_rows};
ghost use Rattle.schema_model.specs.PlainTables.{PlainDatabase, PlainTable};
ghost use Rattle.chunk_store.specs.Clashes.{IsReason};
ghost use Rattle.chunk_store.specs.Drafts.{Grows, chunks_of};
ghost use Rattle.chunk_store.specs.Kinds.{is_data};
ghost use Rattle.table_root.specs.Standing.{CanRead, IsReadAt};
ghost use Rattle.plain_writes.specs.Violations.{first_violation};
ghost use Rattle.plain_writes.specs.Writes.{effect_if, filled, replaced, with_rows};
ghost use Rattle.plain_writes.specs.CheckTexts.{checks};
ghost use Rattle.violation_lists.specs.Scanning.{has_constraints};
ghost use Rattle.sql_write.specs.Making.{Makes};
ghost use Rattle.sql_write.specs.Putting.{CanFill, CanPut};

use crate::faults::SqlFault;
use crate::laws::laws_of_growth;
use crate::tables::put_table;
use crate::writing::Written;
use chunk_store::{Draft, PutFault};
use constraint_scan::{first_violation_if, is_constrained_beside};
use index_keep::apply_with_indexes;
use schema_model::limits::MOST_ROWS;
use std::alloc::Global;
use table_root::{StoredTable, TableEntry};
use tuple_codec::{Address, Digester, Edit};

/// Edits the rows of the table of this name, with the lists of its indexes, and writes it into the database: the new database's address.
/// Whether the database keeps its constraints isn't looked at.
pub(crate) fn put_rows<D: Digester>(
    alloc: Global,
    draft: &mut Draft<D>,
    tables: Vec<TableEntry>,
    name: &[u8],
    table: StoredTable,
    edits: &[Edit],
) -> Result<Address, PutFault>
    requires { (database : PlainDatabase) × (contents : PlainTable) × (rows : List Cells) × CanPut D.address (chunks_of draft.old.chunks) tables.items table edits.now database contents rows }
    ensures stands { (database : PlainDatabase) (contents : PlainTable) (rows : List Cells) → CanPut D.address (chunks_of draft.old.chunks) tables.items table edits.now database contents rows
        → IfOk result (λ at. IsReadAt D.address (chunks_of draft.new.chunks) at.0 (replaced name.now (with_rows contents rows) database)) }
    ensures grows { Grows is_data draft.old draft.new }
    ensures cause { IfErr result (IsReason D.address (chunks_of draft.new.chunks)) }
{
    laws_of_growth();
    let made = apply_with_indexes(alloc, draft, table, edits)?;
    put_table(alloc, draft, tables, name, &made)
}

/// What a statement that wrote rows comes to: refused by the violations that it brings, which only constraints beside NOT NULL may have, then by the
/// number of rows that the table has.
fn judged<D: Digester>(
    alloc: Global,
    draft: &Draft<D>,
    old: &Address,
    new: Address,
    constrained: bool,
    rows: u64,
    count: u64,
) -> Result<Written, SqlFault>
    requires old { CanRead D.address (chunks_of draft.now.chunks) old.now.0 }
    requires new { (after : PlainDatabase) × IsReadAt D.address (chunks_of draft.now.chunks) new.0 after × (constrained ≡ has_constraints after) }
    ensures { (before after : PlainDatabase) → IsReadAt D.address (chunks_of draft.now.chunks) old.now.0 before → IsReadAt D.address (chunks_of draft.now.chunks) new.0 after
        → Makes D.address (chunks_of draft.now.chunks) result (effect_if (first_violation checks before after) (nat_lt most_rows rows) (record { database = after; count = Some count })) }
{
    match first_violation_if(alloc, draft, old, &new, constrained)? {
        Some(number) => Err(SqlFault::Refused(number)),
        None => {
            if rows > MOST_ROWS {
                return Err(SqlFault::Refused(9010));
            }
            Ok(Written {
                root: new,
                rows: count,
            })
        }
    }
}

/// Puts edited rows into the table of this name, in the database at an address. `rows` is how many the table has then, and `count` how many of
/// them were written.
pub(crate) fn fill_table<D: Digester>(
    alloc: Global,
    draft: &mut Draft<D>,
    database: &Address,
    tables: Vec<TableEntry>,
    name: &[u8],
    table: StoredTable,
    edits: &[Edit],
    rows: u64,
    count: u64,
) -> Result<Written, SqlFault>
    requires { (before : PlainDatabase) × (contents : PlainTable) × (after : List Cells)
        × CanFill D.address (chunks_of draft.old.chunks) database.now.0 tables.items table edits.now rows before contents after }
    ensures done { (before : PlainDatabase) (contents : PlainTable) (after : List Cells)
        → CanFill D.address (chunks_of draft.old.chunks) database.now.0 tables.items table edits.now rows before contents after
        → Makes D.address (chunks_of draft.new.chunks) result (filled checks before name.now contents count after) }
    ensures grows { Grows is_data draft.old draft.new }
{
    laws_of_growth();
    let constrained = is_constrained_beside(alloc, draft, tables.as_slice(), name, &table.schema)?;
    let new = put_rows(alloc, draft, tables, name, table, edits)?;
    judged(alloc, draft, database, new, constrained, rows, count)
}
