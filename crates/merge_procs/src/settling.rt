//! Tables that lose their conflicts and take theirs' rows.

ghost use Rattle.std.specs.Prelude.{◌++◌, IfErr, IfOk, OnOk};
ghost use Rattle.schema_model.specs.PlainTables as plain;
ghost use Rattle.schema_model.specs.PlainTables.{PlainDatabase, PlainTable};
ghost use Rattle.chunk_store.specs.Clashes.{IsReason};
ghost use Rattle.chunk_store.specs.Drafts.{Grows, chunks_of};
ghost use Rattle.chunk_store.specs.Kinds.{is_data, is_node};
ghost use Rattle.violation_lists.specs.Recording.{IsEntryOf};
ghost use Rattle.index_keep.specs.Keeping.{with_rows};
ghost use Rattle.table_root.specs.Standing.{AreThere, IsTableAt, IsTableOf};
ghost use Rattle.plain_sessions.specs.Merging.{database_after, rows_after, table_after};
ghost use Rattle.sql_procedures.specs.declared.requests.Side.TheVariants as side;
ghost use Rattle.merge_procs.specs.Resolving.{CanSettle, CanSettleEach, CanSettleNamed, CanTake, CanTakeSide, settled, without_conflicts};

use crate::takings::is_meant;
use chunk_store::{Draft, PutFault, law_of_growth};
use conflict_tables::theirs_edits;
use index_keep::apply_with_indexes;
use node_chunker::build;
use sql_procedures::{Resolution, Side};
use sql_write::laws_of_growth;
use std::alloc::Global;
use table_root::{StoredTable, TableEntry, law_of_row_items, read_table};
use tuple_codec::{Address, Digester, Sequence, Text, keys_are_one_spelling};
use violation_lists::keep_table;

/// The table with theirs' row, or none, at each conflict's key.
fn with_theirs<D: Digester>(
    alloc: Global,
    draft: &mut Draft<D>,
    table: StoredTable,
) -> Result<StoredTable, PutFault>
    requires { (contents : PlainTable) × CanTake D.address (chunks_of draft.old.chunks) table contents }
    ensures stands { (contents : PlainTable) → CanTake D.address (chunks_of draft.old.chunks) table contents
        → IfOk result (λ made. IsTableOf D.address (chunks_of draft.new.chunks) made (with_rows contents (rows_after side.Theirs contents))) }
    ensures grows { Grows is_node draft.old draft.new }
    ensures cause { IfErr result (IsReason D.address (chunks_of draft.new.chunks)) }
{
    law_of_row_items();
    keys_are_one_spelling();
    let edits = theirs_edits(alloc, draft, &table)?;
    apply_with_indexes(alloc, draft, table, edits.as_slice())
}

/// The table with the rows of a side.
fn with_side<D: Digester>(
    alloc: Global,
    draft: &mut Draft<D>,
    table: StoredTable,
    side: Side,
) -> Result<StoredTable, PutFault>
    requires { (contents : PlainTable) × CanTakeSide D.address (chunks_of draft.old.chunks) table side contents }
    ensures stands { (contents : PlainTable) → CanTakeSide D.address (chunks_of draft.old.chunks) table side contents
        → IfOk result (λ made. IsTableOf D.address (chunks_of draft.new.chunks) made (with_rows contents (rows_after side contents))) }
    ensures grows { Grows is_node draft.old draft.new }
    ensures cause { IfErr result (IsReason D.address (chunks_of draft.new.chunks)) }
{
    law_of_growth();
    match side {
        Side::Ours => Ok(table),
        Side::Theirs => with_theirs(alloc, draft, table),
    }
}

/// The table without its conflicts.
fn without_conflicts<D: Digester>(
    alloc: Global,
    draft: &mut Draft<D>,
    table: StoredTable,
) -> Result<StoredTable, PutFault>
    ensures stands { (contents : PlainTable) → IsTableOf D.address (chunks_of draft.old.chunks) table contents
        → IfOk result (λ made. IsTableOf D.address (chunks_of draft.new.chunks) made (without_conflicts contents)) }
    ensures grows { Grows is_node draft.old draft.new }
    ensures cause { IfErr result (IsReason D.address (chunks_of draft.new.chunks)) }
{
    laws_of_growth();
    let conflicts = build(alloc, draft, &[])?;
    Ok(StoredTable {
        schema: table.schema,
        rows: table.rows,
        indexes: table.indexes,
        conflicts,
        violations: table.violations,
    })
}

/// The trees of a table with the rows of a side, and without conflicts.
fn settled_value<D: Digester>(
    alloc: Global,
    draft: &mut Draft<D>,
    table: StoredTable,
    side: Side,
) -> Result<StoredTable, PutFault>
    requires { (contents : PlainTable) × CanTakeSide D.address (chunks_of draft.old.chunks) table side contents }
    ensures stands { (contents : PlainTable) → CanTakeSide D.address (chunks_of draft.old.chunks) table side contents
        → IfOk result (λ made. IsTableOf D.address (chunks_of draft.new.chunks) made (settled side contents)) }
    ensures grows { Grows is_node draft.old draft.new }
    ensures cause { IfErr result (IsReason D.address (chunks_of draft.new.chunks)) }
{
    law_of_growth();
    let taken = with_side(alloc, draft, table, side)?;
    without_conflicts(alloc, draft, taken)
}

/// The address of a table once it has the rows of a side, and no conflicts.
fn settled<D: Digester>(
    alloc: Global,
    draft: &mut Draft<D>,
    address: &Address,
    side: Side,
) -> Result<Address, PutFault>
    requires { (contents : PlainTable) × CanSettle D.address (chunks_of draft.old.chunks) address.now.0 side contents }
    ensures stands { (contents : PlainTable) → CanSettle D.address (chunks_of draft.old.chunks) address.now.0 side contents
        → IfOk result (λ at. IsTableAt D.address (chunks_of draft.new.chunks) at.0 (settled side contents)) }
    ensures grows { Grows is_data draft.old draft.new }
    ensures cause { IfErr result (IsReason D.address (chunks_of draft.new.chunks)) }
{
    laws_of_growth();
    let table = read_table(alloc, draft, address)?;
    let made = settled_value(alloc, draft, table, side)?;
    keep_table(alloc, draft, &made)
}

/// The address of a table after the call.
fn address_after<D: Digester>(
    alloc: Global,
    draft: &mut Draft<D>,
    entry: &TableEntry,
    request: &Resolution,
) -> Result<Address, PutFault>
    requires { (named : plain.NamedTable) × CanSettleNamed D.address (chunks_of draft.old.chunks) entry.now request.now named }
    ensures stands { (named : plain.NamedTable) → CanSettleNamed D.address (chunks_of draft.old.chunks) entry.now request.now named
        → IfOk result (λ at. IsTableAt D.address (chunks_of draft.new.chunks) at.0 (table_after request.now named).table) }
    ensures grows { Grows is_data draft.old draft.new }
    ensures cause { IfErr result (IsReason D.address (chunks_of draft.new.chunks)) }
{
    laws_of_growth();
    if is_meant(&request.tables, entry.name.as_slice()) {
        settled(alloc, draft, &entry.table, request.side)
    } else {
        Ok(entry.table)
    }
}

/// A table, by its name and its address, after the call.
fn entry_after<D: Digester>(
    alloc: Global,
    draft: &mut Draft<D>,
    entry: &TableEntry,
    request: &Resolution,
) -> Result<TableEntry, PutFault>
    requires { (named : plain.NamedTable) × CanSettleNamed D.address (chunks_of draft.old.chunks) entry.now request.now named }
    ensures stands { (named : plain.NamedTable) → CanSettleNamed D.address (chunks_of draft.old.chunks) entry.now request.now named
        → IfOk result (λ made. IsEntryOf D.address (chunks_of draft.new.chunks) made (table_after request.now named)) }
    ensures grows { Grows is_data draft.old draft.new }
    ensures cause { IfErr result (IsReason D.address (chunks_of draft.new.chunks)) }
{
    let table = address_after(alloc, draft, entry, request)?;
    Ok(TableEntry {
        name: Text::from_slice(alloc, entry.name.as_slice())?,
        table,
    })
}

/// Adds each of these tables as it stands after the call. There are few tables, so the calls don't go deep.
pub(crate) fn settle_each<D: Digester>(
    alloc: Global,
    draft: &mut Draft<D>,
    entries: &[TableEntry],
    request: &Resolution,
    made: &mut Sequence<TableEntry>,
) -> Result<(), PutFault>
    requires { (database : PlainDatabase) × CanSettleEach D.address (chunks_of draft.old.chunks) entries.now request.now database }
    ensures stands { (database : PlainDatabase) → CanSettleEach D.address (chunks_of draft.old.chunks) entries.now request.now database
        → (done : PlainDatabase) → AreThere D.address (chunks_of draft.old.chunks) done made.old
        → OnOk result (AreThere D.address (chunks_of draft.new.chunks) (done ++ database_after request.now database) made.new) }
    ensures grows { Grows is_data draft.old draft.new }
    ensures cause { IfErr result (IsReason D.address (chunks_of draft.new.chunks)) }
{
    laws_of_growth();
    if let [first, rest @ ..] = entries {
        made.push(entry_after(alloc, draft, first, request)?)?;
        return settle_each(alloc, draft, rest, request, made);
    }
    Ok(())
}
