//! Violations recorded in the lists of a database's tables.

ghost use Rattle.std.specs.Prelude.{◌≡◌, ◌==◌, ◌++◌, [], ◌∷◌, IfErr, IfOk, List, OnOk, length, map, true};
ghost use Rattle.std.specs.List.{list_all, list_any};
ghost use Rattle.tuple_codec.specs.KeyBytes.{key_cell};
ghost use Rattle.tuple_codec.specs.Nodes.{Item};
ghost use Rattle.tuple_codec.specs.declared.values.Value.TheVariants as cell;
ghost use Rattle.node_format.specs.Views.{leaf_of};
ghost use Rattle.schema_model.specs.PlainTables as plain;
ghost use Rattle.schema_model.specs.PlainTables.{PlainDatabase, PlainTable};
ghost use Rattle.schema_model.specs.Schemas.{is_name};
ghost use Rattle.chunk_store.specs.Clashes.{IsReason};
ghost use Rattle.chunk_store.specs.Drafts.{Grows, chunks_of};
ghost use Rattle.chunk_store.specs.Kinds.{is_data};
ghost use Rattle.chunk_store.specs.Standing.{IsTree};
ghost use Rattle.table_root.specs.Standing.{AreThere, IsTableAt};
ghost use Rattle.plain_writes.specs.Violations.{Found};
ghost use Rattle.table_root.specs.Kept.{IsKeptAt};
ghost use Rattle.violation_lists.specs.Recording.{AreRising, CanRecord, CanRecordEach, CanRecordTable, IsEntryOf, MayBeWritten, MayStand, has_name, is_listed, listed_if, listed_item, listed_items, recorded_as, with_list};

use crate::laws::laws_of_growth;
use crate::listing::ListedViolation;
use chunk_store::{Draft, PutFault};
use node_chunker::build;
use node_format::LeafItem;
use prolly_tree::count;
use std::alloc::{AllocError, Global};
use table_root::{StoredTable, TableEntry, read_database, read_table, write_database, write_table};
use tuple_codec::{
    Address, Blob, Digester, Sequence, SqlType, Text, Value, encode_key, keys_keep_order,
};

/// A constraint's name as a cell of a key.
fn name_key(alloc: Global, name: &[u8]) -> Result<Blob, AllocError>
    requires { is_name name.now ≡ true }
    ensures { IfOk result (λ bytes. bytes ≡ key_cell (cell.Text name.now)) }
{
    let mut cells = Sequence::new(alloc);
    cells.push(Value::Text(Text::from_slice(alloc, name)?))?;
    encode_key(alloc, &[SqlType::Varchar(255)], &cells)
}

fn listed_key(alloc: Global, one: &ListedViolation) -> Result<Blob, AllocError>
    requires { has_name one.now ≡ true }
    ensures { IfOk result (λ bytes. bytes ≡ one.now.kind ∷ (key_cell (cell.Text one.now.constraint) ++ one.now.key)) }
{
    let name = name_key(alloc, one.constraint.as_slice())?;
    let mut bytes = Vec::new(alloc);
    bytes.push(one.kind)?;
    bytes.extend_from_slice(name.as_slice())?;
    bytes.extend_from_slice(one.key.as_slice())?;
    Ok(Blob::from_vec(bytes))
}

/// The item of a violation in its table's list.
fn listed_item(alloc: Global, one: &ListedViolation) -> Result<LeafItem, AllocError>
    requires { has_name one.now ≡ true }
    ensures { IfOk result (λ item. leaf_of item ≡ listed_item one.now) }
{
    Ok(LeafItem {
        key: listed_key(alloc, one)?,
        value: Blob::from_vec(Vec::from_slice(alloc, one.row.as_slice())?),
    })
}

/// Adds the item of a violation, if it is one of the table of this name.
fn push_listed(
    alloc: Global,
    name: &[u8],
    one: &ListedViolation,
    items: &mut Vec<LeafItem>,
) -> Result<(), AllocError>
    requires { has_name one.now ≡ true }
    ensures { OnOk result (map leaf_of items.new.items ≡ map leaf_of items.old.items ++ listed_if name.now one.now) }
{
    if one.table.as_slice() == name {
        items.push(listed_item(alloc, one)?)?;
    }
    Ok(())
}

/// The items of the violations of the table of this name.
fn listed_items(
    alloc: Global,
    name: &[u8],
    list: &[ListedViolation],
) -> Result<Vec<LeafItem>, AllocError>
    requires { list_all has_name list.now ≡ true }
    ensures { IfOk result (λ items. map leaf_of items.items ≡ listed_items name.now list.now) }
{
    let mut items = Vec::new(alloc);
    for one in list {
        push_listed(alloc, name, one, &mut items)?;
    }
    Ok(items)
}

/// Builds the list of the violations of the table of this name: its tree's root.
fn build_list<D: Digester>(
    alloc: Global,
    draft: &mut Draft<D>,
    name: &[u8],
    list: &[ListedViolation],
) -> Result<Address, PutFault>
    requires names { list_all has_name list.now ≡ true }
    requires rising { AreRising (listed_items name.now list.now) }
    ensures stands { IfOk result (λ root. IsTree D.address (chunks_of draft.new.chunks) root.0 (listed_items name.now list.now)) }
    ensures grows { Grows is_data draft.old draft.new }
    ensures cause { IfErr result (IsReason D.address (chunks_of draft.new.chunks)) }
{
    laws_of_growth();
    let items = listed_items(alloc, name, list)?;
    let root = build(alloc, draft, items.as_slice())?;
    Ok(root)
}

/// Writes a table whose trees stand in the draft already, in no database: its address.
pub fn keep_table<D: Digester>(
    alloc: Global,
    draft: &mut Draft<D>,
    table: &StoredTable,
) -> Result<Address, PutFault>
    requires { (contents : PlainTable) × MayStand D.address (chunks_of draft.old.chunks) table.now contents }
    ensures stands { (contents : PlainTable) → MayStand D.address (chunks_of draft.old.chunks) table.now contents
        → IfOk result (λ at. IsTableAt D.address (chunks_of draft.new.chunks) at.0 contents) }
    ensures grows { Grows is_data draft.old draft.new }
    ensures cause { IfErr result (IsReason D.address (chunks_of draft.new.chunks)) }
{
    laws_of_growth();
    let at = write_table(alloc, draft, table)?;
    Ok(at)
}

/// Writes a database of these tables, which stand.
fn keep_database<D: Digester>(
    alloc: Global,
    draft: &mut Draft<D>,
    tables: &[TableEntry],
) -> Result<Address, PutFault>
    requires { (database : PlainDatabase) × MayBeWritten D.address (chunks_of draft.old.chunks) tables.now database }
    ensures stands { (database : PlainDatabase) → MayBeWritten D.address (chunks_of draft.old.chunks) tables.now database
        → IfOk result (λ at. IsKeptAt D.address (chunks_of draft.new.chunks) at.0 database) }
    ensures grows { Grows is_data draft.old draft.new }
    ensures cause { IfErr result (IsReason D.address (chunks_of draft.new.chunks)) }
{
    laws_of_growth();
    let at = write_database(alloc, draft, tables)?;
    Ok(at)
}

/// Whether the list has a violation of the table of this name.
fn is_listed(name: &[u8], list: &[ListedViolation]) -> bool
    ensures { result ≡ list_any (is_listed name.now) list.now }
{
    list.iter().any(|one| one.table.as_slice() == name)
}

/// Whether a tree has no rows.
fn is_empty<D: Digester>(draft: &Draft<D>, root: &Address) -> bool
    requires { (rows : List Item) × IsTree D.address (chunks_of draft.now.chunks) root.now.0 rows }
    ensures { (rows : List Item) → IsTree D.address (chunks_of draft.now.chunks) root.now.0 rows → result ≡ (length rows == 0) }
{
    count(draft, root) == 0
}

/// Puts the list's violations of the table of this name in place of those that it has recorded: the table's new address. A table that the list
/// doesn't name and that has recorded none keeps its address.
fn record_table<D: Digester>(
    alloc: Global,
    draft: &mut Draft<D>,
    address: &Address,
    name: &[u8],
    list: &[ListedViolation],
) -> Result<Address, PutFault>
    requires { (contents : PlainTable) × (found : List plain.Violation) × CanRecordTable D.address (chunks_of draft.old.chunks) address.now.0 name.now list.now contents found }
    ensures stands { (contents : PlainTable) (found : List plain.Violation)
        → CanRecordTable D.address (chunks_of draft.old.chunks) address.now.0 name.now list.now contents found
        → IfOk result (λ at. IsTableAt D.address (chunks_of draft.new.chunks) at.0 (with_list contents found)) }
    ensures grows { Grows is_data draft.old draft.new }
    ensures cause { IfErr result (IsReason D.address (chunks_of draft.new.chunks)) }
{
    laws_of_growth();
    keys_keep_order();
    let table = read_table(alloc, draft, address)?;
    if !is_listed(name, list) && is_empty(draft, &table.violations) {
        return Ok(*address);
    }
    let violations = build_list(alloc, draft, name, list)?;
    let recorded = StoredTable {
        schema: table.schema,
        rows: table.rows,
        indexes: table.indexes,
        conflicts: table.conflicts,
        violations,
    };
    keep_table(alloc, draft, &recorded)
}

/// A table, by its name and its address, once it has recorded the list's violations of it.
fn record_named<D: Digester>(
    alloc: Global,
    draft: &mut Draft<D>,
    entry: &TableEntry,
    list: &[ListedViolation],
) -> Result<TableEntry, PutFault>
    requires { (contents : PlainTable) × (found : List plain.Violation) × CanRecordTable D.address (chunks_of draft.old.chunks) entry.now.table.0 entry.now.name list.now contents found }
    ensures stands { (contents : PlainTable) (found : List plain.Violation)
        → CanRecordTable D.address (chunks_of draft.old.chunks) entry.now.table.0 entry.now.name list.now contents found
        → IfOk result (λ made. IsEntryOf D.address (chunks_of draft.new.chunks) made (record { name = entry.now.name; table = with_list contents found })) }
    ensures grows { Grows is_data draft.old draft.new }
    ensures cause { IfErr result (IsReason D.address (chunks_of draft.new.chunks)) }
{
    let name = entry.name.as_slice();
    let table = record_table(alloc, draft, &entry.table, name, list)?;
    Ok(TableEntry {
        name: Text::from_slice(alloc, name)?,
        table,
    })
}

/// Records the violations of each of these tables, and adds them as they stand then. There are few tables, so the calls don't go deep.
fn record_each<D: Digester>(
    alloc: Global,
    draft: &mut Draft<D>,
    entries: &[TableEntry],
    list: &[ListedViolation],
    made: &mut Sequence<TableEntry>,
) -> Result<(), PutFault>
    requires { (database : PlainDatabase) × (found : List Found) × CanRecordEach D.address (chunks_of draft.old.chunks) entries.now list.now database found }
    ensures stands { (database : PlainDatabase) (found : List Found) → CanRecordEach D.address (chunks_of draft.old.chunks) entries.now list.now database found
        → (done : PlainDatabase) → AreThere D.address (chunks_of draft.old.chunks) done made.old
        → OnOk result (AreThere D.address (chunks_of draft.new.chunks) (done ++ recorded_as found database) made.new) }
    ensures grows { Grows is_data draft.old draft.new }
    ensures cause { IfErr result (IsReason D.address (chunks_of draft.new.chunks)) }
{
    laws_of_growth();
    if let [first, rest @ ..] = entries {
        made.push(record_named(alloc, draft, first, list)?)?;
        return record_each(alloc, draft, rest, list, made);
    }
    Ok(())
}

/// Puts, for each table of the database at an address, the list's violations of it in place of those that it has recorded: the new
/// database's address. Of the tables' rows nothing is read, and a table that had recorded the same keeps its address.
pub fn record_violations<D: Digester>(
    alloc: Global,
    draft: &mut Draft<D>,
    database: &Address,
    list: &[ListedViolation],
) -> Result<Address, PutFault>
    requires { (contents : PlainDatabase) × (found : List Found) × CanRecord D.address (chunks_of draft.old.chunks) database.now.0 list.now contents found }
    ensures stands { (contents : PlainDatabase) (found : List Found) → CanRecord D.address (chunks_of draft.old.chunks) database.now.0 list.now contents found
        → IfOk result (λ at. IsKeptAt D.address (chunks_of draft.new.chunks) at.0 (recorded_as found contents)) }
    ensures grows { Grows is_data draft.old draft.new }
    ensures cause { IfErr result (IsReason D.address (chunks_of draft.new.chunks)) }
{
    laws_of_growth();
    let entries = read_database(alloc, draft, database)?;
    let mut made = Sequence::new(alloc);
    record_each(alloc, draft, entries.as_slice(), list, &mut made)?;
    keep_database(alloc, draft, made.as_slice())
}
