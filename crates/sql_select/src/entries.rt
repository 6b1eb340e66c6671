//! Rows that a test names by the columns of an index.

ghost use Rattle.std.specs.Prelude.{◌≡◌, true, Some, IfOk, filter, length, ltb, option_map, slice_get};
ghost use Rattle.std.specs.List.{AllZip, list_all};
ghost use Rattle.chunk_store.specs.Drafts.{chunks_of};
ghost use Rattle.sql_ast.specs.declared.expressions.Comparison.TheVariants as op;
ghost use Rattle.tuple_codec.specs.KeyBytes.{key_bytes};
ghost use Rattle.tuple_codec.specs.Rows.{Cells, fits_all};
ghost use Rattle.schema_model.specs.PlainTables.{PlainTable};
ghost use Rattle.schema_model.specs.Schemas.{is_schema};
ghost use Rattle.schema_model.specs.declared.schemas.IndexDef as defs;
ghost use Rattle.plain_writes.specs.Violations.{types_at};
ghost use Rattle.table_root.specs.Standing.{IsTableOf};
ghost use Rattle.violation_lists.specs.Roots.{IsIndexedAt};
ghost use Rattle.sql_select.specs.Entries.{AreEntriesOf, IsUnder, behind, has_cells, is_entered};
ghost use Rattle.sql_select.specs.Parts.{AreEntriesIn, IsFixed};
ghost use Rattle.sql_select.specs.Seeking.{Seeks};
ghost use Rattle.sql_select.specs.declared.entries.Entries as sets;

use crate::naming::fixed_value;
use crate::span_reading::types_at;
use crate::steady::{are_steady, is_steady};
use chunk_store::Draft;
use expr_eval::{BoundExpr, BoundNode};
use prolly_tree::{get, scan_from};
use schema_model::{IndexDef, Schema};
use sql_ast::Comparison;
use std::alloc::{AllocError, Global};
use table_root::{StoredTable, row_of};
use tuple_codec::{Address, Blob, Digester, Row, Sequence, encode_key, keys_keep_order};

/// The entries that have these cells, of the schema's index at a place.
#[derive(Drop)]
pub struct Entries {
    pub place: usize,
    pub cells: Row,
}

/// The entries among which a row's has to be for the row to pass the test, where literals fix all columns of an index. The test is
/// bound over the schema's own columns, each at its position.
pub(crate) fn sought_entries(
    alloc: Global,
    schema: &Schema,
    test: &BoundExpr,
) -> Result<Option<Entries>, AllocError>
    ensures seeks { (entries : sets.Entries) → IfOk result (λ found. found ≡ Some entries → Seeks schema.now test.now (is_entered schema.now entries)) }
    ensures fits { (entries : sets.Entries) → IfOk result (λ found. found ≡ Some entries → AreEntriesOf schema.now entries) }
{
    match &test.node {
        BoundNode::And(first, rest) => entries_in(alloc, schema, first.get(), rest.as_slice()),
        _ => entries_in(alloc, schema, &test.node, &[]),
    }
}

/// The entries that these parts tell, where all of them are steady.
fn entries_in(
    alloc: Global,
    schema: &Schema,
    first: &BoundNode,
    rest: &[BoundNode],
) -> Result<Option<Entries>, AllocError>
    ensures { (entries : sets.Entries) → IfOk result (λ found. found ≡ Some entries → AreEntriesIn schema.now first.now rest.now entries) }
{
    if !is_steady(first) {
        return Ok(None);
    }
    if !are_steady(rest) {
        return Ok(None);
    }
    told_entries(alloc, schema, first, rest)
}

fn told_entries(
    alloc: Global,
    schema: &Schema,
    first: &BoundNode,
    rest: &[BoundNode],
) -> Result<Option<Entries>, AllocError>
    ensures { (entries : sets.Entries) → IfOk result (λ found. found ≡ Some entries
        → (index : defs.IndexDef) × (slice_get schema.now.indexes entries.place ≡ Some index) × AllZip (IsFixed schema.now first.now rest.now op.Equal) index.columns entries.cells) }
{
    for (place, index) in schema.indexes.as_slice().iter().enumerate() {
        match fixed_cells(alloc, schema, index.columns.as_slice(), first, rest)? {
            Some(cells) => return Ok(Some(Entries { place, cells })),
            None => {}
        }
    }
    Ok(None)
}

/// The cells that these parts fix for the columns at these places.
fn fixed_cells(
    alloc: Global,
    schema: &Schema,
    places: &[u8],
    first: &BoundNode,
    rest: &[BoundNode],
) -> Result<Option<Row>, AllocError>
    ensures { (cells : Cells) → IfOk result (λ found. found ≡ Some cells → AllZip (IsFixed schema.now first.now rest.now op.Equal) places.now cells) }
{
    let mut cells = Row::new(alloc);
    for place in places {
        match fixed_value(
            alloc,
            schema,
            usize::from(*place),
            Comparison::Equal,
            first,
            rest,
        )? {
            Some(value) => cells.push(value)?,
            None => return Ok(None),
        }
    }
    Ok(Some(cells))
}

/// The rows of a table that have entries among these, in the table's order. The index's tree is read from the first of them on, and
/// each row by its primary key.
pub(crate) fn rows_entered<D: Digester>(
    alloc: Global,
    draft: &Draft<D>,
    table: &StoredTable,
    entries: &Entries,
) -> Result<Sequence<Row>, AllocError>
    requires table { (contents : PlainTable) × IsTableOf D.address (chunks_of draft.now.chunks) table.now contents }
    requires entries { AreEntriesOf table.now.schema entries.now }
    ensures { (contents : PlainTable) → IsTableOf D.address (chunks_of draft.now.chunks) table.now contents
        → IfOk result (λ rows. rows ≡ filter (is_entered table.now.schema entries.now) contents.rows) }
{
    match table.indexes.as_slice().get(entries.place) {
        Some(root) => match table.schema.indexes.as_slice().get(entries.place) {
            Some(index) => rows_by_index(alloc, draft, table, index, root, &entries.cells),
            None => unreachable!(),
        },
        None => unreachable!(),
    }
}

fn rows_by_index<D: Digester>(
    alloc: Global,
    draft: &Draft<D>,
    table: &StoredTable,
    index: &IndexDef,
    root: &Address,
    cells: &Row,
) -> Result<Sequence<Row>, AllocError>
    requires index { (contents : PlainTable) × IsIndexedAt D.address (chunks_of draft.now.chunks) table.now index.now root.now.0 contents }
    requires places { list_all (λ position. ltb position (length table.now.schema.columns)) index.now.columns ≡ true }
    requires fits { fits_all (types_at table.now.schema index.now.columns) cells.now ≡ true }
    ensures { (contents : PlainTable) → IsIndexedAt D.address (chunks_of draft.now.chunks) table.now index.now root.now.0 contents
        → IfOk result (λ rows. rows ≡ filter (has_cells index.now.columns cells.now) contents.rows) }
{
    keys_keep_order();
    let prefix = index_bytes(alloc, &table.schema, index, cells)?;
    let mut rows = Sequence::new(alloc);
    let mut scan = scan_from(alloc, draft, root, prefix.as_slice())?;
    'entries: while let Some((key, _)) = scan.next() {
        match behind(prefix.as_slice(), key) {
            Some(own) => rows.push(row_under(alloc, draft, table, own)?)?,
            None => return Ok(rows),
        }
    }
    Ok(rows)
}

/// What stands behind these bytes in a key that begins with them.
fn behind<'a>(prefix: &[u8], key: &'a [u8]) -> Option<&'a [u8]>
    ensures { option_map (λ own. own.now) result ≡ behind prefix.now key.now }
{
    if key.starts_with(prefix) {
        Some(&key[prefix.len()..])
    } else {
        None
    }
}

/// The row whose primary key has these bytes.
fn row_under<D: Digester>(
    alloc: Global,
    draft: &Draft<D>,
    table: &StoredTable,
    bytes: &[u8],
) -> Result<Row, AllocError>
    requires { (contents : PlainTable) × (row : Cells) × IsTableOf D.address (chunks_of draft.now.chunks) table.now contents × IsUnder table.now.schema contents.rows bytes.now row }
    ensures { (contents : PlainTable) (row : Cells) → IsTableOf D.address (chunks_of draft.now.chunks) table.now contents → IsUnder table.now.schema contents.rows bytes.now row
        → IfOk result (λ read. read ≡ row) }
{
    keys_keep_order();
    match get(draft, &table.rows, bytes) {
        Some(value) => row_of(alloc, &table.schema, bytes, value),
        None => unreachable!(),
    }
}

/// The bytes of cells in the columns of an index.
fn index_bytes(
    alloc: Global,
    schema: &Schema,
    index: &IndexDef,
    cells: &Row,
) -> Result<Blob, AllocError>
    requires schema { is_schema schema.now ≡ true }
    requires places { list_all (λ position. ltb position (length schema.now.columns)) index.now.columns ≡ true }
    requires fits { fits_all (types_at schema.now index.now.columns) cells.now ≡ true }
    ensures { IfOk result (λ bytes. bytes ≡ key_bytes cells.now) }
{
    let types = types_at(alloc, schema, index.columns.as_slice())?;
    encode_key(alloc, types.as_slice(), cells)
}
