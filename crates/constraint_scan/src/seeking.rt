//! Rows that have some cells in some columns, sought in a table's trees.

ghost use Rattle.std.specs.Prelude.{◌≡◌, true, Some, IfOk, slice_get};
ghost use Rattle.std.specs.List.{list_any};
ghost use Rattle.tuple_codec.specs.Rows.{key_of, same_cells};
ghost use Rattle.schema_model.specs.PlainTables.{PlainTable};
ghost use Rattle.schema_model.specs.declared.schemas.IndexDef as defs;
ghost use Rattle.chunk_store.specs.Drafts.{chunks_of};
ghost use Rattle.plain_writes.specs.Violations.{breaks_unique, is_whole, keys_at, keys_of_parent};
ghost use Rattle.table_root.specs.Standing.{IsTableOf};
ghost use Rattle.violation_lists.specs.Seeking.{sought};
ghost use Rattle.violation_lists.specs.Roots.{IsIndexedAt};

use crate::cells::{has_any, has_other, is_whole, places_of, sought, sought_of, types_at, widened};
use chunk_store::Draft;
use plain_writes::same_types;
use schema_model::{ForeignKey, IndexDef, Schema};
use std::alloc::{AllocError, Global};
use table_root::{StoredTable, read_rows};
use tuple_codec::{Address, Digester, Row, Sequence, Value, copy_row, key_of};
use violation_lists::{begins_another, begins_any, root_for, starts};

/// All rows of a table.
fn rows_of<D: Digester>(
    alloc: Global,
    draft: &Draft<D>,
    table: &StoredTable,
) -> Result<Sequence<Row>, AllocError>
    requires { (contents : PlainTable) × IsTableOf D.address (chunks_of draft.now.chunks) table.now contents }
    ensures { (contents : PlainTable) → IsTableOf D.address (chunks_of draft.now.chunks) table.now contents
        → IfOk result (λ rows. rows ≡ contents.rows) }
{
    read_rows(alloc, draft, &table.schema, &table.rows)
}

/// Whether a row of another primary key has the cells of this one there, none of which is NULL, by all rows.
fn is_repeated_in_rows<D: Digester>(
    alloc: Global,
    draft: &Draft<D>,
    table: &StoredTable,
    places: &[u8],
    row: &[Value],
) -> Result<bool, AllocError>
    requires { (contents : PlainTable) × IsTableOf D.address (chunks_of draft.now.chunks) table.now contents }
    ensures { (contents : PlainTable) → IsTableOf D.address (chunks_of draft.now.chunks) table.now contents
        → IfOk result (λ found. found ≡ breaks_unique contents.schema contents.rows places.now row.now) }
{
    let key = key_of(alloc, places, row)?;
    if !is_whole(key.as_slice()) {
        return Ok(false);
    }
    let own = key_of(alloc, table.schema.key.as_slice(), row)?;
    let key_places = widened(alloc, table.schema.key.as_slice())?;
    let wide = widened(alloc, places)?;
    let rows = rows_of(alloc, draft, table)?;
    Ok(has_other(
        own.as_slice(),
        key_places.as_slice(),
        key.as_slice(),
        wide.as_slice(),
        rows.as_slice(),
    ))
}

/// Whether some row has this key at these places, by all rows.
fn has_key_in_rows<D: Digester>(
    alloc: Global,
    draft: &Draft<D>,
    table: &StoredTable,
    places: &[usize],
    key: &[Value],
) -> Result<bool, AllocError>
    requires { (contents : PlainTable) × IsTableOf D.address (chunks_of draft.now.chunks) table.now contents }
    ensures { (contents : PlainTable) → IsTableOf D.address (chunks_of draft.now.chunks) table.now contents
        → IfOk result (λ found. found ≡ list_any (λ row. same_cells key.now (key_of places.now row)) contents.rows) }
{
    let rows = rows_of(alloc, draft, table)?;
    Ok(has_any(key, places, rows.as_slice()))
}

/// Whether some row has this key, whose bytes these are, at these places: by the rows' tree or an index's where these come first in its keys,
/// else by all rows.
fn has_key_by_bytes<D: Digester>(
    alloc: Global,
    draft: &Draft<D>,
    table: &StoredTable,
    places: &[usize],
    key: &[Value],
    bytes: &[u8],
) -> Result<bool, AllocError>
    requires table { (contents : PlainTable) × IsTableOf D.address (chunks_of draft.now.chunks) table.now contents }
    requires bytes { sought table.now.schema places.now key.now ≡ Some bytes.now }
    ensures { (contents : PlainTable) → IsTableOf D.address (chunks_of draft.now.chunks) table.now contents
        → IfOk result (λ found. found ≡ list_any (λ row. same_cells key.now (key_of places.now row)) contents.rows) }
{
    if starts(table.schema.key.as_slice(), places) {
        return begins_any(alloc, draft, &table.rows, bytes);
    }
    match root_for(
        table.schema.indexes.as_slice(),
        table.indexes.as_slice(),
        places,
    ) {
        Some(root) => begins_any(alloc, draft, root, bytes),
        None => has_key_in_rows(alloc, draft, table, places, key),
    }
}

/// Whether some row has this key at these places.
fn has_key<D: Digester>(
    alloc: Global,
    draft: &Draft<D>,
    table: &StoredTable,
    places: &[usize],
    key: &Row,
) -> Result<bool, AllocError>
    requires { (contents : PlainTable) × IsTableOf D.address (chunks_of draft.now.chunks) table.now contents }
    ensures { (contents : PlainTable) → IsTableOf D.address (chunks_of draft.now.chunks) table.now contents
        → IfOk result (λ found. found ≡ list_any (λ row. same_cells key.now (key_of places.now row)) contents.rows) }
{
    match sought(alloc, &table.schema, places, key)? {
        Some(bytes) => has_key_by_bytes(
            alloc,
            draft,
            table,
            places,
            key.as_slice(),
            bytes.as_slice(),
        ),
        None => has_key_in_rows(alloc, draft, table, places, key.as_slice()),
    }
}

/// The same of a row whose cells there aren't NULL, by the index's tree where the row fits its columns.
fn is_repeated_in_tree<D: Digester>(
    alloc: Global,
    draft: &Draft<D>,
    table: &StoredTable,
    index: &IndexDef,
    root: &Address,
    row: &[Value],
) -> Result<bool, AllocError>
    requires index { (contents : PlainTable) × IsIndexedAt D.address (chunks_of draft.now.chunks) table.now index.now root.now.0 contents }
    requires whole { is_whole (key_of index.now.columns row.now) ≡ true }
    ensures { (contents : PlainTable) → IsIndexedAt D.address (chunks_of draft.now.chunks) table.now index.now root.now.0 contents
        → IfOk result (λ found. found ≡ breaks_unique contents.schema contents.rows index.now.columns row.now) }
{
    let columns = index.columns.as_slice();
    let bytes = sought_of(alloc, &table.schema, columns, row)?;
    let own = sought_of(alloc, &table.schema, table.schema.key.as_slice(), row)?;
    match bytes {
        Some(bytes) => match own {
            Some(own) => begins_another(alloc, draft, root, bytes.as_slice(), own.as_slice()),
            None => is_repeated_in_rows(alloc, draft, table, columns, row),
        },
        None => is_repeated_in_rows(alloc, draft, table, columns, row),
    }
}

/// Whether a row of another primary key has the cells of this one in the index's columns, none of which is NULL.
fn is_repeated_in_index<D: Digester>(
    alloc: Global,
    draft: &Draft<D>,
    table: &StoredTable,
    index: &IndexDef,
    root: &Address,
    row: &[Value],
) -> Result<bool, AllocError>
    requires { (contents : PlainTable) × IsIndexedAt D.address (chunks_of draft.now.chunks) table.now index.now root.now.0 contents }
    ensures { (contents : PlainTable) → IsIndexedAt D.address (chunks_of draft.now.chunks) table.now index.now root.now.0 contents
        → IfOk result (λ found. found ≡ breaks_unique contents.schema contents.rows index.now.columns row.now) }
{
    let key = key_of(alloc, index.columns.as_slice(), row)?;
    if is_whole(key.as_slice()) {
        is_repeated_in_tree(alloc, draft, table, index, root, row)
    } else {
        Ok(false)
    }
}

/// Whether a row breaks the table's unique index at this place: whether a row of another primary key has the cells of this one in the
/// index's columns, none of which is NULL.
pub(crate) fn is_repeated<D: Digester>(
    alloc: Global,
    draft: &Draft<D>,
    table: &StoredTable,
    place: usize,
    row: &[Value],
) -> Result<bool, AllocError>
    requires { (contents : PlainTable) × IsTableOf D.address (chunks_of draft.now.chunks) table.now contents }
    ensures { (contents : PlainTable) (index : defs.IndexDef) → IsTableOf D.address (chunks_of draft.now.chunks) table.now contents → slice_get contents.schema.indexes place ≡ Some index
        → IfOk result (λ found. found ≡ breaks_unique contents.schema contents.rows index.columns row.now) }
{
    match table.schema.indexes.as_slice().get(place) {
        Some(index) => match table.indexes.as_slice().get(place) {
            Some(root) => is_repeated_in_index(alloc, draft, table, index, root, row),
            None => is_repeated_in_rows(alloc, draft, table, index.columns.as_slice(), row),
        },
        None => Ok(false),
    }
}

/// Whether a parent's row has this key in the columns at these places, which have the types of the foreign key's own.
fn has_parent_at<D: Digester>(
    alloc: Global,
    draft: &Draft<D>,
    parent: &StoredTable,
    schema: &Schema,
    foreign: &ForeignKey,
    places: &[usize],
    key: &Row,
) -> Result<bool, AllocError>
    requires { (contents : PlainTable) × IsTableOf D.address (chunks_of draft.now.chunks) parent.now contents }
    ensures { (contents : PlainTable) → IsTableOf D.address (chunks_of draft.now.chunks) parent.now contents
        → IfOk result (λ found. found ≡ list_any (same_cells key.now) (keys_at schema.now foreign.now contents places.now)) }
{
    let own = widened(alloc, foreign.columns.as_slice())?;
    let types = types_at(alloc, schema, own.as_slice())?;
    let parent_types = types_at(alloc, &parent.schema, places)?;
    if same_types(parent_types.as_slice(), types.as_slice()) {
        has_key(alloc, draft, parent, places, key)
    } else {
        Ok(false)
    }
}

/// Whether the parent table has this key in the columns that a foreign key names. It has none where a column isn't there, or is of another type.
pub(crate) fn has_parent_key<D: Digester>(
    alloc: Global,
    draft: &Draft<D>,
    parent: &StoredTable,
    schema: &Schema,
    foreign: &ForeignKey,
    key: &Row,
) -> Result<bool, AllocError>
    requires { (contents : PlainTable) × IsTableOf D.address (chunks_of draft.now.chunks) parent.now contents }
    ensures { (contents : PlainTable) → IsTableOf D.address (chunks_of draft.now.chunks) parent.now contents
        → IfOk result (λ found. found ≡ list_any (same_cells key.now) (keys_of_parent schema.now foreign.now contents)) }
{
    match places_of(alloc, &parent.schema, foreign.parent_columns.as_slice())? {
        Some(places) => has_parent_at(
            alloc,
            draft,
            parent,
            schema,
            foreign,
            places.as_slice(),
            key,
        ),
        None => Ok(false),
    }
}

/// Whether a row of the table that has the foreign key has this key in its columns.
pub(crate) fn has_child<D: Digester>(
    alloc: Global,
    draft: &Draft<D>,
    child: &StoredTable,
    foreign: &ForeignKey,
    key: &[Value],
) -> Result<bool, AllocError>
    requires { (contents : PlainTable) × IsTableOf D.address (chunks_of draft.now.chunks) child.now contents }
    ensures { (contents : PlainTable) → IsTableOf D.address (chunks_of draft.now.chunks) child.now contents
        → IfOk result (λ found. found ≡ list_any (λ row. same_cells key.now (key_of foreign.now.columns row)) contents.rows) }
{
    let places = widened(alloc, foreign.columns.as_slice())?;
    let cells = copy_row(alloc, key)?;
    has_key(alloc, draft, child, places.as_slice(), &cells)
}
