//! The rows whose primary keys lie in a span.

ghost use Rattle.std.specs.Prelude.{◌≡◌, true, IfOk, filter, length, ltb, slice_get, take};
ghost use Rattle.std.specs.List.{flat_map, list_all};
ghost use Rattle.chunk_store.specs.Drafts.{chunks_of};
ghost use Rattle.tuple_codec.specs.KeyBytes.{key_bytes};
ghost use Rattle.schema_model.specs.PlainTables.{PlainTable, kinds, primary_key};
ghost use Rattle.schema_model.specs.Schemas.{is_schema};
ghost use Rattle.table_root.specs.Standing.{IsTableOf};
ghost use Rattle.sql_select.specs.Seeking.{IsSpanOf, is_sought};
ghost use Rattle.sql_select.specs.Spans.{place_of, start_of};

use crate::spans::{KeySpan, place_of, start_of};
use chunk_store::Draft;
use prolly_tree::scan_from;
use schema_model::Schema;
use std::alloc::{AllocError, Global};
use std::cmp::Ordering;
use table_root::{StoredTable, row_of};
use tuple_codec::{
    Blob, Digester, Row, Sequence, SqlType, Value, encode_key, key_of, keys_keep_order,
};

/// The rows of a table whose primary keys lie in a span, in the table's order. Its tree is read from the first of them on, until
/// the first behind them.
pub(crate) fn rows_in_span<D: Digester>(
    alloc: Global,
    draft: &Draft<D>,
    table: &StoredTable,
    span: &KeySpan,
) -> Result<Sequence<Row>, AllocError>
    requires table { (contents : PlainTable) × IsTableOf D.address (chunks_of draft.now.chunks) table.now contents }
    requires span { IsSpanOf table.now.schema span.now }
    ensures { (contents : PlainTable) → IsTableOf D.address (chunks_of draft.now.chunks) table.now contents
        → IfOk result (λ rows. rows ≡ filter (is_sought table.now.schema span.now) contents.rows) }
{
    keys_keep_order();
    let start = start_bytes(alloc, &table.schema, span)?;
    let mut rows = Sequence::new(alloc);
    let mut scan = scan_from(alloc, draft, &table.rows, start.as_slice())?;
    'rows: while let Some((key, value)) = scan.next() {
        let row = row_of(alloc, &table.schema, key, value)?;
        match side_of_row(alloc, &table.schema, span, row.as_slice())? {
            Ordering::Less => {}
            Ordering::Equal => rows.push(row)?,
            Ordering::Greater => return Ok(rows),
        }
    }
    Ok(rows)
}

/// Where a row's primary key stands beside a span.
fn side_of_row(
    alloc: Global,
    schema: &Schema,
    span: &KeySpan,
    row: &[Value],
) -> Result<Ordering, AllocError>
    ensures { IfOk result (λ side. side ≡ place_of span.now.fixed span.now.low span.now.high (primary_key schema.now row.now)) }
{
    let key = key_of(alloc, schema.key.as_slice(), row)?;
    Ok(place_of(span.fixed.as_slice(), &span.low, &span.high, key.as_slice()))
}

/// The bytes of the cells with which a span begins.
fn start_bytes(alloc: Global, schema: &Schema, span: &KeySpan) -> Result<Blob, AllocError>
    requires schema { is_schema schema.now ≡ true }
    requires span { IsSpanOf schema.now span.now }
    ensures { IfOk result (λ bytes. bytes ≡ key_bytes (start_of span.now)) }
{
    let types = types_at(alloc, schema, schema.key.as_slice())?;
    let cells = start_of(alloc, span)?;
    encode_key(
        alloc,
        first_types(types.as_slice(), cells.as_slice().len()),
        &cells,
    )
}

/// So many of the first types.
fn first_types(types: &[SqlType], count: usize) -> &[SqlType]
    ensures { result.now ≡ take count types.now }
{
    match types.get(..count) {
        Some(first) => first,
        None => types,
    }
}

/// The types of the columns at these positions.
pub(crate) fn types_at(
    alloc: Global,
    schema: &Schema,
    positions: &[u8],
) -> Result<Vec<SqlType>, AllocError>
    requires { list_all (λ position. ltb position (length schema.now.columns)) positions.now ≡ true }
    ensures { IfOk result (λ types. types.items ≡ flat_map (λ position. kinds (slice_get schema.now.columns position)) positions.now) }
{
    let columns = schema.columns.as_slice();
    let mut types = Vec::new(alloc);
    for position in positions {
        types.push(columns[usize::from(*position)].kind)?;
    }
    Ok(types)
}
