//! The rows of a table that a SELECT needs: where the WHERE of its only source bounds the primary key, or fixes an index, the rows within.

ghost use Rattle.std.specs.Prelude.{◌≡◌, Some, IfOk, map};
ghost use Rattle.chunk_store.specs.Drafts.{chunks_of};
ghost use Rattle.schema_model.specs.PlainTables.{PlainTable};
ghost use Rattle.table_root.specs.Standing.{IsTableOf};
ghost use Rattle.plain_sql.specs.Plans.{scope_column};
ghost use Rattle.sql_select.specs.Choosing.{IsSeekOf, is_wanted};
ghost use Rattle.sql_select.specs.declared.choosing.Seek as seeks;
ghost use Rattle.sql_select.specs.Seeks.{AreNeeded, SeeksBy, SeeksSource};
ghost use Rattle.sql_select.specs.Sources.{typed_column};

use crate::{Seek, rows_sought, sought};
use chunk_store::Draft;
use expr_eval::ScopeColumn;
use plain_sql::{Refused, condition};
use schema_model::{Column, Schema};
use sql_ast::{Expr, Query, TableSource};
use sql_text::source_name;
use std::alloc::{AllocError, Global};
use table_root::{StoredTable, read_rows};
use tuple_codec::{Digester, Row, Sequence, Text};

/// The rows of a table that the query needs.
pub(crate) fn rows_needed<D: Digester>(
    alloc: Global,
    draft: &Draft<D>,
    query: &Query,
    table: &StoredTable,
) -> Result<Sequence<Row>, AllocError>
    requires { (contents : PlainTable) × IsTableOf D.address (chunks_of draft.now.chunks) table.now contents }
    ensures { (contents : PlainTable) → IsTableOf D.address (chunks_of draft.now.chunks) table.now contents
        → IfOk result (λ read. AreNeeded query.now table.now.schema contents.rows read) }
{
    match seek_of(alloc, query, &table.schema)? {
        Some(seek) => rows_sought(alloc, draft, table, &seek),
        None => read_rows(alloc, draft, &table.schema, &table.rows),
    }
}

/// What the WHERE of the only source seeks. A WHERE that is refused is judged later, in its place.
fn seek_of(alloc: Global, query: &Query, schema: &Schema) -> Result<Option<Seek>, AllocError>
    ensures { (seek : seeks.Seek) → IfOk result (λ found. found ≡ Some seek → SeeksSource query.now schema.now (is_wanted schema.now seek) × IsSeekOf schema.now seek) }
{
    if !query.from.joins.as_slice().is_empty() {
        return Ok(None);
    }
    match &query.clauses.filter {
        Some(filter) => seek_by(alloc, &query.from.first, filter, schema),
        None => Ok(None),
    }
}

fn seek_by(
    alloc: Global,
    source: &TableSource,
    filter: &Expr,
    schema: &Schema,
) -> Result<Option<Seek>, AllocError>
    ensures { (seek : seeks.Seek) → IfOk result (λ found. found ≡ Some seek → SeeksBy source.now filter.now schema.now (is_wanted schema.now seek) × IsSeekOf schema.now seek) }
{
    let name = source_name(source).as_slice();
    let scope = scope_columns(alloc, name, schema.columns.as_slice())?;
    match condition(alloc, scope.as_slice(), filter) {
        Ok(test) => sought(alloc, schema, &test),
        Err(Refused::By(_)) => Ok(None),
        Err(Refused::Memory) => Err(AllocError),
    }
}

fn scope_columns(
    alloc: Global,
    source: &[u8],
    columns: &[Column],
) -> Result<Sequence<ScopeColumn>, AllocError>
    ensures { IfOk result (λ found. found ≡ map (scope_column source.now) (map typed_column columns.now)) }
{
    let mut found = Sequence::new(alloc);
    for column in columns {
        found.push(ScopeColumn {
            source: Text::from_slice(alloc, source)?,
            name: Text::from_slice(alloc, column.name.as_slice())?,
            kind: column.kind,
        })?;
    }
    Ok(found)
}
