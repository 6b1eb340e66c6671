//! What a test names, of the primary keys or of an index, and the rows of it.

ghost use Rattle.std.specs.Prelude.{◌≡◌, Some, IfOk, filter};
ghost use Rattle.chunk_store.specs.Drafts.{chunks_of};
ghost use Rattle.schema_model.specs.PlainTables.{PlainTable};
ghost use Rattle.table_root.specs.Standing.{IsTableOf};
ghost use Rattle.sql_select.specs.Choosing.{IsSeekOf, is_wanted};
ghost use Rattle.sql_select.specs.Seeking.{Seeks};
ghost use Rattle.sql_select.specs.declared.choosing.Seek as seeks;

use crate::entries::{Entries, rows_entered, sought_entries};
use crate::span_reading::rows_in_span;
use crate::spans::KeySpan;
use crate::test_seeking::sought_keys;
use chunk_store::Draft;
use expr_eval::BoundExpr;
use schema_model::Schema;
use std::alloc::{AllocError, Global};
use table_root::StoredTable;
use tuple_codec::{Digester, Row, Sequence};

/// What is sought in place of all rows.
#[derive(Drop)]
pub enum Seek {
    Keys(KeySpan),
    Entries(Entries),
}

/// What a row has to be of to pass the test, where literals bound the primary key, or else fix all columns of an index. The test is
/// bound over the schema's own columns, each at its position.
pub fn sought(alloc: Global, schema: &Schema, test: &BoundExpr) -> Result<Option<Seek>, AllocError>
    ensures seeks { (seek : seeks.Seek) → IfOk result (λ found. found ≡ Some seek → Seeks schema.now test.now (is_wanted schema.now seek)) }
    ensures fits { (seek : seeks.Seek) → IfOk result (λ found. found ≡ Some seek → IsSeekOf schema.now seek) }
{
    match sought_keys(alloc, schema, test)? {
        Some(span) => Ok(Some(Seek::Keys(span))),
        None => entries_of(alloc, schema, test),
    }
}

fn entries_of(alloc: Global, schema: &Schema, test: &BoundExpr) -> Result<Option<Seek>, AllocError>
    ensures seeks { (seek : seeks.Seek) → IfOk result (λ found. found ≡ Some seek → Seeks schema.now test.now (is_wanted schema.now seek)) }
    ensures fits { (seek : seeks.Seek) → IfOk result (λ found. found ≡ Some seek → IsSeekOf schema.now seek) }
{
    match sought_entries(alloc, schema, test)? {
        Some(entries) => Ok(Some(Seek::Entries(entries))),
        None => Ok(None),
    }
}

/// The rows of a table that are sought, in the table's order.
pub fn rows_sought<D: Digester>(
    alloc: Global,
    draft: &Draft<D>,
    table: &StoredTable,
    seek: &Seek,
) -> Result<Sequence<Row>, AllocError>
    requires table { (contents : PlainTable) × IsTableOf D.address (chunks_of draft.now.chunks) table.now contents }
    requires seek { IsSeekOf table.now.schema seek.now }
    ensures { (contents : PlainTable) → IsTableOf D.address (chunks_of draft.now.chunks) table.now contents
        → IfOk result (λ rows. rows ≡ filter (is_wanted table.now.schema seek.now) contents.rows) }
{
    match seek {
        Seek::Keys(span) => rows_in_span(alloc, draft, table, span),
        Seek::Entries(entries) => rows_entered(alloc, draft, table, entries),
    }
}
