//! Which rows of its table a statement reads.

ghost use Rattle.std.specs.Prelude.{◌≡◌, Some, IfOk, map};
ghost use Rattle.schema_model.specs.PlainTables.{PlainTable};
ghost use Rattle.chunk_store.specs.Drafts.{chunks_of};
ghost use Rattle.table_root.specs.Standing.{IsTableOf};
ghost use Rattle.plain_sql.specs.Plans.{meaning};
ghost use Rattle.sql_select.specs.Choosing.{IsSeekOf, is_wanted};
ghost use Rattle.sql_select.specs.declared.choosing.Seek as seeks;
ghost use Rattle.sql_write.specs.Changes.{AreToTurn, change_seen};
ghost use Rattle.sql_write.specs.Passing.{AreRead, LeavesOthers};

use crate::finding::Found;
use crate::turning::{BoundUpdate, sets_key};
use chunk_store::Draft;
use expr_eval::BoundExpr;
use schema_model::Schema;
use sql_select::{Seek, rows_sought, sought};
use std::alloc::{AllocError, Global};
use table_root::read_rows;
use tuple_codec::{Digester, Row, Sequence};

/// What the tests seek, where they leave out every other row.
fn seek_named(
    alloc: Global,
    schema: &Schema,
    tests: &[BoundExpr],
) -> Result<Option<Seek>, AllocError>
    ensures leaves { (seek : seeks.Seek) → IfOk result (λ found. found ≡ Some seek → LeavesOthers schema.now (map meaning tests.now) (is_wanted schema.now seek)) }
    ensures fits { (seek : seeks.Seek) → IfOk result (λ found. found ≡ Some seek → IsSeekOf schema.now seek) }
{
    match tests {
        [test] => sought(alloc, schema, test),
        _ => Ok(None),
    }
}

/// All rows of the table that was found.
pub(crate) fn rows_of<D: Digester>(
    alloc: Global,
    draft: &Draft<D>,
    found: &Found,
) -> Result<Sequence<Row>, AllocError>
    requires { (contents : PlainTable) × IsTableOf D.address (chunks_of draft.now.chunks) found.now.table contents }
    ensures { (contents : PlainTable) → IsTableOf D.address (chunks_of draft.now.chunks) found.now.table contents → IfOk result (λ rows. rows ≡ contents.rows) }
{
    read_rows(alloc, draft, &found.table.schema, &found.table.rows)
}

/// The rows of the table that was found which these tests may choose: those which they seek by the primary key or an index, or else all.
pub(crate) fn rows_to_test<D: Digester>(
    alloc: Global,
    draft: &Draft<D>,
    found: &Found,
    tests: &[BoundExpr],
) -> Result<Sequence<Row>, AllocError>
    requires { (contents : PlainTable) × IsTableOf D.address (chunks_of draft.now.chunks) found.now.table contents }
    ensures { (contents : PlainTable) → IsTableOf D.address (chunks_of draft.now.chunks) found.now.table contents
        → IfOk result (λ rows. AreRead (map meaning tests.now) contents.rows rows) }
{
    match seek_named(alloc, &found.table.schema, tests)? {
        Some(seek) => rows_sought(alloc, draft, &found.table, &seek),
        None => rows_of(alloc, draft, found),
    }
}

/// The rows of the table that was found which an UPDATE may change: all, where it sets a column of the primary key, so that rows may change
/// their places.
pub(crate) fn rows_to_turn<D: Digester>(
    alloc: Global,
    draft: &Draft<D>,
    found: &Found,
    change: &BoundUpdate,
) -> Result<Sequence<Row>, AllocError>
    requires { (contents : PlainTable) × IsTableOf D.address (chunks_of draft.now.chunks) found.now.table contents }
    ensures { (contents : PlainTable) → IsTableOf D.address (chunks_of draft.now.chunks) found.now.table contents
        → IfOk result (λ rows. AreToTurn found.now.table.schema (change_seen change.now) contents.rows rows) }
{
    if sets_key(&found.table.schema, change.settings.as_slice()) {
        return rows_of(alloc, draft, found);
    }
    rows_to_test(alloc, draft, found, change.tests.as_slice())
}
