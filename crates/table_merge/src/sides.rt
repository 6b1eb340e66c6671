//! The rows of the tables that are merged, on the schema that theirs come to.

ghost use Rattle.std.specs.Prelude.{◌≡◌, IfOk, Option};
ghost use Rattle.std.specs.Option.{option_copied};
ghost use Rattle.chunk_store.specs.Drafts.{chunks_of};
ghost use Rattle.schema_model.specs.PlainTables.{PlainTable};
ghost use Rattle.schema_merge.specs.TableMerge.{rows_on, rows_on_or_none};
ghost use Rattle.table_merge.specs.Merging.{AreSides, IsSide, IsSidePerhaps, PlainSides};
ghost use Rattle.table_merge.specs.Steps.{AreRead};
ghost use Rattle.table_merge.specs.Walking.{keyed_rows};

use crate::keyed::{KeyedRow, keyed_rows};
use chunk_store::Draft;
use schema_model::Schema;
use std::alloc::{AllocError, Global};
use table_root::{StoredTable, read_rows};
use tuple_codec::Digester;

/// Rows of base, ours and theirs on one schema.
#[derive(Drop)]
pub(crate) struct Sides {
    pub base: Vec<KeyedRow>,
    pub ours: Vec<KeyedRow>,
    pub theirs: Vec<KeyedRow>,
}

/// Reads all rows of the tables.
pub(crate) fn read_sides<D: Digester>(
    alloc: Global,
    draft: &Draft<D>,
    base: Option<&StoredTable>,
    ours: &StoredTable,
    theirs: &StoredTable,
    schema: &Schema,
) -> Result<Sides, AllocError>
    requires { (contents : PlainSides) × AreSides D.address (chunks_of draft.now.chunks) (option_copied base) ours.now theirs.now contents }
    ensures { (contents : PlainSides) → AreSides D.address (chunks_of draft.now.chunks) (option_copied base.entry) ours.now theirs.now contents
        → IfOk result (AreRead schema.now contents) }
{
    Ok(Sides {
        base: rows_on_or_none(alloc, draft, base, schema)?,
        ours: rows_on(alloc, draft, ours, schema)?,
        theirs: rows_on(alloc, draft, theirs, schema)?,
    })
}

fn rows_on_or_none<D: Digester>(
    alloc: Global,
    draft: &Draft<D>,
    table: Option<&StoredTable>,
    schema: &Schema,
) -> Result<Vec<KeyedRow>, AllocError>
    requires { (contents : Option PlainTable) × IsSidePerhaps D.address (chunks_of draft.now.chunks) (option_copied table) contents }
    ensures { (contents : Option PlainTable) → IsSidePerhaps D.address (chunks_of draft.now.chunks) (option_copied table.entry) contents
        → IfOk result (λ rows. rows.items ≡ keyed_rows schema.now (rows_on_or_none schema.now contents)) }
{
    match table {
        Some(table) => rows_on(alloc, draft, table, schema),
        None => Ok(Vec::new(alloc)),
    }
}

/// A table's rows on the schema, beside their keys.
fn rows_on<D: Digester>(
    alloc: Global,
    draft: &Draft<D>,
    table: &StoredTable,
    schema: &Schema,
) -> Result<Vec<KeyedRow>, AllocError>
    requires { (contents : PlainTable) × IsSide D.address (chunks_of draft.now.chunks) table.now contents }
    ensures { (contents : PlainTable) → IsSide D.address (chunks_of draft.now.chunks) table.now contents
        → IfOk result (λ rows. rows.items ≡ keyed_rows schema.now (rows_on schema.now contents)) }
{
    let rows = read_rows(alloc, draft, &table.schema, &table.rows)?;
    keyed_rows(alloc, rows.as_slice(), &table.schema, schema)
}
