//! Rows as edits in the order of their keys, and keys that stand twice.

ghost use Rattle.std.specs.Prelude.{◌≡◌, ◌||◌, List, IfOk, map, true};
ghost use Rattle.std.specs.List.{list_all};
ghost use Rattle.std.specs.Ordering.{is_lt};
ghost use Rattle.tuple_codec.specs.Nodes.{Item};
ghost use Rattle.schema_model.specs.PlainTables.{is_row, rises};
ghost use Rattle.schema_model.specs.Schemas.{is_schema};
ghost use Rattle.chunk_store.specs.Drafts.{chunks_of};
ghost use Rattle.chunk_store.specs.Standing.{IsTree};
ghost use Rattle.prolly_tree.specs.Lists.{StandsForRows};
ghost use Rattle.sql_write.specs.Inserting.{edit_of, edit_order, repeats_key};

use crate::differences::{put, put_all};
use chunk_store::Draft;
use prolly_tree::has_any;
use schema_model::Schema;
use std::alloc::{AllocError, Global};
use table_root::row_item;
use tuple_codec::{Address, Digester, Edit, Row};

/// The edit that puts a row.
pub(crate) fn edit_of(alloc: Global, schema: &Schema, row: &Row) -> Result<Edit, AllocError>
    requires schema { is_schema schema.now ≡ true }
    requires row { is_row schema.now row.now ≡ true }
    ensures { IfOk result (λ edit. edit ≡ edit_of schema.now row.now) }
{
    Ok(put(row_item(alloc, schema, row.as_slice())?))
}

/// The edits that put rows, in the rows' order.
pub(crate) fn edits_of(
    alloc: Global,
    schema: &Schema,
    rows: &[Row],
) -> Result<Vec<Edit>, AllocError>
    requires schema { is_schema schema.now ≡ true }
    requires rows { list_all (is_row schema.now) rows.now ≡ true }
    ensures { IfOk result (λ edits. edits.items ≡ map (edit_of schema.now) rows.now) }
{
    let mut edits = Vec::with_capacity(alloc, rows.len())?;
    put_all(alloc, schema, &mut edits, rows)?;
    Ok(edits)
}

/// Whether a key would stand twice where edits in order are put among the rows of a tree.
pub(crate) fn repeats_key<D: Digester>(draft: &Draft<D>, root: &Address, edits: &[Edit]) -> bool
    requires { StandsForRows D.address (chunks_of draft.now.chunks) root.now.0 }
    ensures { (items : List Item) → IsTree D.address (chunks_of draft.now.chunks) root.now.0 items → result ≡ repeats_key items edits.now }
{
    !keys_rise(edits) || has_any(draft, root, edits)
}

/// Whether each key comes after the one before it.
fn keys_rise(edits: &[Edit]) -> bool
    ensures { result ≡ rises edit_order edits.now }
{
    let mut left = edits;
    'pairs: while let [edit, rest @ ..] = left {
        if let [next, ..] = rest {
            if !comes_before(edit, next) {
                return false;
            }
        }
        left = rest;
    }
    true
}

fn comes_before(some: &Edit, other: &Edit) -> bool
    ensures { result ≡ is_lt (edit_order some.now other.now) }
{
    some.key.as_slice().cmp(other.key.as_slice()).is_lt()
}
