//! The trees of a table's indexes: made anew, and edited.

ghost use Rattle.std.specs.Prelude.{◌≡◌, ◌++◌, ℕ, List, [], IfOk, IfErr, OnOk};
ghost use Rattle.tuple_codec.specs.Rows.{Cells};
ghost use Rattle.schema_model.specs.PlainTables.{index_items};
ghost use Rattle.schema_model.specs.declared.schemas.IndexDef.{IndexDef};
ghost use Rattle.schema_model.specs.declared.schemas.Schema.{Schema};
ghost use Rattle.chunk_store.specs.Clashes.{IsReason};
ghost use Rattle.chunk_store.specs.Drafts.{Grows, chunks_of};
ghost use Rattle.chunk_store.specs.Kinds.{is_node};
ghost use Rattle.chunk_store.specs.Standing.{IsTree};
ghost use Rattle.index_keep.specs.Keeping.{AreIndexes, CanIndex, table_of_rows};
ghost use Rattle.index_keep.specs.Steps.{CanEditIndex, CanEditIndexes, StandAt};

use crate::changes::{RowChange, new_rows};
use crate::entries::edits_of_changes;
use chunk_store::{Draft, PutFault};
use node_chunker::build;
use prolly_edit::apply;
use schema_model::{IndexDef, Schema};
use std::alloc::Global;
use table_root::read_rows;
use tuple_codec::{Address, Digester, Sequence, keys_are_one_spelling};

/// Makes the lists of a table's indexes: the roots of their trees, one for each of the schema's indexes, in their order.
///
/// `rows` is the root of the tree of the table's rows. They are read once.
pub fn indexes_of<D: Digester>(
    alloc: Global,
    draft: &mut Draft<D>,
    schema: &Schema,
    rows: &Address,
) -> Result<Vec<Address>, PutFault>
    requires { (contents : List Cells) × CanIndex D.address (chunks_of draft.old.chunks) rows.now.0 schema.now contents }
    ensures ok { (contents : List Cells) → CanIndex D.address (chunks_of draft.old.chunks) rows.now.0 schema.now contents
        → IfOk result (λ roots. AreIndexes D.address (chunks_of draft.new.chunks) (table_of_rows schema.now contents) roots.items) }
    ensures grows { Grows is_node draft.old draft.new }
    ensures cause { IfErr result (IsReason D.address (chunks_of draft.new.chunks)) }
{
    let read = read_rows(alloc, draft, schema, rows)?;
    let changes = new_rows(alloc, read)?;
    let empty = empty_roots(alloc, draft, schema.indexes.as_slice())?;
    let roots = edit_indexes(alloc, draft, schema, empty.as_slice(), changes.as_slice())?;
    Ok(roots.into_vec())
}

/// The root of the empty list, once for each index.
fn empty_roots<D: Digester>(
    alloc: Global,
    draft: &mut Draft<D>,
    indexes: &[IndexDef],
) -> Result<Sequence<Address>, PutFault>
    ensures ok { (schema : Schema) → IfOk result (λ roots. StandAt D.address (chunks_of draft.new.chunks) schema [] indexes.now roots) }
    ensures grows { Grows is_node draft.old draft.new }
    ensures cause { IfErr result (IsReason D.address (chunks_of draft.new.chunks)) }
{
    let empty = build(alloc, draft, &[])?;
    let mut roots = Sequence::new(alloc);
    for _index in indexes {
        roots.push(empty)?;
    }
    Ok(roots)
}

/// Edits the tree of each index by what becomes of rows: the new roots.
pub(crate) fn edit_indexes<D: Digester>(
    alloc: Global,
    draft: &mut Draft<D>,
    schema: &Schema,
    roots: &[Address],
    changes: &[RowChange],
) -> Result<Sequence<Address>, PutFault>
    requires { (rows : List Cells) × (others : List Cells) × (keys : List (List ℕ)) × CanEditIndexes D.address (chunks_of draft.old.chunks) schema.now schema.now.indexes roots.now changes.now rows others keys }
    ensures ok { (rows others : List Cells) (keys : List (List ℕ)) → CanEditIndexes D.address (chunks_of draft.old.chunks) schema.now schema.now.indexes roots.now changes.now rows others keys
        → IfOk result (λ made. StandAt D.address (chunks_of draft.new.chunks) schema.now others schema.now.indexes made) }
    ensures grows { Grows is_node draft.old draft.new }
    ensures cause { IfErr result (IsReason D.address (chunks_of draft.new.chunks)) }
{
    let mut made = Sequence::new(alloc);
    edit_each(
        alloc,
        draft,
        schema,
        schema.indexes.as_slice(),
        roots,
        changes,
        &mut made,
    )?;
    Ok(made)
}

/// Edits the trees of these indexes, which stand at these roots, and adds their new roots.
fn edit_each<D: Digester>(
    alloc: Global,
    draft: &mut Draft<D>,
    schema: &Schema,
    indexes: &[IndexDef],
    roots: &[Address],
    changes: &[RowChange],
    made: &mut Sequence<Address>,
) -> Result<(), PutFault>
    requires { (rows : List Cells) × (others : List Cells) × (keys : List (List ℕ)) × CanEditIndexes D.address (chunks_of draft.old.chunks) schema.now indexes.now roots.now changes.now rows others keys }
    ensures ok { (rows others : List Cells) (keys : List (List ℕ)) → CanEditIndexes D.address (chunks_of draft.old.chunks) schema.now indexes.now roots.now changes.now rows others keys
        → (done : List IndexDef) → StandAt D.address (chunks_of draft.old.chunks) schema.now others done made.old
        → OnOk result (StandAt D.address (chunks_of draft.new.chunks) schema.now others (done ++ indexes.now) made.new) }
    ensures grows { Grows is_node draft.old draft.new }
    ensures cause { IfErr result (IsReason D.address (chunks_of draft.new.chunks)) }
{
    if let [index, indexes @ ..] = indexes {
        if let [root, roots @ ..] = roots {
            made.push(edit_index(alloc, draft, schema, index, root, changes)?)?;
            return edit_each(alloc, draft, schema, indexes, roots, changes, made);
        }
    }
    Ok(())
}

/// Edits the tree of one index: the new root.
fn edit_index<D: Digester>(
    alloc: Global,
    draft: &mut Draft<D>,
    schema: &Schema,
    index: &IndexDef,
    root: &Address,
    changes: &[RowChange],
) -> Result<Address, PutFault>
    requires { (rows : List Cells) × (others : List Cells) × (keys : List (List ℕ)) × CanEditIndex D.address (chunks_of draft.old.chunks) root.now.0 schema.now index.now changes.now rows others keys }
    ensures ok { (rows others : List Cells) (keys : List (List ℕ)) → CanEditIndex D.address (chunks_of draft.old.chunks) root.now.0 schema.now index.now changes.now rows others keys
        → IfOk result (λ made. IsTree D.address (chunks_of draft.new.chunks) made.0 (index_items (table_of_rows schema.now others) index.now)) }
    ensures grows { Grows is_node draft.old draft.new }
    ensures cause { IfErr result (IsReason D.address (chunks_of draft.new.chunks)) }
{
    keys_are_one_spelling();
    let edits = edits_of_changes(alloc, schema, index, changes)?;
    apply(alloc, draft, root, edits.as_slice())
}
