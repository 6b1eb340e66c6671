//! What theirs changed, decided change by change.

ghost use Rattle.std.specs.Prelude.{◌≡◌, ℕ, true, List, IfOk, Option};
ghost use Rattle.std.specs.Option.{option_map};
ghost use Rattle.tuple_codec.specs.Rows.{Cells};
ghost use Rattle.schema_model.specs.Schemas.{is_schema};
ghost use Rattle.chunk_store.specs.Drafts.{chunks_of};
ghost use Rattle.node_format.specs.Views.{leaf_of};
ghost use Rattle.tuple_codec.specs.Nodes.{leaf_item};
ghost use Rattle.schema_merge.specs.TableMerge.{Three, row_at};
ghost use Rattle.table_merge.specs.Skipping.{AreDecided, AreMerged, CanDecide, CanDecideAll, CanSkip, DecidesAt, IsKeyOf, IsValueOf};

use crate::deciding::{Decided, decide, key_types};
use crate::faults::Stop;
use crate::walking::push_perhaps;
use chunk_store::Draft;
use node_format::LeafItem;
use pair_walk::{ReadCount, changes};
use prolly_tree::get;
use schema_model::Schema;
use std::alloc::{AllocError, Global};
use table_root::row_of;
use tuple_codec::{
    Address, Blob, Digester, Edit, ItemChange, Row, Sequence, decode_key, keys_are_one_spelling,
};

/// The edits that make merged rows of ours, and the items of the conflicts, by rising key.
#[derive(Drop)]
pub(crate) struct Merged {
    pub edits: Vec<Edit>,
    pub conflicts: Vec<LeafItem>,
}

/// What becomes of ours by what theirs changed. Nodes that base and theirs share aren't read, and of ours only the rows
/// under the changed keys are.
pub(crate) fn merge_changes<D: Digester>(
    alloc: Global,
    draft: &Draft<D>,
    schema: &Schema,
    base: &Address,
    ours: &Address,
    theirs: &Address,
) -> Result<Merged, Stop>
    requires { (three : Three) × CanSkip D.address (chunks_of draft.now.chunks) base.now.0 ours.now.0 theirs.now.0 schema.now three }
    ensures { (three : Three) → CanSkip D.address (chunks_of draft.now.chunks) base.now.0 ours.now.0 theirs.now.0 schema.now three
        → AreMerged result schema.now three }
{
    let mut reads = ReadCount::new();
    let changes = changes(alloc, draft, base, theirs, &mut reads)?;
    decide_changes(alloc, draft, schema, ours, changes.as_slice())
}

/// Decides changes from base to theirs one after another.
fn decide_changes<D: Digester>(
    alloc: Global,
    draft: &Draft<D>,
    schema: &Schema,
    ours: &Address,
    changes: &[ItemChange],
) -> Result<Merged, Stop>
    requires { (three : Three) × CanDecideAll D.address (chunks_of draft.now.chunks) ours.now.0 schema.now three changes.now }
    ensures { (three : Three) → CanDecideAll D.address (chunks_of draft.now.chunks) ours.now.0 schema.now three changes.now
        → AreDecided result schema.now three changes.now }
{
    let mut edits = Vec::new(alloc);
    let mut conflicts = Vec::new(alloc);
    for change in changes {
        let decided = decide_change(alloc, draft, schema, ours, change)?;
        edits.push(edit_of(alloc, change, decided.row)?)?;
        push_perhaps(&mut conflicts, decided.conflict)?;
    }
    Ok(Merged { edits, conflicts })
}

/// What becomes of the key of a change.
fn decide_change<D: Digester>(
    alloc: Global,
    draft: &Draft<D>,
    schema: &Schema,
    ours: &Address,
    change: &ItemChange,
) -> Result<Decided, Stop>
    requires { (three : Three) × CanDecide D.address (chunks_of draft.now.chunks) ours.now.0 schema.now three change.now }
    ensures { (three : Three) → CanDecide D.address (chunks_of draft.now.chunks) ours.now.0 schema.now three change.now
        → DecidesAt result schema.now three change.now.key }
{
    let bytes = change.key.as_slice();
    let key = read_key(alloc, schema, bytes)?;
    let base = row_at(alloc, schema, bytes, bytes_of(&change.old))?;
    let our_row = row_at(alloc, schema, bytes, get(draft, ours, bytes))?;
    let theirs = row_at(alloc, schema, bytes, bytes_of(&change.new))?;
    decide(
        alloc,
        schema,
        &key,
        base.as_ref(),
        our_row.as_ref(),
        theirs.as_ref(),
    )
}

fn bytes_of(blob: &Option<Blob>) -> Option<&[u8]>
    ensures { option_map (λ bytes. bytes.now) result ≡ blob.now }
{
    match blob {
        Some(blob) => Some(blob.as_slice()),
        None => None,
    }
}

/// The key that has these bytes.
fn read_key(alloc: Global, schema: &Schema, bytes: &[u8]) -> Result<Row, AllocError>
    requires schema { is_schema schema.now ≡ true }
    requires cells { (cells : Cells) × IsKeyOf schema.now bytes.now cells }
    ensures { (cells : Cells) → IsKeyOf schema.now bytes.now cells → IfOk result (λ read. read ≡ cells) }
{
    keys_are_one_spelling();
    let types = key_types(alloc, schema)?;
    match decode_key(alloc, types.as_slice(), bytes)? {
        Some(cells) => Ok(cells),
        None => unreachable!(),
    }
}

/// The row that has this key and this value, if there is a value.
fn row_at(
    alloc: Global,
    schema: &Schema,
    key: &[u8],
    value: Option<&[u8]>,
) -> Result<Option<Row>, AllocError>
    requires schema { is_schema schema.now ≡ true }
    requires row { (rows : List Cells) × (cells : Cells) × IsKeyOf schema.now key.now cells × IsValueOf schema.now rows cells (option_map (λ bytes. bytes.now) value) }
    ensures { (rows : List Cells) (cells : Cells) → IsKeyOf schema.now key.now cells → IsValueOf schema.now rows cells (option_map (λ bytes. bytes.now) value.entry)
        → IfOk result (λ row. row ≡ row_at schema.now cells rows) }
{
    match value {
        None => Ok(None),
        Some(value) => Ok(Some(row_of(alloc, schema, key, value)?)),
    }
}

/// The edit that puts what is left at a change's key.
fn edit_of(alloc: Global, change: &ItemChange, row: Option<LeafItem>) -> Result<Edit, AllocError>
    ensures { (value : Option (List ℕ)) → option_map leaf_of row ≡ option_map (leaf_item change.now.key) value
        → IfOk result (λ edit. edit ≡ record { key = change.now.key; value = value }) }
{
    match row {
        Some(item) => Ok(Edit {
            key: item.key,
            value: Some(item.value),
        }),
        None => Ok(Edit {
            key: Blob::from_vec(Vec::from_slice(alloc, change.key.as_slice())?),
            value: None,
        }),
    }
}
