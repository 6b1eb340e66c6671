//! What becomes of one key: the items of its row and of its conflict.

ghost use Rattle.std.specs.Prelude.{◌≡◌, ◌&&◌, true, nat_le, length, IfOk};
ghost use Rattle.std.specs.Option.{option_copied};
ghost use Rattle.tuple_codec.specs.Rows.{fits_all};
ghost use Rattle.tuple_codec.specs.RowRule.{row3};
ghost use Rattle.schema_model.specs.Limits.{is_conflict_within_limits, most_key_bytes, most_row_bytes};
ghost use Rattle.schema_model.specs.PlainTables.{conflict_item, is_row, key_types, row_item};
ghost use Rattle.schema_model.specs.Schemas.{is_schema};
ghost use Rattle.cell_merge.specs.Outcomes.{row_in};
ghost use Rattle.schema_merge.specs.KeyByKey.{kept};
ghost use Rattle.schema_merge.specs.TableMerge.{conflict_if};
ghost use Rattle.table_merge.specs.Merging.{is_short_merged};
ghost use Rattle.table_merge.specs.Rising.{IsAt};
ghost use Rattle.table_merge.specs.Walking.{AddsSide, DecidesRow, IsItemOf, IsItemPerhaps, is_row_perhaps, sides_of};

use crate::faults::Stop;
use cell_merge::{RowOutcome, merge_row};
use node_format::LeafItem;
use schema_model::Schema;
use schema_model::limits::{MOST_KEY_BYTES, MOST_ROW_BYTES};
use std::alloc::{AllocError, Global};
use table_root::row_item;
use tuple_codec::{Row, Sequence, SqlType, encode_key, push_long};

/// The items of what a merge leaves at a key.
#[derive(Drop)]
pub(crate) struct Decided {
    pub row: Option<LeafItem>,
    pub conflict: Option<LeafItem>,
}

/// Decides a key by the rows that base, ours and theirs have there.
pub(crate) fn decide(
    alloc: Global,
    schema: &Schema,
    key: &Row,
    base: Option<&Row>,
    ours: Option<&Row>,
    theirs: Option<&Row>,
) -> Result<Decided, Stop>
    requires schema { is_schema schema.now ≡ true }
    requires key { fits_all (key_types schema.now) key.now ≡ true }
    requires base { is_row_perhaps schema.now (option_copied base) ≡ true }
    requires ours { is_row_perhaps schema.now (option_copied ours) ≡ true }
    requires theirs { is_row_perhaps schema.now (option_copied theirs) ≡ true }
    requires merged { is_row_perhaps schema.now (kept (option_copied ours) (row3 (option_copied base) (option_copied ours) (option_copied theirs))) ≡ true }
    ensures { let b = option_copied base.entry in let o = option_copied ours.entry in let t = option_copied theirs.entry in
        DecidesRow result schema.now (kept o (row3 b o t)) (conflict_if (sides_of key.now b o t) (row3 b o t)) }
{
    let outcome = merge_row(alloc, base, ours, theirs)?;
    let row = item_perhaps(alloc, schema, kept(ours, &outcome))?;
    let conflict = match outcome {
        RowOutcome::Conflict => Some(conflict_item(alloc, schema, key, base, ours, theirs)?),
        RowOutcome::Row(_) | RowOutcome::Absent => None,
    };
    Ok(Decided { row, conflict })
}

/// The row that a merge leaves at a key, if it leaves one: ours in a conflict.
fn kept<'a>(ours: Option<&'a Row>, outcome: &'a RowOutcome) -> Option<&'a Row>
    ensures { option_copied result ≡ kept (option_copied ours.entry) (row_in outcome.now) }
{
    match outcome {
        RowOutcome::Absent => None,
        RowOutcome::Row(row) => Some(row),
        RowOutcome::Conflict => ours,
    }
}

fn item_perhaps(alloc: Global, schema: &Schema, row: Option<&Row>) -> Result<Option<LeafItem>, Stop>
    requires schema { is_schema schema.now ≡ true }
    requires row { is_row_perhaps schema.now (option_copied row) ≡ true }
    ensures { IsItemPerhaps result (is_short_merged schema.now) (row_item schema.now) (option_copied row.entry) }
{
    match row {
        Some(row) => Ok(Some(short_item(alloc, schema, row)?)),
        None => Ok(None),
    }
}

/// A row's item, if it keeps the limits.
fn short_item(alloc: Global, schema: &Schema, row: &Row) -> Result<LeafItem, Stop>
    requires schema { is_schema schema.now ≡ true }
    requires row { is_row schema.now row.now ≡ true }
    ensures { IsItemOf result (is_short_merged schema.now row.now) (row_item schema.now row.now) }
{
    let item = row_item(alloc, schema, row.as_slice())?;
    if is_short(&item) {
        Ok(item)
    } else {
        Err(Stop::Limit)
    }
}

fn is_short(item: &LeafItem) -> bool
    ensures { result ≡ (nat_le (length item.now.key) most_key_bytes && nat_le (length item.now.value) most_row_bytes) }
{
    item.key.as_slice().len() <= MOST_KEY_BYTES && item.value.as_slice().len() <= MOST_ROW_BYTES
}

/// A conflict's item, if it keeps the limits.
fn conflict_item(
    alloc: Global,
    schema: &Schema,
    key: &Row,
    base: Option<&Row>,
    ours: Option<&Row>,
    theirs: Option<&Row>,
) -> Result<LeafItem, Stop>
    requires schema { is_schema schema.now ≡ true }
    requires key { fits_all (key_types schema.now) key.now ≡ true }
    requires base { is_row_perhaps schema.now (option_copied base) ≡ true }
    requires ours { is_row_perhaps schema.now (option_copied ours) ≡ true }
    requires theirs { is_row_perhaps schema.now (option_copied theirs) ≡ true }
    ensures { let conflict = sides_of key.now (option_copied base.entry) (option_copied ours.entry) (option_copied theirs.entry) in
        IsItemOf result (is_conflict_within_limits schema.now conflict) (conflict_item schema.now conflict) }
{
    let types = key_types(alloc, schema)?;
    let key = encode_key(alloc, types.as_slice(), key)?;
    if key.as_slice().len() > MOST_KEY_BYTES {
        return Err(Stop::Limit);
    }
    let mut sides = Vec::new(alloc);
    push_side(alloc, schema, base, &mut sides)?;
    push_side(alloc, schema, ours, &mut sides)?;
    push_side(alloc, schema, theirs, &mut sides)?;
    Ok(LeafItem {
        key,
        value: Sequence::from_vec(sides),
    })
}

/// Adds what one side has: absence, or a row behind its length.
fn push_side(
    alloc: Global,
    schema: &Schema,
    side: Option<&Row>,
    out: &mut Vec<u8>,
) -> Result<(), Stop>
    requires schema { is_schema schema.now ≡ true }
    requires side { is_row_perhaps schema.now (option_copied side) ≡ true }
    ensures { AddsSide result schema.now (option_copied side.entry) out.old.items out.new.items }
{
    match side {
        None => out.push(0)?,
        Some(row) => {
            let item = row_item(alloc, schema, row.as_slice())?;
            let body = item.value.as_slice();
            if body.len() > MOST_ROW_BYTES {
                return Err(Stop::Limit);
            }
            out.push(1)?;
            push_long(out, body)?;
        }
    }
    Ok(())
}

/// The types of the primary key, in its order.
pub(crate) fn key_types(alloc: Global, schema: &Schema) -> Result<Vec<SqlType>, AllocError>
    requires { is_schema schema.now ≡ true }
    ensures { IfOk result (λ types. types.items ≡ key_types schema.now) }
{
    let columns = schema.columns.as_slice();
    let mut types = Vec::new(alloc);
    for position in schema.key.as_slice() {
        types.push(columns[usize::from(*position)].kind)?;
    }
    Ok(types)
}
