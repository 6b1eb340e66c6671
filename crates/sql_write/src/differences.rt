//! The edits that turn a table's rows into others.

ghost use Rattle.std.specs.Prelude.{◌≡◌, ◌++◌, [], None, IfOk, OnOk, map, true};
ghost use Rattle.std.specs.List.{list_all};
ghost use Rattle.node_format.specs.Views.{leaf_of};
ghost use Rattle.tuple_codec.specs.Edits.{EditsRiseAfter, added, edited, removed};
ghost use Rattle.tuple_codec.specs.Rows.{key_cmp};
ghost use Rattle.schema_model.specs.PlainTables.{is_row, primary_key, rises, row_item};
ghost use Rattle.schema_model.specs.Schemas.{is_schema};
ghost use Rattle.tuple_codec.specs.ByKey.{as_edit};
ghost use Rattle.sql_write.specs.Differences.{meeting, row_edits};

use node_format::LeafItem;
use schema_model::Schema;
use std::alloc::{AllocError, Global};
use std::cmp::Ordering;
use table_root::{law_of_row_items, row_item};
use tuple_codec::{Edit, Row, edits_by_key, same_cells, same_cells_are_one};

/// What two rows say of two lists by rising key that they stand first in.
#[derive(Drop)]
enum Meeting {
    /// The row stays as it is.
    Same,
    /// The new row's key comes first.
    Put(Edit),
    /// Both have one key.
    Replaced(Edit),
    /// The old row's key comes first.
    Removed(Edit),
}

pub(crate) fn put(item: LeafItem) -> Edit
    ensures { result ≡ as_edit (added (leaf_of item)) }
{
    Edit {
        key: item.key,
        value: Some(item.value),
    }
}

fn remove(item: LeafItem) -> Edit
    ensures { result ≡ as_edit (removed (leaf_of item)) }
{
    Edit {
        key: item.key,
        value: None,
    }
}

fn met(item: LeafItem, other: LeafItem) -> Meeting
    ensures { result ≡ meeting (leaf_of item) (leaf_of other) }
{
    match other.key.as_slice().cmp(item.key.as_slice()) {
        Ordering::Less => Meeting::Put(Edit {
            key: other.key,
            value: Some(other.value),
        }),
        Ordering::Equal => {
            if other.value.as_slice() == item.value.as_slice() {
                Meeting::Same
            } else {
                Meeting::Replaced(Edit {
                    key: item.key,
                    value: Some(other.value),
                })
            }
        }
        Ordering::Greater => Meeting::Removed(Edit {
            key: item.key,
            value: None,
        }),
    }
}

fn meet(alloc: Global, schema: &Schema, row: &Row, other: &Row) -> Result<Meeting, AllocError>
    requires schema { is_schema schema.now ≡ true }
    requires row { is_row schema.now row.now ≡ true }
    requires other { is_row schema.now other.now ≡ true }
    ensures { IfOk result (λ met. met ≡ meeting (row_item schema.now row.now) (row_item schema.now other.now)) }
{
    same_cells_are_one();
    if same_cells(row.as_slice(), other.as_slice()) {
        return Ok(Meeting::Same);
    }
    let item = row_item(alloc, schema, row.as_slice())?;
    let new = row_item(alloc, schema, other.as_slice())?;
    Ok(met(item, new))
}

/// More edits, which put all these rows.
pub(crate) fn put_all(
    alloc: Global,
    schema: &Schema,
    edits: &mut Vec<Edit>,
    rows: &[Row],
) -> Result<(), AllocError>
    requires schema { is_schema schema.now ≡ true }
    requires rows { list_all (is_row schema.now) rows.now ≡ true }
    ensures { OnOk result (edits.new.items ≡ edits.old.items ++ row_edits schema.now [] rows.now) }
{
    for row in rows {
        edits.push(put(row_item(alloc, schema, row.as_slice())?))?;
    }
    Ok(())
}

/// More edits, which remove all these rows.
fn remove_all(
    alloc: Global,
    schema: &Schema,
    edits: &mut Vec<Edit>,
    rows: &[Row],
) -> Result<(), AllocError>
    requires schema { is_schema schema.now ≡ true }
    requires rows { list_all (is_row schema.now) rows.now ≡ true }
    ensures { OnOk result (edits.new.items ≡ edits.old.items ++ row_edits schema.now rows.now []) }
{
    for row in rows {
        edits.push(remove(row_item(alloc, schema, row.as_slice())?))?;
    }
    Ok(())
}

/// The edits of a walk over both lists.
fn walked(alloc: Global, schema: &Schema, old: &[Row], new: &[Row]) -> Result<Vec<Edit>, AllocError>
    requires schema { is_schema schema.now ≡ true }
    requires old { list_all (is_row schema.now) old.now ≡ true }
    requires new { list_all (is_row schema.now) new.now ≡ true }
    ensures { IfOk result (λ edits. edits.items ≡ row_edits schema.now old.now new.now) }
{
    let mut edits = Vec::new(alloc);
    let mut row_at = 0;
    let mut other_at = 0;
    'rows: while row_at < old.len() && other_at < new.len() {
        match meet(alloc, schema, &old[row_at], &new[other_at])? {
            Meeting::Same => {
                row_at += 1;
                other_at += 1;
            }
            Meeting::Put(edit) => {
                edits.push(edit)?;
                other_at += 1;
            }
            Meeting::Replaced(edit) => {
                edits.push(edit)?;
                row_at += 1;
                other_at += 1;
            }
            Meeting::Removed(edit) => {
                edits.push(edit)?;
                row_at += 1;
            }
        }
    }
    remove_all(alloc, schema, &mut edits, &old[row_at..])?;
    put_all(alloc, schema, &mut edits, &new[other_at..])?;
    Ok(edits)
}

/// The edits, by rising key, that turn a table's rows into others, each list by rising key. A row that stays as it is has none.
pub(crate) fn row_edits(
    alloc: Global,
    schema: &Schema,
    old: &[Row],
    new: &[Row],
) -> Result<Vec<Edit>, AllocError>
    requires schema { is_schema schema.now ≡ true }
    requires old { list_all (is_row schema.now) old.now ≡ true }
    requires new { list_all (is_row schema.now) new.now ≡ true }
    requires old_rise { rises (λ a b. key_cmp (primary_key schema.now a) (primary_key schema.now b)) old.now ≡ true }
    requires new_rise { rises (λ a b. key_cmp (primary_key schema.now a) (primary_key schema.now b)) new.now ≡ true }
    ensures is { IfOk result (λ edits. edits.items ≡ row_edits schema.now old.now new.now) }
    ensures rise { IfOk result (λ edits. EditsRiseAfter None edits.items) }
    ensures turned { IfOk result (λ edits. edited (map (row_item schema.now) old.now) edits.items ≡ map (row_item schema.now) new.now) }
    ensures same { IfOk result (λ edits. old.now ≡ new.now → edits.items ≡ []) }
{
    edits_by_key();
    law_of_row_items();
    walked(alloc, schema, old, new)
}
