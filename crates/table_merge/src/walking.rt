//! All keys of three lists of rows, decided one after another.

ghost use Rattle.std.specs.Prelude.{◌≡◌, ◌++◌, true, length, map, option_map, option_to_list, IfOk, OnOk};
ghost use Rattle.std.specs.Option.{option_copied};
ghost use Rattle.tuple_codec.specs.RowRule.{row3};
ghost use Rattle.tuple_codec.specs.Rows.{key_cmp};
ghost use Rattle.schema_model.specs.Schemas.{is_schema};
ghost use Rattle.node_format.specs.Views.{leaf_of};
ghost use Rattle.schema_merge.specs.KeyByKey.{all_keys};
ghost use Rattle.schema_merge.specs.TableMerge.{table_of};
ghost use Rattle.table_merge.specs.Walking.{AreKeyed, AreListsOf, conflicts_of, keys_in, three_in};

use crate::deciding::decide;
use crate::faults::Stop;
use crate::keyed::{KeyedRow, find, keys_in, keys_with};
use cell_merge::{RowOutcome, merge_row};
use node_format::LeafItem;
use schema_model::Schema;
use std::alloc::{AllocError, Global};
use tuple_codec::Row;

/// The items of a merged table's rows and conflicts, by rising key.
#[derive(Drop)]
pub(crate) struct Lists {
    pub rows: Vec<LeafItem>,
    pub conflicts: Vec<LeafItem>,
}

/// Merges rows of one schema over all their keys.
pub(crate) fn merge_lists(
    alloc: Global,
    schema: &Schema,
    base: &[KeyedRow],
    ours: &[KeyedRow],
    theirs: &[KeyedRow],
) -> Result<Lists, Stop>
    requires schema { is_schema schema.now ≡ true }
    requires base { AreKeyed schema.now base.now }
    requires ours { AreKeyed schema.now ours.now }
    requires theirs { AreKeyed schema.now theirs.now }
    ensures { AreListsOf result (table_of schema.now (three_in base.now ours.now theirs.now)) }
{
    let keys = all_keys(alloc, base, ours, theirs)?;
    let mut rows = Vec::new(alloc);
    let mut conflicts = Vec::new(alloc);
    for key in &keys {
        let decided = decide(
            alloc,
            schema,
            key,
            find(base, key),
            find(ours, key),
            find(theirs, key),
        )?;
        push_perhaps(&mut rows, decided.row)?;
        push_perhaps(&mut conflicts, decided.conflict)?;
    }
    Ok(Lists { rows, conflicts })
}

/// The keys of the three, rising, each once.
fn all_keys(
    alloc: Global,
    base: &[KeyedRow],
    ours: &[KeyedRow],
    theirs: &[KeyedRow],
) -> Result<Vec<Row>, AllocError>
    ensures { IfOk result (λ keys. keys.items ≡ all_keys key_cmp (keys_in base.now) (keys_in ours.now) (keys_in theirs.now)) }
{
    let of_base = keys_in(alloc, base)?;
    let of_ours = keys_in(alloc, ours)?;
    let of_theirs = keys_in(alloc, theirs)?;
    let of_sides = keys_with(alloc, of_ours.as_slice(), of_theirs.as_slice())?;
    keys_with(alloc, of_base.as_slice(), of_sides.as_slice())
}

/// At how many keys the rows of one schema are in conflict.
pub(crate) fn count_conflicts_in(
    alloc: Global,
    schema: &Schema,
    base: &[KeyedRow],
    ours: &[KeyedRow],
    theirs: &[KeyedRow],
) -> Result<u64, AllocError>
    requires base { AreKeyed schema.now base.now }
    requires ours { AreKeyed schema.now ours.now }
    requires theirs { AreKeyed schema.now theirs.now }
    ensures { IfOk result (λ count. count ≡ length (table_of schema.now (three_in base.now ours.now theirs.now)).conflicts) }
{
    let keys = all_keys(alloc, base, ours, theirs)?;
    let mut count = 0u64;
    for key in &keys {
        let more = conflicts_at(alloc, find(base, key), find(ours, key), find(theirs, key))?;
        count += more;
    }
    Ok(count)
}

/// One, if the rows of a key are in conflict.
fn conflicts_at(
    alloc: Global,
    base: Option<&Row>,
    ours: Option<&Row>,
    theirs: Option<&Row>,
) -> Result<u64, AllocError>
    ensures { IfOk result (λ count. count ≡ conflicts_of (row3 (option_copied base.entry) (option_copied ours.entry) (option_copied theirs.entry))) }
{
    match merge_row(alloc, base, ours, theirs)? {
        RowOutcome::Conflict => Ok(1),
        RowOutcome::Row(_) | RowOutcome::Absent => Ok(0),
    }
}

pub(crate) fn push_perhaps(
    items: &mut Vec<LeafItem>,
    item: Option<LeafItem>,
) -> Result<(), AllocError>
    ensures { OnOk result (map leaf_of items.new.items ≡ map leaf_of items.old.items ++ option_to_list (option_map leaf_of item)) }
{
    if let Some(item) = item {
        items.push(item)?;
    }
    Ok(())
}
