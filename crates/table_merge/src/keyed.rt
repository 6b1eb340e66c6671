//! Rows beside their keys, found by key, and the keys of two lists in one.

ghost use Rattle.std.specs.Prelude.{◌≡◌, ◌++◌, None, IfOk, OnOk, map};
ghost use Rattle.std.specs.Option.{option_copied, option_map};
ghost use Rattle.tuple_codec.specs.Rows.{key_cmp};
ghost use Rattle.schema_merge.specs.KeyByKey.{keys_with};
ghost use Rattle.schema_merge.specs.Projecting.{projected};
ghost use Rattle.table_merge.specs.Rising.{RiseFrom};
ghost use Rattle.table_merge.specs.Walking.{found, keyed_rows, keys_in};

use schema_merge::project;
use schema_model::Schema;
use std::alloc::{AllocError, Global};
use std::cmp::Ordering;
use tuple_codec::{Row, copy_row, key_cmp, key_of};

/// A row beside its primary key.
#[derive(Drop)]
pub(crate) struct KeyedRow {
    pub key: Row,
    pub row: Row,
}

/// Rows of one schema as rows of another, beside their keys.
pub(crate) fn keyed_rows(
    alloc: Global,
    rows: &[Row],
    from: &Schema,
    to: &Schema,
) -> Result<Vec<KeyedRow>, AllocError>
    ensures { IfOk result (λ keyed. keyed.items ≡ keyed_rows to.now (map (projected from.now to.now) rows.now)) }
{
    let mut keyed = Vec::with_capacity(alloc, rows.len())?;
    for old in rows {
        let row = project(alloc, old, from, to)?;
        let key = key_of(alloc, to.key.as_slice(), row.as_slice())?;
        keyed.push(KeyedRow { key, row })?;
    }
    Ok(keyed)
}

/// Copies of the keys.
pub(crate) fn keys_in(alloc: Global, rows: &[KeyedRow]) -> Result<Vec<Row>, AllocError>
    ensures { IfOk result (λ keys. keys.items ≡ keys_in rows.now) }
{
    let mut keys = Vec::with_capacity(alloc, rows.len())?;
    for row in rows {
        keys.push(copy_row(alloc, row.key.as_slice())?)?;
    }
    Ok(keys)
}

/// The keys of two rising lists, rising, each once.
pub(crate) fn keys_with(alloc: Global, keys: &[Row], others: &[Row]) -> Result<Vec<Row>, AllocError>
    ensures { IfOk result (λ both. both.items ≡ keys_with key_cmp keys.now others.now) }
{
    let mut both = Vec::new(alloc);
    let mut left = keys;
    let mut right = others;
    'heads: while let [key, later @ ..] = left {
        match right {
            [] => {
                both.push(copy_row(alloc, key.as_slice())?)?;
                left = later;
            }
            [other, rest @ ..] => match key_cmp(other.as_slice(), key.as_slice()) {
                Ordering::Less => {
                    both.push(copy_row(alloc, other.as_slice())?)?;
                    right = rest;
                }
                Ordering::Equal => {
                    both.push(copy_row(alloc, key.as_slice())?)?;
                    left = later;
                    right = rest;
                }
                Ordering::Greater => {
                    both.push(copy_row(alloc, key.as_slice())?)?;
                    left = later;
                }
            },
        }
    }
    push_copies(alloc, right, &mut both)?;
    Ok(both)
}

fn push_copies(alloc: Global, keys: &[Row], out: &mut Vec<Row>) -> Result<(), AllocError>
    ensures { OnOk result (out.new.items ≡ out.old.items ++ keys.now) }
{
    for key in keys {
        out.push(copy_row(alloc, key.as_slice())?)?;
    }
    Ok(())
}

/// The row of a key, by halving.
pub(crate) fn find<'a>(rows: &'a [KeyedRow], key: &Row) -> Option<&'a Row>
    requires { RiseFrom None (keys_in rows.now) }
    ensures { option_copied result ≡ found key.now rows.now }
{
    let mut left = rows;
    'halves: while !left.is_empty() {
        let (lower, upper) = left.split_at(left.len() / 2);
        let [middle, later @ ..] = upper else {
            return None;
        };
        match key_cmp(middle.key.as_slice(), key.as_slice()) {
            Ordering::Equal => return Some(&middle.row),
            Ordering::Less => left = later,
            Ordering::Greater => left = lower,
        }
    }
    None
}
