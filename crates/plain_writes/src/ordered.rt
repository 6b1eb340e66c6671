//! Rows in the order of their cells, and keys in order.

ghost use Rattle.std.specs.Prelude.{◌≡◌, IfOk};
ghost use Rattle.tuple_codec.specs.Rows.{key_cmp};
ghost use Rattle.plain_sql.specs.Lists.{in_order};
ghost use Rattle.plain_sql.specs.Runs.{places_cmp};

use crate::places::compare_at;
use std::alloc::{AllocError, Global};
use tuple_codec::{Row, key_cmp};

/// The rows from the least cells at these places to the greatest.
pub fn sorted_at(alloc: Global, places: &[u8], mut rows: Vec<Row>) -> Result<Vec<Row>, AllocError>
    ensures { IfOk result (λ found. found.items ≡ in_order (places_cmp places.now) rows.items) }
{
    rows.as_mut_slice().sort_by(alloc, |a, b| compare_at(places, a.as_slice(), b.as_slice()))?;
    Ok(rows)
}

/// The keys from the least to the greatest.
pub fn sorted_keys(alloc: Global, mut keys: Vec<Row>) -> Result<Vec<Row>, AllocError>
    ensures { IfOk result (λ found. found.items ≡ in_order key_cmp keys.items) }
{
    keys.as_mut_slice()
        .sort_by(alloc, |a, b| key_cmp(a.as_slice(), b.as_slice()))?;
    Ok(keys)
}
