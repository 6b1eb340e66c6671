//! What several tests have: a new draft, rows whose keys are numbers, and the tree of such rows.

ghost use Rattle.std.specs.Prelude.{◌≡◌, ◌≤◌, ◌<◌, ◌+◌, ◌-◌, ◌^◌, ℕ, map, length, IfOk, OnOk};
ghost use Rattle.chunk_store.specs.Digests.{cut_address};
ghost use Rattle.chunk_store.specs.Drafts.{Longer, chunks_of};
ghost use Rattle.node_format.specs.Views.{leaf_of};
ghost use Rattle.prolly_tree.specs.Lists.{StandsForRows};
ghost use Rattle.unit_tests.specs.Samples.{AreBelow, AreFewRows, StandsForFew, number_key};

use crate::rows::Rows;
use chunk_region::PagePool;
use chunk_store::{Draft, PutFault, Sha512Cut, Store};
use node_chunker::build;
use node_format::LeafItem;
use std::alloc::{AllocError, Global};
use tuple_codec::{Address, Blob, Digester};

/// A draft over a new store, with a page.
pub fn draft_of<D: Digester>(alloc: Global) -> Result<Draft<D>, AllocError> {
    let pool = PagePool::with_pages(alloc, 1)?;
    Ok(Draft::new(Store::new(alloc), pool))
}

/// What is added to a BIGINT in a key, so that those below 0 come first.
const RAISED: u64 = 9_223_372_036_854_775_808;

pub fn key_of(alloc: Global, kind: Rows, number: u32) -> Result<Blob, AllocError>
    ensures { IfOk result (λ key. key ≡ number_key kind number) }
{
    match kind {
        Rows::Long => Ok(Blob::from_vec(Vec::from_slice(alloc, &(number as u64).to_be_bytes())?)),
        Rows::Short => {
            let mut key = Vec::from_slice(alloc, &[1])?;
            key.extend_from_slice(&(number as u64 + RAISED).to_be_bytes())?;
            Ok(Blob::from_vec(key))
        }
    }
}

pub fn value_of(alloc: Global, kind: Rows, byte: u8) -> Result<Blob, AllocError>
    ensures { IfOk result (λ value. length {A = ℕ} value ≤ 300) }
{
    match kind {
        Rows::Long => Ok(Blob::from_vec(Vec::from_slice(alloc, &[byte; 300])?)),
        Rows::Short => {
            let mut value = Vec::from_slice(alloc, &[1, 0, 8])?;
            value.extend_from_slice(&[byte; 8])?;
            Ok(Blob::from_vec(value))
        }
    }
}

fn add_row(
    alloc: Global,
    rows: &mut Vec<LeafItem>,
    kind: Rows,
    number: u32,
    byte: Option<u8>,
) -> Result<(), AllocError>
    requires few { number < 2 ^ 32 - 1 }
    requires are { AreBelow kind number (map leaf_of rows.old.items) }
    ensures { OnOk result (AreBelow kind (number + 1) (map leaf_of rows.new.items)) }
{
    if let Some(byte) = byte {
        let key = key_of(alloc, kind, number)?;
        let value = value_of(alloc, kind, byte)?;
        rows.push(LeafItem { key, value })?;
    }
    Ok(())
}

/// A row for each number below the end that has a byte.
fn rows_of<F: Fn(u32) -> Option<u8>>(
    alloc: Global,
    kind: Rows,
    end: u32,
    byte_at: F,
) -> Result<Vec<LeafItem>, AllocError>
    requires { F.IsAlwaysCallable byte_at }
    ensures { IfOk result (λ rows. AreFewRows (map leaf_of rows.items)) }
{
    let mut rows = Vec::new(alloc);
    for number in 0..end {
        add_row(alloc, &mut rows, kind, number, byte_at(number))?;
    }
    Ok(rows)
}

/// The root of the tree of these rows.
pub fn tree_of<F: Fn(u32) -> Option<u8>>(
    alloc: Global,
    draft: &mut Draft<Sha512Cut>,
    kind: Rows,
    end: u32,
    byte_at: F,
) -> Result<Address, PutFault>
    requires { F.IsAlwaysCallable byte_at }
    ensures few { IfOk result (λ root. StandsForFew (chunks_of draft.new.chunks) root.0) }
    ensures tree { IfOk result (λ root. StandsForRows cut_address (chunks_of draft.new.chunks) root.0) }
    ensures longer { Longer draft.old.chunks draft.new.chunks }
{
    let rows = rows_of(alloc, kind, end, byte_at)?;
    build(alloc, draft, &rows)
}
