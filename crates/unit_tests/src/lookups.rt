//! Looks and scans in trees of one leaf and of three levels.

ghost use Rattle.chunk_store.specs.Digests.{cut_address};
ghost use Rattle.chunk_store.specs.Drafts.{chunks_of};
ghost use Rattle.prolly_tree.specs.Lists.{StandsForRows};

use crate::rows::Rows;
use crate::samples::{draft_of, key_of, tree_of};
use chunk_store::{Draft, PutFault, Sha512Cut};
use prolly_tree::{count, get, scan_from};
use std::alloc::{AllocError, Global};
use std::test::*;
use tuple_codec::Address;

/// How many rows a tree has, whose keys are 0, 2, 4 and so on; a number; the value's byte there; and the first two keys from there on.
const LOOKS: [(u16, u32, Option<u8>, [Option<u16>; 2]); 9] = [
    (0, 0, None, [None, None]),
    (2, 0, Some(0), [Some(0), Some(2)]),
    (2, 1, None, [Some(2), None]),
    (2, 2, Some(2), [Some(2), None]),
    (2, 3, None, [None, None]),
    (5_000, 4_999, None, [Some(5_000), Some(5_002)]),
    (5_000, 5_000, Some(136), [Some(5_000), Some(5_002)]),
    (5_000, 9_998, Some(14), [Some(9_998), None]),
    (5_000, 9_999, None, [None, None]),
];

/// The byte of the value at a number, where the tree has a row.
fn byte_at(number: u32) -> Option<u8> {
    if number % 2 == 0 {
        Some((number % 256) as u8)
    } else {
        None
    }
}

/// The first byte of the value that is found at a number.
fn byte_found(
    alloc: Global,
    draft: &Draft<Sha512Cut>,
    root: &Address,
    number: u32,
) -> Result<Option<u8>, AllocError>
    requires { StandsForRows cut_address (chunks_of draft.now.chunks) root.now.0 }
{
    let key = key_of(alloc, Rows::Long, number)?;
    match get(draft, root, key.as_slice()) {
        Some([byte, ..]) => Ok(Some(*byte)),
        _ => Ok(None),
    }
}

/// The number that a row's key ends with.
fn key_end(row: Option<(&[u8], &[u8])>) -> Option<u16> {
    let (key, _) = row?;
    match key {
        [.., high, low] => Some(u16::from_be_bytes([*high, *low])),
        _ => None,
    }
}

/// The keys of the first two rows from a number on.
fn keys_from(
    alloc: Global,
    draft: &Draft<Sha512Cut>,
    root: &Address,
    number: u32,
) -> Result<[Option<u16>; 2], AllocError>
    requires { StandsForRows cut_address (chunks_of draft.now.chunks) root.now.0 }
{
    let key = key_of(alloc, Rows::Long, number)?;
    let mut scan = scan_from(alloc, draft, root, key.as_slice())?;
    Ok([key_end(scan.next()), key_end(scan.next())])
}

/// What is found in the tree of so many rows: how many there are, and what there is at a number and from there on.
fn found(
    alloc: Global,
    rows: u16,
    number: u32,
) -> Result<(u64, Option<u8>, [Option<u16>; 2]), PutFault> {
    let mut draft = draft_of::<Sha512Cut>(alloc)?;
    let end = 2 * rows as u32;
    let root = tree_of(alloc, &mut draft, Rows::Long, end, |number| {
        byte_at(number)
    })?;
    let byte = byte_found(alloc, &draft, &root, number)?;
    let keys = keys_from(alloc, &draft, &root, number)?;
    Ok((count(&draft, &root), byte, keys))
}

#[test]
fn rows_are_found_by_key_and_in_turn(rt: HostRuntime) -> Result<(), Fail> {
    for (rows, number, byte, keys) in LOOKS {
        let looked = found(rt.alloc(), rows, number)?;
        assert!(rt;
            looked == (u64::from(rows), byte, keys),
            "{rows} rows, at {number}"
        );
    }
    Ok(())
}
