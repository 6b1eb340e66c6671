//! Small nodes written, read in place and found malformed, and where nodes end.

ghost use Rattle.std.specs.Prelude.{replicate};

use node_format::{LeafItem, Malformed, NodeRef, RefItem, ends_here, write_inner, write_leaf};
use std::alloc::{AllocError, Global};
use std::test::*;
use tuple_codec::{Address, Blob, Digester};

/// Every address begins with zeros, which end a node as soon as they may.
struct Low;

impl Digester for Low {
    ghost address = { λ _. replicate 20 0 };

    fn address_of(_bytes: &[u8]) -> Address {
        Address([0; 20])
    }
}

/// Every address begins with the highest bytes, which end no node before its size does.
struct High;

impl Digester for High {
    ghost address = { λ _. replicate 20 255 };

    fn address_of(_bytes: &[u8]) -> Address {
        Address([255; 20])
    }
}

const EMPTY: [u8; 4] = [1, 0, 0, 0];

const ONE_ROW: [u8; 21] = [
    1, 0, 0, 1, 0, 9, 1, 128, 0, 0, 0, 0, 0, 0, 1, 0, 4, 1, 0, 1, 97,
];

const INNER: [u8; 35] = [
    2, 1, 0, 1, 0, 1, 5, 7, 7, 7, 7, 7, 7, 7, 7, 7, 7, 7, 7, 7, 7, 7, 7, 7, 7, 7, 7, 0, 0, 0, 0, 0,
    0, 0, 2,
];

#[test]
fn what_is_written_is_the_format(rt: HostRuntime) -> Result<(), AllocError> {
    let empty = write_leaf(rt.alloc(), &[])?;
    assert!(rt; empty.as_slice() == EMPTY.as_slice());
    let row = LeafItem {
        key: Blob::from_vec(Vec::from_slice(rt.alloc(), &[1, 128, 0, 0, 0, 0, 0, 0, 1])?),
        value: Blob::from_vec(Vec::from_slice(rt.alloc(), &[1, 0, 1, 97])?),
    };
    let leaf = write_leaf(rt.alloc(), &[row])?;
    assert!(rt; leaf.as_slice() == ONE_ROW.as_slice());
    let below = RefItem {
        key: Blob::from_vec(Vec::from_slice(rt.alloc(), &[5])?),
        address: Address([7; 20]),
        rows: 2,
    };
    let inner = write_inner(rt.alloc(), 1, &[below])?;
    assert!(rt; inner.as_slice() == INNER.as_slice());
    Ok(())
}

/// The node in a few bytes.
fn node_in<'a>(bytes: &'a [u8]) -> Result<NodeRef<'a>, Malformed> {
    if bytes.len() > 10_000 {
        return Err(Malformed { at: 10_000 });
    }
    NodeRef::read(bytes)
}

/// The key and the value of a row, where it is a leaf's only one.
fn only_row(bytes: &[u8]) -> Option<(&[u8], &[u8])> {
    let leaf = node_in(bytes).ok()?;
    if leaf.level() == 0 && leaf.count() == 1 {
        Some(leaf.leaf_item(0))
    } else {
        None
    }
}

/// What an inner node of level 1 tells of the node below, where that is the only one.
fn only_below(bytes: &[u8]) -> Option<(&[u8], Address, u64)> {
    let inner = node_in(bytes).ok()?;
    if inner.level() == 1 && inner.count() == 1 {
        Some(inner.inner_item(0))
    } else {
        None
    }
}

#[test]
fn what_is_read_is_the_node(rt: HostRuntime) {
    assert!(rt; only_row(&ONE_ROW) == Some((&ONE_ROW[6..15], &ONE_ROW[17..])));
    assert!(rt; only_below(&INNER) == Some((&INNER[6..7], Address([7; 20]), 2)));
}

/// A leaf of so many items, each with a key of two bytes, and the last byte of it as its value.
fn long_leaf(alloc: Global, count: u16) -> Result<Vec<u8>, AllocError> {
    let mut bytes = Vec::new(alloc);
    bytes.extend_from_slice(&[1, 0])?;
    bytes.extend_from_slice(&count.to_be_bytes())?;
    for number in 0..count {
        let key = number.to_be_bytes();
        bytes.extend_from_slice(&[0, 2, key[0], key[1], 0, 1, key[1]])?;
    }
    Ok(bytes)
}

/// Whether each item of a long leaf is found.
fn are_all_found(bytes: &[u8]) -> bool {
    let Ok(leaf) = node_in(bytes) else {
        return false;
    };
    if leaf.level() > 0 || leaf.count() != 1000 {
        return false;
    }
    for number in 0..leaf.count() {
        let (key, value) = leaf.leaf_item(number);
        if key != &number.to_be_bytes()[..] || value != &number.to_be_bytes()[1..] {
            return false;
        }
    }
    true
}

#[test]
fn each_item_of_a_long_leaf_is_found(rt: HostRuntime) -> Result<(), AllocError> {
    assert!(rt; are_all_found(&long_leaf(rt.alloc(), 1000)?));
    Ok(())
}

/// Where a few bytes go wrong, if they do.
fn fault(bytes: &[u8]) -> Option<u32> {
    match node_in(bytes) {
        Ok(_) => None,
        Err(malformed) => Some(malformed.at),
    }
}

#[test]
fn what_is_no_node_is_malformed_at_its_place(rt: HostRuntime) {
    assert!(rt; fault(&EMPTY).is_none());
    let mut no_row = INNER;
    no_row[34] = 0;
    for (bytes, at) in [
        (&EMPTY[..0], 0u32),
        (&EMPTY[..3], 0),
        (&[3, 0, 0, 0][..], 0),
        (&[1, 1, 0, 0][..], 0),
        (&[2, 1, 0, 0][..], 0),
        (&[1, 0, 0, 1][..], 4),
        (&[1, 0, 0, 0, 255][..], 4),
        (&ONE_ROW[..20], 4),
        (&[1, 0, 0, 2, 0, 1, 5, 0, 0, 0, 1, 5, 0, 0][..], 9),
        (&no_row[..], 4),
    ] {
        assert!(rt; fault(bytes) == Some(at));
    }
}

#[test]
fn a_node_ends_by_the_boundary_rule(rt: HostRuntime) {
    let low = [
        ends_here::<Low>(0, 20_000, 1, b"key"),
        ends_here::<Low>(0, 511, 2, b"key"),
        ends_here::<Low>(0, 512, 2, b"key"),
    ];
    assert!(rt; low == [false, false, true]);
    let high = [
        ends_here::<High>(0, 16_383, 2, b"key"),
        ends_here::<High>(0, 16_384, 2, b"key"),
    ];
    assert!(rt; high == [false, true]);
}
