//! The items of nodes.

use tuple_codec::{Address, Blob};

/// An item of a leaf: a key and what is kept under it, each of fewer than 2^16 bytes.
#[derive(Drop)]
pub struct LeafItem {
    pub key: Blob,
    pub value: Blob,
}

/// An item of an inner node: the last key below it, the address of the node that it names, and how many rows are below.
#[derive(Drop)]
pub struct RefItem {
    pub key: Blob,
    pub address: Address,
    pub rows: u64,
}
