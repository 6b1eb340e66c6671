//! Bytes that are known to be a node's, gone through from left to right without being read first.

ghost use Rattle.std.specs.Prelude.{◌≡◌, ◌++◌, ℕ, List, length};
ghost use Rattle.tuple_codec.specs.Nodes.{IsItem, IsNode, Item, Node, item_bytes, items_bytes, leaf_item, node_bytes};

use crate::fields::{inner_at, leaf_at};
use crate::scan::header_at;
use std::marker::Model;
use tuple_codec::Address;

/// A node that lies in bytes which are known to be a node's, so that they needn't be read: making it takes the same time for
/// each node. Its items are gone through by [`first_row`] or [`first_name`].
#[derive(Drop)]
pub struct KnownNode<'a> {
    level: u8,
    count: u16,
    items: &'a [u8],
}

impl<'a> Model for KnownNode<'a> {
    ghost use Rattle.tuple_codec.specs.Nodes.{Node};
    ghost use Rattle.node_format.specs.Marks.{node_from};
    ghost use Rattle.node_format.specs.Known.{IsKnown};

    ghost Value = { Node };

    ghost view = { λ n. node_from n.level n.count n.items.now };

    ghost invariant = { λ n. IsKnown n.level n.count n.items.now };
}

impl<'a> KnownNode<'a> {
    /// The node whose bytes these are.
    pub fn of(bytes: &'a [u8]) -> KnownNode<'a>
        requires { (node : Node) × IsNode node × (bytes.now ≡ node_bytes node) }
        ensures { (node : Node) → IsNode node → bytes.now ≡ node_bytes node → result ≡ node }
    {
        match header_at(bytes) {
            Some((level, count, items)) => KnownNode {
                level,
                count,
                items,
            },
            None => unreachable!(),
        }
    }

    /// The level: 0 for a leaf.
    pub fn level(&self) -> u8
        ensures { result ≡ self.now.level }
    {
        self.level
    }

    /// How many items the node has.
    pub fn count(&self) -> u16
        ensures { result ≡ length self.now.items }
    {
        self.count
    }

    /// The bytes of all items.
    pub fn items(&self) -> &'a [u8]
        ensures bytes { result.now ≡ items_bytes self.now.level self.now.items }
        ensures node { IsNode self.now }
    {
        self.items
    }
}

/// The row at the front of bytes: its key and its value. It takes 4 bytes more than these.
pub fn first_row(bytes: &[u8]) -> (&[u8], &[u8])
    requires { (item : Item) × (rest : List ℕ) × IsItem 0 item × (bytes.now ≡ item_bytes 0 item ++ rest) }
    ensures { (item : Item) (rest : List ℕ) → IsItem 0 item → bytes.now ≡ item_bytes 0 item ++ rest → item ≡ leaf_item result.0.now result.1.now }
{
    match leaf_at(bytes) {
        Some((row, _)) => row,
        None => unreachable!(),
    }
}

/// The name at the front of bytes: the last key below, the address of the node below, and how many rows that has. It takes
/// 30 bytes more than its key.
pub fn first_name(bytes: &[u8]) -> (&[u8], Address, u64)
    requires { (item : Item) × (rest : List ℕ) × IsItem 1 item × (bytes.now ≡ item_bytes 1 item ++ rest) }
    ensures { (item : Item) (rest : List ℕ) → IsItem 1 item → bytes.now ≡ item_bytes 1 item ++ rest → item ≡ record { key = result.0.now; body = result.1.0; rows = result.2 } }
{
    match inner_at(bytes) {
        Some((item, _)) => (item.key, Address::from_slice(item.body), item.rows),
        None => unreachable!(),
    }
}
