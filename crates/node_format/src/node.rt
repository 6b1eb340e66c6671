//! A node that lies in bytes, read in place.

ghost use Rattle.std.specs.Prelude.{◌≡◌, ◌<◌, ◌^◌, length, IfOk, IfErr, OnErr, Some};
ghost use Rattle.std.specs.Option.{option_map};
ghost use Rattle.std.specs.List.{slice_get};
ghost use Rattle.tuple_codec.specs.Nodes.{IsNode, leaf_item, node_bytes};
ghost use Rattle.node_format.specs.Views.{seen};
ghost use Rattle.node_format.specs.Reading.{item_at};
ghost use Rattle.node_format.specs.Faults.{IsFaultAt, IsNoNode};

use crate::fields::{ItemRef, inner_at, leaf_at};
use crate::marks::{Marks, after_items};
use crate::scan::{header_at, scan};
use std::marker::Model;
use tuple_codec::Address;

/// Bytes that are no node's, with the offset where they go wrong.
///
/// The offset is 0 where the header is short, its kind or level is wrong, or an inner node has no item. Else it is that
/// of the first item that is cut short, whose key doesn't rise, or which has no row below; else that of the first byte
/// after the last item.
#[derive(Clone, Copy, PartialEq, Eq)]
pub struct Malformed {
    pub at: u32,
}

/// A node that lies in bytes. It takes no memory beside itself, about 540 bytes.
///
/// The places of some items are noted while the node is read: of each one in a node of fewer than 128 items, of each
/// second one below 256, and so on. An item is then found from the last noted place before it, by as many short steps
/// over lengths as items lie between: none below 128 items, at most n / 128 in a node of n items.
#[derive(Drop)]
pub struct NodeRef<'a> {
    level: u8,
    count: u16,
    items: &'a [u8],
    marks: Marks,
}

impl<'a> Model for NodeRef<'a> {
    ghost use Rattle.tuple_codec.specs.Nodes.{Node};
    ghost use Rattle.node_format.specs.Marks.{IsRead, node_from};

    ghost Value = { Node };

    ghost view = { λ n. node_from n.level n.count n.items.now };

    ghost invariant = { λ n. IsRead n.level n.count n.items.now n.marks.stride n.marks.places };
}

impl<'a> NodeRef<'a> {
    /// The node whose bytes these are, all of them. It takes time for each item once.
    pub fn read(bytes: &'a [u8]) -> Result<NodeRef<'a>, Malformed>
        requires { length bytes.now < 2 ^ 32 }
        ensures node { IfOk result (λ node. IsNode node) }
        ensures bytes { IfOk result (λ node. bytes.now ≡ node_bytes node) }
        ensures malformed { OnErr result (IsNoNode bytes.now) }
        ensures place { IfErr result (λ malformed. IsFaultAt bytes.now malformed.at) }
    {
        match header_at(bytes) {
            None => Err(Malformed { at: 0 }),
            Some((level, count, items)) => match scan(level, count, items) {
                Ok(marks) => Ok(NodeRef {
                    level,
                    count,
                    items,
                    marks,
                }),
                Err(rest) => Err(Malformed {
                    at: (bytes.len() - rest.len()) as u32,
                }),
            },
        }
    }

    /// The level: 0 for a leaf.
    pub fn level(&self) -> u8
        ensures level { result ≡ self.now.level }
        ensures node { IsNode self.now }
    {
        self.level
    }

    /// How many items the node has.
    pub fn count(&self) -> u16
        ensures { result ≡ length self.now.items }
    {
        self.count
    }

    /// A leaf's item of this number: its key and its value.
    pub fn leaf_item(&self, i: u16) -> (&'a [u8], &'a [u8])
        requires leaf { self.now.level ≡ 0 }
        requires within { i < length self.now.items }
        ensures { slice_get self.now.items i ≡ Some (leaf_item result.0.now result.1.now) }
    {
        match leaf_at(self.from_item(i)) {
            Some((item, _)) => item,
            None => unreachable!(),
        }
    }

    /// An inner node's item of this number: the last key below, the address of the node below, and how many rows that has.
    pub fn inner_item(&self, i: u16) -> (&'a [u8], Address, u64)
        requires inner { 0 < self.now.level }
        requires within { i < length self.now.items }
        ensures { slice_get self.now.items i ≡ Some (record { key = result.0.now; body = result.1.0; rows = result.2 }) }
    {
        match inner_at(self.from_item(i)) {
            Some((item, _)) => (item.key, Address::from_slice(item.body), item.rows),
            None => unreachable!(),
        }
    }

    /// The bytes from the item of this number on.
    fn from_item(&self, i: u16) -> &'a [u8]
        requires { i < length self.now.items }
        ensures { option_map (λ x. x.0) (item_at self.now.level result.now) ≡ slice_get self.now.items i }
    {
        let mark = usize::from(i / self.marks.stride);
        let place = self.marks.places[mark] as usize;
        let (_, marked) = self.items.split_at(place);
        after_items(self.level, i % self.marks.stride, marked)
    }
}
