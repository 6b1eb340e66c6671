//! A node that built item by item, as its bytes.

ghost use Rattle.std.specs.Prelude.{◌≡◌, ◌≤◌, ◌<◌, ◌+◌, ◌^◌, ◌++◌, ◌∷◌, [], drop, length, OnOk, OnErr, IfOk};
ghost use Rattle.tuple_codec.specs.Nodes.{IsItem, Node, header_bytes, item_bytes, items_bytes, leaf_item, node_bytes};
ghost use Rattle.tuple_codec.specs.Trees.{last_key};

use crate::writing::{kind_of, push_name, push_row};
use std::alloc::{AllocError, Global};
use std::marker::Model;
use tuple_codec::Address;

/// For how many bytes a new node has room.
const ROOM: usize = 8192;

/// A node that built, in its bytes.
#[derive(Drop)]
pub struct NodeBuilder {
    level: u8,
    count: u16,
    bytes: Vec<u8>,
    key_start: u32,
    key_size: u32,
}

impl Model for NodeBuilder {
    ghost use Rattle.tuple_codec.specs.Nodes.{Node};
    ghost use Rattle.node_format.specs.Building.{IsBuilt, items_after};

    ghost Value = { Node };

    ghost view = { λ n. record { level = n.level; items = items_after n.level n.count n.bytes.items } };

    ghost invariant = { λ n. IsBuilt n.level n.count n.bytes.items n.key_start n.key_size };
}

impl NodeBuilder {
    /// A node without an item: a leaf at level 0, else an inner node.
    pub fn new(alloc: Global, level: u8) -> Result<NodeBuilder, AllocError>
        ensures { IfOk result (λ node. node ≡ record { level = level; items = [] }) }
    {
        let mut bytes = Vec::with_capacity(alloc, ROOM)?;
        bytes.extend_from_slice(&[kind_of(level), level, 0, 0])?;
        Ok(NodeBuilder {
            level,
            count: 0,
            bytes,
            key_start: 4,
            key_size: 0,
        })
    }

    /// How many bytes the node has so far.
    pub fn size(&self) -> usize
        ensures { result ≡ 4 + length (items_bytes self.now.level self.now.items) }
    {
        self.bytes.len()
    }

    /// How many items the node has so far.
    pub fn count(&self) -> u16
        ensures { result ≡ length self.now.items }
    {
        self.count
    }

    /// The key of the last item; empty where there is none.
    pub fn last_key(&self) -> &[u8]
        ensures { result.now ≡ last_key self.now.items }
    {
        let start = self.key_start as usize;
        &self.bytes[start..start + self.key_size as usize]
    }

    /// Adds a row to a leaf; its key isn't compared with those before it.
    pub fn push_row(&mut self, key: &[u8], value: &[u8]) -> Result<(), AllocError>
        requires leaf { self.old.level ≡ 0 }
        requires item { IsItem 0 (leaf_item key.now value.now) }
        requires few { length self.old.items + 1 < 2 ^ 16 }
        requires small { length (items_bytes 0 self.old.items) + length (item_bytes 0 (leaf_item key.now value.now)) ≤ 65532 }
        ensures ok { OnOk result (self.new.items ≡ self.old.items ++ leaf_item key.now value.now ∷ []) }
        ensures err { OnErr result (self.new.items ≡ self.old.items) }
        ensures level { self.new.level ≡ self.old.level }
    {
        let start = self.bytes.len();
        match push_row(&mut self.bytes, key, value) {
            Ok(()) => {
                self.count += 1;
                put_header(&mut self.bytes, self.level, self.count);
                self.key_start = start as u32 + 2;
                self.key_size = key.len() as u32;
                Ok(())
            }
            Err(error) => {
                self.bytes.truncate(start);
                Err(error)
            }
        }
    }

    /// Adds a name to an inner node; its key isn't compared with those before it.
    pub fn push_name(&mut self, key: &[u8], address: &Address, rows: u64) -> Result<(), AllocError>
        requires inner { 0 < self.old.level }
        requires item { IsItem 1 (record { key = key.now; body = address.now.0; rows = rows }) }
        requires few { length self.old.items + 1 < 2 ^ 16 }
        requires small { length (items_bytes self.old.level self.old.items) ≤ 65532 }
        ensures ok { OnOk result (self.new.items ≡ self.old.items ++ record { key = key.now; body = address.now.0; rows = rows } ∷ []) }
        ensures err { OnErr result (self.new.items ≡ self.old.items) }
        ensures level { self.new.level ≡ self.old.level }
    {
        let start = self.bytes.len();
        match push_name(&mut self.bytes, key, address, rows) {
            Ok(()) => {
                self.count += 1;
                put_header(&mut self.bytes, self.level, self.count);
                self.key_start = start as u32 + 2;
                self.key_size = key.len() as u32;
                Ok(())
            }
            Err(error) => {
                self.bytes.truncate(start);
                Err(error)
            }
        }
    }

    /// Moves an inner node to another level above the leaves: its items' bytes are the same there.
    pub fn set_level(&mut self, level: u8)
        requires inner { 0 < self.old.level }
        requires above { 0 < level }
        ensures { self.new ≡ record { level = level; items = self.old.items } }
    {
        put_header(&mut self.bytes, level, self.count);
        self.level = level;
    }

    /// The node's bytes, as [`write_leaf`](crate::write_leaf) and [`write_inner`](crate::write_inner) would give them.
    pub fn bytes(&self) -> &[u8]
        ensures { result.now ≡ node_bytes self.now }
    {
        &self.bytes
    }

    /// Takes all items out, and keeps the room.
    pub fn clear(&mut self)
        ensures { self.new ≡ record { level = self.old.level; items = [] } }
    {
        self.bytes.truncate(4);
        self.count = 0;
        put_header(&mut self.bytes, self.level, 0);
        self.key_start = 4;
        self.key_size = 0;
    }
}

/// Writes a header over the one that stands there.
fn put_header(bytes: &mut Vec<u8>, level: u8, count: u16)
    requires { 4 ≤ length bytes.old.items }
    ensures { bytes.new.items ≡ header_bytes level count ++ drop 4 bytes.old.items }
{
    let [high, low] = count.to_be_bytes();
    bytes[0] = kind_of(level);
    bytes[1] = level;
    bytes[2] = high;
    bytes[3] = low;
}
