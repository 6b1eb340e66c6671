//! Nodes as bytes, each written into one buffer made to its measure.

ghost use Rattle.std.specs.Prelude.{◌≡◌, ◌<◌, ◌^◌, ◌++◌, length, take, IfOk, OnOk, OnErr};
ghost use Rattle.tuple_codec.specs.Nodes.{IsItem, IsNode, header_bytes, item_bytes, kind_of, leaf_item, node_bytes, sized};
ghost use Rattle.std.specs.Int.{w16, w64, to_be_bytes};
ghost use Rattle.node_format.specs.Views.{inner_node, leaf_node, leaf_of, ref_of};

use crate::items::{LeafItem, RefItem};
use byteorder::{BigEndian, ByteOrder};
use std::alloc::{AllocError, Global};
use tuple_codec::{Address, Blob};

/// The bytes of the leaf with these items. Their keys rise strictly by bytes; there may be none.
pub fn write_leaf(alloc: Global, items: &[LeafItem]) -> Result<Blob, AllocError>
    requires { IsNode (leaf_node items.now) }
    ensures { IfOk result (λ bytes. bytes ≡ node_bytes (leaf_node items.now)) }
{
    let mut out = Vec::with_capacity(alloc, leaf_size(items))?;
    push_header(&mut out, 0, items.len() as u16)?;
    for item in items {
        push_leaf(&mut out, item)?;
    }
    Ok(Blob::from_vec(out))
}

/// The bytes of the inner node of this level, above 0, with these items. Their keys rise strictly by bytes, there is at
/// least one, and each has a row below.
pub fn write_inner(alloc: Global, level: u8, items: &[RefItem]) -> Result<Blob, AllocError>
    requires level { 0 < level }
    requires node { IsNode (inner_node level items.now) }
    ensures { IfOk result (λ bytes. bytes ≡ node_bytes (inner_node level items.now)) }
{
    let mut out = Vec::with_capacity(alloc, inner_size(level, items))?;
    push_header(&mut out, level, items.len() as u16)?;
    for item in items {
        push_ref(&mut out, item)?;
    }
    Ok(Blob::from_vec(out))
}

/// How many bytes the leaf with these items has, for its buffer.
fn leaf_size(items: &[LeafItem]) -> usize
    requires { IsNode (leaf_node items.now) }
    ensures { result ≡ length (node_bytes (leaf_node items.now)) }
{
    let mut size = 4;
    for item in items {
        size += leaf_item_size(item);
    }
    size
}

fn leaf_item_size(item: &LeafItem) -> usize
    requires { IsItem 0 (leaf_of item.now) }
    ensures size { result ≡ length (item_bytes 0 (leaf_of item.now)) }
    ensures bound { result < 2 ^ 18 }
{
    row_size(item.key.as_slice(), item.value.as_slice()) as usize
}

/// How many bytes a row takes in a leaf.
pub fn row_size(key: &[u8], value: &[u8]) -> u32
    requires { length (item_bytes 0 (leaf_item key.now value.now)) < 2 ^ 18 }
    ensures size { result ≡ length (item_bytes 0 (leaf_item key.now value.now)) }
    ensures bound { result < 2 ^ 18 }
{
    (4 + key.len() + value.len()) as u32
}

/// How many bytes the inner node with these items has, for its buffer.
fn inner_size(level: u8, items: &[RefItem]) -> usize
    requires level { 0 < level }
    requires node { IsNode (inner_node level items.now) }
    ensures { result ≡ length (node_bytes (inner_node level items.now)) }
{
    let mut size = 4;
    for item in items {
        size += name_size(item) as usize;
    }
    size
}

/// How many bytes a name takes in an inner node.
pub fn name_size(item: &RefItem) -> u32
    requires { IsItem 1 (ref_of item.now) }
    ensures size { result ≡ length (item_bytes 1 (ref_of item.now)) }
    ensures bound { result < 2 ^ 18 }
{
    (10 + item.key.as_slice().len() + item.address.0.len()) as u32
}

fn push_header(out: &mut Vec<u8>, level: u8, count: u16) -> Result<(), AllocError>
    ensures { OnOk result (out.new.items ≡ out.old.items ++ header_bytes level count) }
{
    out.push(kind_of(level))?;
    out.push(level)?;
    push_u16(out, count)
}

pub(crate) fn kind_of(level: u8) -> u8
    ensures { result ≡ kind_of level }
{
    match level {
        0 => 1,
        _ => 2,
    }
}

fn push_leaf(out: &mut Vec<u8>, item: &LeafItem) -> Result<(), AllocError>
    requires { IsItem 0 (leaf_of item.now) }
    ensures { OnOk result (out.new.items ≡ out.old.items ++ item_bytes 0 (leaf_of item.now)) }
{
    push_row(out, item.key.as_slice(), item.value.as_slice())
}

fn push_ref(out: &mut Vec<u8>, item: &RefItem) -> Result<(), AllocError>
    requires { IsItem 1 (ref_of item.now) }
    ensures { OnOk result (out.new.items ≡ out.old.items ++ item_bytes 1 (ref_of item.now)) }
{
    push_name(out, item.key.as_slice(), &item.address, item.rows)
}

/// Writes a leaf's item; after a refusal what was there still is, at the front.
pub(crate) fn push_row(out: &mut Vec<u8>, key: &[u8], value: &[u8]) -> Result<(), AllocError>
    requires { IsItem 0 (leaf_item key.now value.now) }
    ensures ok { OnOk result (out.new.items ≡ out.old.items ++ item_bytes 0 (leaf_item key.now value.now)) }
    ensures err { OnErr result (take (length out.old.items) out.new.items ≡ out.old.items) }
{
    push_sized(out, key)?;
    push_sized(out, value)
}

/// Writes an inner node's item; after a refusal what was there still is, at the front.
pub(crate) fn push_name(
    out: &mut Vec<u8>,
    key: &[u8],
    address: &Address,
    rows: u64,
) -> Result<(), AllocError>
    requires { IsItem 1 (record { key = key.now; body = address.now.0; rows = rows }) }
    ensures ok { OnOk result (out.new.items ≡ out.old.items ++ item_bytes 1 (record { key = key.now; body = address.now.0; rows = rows })) }
    ensures err { OnErr result (take (length out.old.items) out.new.items ≡ out.old.items) }
{
    push_sized(out, key)?;
    out.extend_from_slice(&address.0)?;
    push_u64(out, rows)
}

/// A length and the bytes.
fn push_sized(out: &mut Vec<u8>, bytes: &[u8]) -> Result<(), AllocError>
    requires { length bytes.now < 2 ^ 16 }
    ensures err { OnErr result (take (length out.old.items) out.new.items ≡ out.old.items) }
    ensures ok { OnOk result (out.new.items ≡ out.old.items ++ sized bytes.now) }
{
    push_u16(out, bytes.len() as u16)?;
    out.extend_from_slice(bytes)
}

fn push_u16(out: &mut Vec<u8>, number: u16) -> Result<(), AllocError>
    ensures err { OnErr result (out.new.items ≡ out.old.items) }
    ensures ok { OnOk result (out.new.items ≡ out.old.items ++ to_be_bytes w16 number) }
{
    let mut bytes = [0; 2];
    BigEndian::write_u16(&mut bytes, number);
    out.extend_from_slice(&bytes)
}

fn push_u64(out: &mut Vec<u8>, number: u64) -> Result<(), AllocError>
    ensures err { OnErr result (out.new.items ≡ out.old.items) }
    ensures ok { OnOk result (out.new.items ≡ out.old.items ++ to_be_bytes w64 number) }
{
    let mut bytes = [0; 8];
    BigEndian::write_u64(&mut bytes, number);
    out.extend_from_slice(&bytes)
}
