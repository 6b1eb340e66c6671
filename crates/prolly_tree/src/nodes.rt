//! Nodes that are found at addresses, and what is looked up in them.

ghost use Rattle.std.specs.Prelude.{◌≡◌, ◌<◌, ◌≤◌, ℕ, List, Some, length, option_map, slice_get};
ghost use Rattle.std.specs.Ordering.{nat_cmp, is_lt};
ghost use Rattle.std.specs.Cmp.Lexicographic.{slice_cmp};
ghost use Rattle.tuple_codec.specs.Nodes.{Item, Node, IsNode};
ghost use Rattle.chunk_store.specs.Drafts.{chunks_of};
ghost use Rattle.chunk_store.specs.Standing.{IsTree};
ghost use Rattle.prolly_tree.specs.Standing.{IsOpen, IsStored, rows_below};
ghost use Rattle.tuple_codec.specs.Edits.{value_at};
ghost use Rattle.prolly_tree.specs.Lists.{StandsForRows, first_of, from_key, place_of};

use crate::passing::{address_from, rows_in, value_from};
use chunk_store::Draft;
use node_format::{KnownNode, NodeRef};
use tuple_codec::{Address, Digester};

/// The value of the row with this key. One node a level is gone through, from its front up to the key.
pub fn get<'a, D: Digester>(draft: &'a Draft<D>, root: &Address, key: &[u8]) -> Option<&'a [u8]>
    requires tree { StandsForRows D.address (chunks_of draft.now.chunks) root.now.0 }
    ensures { (rows : List Item) → IsTree D.address (chunks_of draft.now.chunks) root.now.0 rows
        → option_map (λ value. value.now) result ≡ value_at key.now rows }
{
    get_below(draft, root, key)
}

/// How many rows the tree has. The root alone is read.
pub fn count<D: Digester>(draft: &Draft<D>, root: &Address) -> u64
    requires tree { StandsForRows D.address (chunks_of draft.now.chunks) root.now.0 }
    ensures { (rows : List Item) → IsTree D.address (chunks_of draft.now.chunks) root.now.0 rows → result ≡ length rows }
{
    rows_in(&known_at(draft, root))
}

/// The node at an address, for crates that go through trees by themselves. It reads one chunk.
pub(crate) fn node_at<'a, D: Digester>(draft: &'a Draft<D>, address: &Address) -> NodeRef<'a>
    requires { (node : Node) × IsStored (chunks_of draft.now.chunks) address.now.0 node }
    ensures { (node : Node) → IsStored (chunks_of draft.now.chunks) address.now.0 node → result ≡ node }
{
    match draft.get(address) {
        Some(bytes) => match NodeRef::read(bytes) {
            Ok(node) => node,
            Err(_) => unreachable!(),
        },
        None => unreachable!(),
    }
}

/// The node at an address, for crates that go through trees by themselves. Its items aren't read.
pub fn known_at<'a, D: Digester>(draft: &'a Draft<D>, address: &Address) -> KnownNode<'a>
    requires { (node : Node) × IsStored (chunks_of draft.now.chunks) address.now.0 node }
    ensures { (node : Node) → IsStored (chunks_of draft.now.chunks) address.now.0 node → result ≡ node }
{
    match draft.get(address) {
        Some(bytes) => KnownNode::of(bytes),
        None => unreachable!(),
    }
}

/// The value at a key among the rows below the node at an address.
fn get_below<'a, D: Digester>(
    draft: &'a Draft<D>,
    address: &Address,
    key: &[u8],
) -> Option<&'a [u8]>
    requires { (node : Node) × IsOpen (chunks_of draft.now.chunks) address.now.0 node }
    ensures { (node : Node) → IsOpen (chunks_of draft.now.chunks) address.now.0 node
        → option_map (λ value. value.now) result ≡ value_at key.now (rows_below (chunks_of draft.now.chunks) node) }
{
    let mut node = known_at(draft, address);
    'levels: while node.level() > 0 {
        match address_from(&node, key) {
            None => return None,
            Some(address) => node = known_at(draft, &address),
        }
    }
    value_from(&node, key)
}

/// The value at a key in a leaf.
pub(crate) fn value_in<'a>(leaf: &NodeRef<'a>, key: &[u8]) -> Option<&'a [u8]>
    requires { leaf.now.level ≡ 0 }
    ensures { option_map (λ value. value.now) result ≡ first_of key.now (from_key key.now leaf.now.items) }
{
    let at = place_of(leaf, key);
    if at == leaf.count() {
        return None;
    }
    let (found, value) = leaf.leaf_item(at);
    if found == key { Some(value) } else { None }
}

/// The number of a node's first item whose key isn't below this one; the items' count where there is none.
pub(crate) fn place_of(node: &NodeRef<'_>, key: &[u8]) -> u16
    ensures place { result ≡ place_of key.now node.now.items }
    ensures within { result ≤ length node.now.items }
{
    let mut low = 0;
    let mut high = node.count();
    'halves: while low < high {
        let middle = low + (high - low) / 2;
        if is_below(key_at(node, middle), key) {
            low = middle + 1;
        } else {
            high = middle;
        }
    }
    low
}

pub(crate) fn is_below(some: &[u8], other: &[u8]) -> bool
    ensures { result ≡ is_lt (slice_cmp nat_cmp some.now other.now) }
{
    some.cmp(other).is_lt()
}

/// The key of a node's item.
fn key_at<'a>(node: &NodeRef<'a>, at: u16) -> &'a [u8]
    requires { at < length node.now.items }
    ensures key { option_map (λ item. item.key) (slice_get node.now.items at) ≡ Some result.now }
    ensures node { IsNode node.now }
{
    match node.level() {
        0 => node.leaf_item(at).0,
        _ => node.inner_item(at).0,
    }
}
