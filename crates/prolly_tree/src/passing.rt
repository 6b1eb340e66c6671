//! Nodes that are gone through from their front, in bytes that are known to be a node's.

ghost use Rattle.std.specs.Prelude.{◌≡◌, ◌<◌, ◌^◌, MatchOption, None, Some, bytes_eq, if◌then◌else◌, length, option_map, slice_get};
ghost use Rattle.tuple_codec.specs.Nodes.{IsNode, Item};
ghost use Rattle.tuple_codec.specs.Trees.{rows_in};
ghost use Rattle.prolly_tree.specs.Lists.{first_of, from_key, place_of};

use crate::nodes::is_below;
use node_format::{KnownNode, first_name, first_row};
use tuple_codec::Address;

/// The address in an inner node's first name whose key isn't below this one.
pub(crate) fn address_from(node: &KnownNode<'_>, key: &[u8]) -> Option<Address>
    requires { 0 < node.now.level }
    ensures { MatchOption result (place_of key.now node.now.items ≡ length node.now.items)
        (λ address. (item : Item) × (slice_get node.now.items (place_of key.now node.now.items) ≡ Some item) × (item.body ≡ address.0)) }
{
    let mut rest = node.items();
    for _name in 0..node.count() {
        let (last, address, _) = first_name(rest);
        if !is_below(last, key) {
            return Some(address);
        }
        let (_, others) = rest.split_at(30 + last.len());
        rest = others;
    }
    None
}

/// The value at a key in a leaf.
pub(crate) fn value_from<'a>(leaf: &KnownNode<'a>, key: &[u8]) -> Option<&'a [u8]>
    requires { leaf.now.level ≡ 0 }
    ensures { option_map (λ value. value.now) result ≡ first_of key.now (from_key key.now leaf.now.items) }
{
    let mut rest = leaf.items();
    for _row in 0..leaf.count() {
        let (found, value) = first_row(rest);
        if !is_below(found, key) {
            return value_of(found, value, key);
        }
        let (_, others) = rest.split_at(4 + found.len() + value.len());
        rest = others;
    }
    None
}

/// A row's value, if the row has this key.
fn value_of<'a>(found: &[u8], value: &'a [u8], key: &[u8]) -> Option<&'a [u8]>
    ensures { option_map (λ value. value.now) result ≡ (if bytes_eq found.now key.now then Some value.now else None) }
{
    if found == key { Some(value) } else { None }
}

/// How many rows are below a node.
pub(crate) fn rows_in(node: &KnownNode<'_>) -> u64
    requires node { IsNode node.now }
    requires few { rows_in node.now.items < 2 ^ 64 }
    ensures { result ≡ rows_in node.now.items }
{
    if node.level() == 0 {
        u64::from(node.count())
    } else {
        rows_named(node)
    }
}

/// How many rows are below an inner node.
fn rows_named(node: &KnownNode<'_>) -> u64
    requires inner { 0 < node.now.level }
    requires few { rows_in node.now.items < 2 ^ 64 }
    ensures { result ≡ rows_in node.now.items }
{
    let mut rows = 0;
    let mut rest = node.items();
    for _name in 0..node.count() {
        let (last, _, below) = first_name(rest);
        rows += below;
        let (_, others) = rest.split_at(30 + last.len());
        rest = others;
    }
    rows
}
