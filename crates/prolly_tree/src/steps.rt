//! One node of a walk, with the items that it has left.

ghost use Rattle.std.specs.Prelude.{◌≡◌, ◌<◌, ◌∷◌, [], ℕ, IsTrue, MatchOption, Some, length, drop, slice_get, nat_lt};
ghost use Rattle.tuple_codec.specs.Nodes.{Node, IsNode};
ghost use Rattle.prolly_tree.specs.Walks.{left_in, step_left};
ghost use Rattle.prolly_tree.specs.Heads.{item_of, level_of};

use node_format::NodeRef;
use std::marker::Model;
use tuple_codec::Address;

/// The first of what a walk has left.
#[derive(Clone, Copy)]
pub enum WalkHead<'a> {
    Row {
        key: &'a [u8],
        value: &'a [u8],
    },
    /// A node of this level: its last key, its address, and how many rows are below.
    Below {
        level: u8,
        key: &'a [u8],
        address: Address,
        rows: u64,
    },
}

/// What a node has left. The default has nothing.
#[derive(Drop)]
pub(crate) struct Step<'a> {
    node: Option<NodeRef<'a>>,
    at: u16,
}

impl<'a> Model for Step<'a> {
    ghost use Rattle.tuple_codec.specs.Nodes.{Node};
    ghost use Rattle.prolly_tree.specs.Walks.{step_left};

    ghost Value = { Node };

    ghost view = { λ s. step_left s.node s.at };
}

impl Default for Step<'_> {
    fn default() -> Self {
        Step { node: None, at: 0 }
    }
}

impl<'a> Step<'a> {
    /// The items of a node from this one on.
    pub(crate) fn from(node: NodeRef<'a>, at: u16) -> Step<'a>
        ensures { result ≡ left_in node.entry at }
    {
        Step {
            node: Some(node),
            at,
        }
    }

    /// The first item that is left.
    pub(crate) fn head(&self) -> Option<WalkHead<'a>>
        ensures { MatchOption result (self.now.items ≡ [])
            (λ head. (self.now.items ≡ item_of head ∷ drop 1 self.now.items) × (self.now.level ≡ level_of head)) }
    {
        match &self.node {
            None => None,
            Some(node) => head_at(node, self.at),
        }
    }

    /// Leaves the first item.
    pub(crate) fn skip(&mut self)
        ensures { self.new ≡ left_in self.old 1 }
    {
        self.at = next_place(&self.node, self.at);
    }
}

/// The number of the item after this one, if there is this one.
fn next_place(node: &Option<NodeRef<'_>>, at: u16) -> u16
    ensures { step_left node.now result ≡ left_in (step_left node.now at) 1 }
{
    match node {
        None => at,
        Some(node) => next_in(node, at),
    }
}

fn next_in(node: &NodeRef<'_>, at: u16) -> u16
    ensures { drop result node.now.items ≡ drop 1 (drop at node.now.items) }
{
    if at < node.count() { at + 1 } else { at }
}

/// A node's item of this number, if there is one.
fn head_at<'a>(node: &NodeRef<'a>, at: u16) -> Option<WalkHead<'a>>
    ensures { MatchOption result (drop at node.now.items ≡ [])
        (λ head. (drop at node.now.items ≡ item_of head ∷ drop 1 (drop at node.now.items)) × (node.now.level ≡ level_of head)) }
{
    if at < node.count() {
        Some(item_at(node, at))
    } else {
        None
    }
}

/// A node's item of this number.
fn item_at<'a>(node: &NodeRef<'a>, at: u16) -> WalkHead<'a>
    requires { at < length node.now.items }
    ensures item { slice_get node.now.items at ≡ Some (item_of result) }
    ensures level { node.now.level ≡ level_of result }
{
    match node.level() {
        0 => {
            let (key, value) = node.leaf_item(at);
            WalkHead::Row { key, value }
        }
        level => {
            let (key, address, rows) = node.inner_item(at);
            WalkHead::Below {
                level: level - 1,
                key,
                address,
                rows,
            }
        }
    }
}
