//! Nodes copied out of a draft, so that it can change while they are gone through.

ghost use Rattle.std.specs.Prelude.{◌≡◌, ◌<◌, ◌+◌, ◌-◌, take, ℕ, List, IfOk, OnOk, length, slice_get, Some};
ghost use Rattle.tuple_codec.specs.Nodes.{Item, Node, items_bytes, node_bytes};
ghost use Rattle.node_format.specs.Outlasting.{Outlasts};
ghost use Rattle.prolly_edit.specs.Keeping.{StaysOpen};
ghost use Rattle.chunk_store.specs.Drafts.{chunks_of};
ghost use Rattle.prolly_tree.specs.Standing.{IsStored};

use crate::paths::Step;
use chunk_store::Draft;
use node_format::{KnownNode, steps_of};
use std::alloc::{AllocError, Global};
use tuple_codec::{Address, Digester};

/// Copies the bytes of the node at an address into room for them, in place of what stands there.
pub(crate) fn copy_node<D: Digester>(
    draft: &Draft<D>,
    address: &Address,
    room: &mut Vec<u8>,
) -> Result<(), AllocError>
    requires { (node : Node) × IsStored (chunks_of draft.now.chunks) address.now.0 node }
    ensures { (node : Node) → IsStored (chunks_of draft.now.chunks) address.now.0 node → OnOk result (room.new.items ≡ node_bytes node) }
{
    match draft.get(address) {
        Some(bytes) => {
            room.clear();
            room.extend_from_slice(bytes)
        }
        None => unreachable!(),
    }
}

/// The names in the inner node at an address.
pub(crate) fn step_at<D: Digester>(
    alloc: Global,
    draft: &Draft<D>,
    address: &Address,
) -> Result<Step<D>, AllocError>
    requires { (node : Node) × (0 < node.level) × IsStored (chunks_of draft.now.chunks) address.now.0 node × StaysOpen D.address node.level node.items }
    ensures { (node : Node) → IsStored (chunks_of draft.now.chunks) address.now.0 node → 0 < node.level
        → IfOk result (λ step. step ≡ record { level = node.level - 1; items = node.items }) }
{
    let mut bytes = Vec::new(alloc);
    copy_node(draft, address, &mut bytes)?;
    Ok(Step::new(bytes))
}

/// How many steps an item of a node outlasts, by which the node's bytes are `size`: none are known of the last.
pub(crate) fn steps_at(node: &KnownNode<'_>, at: u16, size: u32) -> u32
    ensures { (address : List ℕ → List ℕ) (level : ℕ) (item : Item) → StaysOpen address level node.now.items → slice_get node.now.items at ≡ Some item
        → size ≡ 4 + length (items_bytes level (take (at + 1) node.now.items)) → Outlasts address level result item.key }
{
    let place = u32::from(at) + 1;
    if place < u32::from(node.count()) {
        steps_of(size, place)
    } else {
        0
    }
}
