//! Closing the open nodes of a tower, from the lowest inner level up.

ghost use Rattle.std.specs.Prelude.{◌≡◌, ◌<◌, ◌++◌, false, List, IfOk, IfErr, option_map, option_to_list};
ghost use Rattle.tuple_codec.specs.Nodes.{Item};
ghost use Rattle.node_format.specs.Views.{ref_of};
ghost use Rattle.chunk_store.specs.Drafts.{Grows, chunks_of};
ghost use Rattle.chunk_store.specs.Kinds.{is_node};
ghost use Rattle.node_chunker.specs.Closing.{CanClose, IsClosing, IsLevelClosed};
ghost use Rattle.chunk_store.specs.Clashes.{IsReason};
ghost use Rattle.node_chunker.specs.Growth.{IsWritable};
ghost use Rattle.node_chunker.specs.Subtrees.{IsAbove};
ghost use Rattle.node_chunker.specs.Towers.{is_empty};

use crate::inners::OpenInner;
use chunk_store::{Draft, PutFault};
use node_format::RefItem;
use tuple_codec::{Address, Digester};

/// What closing a level came to.
#[derive(Drop)]
pub(crate) enum Closed {
    /// The root's address.
    Root(Address),
    /// The name of the level's last node, or none where no item was left.
    Below(Option<RefItem>),
}

/// Closes the open nodes from level 1 up, the leaf having left a name or none: the address of the one node that is left.
pub(crate) fn close_levels<D: Digester>(
    mut inner: Vec<OpenInner>,
    mut room: Vec<u8>,
    draft: &mut Draft<D>,
    named: Option<RefItem>,
) -> Result<Address, PutFault>
    requires { CanClose D.address (chunks_of draft.old.chunks) 1 inner.items (option_to_list (option_map ref_of named)) }
    ensures ok { (rows : List Item) → IsClosing D.address (chunks_of draft.old.chunks) 1 inner.items (option_to_list (option_map ref_of named)) rows
        → IfOk result (λ top. IsAbove D.address (chunks_of draft.new.chunks) top.0 rows) }
    ensures grows { Grows is_node draft.old draft.new }
    ensures cause { IfErr result (IsReason D.address (chunks_of draft.new.chunks)) }
{
    let mut carry = named;
    for at in 0..inner.len() {
        let level = at as u8 + 1;
        let is_last = at + 1 == inner.len();
        match close_level(&mut room, &mut inner[at], draft, level, is_last, carry)? {
            Closed::Root(root) => return Ok(root),
            Closed::Below(named) => carry = named,
        }
    }
    match carry {
        Some(item) => Ok(item.address),
        None => unreachable!(),
    }
}

/// Closes the open node of one level, after the name that the level below has left.
fn close_level<D: Digester>(
    room: &mut Vec<u8>,
    node: &mut OpenInner,
    draft: &mut Draft<D>,
    level: u8,
    is_last: bool,
    carry: Option<RefItem>,
) -> Result<Closed, PutFault>
    requires level { 0 < level }
    requires fits { is_empty (node.old ++ option_to_list (option_map ref_of carry)) ≡ false → IsWritable level (node.old ++ option_to_list (option_map ref_of carry)) }
    ensures ok { IfOk result (λ closed. IsLevelClosed D.address (chunks_of draft.new.chunks) level (node.old ++ option_to_list (option_map ref_of carry)) is_last closed) }
    ensures grows { Grows is_node draft.old draft.new }
    ensures cause { IfErr result (IsReason D.address (chunks_of draft.new.chunks)) }
{
    node.take(level, room, carry)?;
    if let Some(root) = node.root(is_last) {
        return Ok(Closed::Root(root));
    }
    let named = node.close(room, draft, level)?;
    Ok(Closed::Below(named))
}
