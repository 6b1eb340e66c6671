//! Going down to a root, from a node that has all rows of a tree below it.

ghost use Rattle.std.specs.Prelude.{◌≡◌, List, option_map};
ghost use Rattle.tuple_codec.specs.Nodes.{Item, Node};
ghost use Rattle.chunk_store.specs.Drafts.{chunks_of};
ghost use Rattle.chunk_store.specs.Standing.{IsTree};
ghost use Rattle.prolly_tree.specs.Standing.{IsStored};
ghost use Rattle.node_chunker.specs.Lowest.{IsOnlyName};
ghost use Rattle.node_chunker.specs.Subtrees.{IsAbove};

use chunk_store::Draft;
use node_format::first_name;
use prolly_tree::known_at;
use tuple_codec::{Address, Digester};

/// The root of the tree of the rows below a node. The root is the lowest node that has them all: a node of one name isn't it, as the
/// node below has them too. A subtree that was pushed alone may be a chain of such nodes.
pub(crate) fn lowest<D: Digester>(draft: &Draft<D>, top: Address) -> Address
    requires { (rows : List Item) × IsAbove D.address (chunks_of draft.now.chunks) top.0 rows }
    ensures { (rows : List Item) → IsAbove D.address (chunks_of draft.now.chunks) top.0 rows → IsTree D.address (chunks_of draft.now.chunks) result.0 rows }
{
    let mut root = top;
    'down: while let Some(below) = only_name(draft, &root) {
        root = below;
    }
    root
}

/// The address in the one name that an inner node has, if it has no more.
fn only_name<D: Digester>(draft: &Draft<D>, address: &Address) -> Option<Address>
    requires { (node : Node) × IsStored (chunks_of draft.now.chunks) address.now.0 node }
    ensures { (node : Node) → IsStored (chunks_of draft.now.chunks) address.now.0 node → IsOnlyName node (option_map (λ k. k.0) result) }
{
    let node = known_at(draft, address);
    if node.level() == 0 {
        return None;
    }
    if node.count() != 1 {
        return None;
    }
    let (_, below, _) = first_name(node.items());
    Some(below)
}
