//! Whether rows have keys that edits name, with each node read once.

ghost use Rattle.std.specs.Prelude.{◌≡◌, ◌<◌, ◌≤◌, List, None, length};
ghost use Rattle.std.specs.Ordering.{is_le};
ghost use Rattle.tuple_codec.specs.Edits.{EditsRiseAfter, order};
ghost use Rattle.tuple_codec.specs.Nodes.{Item, Node};
ghost use Rattle.chunk_store.specs.Drafts.{chunks_of};
ghost use Rattle.chunk_store.specs.Standing.{IsTree};
ghost use Rattle.prolly_tree.specs.Standing.{IsStored, Leads, rows_below};
ghost use Rattle.prolly_tree.specs.Lists.{StandsForRows, has_any};
ghost use Rattle.prolly_tree.specs.Meets.{IsNamed, count_up_to, leaf_has_any};

use crate::nodes::{get, node_at, place_of, value_in};
use chunk_store::Draft;
use node_format::NodeRef;
use tuple_codec::{Address, Digester, Edit};

/// Whether a row of the tree has the key of one of these edits, whose keys rise.
///
/// The tree is gone down once: at each node the edits are split among the nodes below, and of these only those are read that have
/// some. So each node is read at most once, and none after a row was found. One edit alone is looked up, which reads no node whole.
pub fn has_any<D: Digester>(draft: &Draft<D>, root: &Address, edits: &[Edit]) -> bool
    requires tree { StandsForRows D.address (chunks_of draft.now.chunks) root.now.0 }
    requires rise { EditsRiseAfter None edits.now }
    ensures { (rows : List Item) → IsTree D.address (chunks_of draft.now.chunks) root.now.0 rows → result ≡ has_any rows edits.now }
{
    match edits {
        [only] => get(draft, root, only.key.as_slice()).is_some(),
        _ => node_has_any(draft, &node_at(draft, root), edits),
    }
}

/// The same of the rows below a node.
fn node_has_any<D: Digester>(draft: &Draft<D>, node: &NodeRef<'_>, edits: &[Edit]) -> bool
    requires leads { Leads (chunks_of draft.now.chunks) node.now }
    requires rise { EditsRiseAfter None edits.now }
    ensures { result ≡ has_any (rows_below (chunks_of draft.now.chunks) node.now) edits.now }
{
    if node.level() == 0 {
        return leaf_has_any(node, edits);
    }
    let mut left = edits;
    'children: while let [edit, ..] = left {
        let at = place_of(node, edit.key.as_slice());
        if at == node.count() {
            return false;
        }
        let (last, address, _) = node.inner_item(at);
        let (here, more) = left.split_at(count_up_to(left, last));
        if node_has_any(draft, &node_below(draft, node, &address), here) {
            return true;
        }
        left = more;
    }
    false
}

/// The node at an address that an item of another names.
fn node_below<'a, D: Digester>(
    draft: &'a Draft<D>,
    node: &NodeRef<'_>,
    address: &Address,
) -> NodeRef<'a>
    requires leads { Leads (chunks_of draft.now.chunks) node.now }
    requires inner { 0 < node.now.level }
    requires named { IsNamed node.now address.now.0 }
    ensures deeper { result.level < node.now.level }
    ensures stored { (below : Node) → IsStored (chunks_of draft.now.chunks) address.now.0 below → result ≡ below }
{
    node_at(draft, address)
}

/// The same of the items of a leaf.
fn leaf_has_any(leaf: &NodeRef<'_>, edits: &[Edit]) -> bool
    requires { leaf.now.level ≡ 0 }
    ensures { result ≡ leaf_has_any leaf.now.items edits.now }
{
    for edit in edits {
        if value_in(leaf, edit.key.as_slice()).is_some() {
            return true;
        }
    }
    false
}

/// How many edits come before the first whose key is greater than this one.
fn count_up_to(edits: &[Edit], key: &[u8]) -> usize
    ensures count { result ≡ count_up_to key.now edits.now }
    ensures within { result ≤ length edits.now }
{
    let mut count = 0;
    'edits: while count < edits.len() && is_up_to(&edits[count], key) {
        count += 1;
    }
    count
}

fn is_up_to(edit: &Edit, key: &[u8]) -> bool
    ensures { result ≡ is_le (order edit.now.key key.now) }
{
    edit.key.as_slice().cmp(key).is_le()
}
