//! Edits of a tree: the walk through the old tree while the new one grows.

ghost use Rattle.std.specs.Prelude.{◌≡◌, ◌<◌, ◌∷◌, ◌++◌, ◌-◌, ◌&&◌, suc, List, length, IfOk, IfErr, OnOk, not};
ghost use Rattle.tuple_codec.specs.Nodes.{Item, Node};
ghost use Rattle.tuple_codec.specs.Edits.{edited};
ghost use Rattle.chunk_store.specs.Chunks.{Chunks};
ghost use Rattle.chunk_store.specs.Drafts.{Grows, chunks_of};
ghost use Rattle.chunk_store.specs.Kinds.{is_node};
ghost use Rattle.chunk_store.specs.Standing.{IsTree};
ghost use Rattle.chunk_store.specs.Clashes.{IsReason};
ghost use Rattle.node_chunker.specs.Subtrees.{is_clear};
ghost use Rattle.prolly_edit.specs.Editing.{CanEdit};
ghost use Rattle.prolly_tree.specs.Standing.{IsStored};
ghost use Rattle.prolly_edit.specs.Fronts.{is_over};
ghost use Rattle.prolly_tree.specs.Fronts.{on_level};
ghost use Rattle.node_format.specs.Outlasting.{Outlasts};
ghost use Rattle.prolly_edit.specs.Names.{item_of};
ghost use Rattle.prolly_edit.specs.Keeping.{StaysOpen};
ghost use Rattle.prolly_edit.specs.Stages.{Awaits, IsBeforeNode, IsGoing, IsRead, IsTurn, is_past};

use crate::merging::{edit_rows, is_past, put_edits};
use crate::paths::{Name, Path};
use crate::reading::{copy_node, step_at};
use chunk_store::{Draft, PutFault};
use node_chunker::Tower;
use node_format::{KnownNode, RefItem};
use prolly_tree::known_at;
use std::alloc::{AllocError, Global};
use tuple_codec::{Address, Digester, Edit};

/// The room for the names and leaves that an edit reads, one after another: few leaves have more bytes.
const ROOM: usize = 8192;

/// Edits a tree: the address of the root of the tree of the edited rows. Edits come by rising key; one puts its value
/// at its key, in place of the one there if there is one, or removes the key.
///
/// It reads the paths to the edits, the last node of each level, and after each edit the few nodes up to where the old
/// and the new tree end a node at the same key. All else goes over as names of whole subtrees, and only nodes that
/// aren't there yet are put.
pub fn apply<D: Digester>(
    alloc: Global,
    draft: &mut Draft<D>,
    root: &Address,
    edits: &[Edit],
) -> Result<Address, PutFault>
    requires { (rows : List Item) × CanEdit D.address (chunks_of draft.old.chunks) root.now.0 edits.now rows }
    ensures ok { (rows : List Item) → IsTree D.address (chunks_of draft.old.chunks) root.now.0 rows
        → IfOk result (λ root. IsTree D.address (chunks_of draft.new.chunks) root.0 (edited rows edits.now)) }
    ensures grows { Grows is_node draft.old draft.new }
    ensures cause { IfErr result (IsReason D.address (chunks_of draft.new.chunks)) }
{
    let mut tower = Tower::new(alloc)?;
    let mut path = Path::new(alloc);
    let level = known_at(draft, root).level();
    let mut room = Vec::with_capacity(alloc, ROOM)?;
    let mut left = read(draft, &mut tower, &mut path, &mut room, edits, level, root)?;
    'parts: while let Some((level, name)) = path.next(&mut room)? {
        left = turn(draft, &mut tower, &mut path, &mut room, left, level, name)?;
    }
    put_edits(&mut tower, draft, left)?;
    tower.finish(draft)
}

/// Pushes the rows below a node that comes before all others, or reads it; the edits that are left. The key of the
/// node's name is the room of the next one.
fn turn<'a, D: Digester>(
    draft: &mut Draft<D>,
    tower: &mut Tower,
    path: &mut Path<D>,
    room: &mut Vec<u8>,
    edits: &'a [Edit],
    level: u8,
    name: Name,
) -> Result<&'a [Edit], PutFault>
    requires going { (start : Chunks) × (whole : List Item) × IsGoing D.address start (chunks_of draft.old.chunks) tower.old ((level, item_of name) ∷ path.old) edits.now whole }
    requires known { Outlasts D.address (suc level) name.steps (item_of name).key }
    ensures ok { (start : Chunks) (whole : List Item) → IsGoing D.address start (chunks_of draft.old.chunks) tower.old ((level, item_of name) ∷ path.old) edits.now whole
        → IfOk result (λ left. IsTurn D.address start (chunks_of draft.new.chunks) tower.new ((level, item_of name) ∷ path.old) path.new left.now whole) }
    ensures grows { Grows is_node draft.old draft.new }
    ensures cause { IfErr result (IsReason D.address (chunks_of draft.new.chunks)) }
{
    let Name { item, steps } = name;
    if stays(tower, path, edits, level, &item) {
        tower.push_kept_ref(draft, level + 1, &item, steps)?;
        *room = item.key.into_vec();
        return Ok(edits);
    }
    let address = item.address;
    *room = item.key.into_vec();
    read(draft, tower, path, room, edits, level, &address)
}

/// Whether a node's subtree is pushed whole: no edit comes before its end, it ended by the boundary rule since something
/// follows, and the tower begins a node of its level and of each below it just there.
fn stays<D: Digester>(
    tower: &Tower,
    path: &Path<D>,
    edits: &[Edit],
    level: u8,
    item: &RefItem,
) -> bool
    requires { level < 255 }
    ensures { result ≡ (is_past item.now.key edits.now && not (is_over path.now) && is_clear (suc level) tower.now) }
{
    is_past(edits, item.key.as_slice()) && !path.is_empty() && tower.is_clear(level + 1)
}

/// Reads the node of this level at an address, which comes before all others: its rows are pushed, or the nodes that it
/// names come first; the edits that are left. A leaf is copied into the room.
fn read<'a, D: Digester>(
    draft: &mut Draft<D>,
    tower: &mut Tower,
    path: &mut Path<D>,
    room: &mut Vec<u8>,
    edits: &'a [Edit],
    level: u8,
    address: &Address,
) -> Result<&'a [Edit], PutFault>
    requires { (start : Chunks) × (whole : List Item) × IsBeforeNode D.address start (chunks_of draft.old.chunks) tower.old level address.now.0 path.old edits.now whole }
    ensures ok { (start : Chunks) (whole : List Item) → IsBeforeNode D.address start (chunks_of draft.old.chunks) tower.old level address.now.0 path.old edits.now whole
        → IfOk result (λ left. IsRead D.address start (chunks_of draft.new.chunks) tower.new level address.now.0 path.old path.new left.now whole) }
    ensures grows { Grows is_node draft.old draft.new }
    ensures cause { IfErr result (IsReason D.address (chunks_of draft.new.chunks)) }
{
    if level > 0 {
        read_names(*room.allocator(), draft, path, address)?;
        Ok(edits)
    } else {
        read_rows(draft, tower, room, edits, address)
    }
}

/// Puts the nodes that an inner node names before all others.
fn read_names<D: Digester>(
    alloc: Global,
    draft: &Draft<D>,
    path: &mut Path<D>,
    address: &Address,
) -> Result<(), AllocError>
    requires { (node : Node) × IsStored (chunks_of draft.now.chunks) address.now.0 node × (0 < node.level) × (0 < length node.items) × StaysOpen D.address node.level node.items }
    ensures { (node : Node) → IsStored (chunks_of draft.now.chunks) address.now.0 node → 0 < node.level
        → OnOk result (path.new ≡ on_level (node.level - 1) node.items ++ path.old) }
{
    let step = step_at(alloc, draft, address)?;
    path.push(step)
}

/// Pushes the rows of a leaf with the edits up to its last key; the edits that are left.
fn read_rows<'a, D: Digester>(
    draft: &mut Draft<D>,
    tower: &mut Tower,
    room: &mut Vec<u8>,
    edits: &'a [Edit],
    address: &Address,
) -> Result<&'a [Edit], PutFault>
    requires { (node : Node) × (more whole : List Item) × IsStored (chunks_of draft.old.chunks) address.now.0 node × (node.level ≡ 0) × StaysOpen D.address 0 node.items
        × Awaits D.address (chunks_of draft.old.chunks) tower.old (edited (node.items ++ more) edits.now) whole }
    ensures ok { (node : Node) (more whole : List Item) → IsStored (chunks_of draft.old.chunks) address.now.0 node → node.level ≡ 0
        → Awaits D.address (chunks_of draft.old.chunks) tower.old (edited (node.items ++ more) edits.now) whole
        → IfOk result (λ left. Awaits D.address (chunks_of draft.new.chunks) tower.new (edited more left.now) whole) }
    ensures grows { Grows is_node draft.old draft.new }
    ensures cause { IfErr result (IsReason D.address (chunks_of draft.new.chunks)) }
{
    copy_node(draft, address, room)?;
    let leaf = KnownNode::of(room.as_slice());
    edit_rows(tower, draft, edits, &leaf)
}
