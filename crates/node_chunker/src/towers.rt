//! A tower: a tree that grows row by row.

ghost use Rattle.std.specs.Prelude.{◌≡◌, ◌≤◌, ◌<◌, ◌-◌, ◌+◌, ◌++◌, suc, ℕ, List, [], ◌∷◌, drop, length, replicate, take, IfOk, IfErr, OnOk};
ghost use Rattle.std.specs.List.{list_all};
ghost use Rattle.tuple_codec.specs.Nodes.{IsItem, Item, leaf_item};
ghost use Rattle.tuple_codec.specs.Trees.{AreRows};
ghost use Rattle.node_format.specs.Outlasting.{Outlasts};
ghost use Rattle.node_format.specs.Views.{ref_of};
ghost use Rattle.chunk_store.specs.Chunks.{Chunks};
ghost use Rattle.chunk_store.specs.Drafts.{Grows, chunks_of};
ghost use Rattle.chunk_store.specs.Kinds.{is_node};
ghost use Rattle.chunk_store.specs.Standing.{IsTree};
ghost use Rattle.chunk_store.specs.Clashes.{IsReason};
ghost use Rattle.node_chunker.specs.Growth.{CanPush, FitsLevel, IsTower};
ghost use Rattle.node_chunker.specs.Steps.{IsPushedAt};
ghost use Rattle.node_chunker.specs.Subtrees.{CanPushRef, IsPart, IsSubtree, IsWhole, WasPushed, is_clear};
ghost use Rattle.node_chunker.specs.Towers.{is_empty};

use crate::closings::close_levels;
use crate::descents::lowest;
use crate::inners::OpenInner;
use crate::leaves::OpenLeaf;
use chunk_store::{Draft, PutFault};
use node_format::RefItem;
use std::alloc::{AllocError, Global};
use std::marker::Model;
use tuple_codec::{Address, Digester};

/// The levels above the leaves for which a new tower has room.
const LEVELS: usize = 8;

/// The nodes of a tree that are still open, one a level, while its rows come in rising order.
///
/// After a refused call a tower is spent: it can only be dropped.
#[derive(Drop)]
pub struct Tower {
    leaf: OpenLeaf,
    inner: Vec<OpenInner>,
    // for the key of a node that ends
    room: Vec<u8>,
}

impl Model for Tower {
    ghost use Rattle.std.specs.Prelude.{List, ◌∷◌};
    ghost use Rattle.tuple_codec.specs.Nodes.{Item};

    ghost Value = { List (List Item) };

    ghost view = { λ t. t.leaf ∷ t.inner.items };
}

impl Tower {
    /// The tower to which nothing was pushed.
    pub fn new(alloc: Global) -> Result<Tower, AllocError>
        ensures { (address : List ℕ → List ℕ) (chunks : Chunks) → IfOk result (λ tower. IsTower address chunks tower []) }
    {
        Ok(Tower {
            leaf: OpenLeaf::new(alloc)?,
            inner: Vec::with_capacity(alloc, LEVELS)?,
            room: Vec::new(alloc),
        })
    }

    /// Pushes a row, whose key is after those that were pushed. The nodes that it ends are put into the draft.
    pub fn push_row<D: Digester>(
        &mut self,
        draft: &mut Draft<D>,
        key: &[u8],
        value: &[u8],
    ) -> Result<(), PutFault>
        requires { CanPush D.address (chunks_of draft.old.chunks) self.old (leaf_item key.now value.now) }
        ensures ok { (rows : List Item) → IsTower D.address (chunks_of draft.old.chunks) self.old rows
            → OnOk result (IsTower D.address (chunks_of draft.new.chunks) self.new (rows ++ leaf_item key.now value.now ∷ [])) }
        ensures grows { Grows is_node draft.old draft.new }
        ensures cause { IfErr result (IsReason D.address (chunks_of draft.new.chunks)) }
    {
        self.push_kept_row(draft, key, value, 0)
    }

    /// Pushes a row as [`Tower::push_row`] does, where no leaf of fewer than so many steps of 1,024 bytes ends after it, as its place in
    /// an old leaf may tell ([`steps_of`](node_format::steps_of)): its key is hashed only from there on.
    pub fn push_kept_row<D: Digester>(
        &mut self,
        draft: &mut Draft<D>,
        key: &[u8],
        value: &[u8],
        steps: u32,
    ) -> Result<(), PutFault>
        requires can { CanPush D.address (chunks_of draft.old.chunks) self.old (leaf_item key.now value.now) }
        requires known { Outlasts D.address 0 steps key.now }
        ensures ok { (rows : List Item) → IsTower D.address (chunks_of draft.old.chunks) self.old rows
            → OnOk result (IsTower D.address (chunks_of draft.new.chunks) self.new (rows ++ leaf_item key.now value.now ∷ [])) }
        ensures grows { Grows is_node draft.old draft.new }
        ensures cause { IfErr result (IsReason D.address (chunks_of draft.new.chunks)) }
    {
        match self.leaf.push(&mut self.room, draft, key, value, steps)? {
            None => Ok(()),
            Some(named) => push_name(&mut self.inner, &mut self.room, draft, 0, named),
        }
    }

    /// Whether no level below this one has an item, so that a subtree may be pushed at it.
    pub fn is_clear(&self, level: u8) -> bool
        requires { 0 < level }
        ensures { result ≡ is_clear level self.now }
    {
        self.leaf.is_empty() && are_empty(&self.inner, level as usize - 1)
    }

    /// Pushes the rows below an item of this level at once, without reading them, where no lower level has an item.
    ///
    /// The node that the item names is left as it is, and so is each node below it. Where it ended by the boundary rule, and so did the
    /// last node at each level below it, anything may be pushed after it; otherwise nothing may follow but [`Tower::finish`].
    pub fn push_ref<D: Digester>(
        &mut self,
        draft: &mut Draft<D>,
        level: u8,
        item: &RefItem,
    ) -> Result<(), PutFault>
        requires { CanPushRef D.address (chunks_of draft.old.chunks) self.old level (ref_of item.now) }
        ensures ok { (rows below : List Item) → IsTower D.address (chunks_of draft.old.chunks) self.old rows
            → IsSubtree D.address (chunks_of draft.old.chunks) level (ref_of item.now) below → AreRows (rows ++ below)
            → OnOk result (IsTower D.address (chunks_of draft.new.chunks) self.new (rows ++ below)) }
        ensures last { (rows below : List Item) → IsTower D.address (chunks_of draft.old.chunks) self.old rows
            → IsPart D.address (chunks_of draft.old.chunks) level (ref_of item.now) below → AreRows (rows ++ below)
            → OnOk result (IsWhole D.address (chunks_of draft.new.chunks) self.new (rows ++ below)) }
        ensures grows { Grows is_node draft.old draft.new }
        ensures cause { IfErr result (IsReason D.address (chunks_of draft.new.chunks)) }
    {
        self.push_kept_ref(draft, level, item, 0)
    }

    /// Pushes a subtree as [`Tower::push_ref`] does, where no node of fewer than so many steps of 1,024 bytes ends after the item, as its
    /// place in an old node may tell: its key is hashed only from there on.
    pub fn push_kept_ref<D: Digester>(
        &mut self,
        draft: &mut Draft<D>,
        level: u8,
        item: &RefItem,
        steps: u32,
    ) -> Result<(), PutFault>
        requires can { CanPushRef D.address (chunks_of draft.old.chunks) self.old level (ref_of item.now) }
        requires known { Outlasts D.address level steps (ref_of item.now).key }
        ensures ok { (rows below : List Item) → IsTower D.address (chunks_of draft.old.chunks) self.old rows
            → IsSubtree D.address (chunks_of draft.old.chunks) level (ref_of item.now) below → AreRows (rows ++ below)
            → OnOk result (IsTower D.address (chunks_of draft.new.chunks) self.new (rows ++ below)) }
        ensures last { (rows below : List Item) → IsTower D.address (chunks_of draft.old.chunks) self.old rows
            → IsPart D.address (chunks_of draft.old.chunks) level (ref_of item.now) below → AreRows (rows ++ below)
            → OnOk result (IsWhole D.address (chunks_of draft.new.chunks) self.new (rows ++ below)) }
        ensures grows { Grows is_node draft.old draft.new }
        ensures cause { IfErr result (IsReason D.address (chunks_of draft.new.chunks)) }
    {
        let place = level as usize - 1;
        open_levels(&mut self.inner, place)?;
        push_kept_name(&mut self.inner, &mut self.room, draft, place, item, steps)
    }

    /// Puts what is left into the draft: the root's address. A subtree that was pushed alone may be a chain of nodes of one name; the
    /// root is then below it.
    pub fn finish<D: Digester>(self, draft: &mut Draft<D>) -> Result<Address, PutFault>
        requires { WasPushed D.address (chunks_of draft.old.chunks) self }
        ensures ok { (rows : List Item) → IsTower D.address (chunks_of draft.old.chunks) self rows
            → IfOk result (λ root. IsTree D.address (chunks_of draft.new.chunks) root.0 rows) }
        ensures last { (rows : List Item) → IsWhole D.address (chunks_of draft.old.chunks) self rows
            → IfOk result (λ root. IsTree D.address (chunks_of draft.new.chunks) root.0 rows) }
        ensures grows { Grows is_node draft.old draft.new }
        ensures cause { IfErr result (IsReason D.address (chunks_of draft.new.chunks)) }
    {
        let Tower {
            mut leaf,
            inner,
            mut room,
        } = self;
        if inner.is_empty() {
            let named = leaf.put(&mut room, draft)?;
            return Ok(named.address);
        }
        let carry = leaf.close(&mut room, draft)?;
        let top = close_levels(inner, room, draft, carry)?;
        let root = lowest(draft, top);
        Ok(root)
    }
}

/// Whether no node of the first so many has a name.
fn are_empty(nodes: &[OpenInner], count: usize) -> bool
    ensures { result ≡ list_all is_empty (take count nodes.now) }
{
    nodes.iter().take(count).all(|node| node.is_empty())
}

/// Opens empty levels until there are so many.
fn open_levels(inner: &mut Vec<OpenInner>, count: usize) -> Result<(), AllocError>
    ensures { OnOk result (inner.new.items ≡ inner.old.items ++ replicate (count - length inner.old.items) []) }
{
    'levels: while inner.len() < count {
        let node = OpenInner::new(*inner.allocator())?;
        inner.push(node)?;
    }
    Ok(())
}

/// Pushes a name at this place among the inner levels, where no node of fewer than so many steps ends after it.
fn push_kept_name<D: Digester>(
    inner: &mut Vec<OpenInner>,
    room: &mut Vec<u8>,
    draft: &mut Draft<D>,
    place: usize,
    named: &RefItem,
    steps: u32,
) -> Result<(), PutFault>
    requires place { place ≤ length inner.old.items }
    requires fits { FitsLevel D.address (suc place) (drop place inner.old.items) (ref_of named.now) }
    requires known { Outlasts D.address (place + 1) steps (ref_of named.now).key }
    ensures ok { OnOk result (IsPushedAt D.address (chunks_of draft.new.chunks) place inner.old.items (ref_of named.now) inner.new.items) }
    ensures grows { Grows is_node draft.old draft.new }
    ensures cause { IfErr result (IsReason D.address (chunks_of draft.new.chunks)) }
{
    if place == inner.len() {
        begin_level(inner, named)?;
        return Ok(());
    }
    let level = place as u8 + 1;
    match inner[place].push(room, draft, level, named, steps)? {
        None => Ok(()),
        Some(above) => push_name(inner, room, draft, place + 1, above),
    }
}

/// Pushes the name of a node at this place among the inner levels: each node that ends names itself one level up. The last name's key is the
/// room of the next one.
fn push_name<D: Digester>(
    inner: &mut Vec<OpenInner>,
    room: &mut Vec<u8>,
    draft: &mut Draft<D>,
    place: usize,
    named: RefItem,
) -> Result<(), PutFault>
    requires place { place ≤ length inner.old.items }
    requires fits { FitsLevel D.address (suc place) (drop place inner.old.items) (ref_of named) }
    ensures ok { OnOk result (IsPushedAt D.address (chunks_of draft.new.chunks) place inner.old.items (ref_of named) inner.new.items) }
    ensures grows { Grows is_node draft.old draft.new }
    ensures cause { IfErr result (IsReason D.address (chunks_of draft.new.chunks)) }
{
    let mut item = named;
    for at in place..inner.len() {
        let level = at as u8 + 1;
        match inner[at].push(room, draft, level, &item, 0)? {
            None => {
                *room = item.key.into_vec();
                return Ok(());
            }
            Some(named) => item = named,
        }
    }
    begin_level(inner, &item)?;
    *room = item.key.into_vec();
    Ok(())
}

/// Opens a level above the last, with one name.
fn begin_level(inner: &mut Vec<OpenInner>, item: &RefItem) -> Result<(), AllocError>
    requires { IsItem 1 (ref_of item.now) }
    ensures { OnOk result (inner.new.items ≡ inner.old.items ++ (ref_of item.now ∷ []) ∷ []) }
{
    let node = OpenInner::begun(*inner.allocator(), item)?;
    inner.push(node)?;
    Ok(())
}
