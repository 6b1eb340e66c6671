//! The open node of a tower at a level above the leaves.

ghost use Rattle.std.specs.Prelude.{◌≡◌, ◌<◌, ◌++◌, [], ◌∷◌, Some, None, false, ◌&&◌, if◌then◌else◌, IfOk, IfErr, OnOk, option_map, option_to_list};
ghost use Rattle.tuple_codec.specs.Nodes.{IsItem};
ghost use Rattle.tuple_codec.specs.Trees.{closes};
ghost use Rattle.node_format.specs.Outlasting.{Outlasts};
ghost use Rattle.node_format.specs.Views.{ref_of};
ghost use Rattle.chunk_store.specs.Drafts.{Grows, chunks_of};
ghost use Rattle.chunk_store.specs.Kinds.{is_node};
ghost use Rattle.chunk_store.specs.Clashes.{IsReason};
ghost use Rattle.node_chunker.specs.Growth.{IsWritable};
ghost use Rattle.node_chunker.specs.Steps.{IsClosed, IsNamed, IsPushed};
ghost use Rattle.node_chunker.specs.Towers.{first_of, is_empty, is_single};

use crate::chunks::{copied_into, put_chunk};
use chunk_store::{Draft, PutFault};
use node_format::{NodeBuilder, RefItem, ends_from, name_size};
use std::alloc::{AllocError, Global};
use std::marker::Model;
use tuple_codec::{Address, Digester};

/// The names in an inner node that is still open.
#[derive(Drop)]
pub(crate) struct OpenInner {
    // of level 1, or of the level at which it was last put; items are the same bytes at each level above the leaves
    node: NodeBuilder,
    // below all names
    rows: u64,
    // the address in the last name
    last: Address,
}

impl Model for OpenInner {
    ghost use Rattle.std.specs.Prelude.{◌≡◌, ◌<◌, true, List};
    ghost use Rattle.tuple_codec.specs.Nodes.{Item};
    ghost use Rattle.tuple_codec.specs.Trees.{rows_in};
    ghost use Rattle.node_chunker.specs.Towers.{first_of, is_single};

    ghost Value = { List Item };

    ghost view = { λ n. n.node.items };

    ghost invariant = { λ n. (0 < n.node.level) × (n.rows ≡ rows_in n.node.items) × (is_single n.node.items ≡ true → (first_of n.node.items).body ≡ n.last.0) };
}

impl OpenInner {
    pub(crate) fn new(alloc: Global) -> Result<OpenInner, AllocError>
        ensures { IfOk result (λ node. node ≡ []) }
    {
        let node = NodeBuilder::new(alloc, 1)?;
        Ok(OpenInner {
            node,
            rows: 0,
            last: Address([0; 20]),
        })
    }

    /// The node with one name.
    pub(crate) fn begun(alloc: Global, item: &RefItem) -> Result<OpenInner, AllocError>
        requires { IsItem 1 (ref_of item.now) }
        ensures { IfOk result (λ node. node ≡ ref_of item.now ∷ []) }
    {
        let mut node = NodeBuilder::new(alloc, 1)?;
        node.push_name(item.key.as_slice(), &item.address, item.rows)?;
        Ok(OpenInner {
            node,
            rows: item.rows,
            last: item.address,
        })
    }

    pub(crate) fn is_empty(&self) -> bool
        ensures { result ≡ is_empty self.now }
    {
        self.node.count() == 0
    }

    /// The root's address, where this is the last level and the one name in the node is the root's.
    pub(crate) fn root(&self, is_last: bool) -> Option<Address>
        ensures { option_map (λ address. address.0) result ≡ (if is_last && is_single self.now then Some (first_of self.now).body else None) }
    {
        if is_last && self.node.count() == 1 {
            Some(self.last)
        } else {
            None
        }
    }

    /// Adds a name, and puts the node into the draft where the name ends it: then it has a name, and begins anew. No node of fewer
    /// than so many steps ends after the name.
    pub(crate) fn push<D: Digester>(
        &mut self,
        room: &mut Vec<u8>,
        draft: &mut Draft<D>,
        level: u8,
        item: &RefItem,
        steps: u32,
    ) -> Result<Option<RefItem>, PutFault>
        requires level { 0 < level }
        requires fits { IsWritable level (self.old ++ ref_of item.now ∷ []) }
        requires known { Outlasts D.address level steps (ref_of item.now).key }
        ensures ok { IfOk result (λ named. IsPushed D.address (chunks_of draft.new.chunks) level self.old (ref_of item.now) self.new (option_map ref_of named)) }
        ensures grows { Grows is_node draft.old draft.new }
        ensures cause { IfErr result (IsReason D.address (chunks_of draft.new.chunks)) }
    {
        let over = self.ends_after::<D>(level, item, steps);
        self.add(level, item)?;
        if !over {
            return Ok(None);
        }
        let named = self.put(room, draft, level)?;
        Ok(Some(named))
    }

    /// Puts the node into the draft if it has a name.
    pub(crate) fn close<D: Digester>(
        &mut self,
        room: &mut Vec<u8>,
        draft: &mut Draft<D>,
        level: u8,
    ) -> Result<Option<RefItem>, PutFault>
        requires level { 0 < level }
        requires fits { is_empty self.old ≡ false → IsWritable level self.old }
        ensures ok { IfOk result (λ named. IsClosed D.address (chunks_of draft.new.chunks) level self.old (option_map ref_of named)) }
        ensures grows { Grows is_node draft.old draft.new }
        ensures cause { IfErr result (IsReason D.address (chunks_of draft.new.chunks)) }
    {
        if self.is_empty() {
            return Ok(None);
        }
        let named = self.put(room, draft, level)?;
        Ok(Some(named))
    }

    /// Adds the name that the level below has left, if it has left one; its key is the room of the next one.
    pub(crate) fn take(
        &mut self,
        level: u8,
        room: &mut Vec<u8>,
        carry: Option<RefItem>,
    ) -> Result<(), AllocError>
        requires level { 0 < level }
        requires fits { is_empty (self.old ++ option_to_list (option_map ref_of carry)) ≡ false → IsWritable level (self.old ++ option_to_list (option_map ref_of carry)) }
        ensures { OnOk result (self.new ≡ self.old ++ option_to_list (option_map ref_of carry)) }
    {
        if let Some(item) = carry {
            self.add(level, &item)?;
            *room = item.key.into_vec();
        }
        Ok(())
    }

    fn add(&mut self, level: u8, item: &RefItem) -> Result<(), AllocError>
        requires level { 0 < level }
        requires fits { IsWritable level (self.old ++ ref_of item.now ∷ []) }
        ensures { OnOk result (self.new ≡ self.old ++ ref_of item.now ∷ []) }
    {
        self.node
            .push_name(item.key.as_slice(), &item.address, item.rows)?;
        self.rows += item.rows;
        self.last = item.address;
        Ok(())
    }

    /// Whether the node ends after one more name.
    fn ends_after<D: Digester>(&self, level: u8, item: &RefItem, steps: u32) -> bool
        requires level { 0 < level }
        requires fits { IsWritable level (self.now ++ ref_of item.now ∷ []) }
        requires known { Outlasts D.address level steps (ref_of item.now).key }
        ensures { result ≡ closes D.address level (self.now ++ ref_of item.now ∷ []) }
    {
        let size = self.node.size() as u32 + name_size(item);
        let count = u32::from(self.node.count()) + 1;
        ends_from::<D>(level, size, count, steps, item.key.as_slice())
    }

    /// Puts the node into the draft and empties it; its name, whose key lies in the room.
    fn put<D: Digester>(
        &mut self,
        room: &mut Vec<u8>,
        draft: &mut Draft<D>,
        level: u8,
    ) -> Result<RefItem, PutFault>
        requires level { 0 < level }
        requires fits { IsWritable level self.old }
        ensures ok { IfOk result (λ named. IsNamed D.address (chunks_of draft.new.chunks) level self.old self.new (ref_of named)) }
        ensures grows { Grows is_node draft.old draft.new }
        ensures cause { IfErr result (IsReason D.address (chunks_of draft.new.chunks)) }
    {
        self.node.set_level(level);
        let address = put_chunk(draft, self.node.bytes())?;
        let rows = self.rows;
        let key = copied_into(room, self.node.last_key())?;
        self.node.clear();
        self.rows = 0;
        Ok(RefItem { key, address, rows })
    }
}
