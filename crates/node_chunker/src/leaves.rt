//! The open leaf of a tower.

ghost use Rattle.std.specs.Prelude.{◌≡◌, ◌++◌, [], ◌∷◌, IfOk, IfErr, OnOk, option_map};
ghost use Rattle.tuple_codec.specs.Nodes.{leaf_item};
ghost use Rattle.tuple_codec.specs.Trees.{closes};
ghost use Rattle.node_format.specs.Outlasting.{Outlasts};
ghost use Rattle.node_format.specs.Views.{ref_of};
ghost use Rattle.chunk_store.specs.Drafts.{Grows, chunks_of};
ghost use Rattle.chunk_store.specs.Kinds.{is_node};
ghost use Rattle.chunk_store.specs.Clashes.{IsReason};
ghost use Rattle.node_chunker.specs.Growth.{IsWritable};
ghost use Rattle.node_chunker.specs.Steps.{IsClosed, IsNamed, IsPushed};
ghost use Rattle.node_chunker.specs.Towers.{is_empty};

use crate::chunks::{copied_into, put_chunk};
use chunk_store::{Draft, PutFault};
use node_format::{NodeBuilder, RefItem, ends_from, row_size};
use std::alloc::{AllocError, Global};
use std::marker::Model;
use tuple_codec::Digester;

/// The rows of the leaf that is still open.
#[derive(Drop)]
pub(crate) struct OpenLeaf {
    node: NodeBuilder,
}

impl Model for OpenLeaf {
    ghost use Rattle.std.specs.Prelude.{◌≡◌, List};
    ghost use Rattle.tuple_codec.specs.Nodes.{Item};

    ghost Value = { List Item };

    ghost view = { λ n. n.node.items };

    ghost invariant = { λ n. n.node.level ≡ 0 };
}

impl OpenLeaf {
    pub(crate) fn new(alloc: Global) -> Result<OpenLeaf, AllocError>
        ensures { IfOk result (λ leaf. leaf ≡ []) }
    {
        let node = NodeBuilder::new(alloc, 0)?;
        Ok(OpenLeaf { node })
    }

    pub(crate) fn is_empty(&self) -> bool
        ensures { result ≡ is_empty self.now }
    {
        self.node.count() == 0
    }

    /// Adds a row, and puts the leaf into the draft where the row ends it: then it has a name, and begins anew. No leaf of fewer
    /// than so many steps ends after the row.
    pub(crate) fn push<D: Digester>(
        &mut self,
        room: &mut Vec<u8>,
        draft: &mut Draft<D>,
        key: &[u8],
        value: &[u8],
        steps: u32,
    ) -> Result<Option<RefItem>, PutFault>
        requires fits { IsWritable 0 (self.old ++ leaf_item key.now value.now ∷ []) }
        requires known { Outlasts D.address 0 steps key.now }
        ensures ok { IfOk result (λ named. IsPushed D.address (chunks_of draft.new.chunks) 0 self.old (leaf_item key.now value.now) self.new (option_map ref_of named)) }
        ensures grows { Grows is_node draft.old draft.new }
        ensures cause { IfErr result (IsReason D.address (chunks_of draft.new.chunks)) }
    {
        let over = self.ends_after::<D>(key, value, steps);
        self.add(key, value)?;
        if !over {
            return Ok(None);
        }
        let named = self.put(room, draft)?;
        Ok(Some(named))
    }

    /// Puts the leaf into the draft if it has a row.
    pub(crate) fn close<D: Digester>(
        &mut self,
        room: &mut Vec<u8>,
        draft: &mut Draft<D>,
    ) -> Result<Option<RefItem>, PutFault>
        requires { IsWritable 0 self.old }
        ensures ok { IfOk result (λ named. IsClosed D.address (chunks_of draft.new.chunks) 0 self.old (option_map ref_of named)) }
        ensures grows { Grows is_node draft.old draft.new }
        ensures cause { IfErr result (IsReason D.address (chunks_of draft.new.chunks)) }
    {
        if self.is_empty() {
            return Ok(None);
        }
        let named = self.put(room, draft)?;
        Ok(Some(named))
    }

    fn add(&mut self, key: &[u8], value: &[u8]) -> Result<(), AllocError>
        requires { IsWritable 0 (self.old ++ leaf_item key.now value.now ∷ []) }
        ensures { OnOk result (self.new ≡ self.old ++ leaf_item key.now value.now ∷ []) }
    {
        self.node.push_row(key, value)
    }

    /// Whether the leaf ends after one more row.
    fn ends_after<D: Digester>(&self, key: &[u8], value: &[u8], steps: u32) -> bool
        requires fits { IsWritable 0 (self.now ++ leaf_item key.now value.now ∷ []) }
        requires known { Outlasts D.address 0 steps key.now }
        ensures { result ≡ closes D.address 0 (self.now ++ leaf_item key.now value.now ∷ []) }
    {
        let size = self.node.size() as u32 + row_size(key, value);
        let count = u32::from(self.node.count()) + 1;
        ends_from::<D>(0, size, count, steps, key)
    }

    /// Puts the leaf into the draft and empties it; its name, whose key lies in the room.
    pub(crate) fn put<D: Digester>(
        &mut self,
        room: &mut Vec<u8>,
        draft: &mut Draft<D>,
    ) -> Result<RefItem, PutFault>
        requires { IsWritable 0 self.old }
        ensures ok { IfOk result (λ named. IsNamed D.address (chunks_of draft.new.chunks) 0 self.old self.new (ref_of named)) }
        ensures grows { Grows is_node draft.old draft.new }
        ensures cause { IfErr result (IsReason D.address (chunks_of draft.new.chunks)) }
    {
        let address = put_chunk(draft, self.node.bytes())?;
        let rows = u64::from(self.node.count());
        let key = copied_into(room, self.node.last_key())?;
        self.node.clear();
        Ok(RefItem { key, address, rows })
    }
}
