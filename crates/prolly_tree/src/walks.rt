//! Walks through whole trees: what comes first is looked at, skipped whole, or opened.

ghost use Rattle.std.specs.Prelude.{◌≡◌, ◌∷◌, [], List, IfOk, MatchOption, drop};
ghost use Rattle.tuple_codec.specs.Nodes.{Item, Node};
ghost use Rattle.chunk_store.specs.Drafts.{chunks_of};
ghost use Rattle.chunk_store.specs.Standing.{IsTree};
ghost use Rattle.prolly_tree.specs.Standing.{IsStored};
ghost use Rattle.prolly_tree.specs.Lists.{StandsForRows};
ghost use Rattle.prolly_tree.specs.Fronts.{nodes_of, on_level, opened, rows_of};
ghost use Rattle.prolly_tree.specs.Heads.{item_of, level_of};

use crate::nodes::node_at;
use crate::paths::Path;
use crate::steps::{Step, WalkHead};
use chunk_store::Draft;
use smallvec::SmallVec;
use std::alloc::{AllocError, Global};
use std::marker::Model;
use tuple_codec::{Address, Digester};

/// A walk through a tree by rising key. What it has left are rows, and nodes that it hasn't opened.
#[derive(Drop)]
pub struct Walk<'a, D: Digester> {
    draft: &'a Draft<D>,
    path: Path<'a>,
}

impl<'a, D: Digester> Model for Walk<'a, D> {
    ghost use Rattle.chunk_store.specs.Drafts.{chunks_of};
    ghost use Rattle.prolly_tree.specs.Fronts.{IsReady, Walking, front_of};

    ghost Value = { Walking };

    ghost view = { λ w. record { parts = w.draft.now.chunks; front = front_of w.path } };

    ghost invariant = { λ w. IsReady (chunks_of w.draft.now.chunks) w.path };
}

impl<'a, D: Digester> Walk<'a, D> {
    /// A walk through all of a tree. It reads the root, and takes all the memory that it will need.
    pub fn new(
        alloc: Global,
        draft: &'a Draft<D>,
        root: &Address,
    ) -> Result<Walk<'a, D>, AllocError>
        requires tree { StandsForRows D.address (chunks_of draft.now.chunks) root.now.0 }
        ensures parts { IfOk result (λ walk. walk.parts ≡ draft.now.chunks) }
        ensures rows { (rows : List Item) → IsTree D.address (chunks_of draft.now.chunks) root.now.0 rows
            → IfOk result (λ walk. rows_of walk ≡ rows) }
        ensures items { (node : Node) → IsStored (chunks_of draft.now.chunks) root.now.0 node
            → IfOk result (λ walk. walk.front ≡ on_level node.level node.items) }
    {
        let node = node_at(draft, root);
        let above = SmallVec::with_capacity(alloc, usize::from(node.level()))?;
        let path = Path::new(Step::from(node, 0), above);
        Ok(Walk { draft, path })
    }

    /// What comes first; none at the end.
    pub fn head(&self) -> Option<WalkHead<'a>>
        ensures { MatchOption result (self.now.front ≡ [])
            (λ head. self.now.front ≡ (level_of head, item_of head) ∷ drop 1 self.now.front) }
    {
        self.path.head()
    }

    /// Leaves what comes first, with all that is below it, and reads nothing.
    pub fn skip(&mut self)
        ensures { self.new ≡ record self.old { front = drop 1 self.old.front } }
    {
        self.path.skip();
        self.path.settle();
    }

    /// Goes down into the node that comes first, so that its items do. It reads this node, and takes no memory.
    pub fn open(&mut self)
        ensures { self.new ≡ record self.old { front = opened (nodes_of self.old.parts) self.old.front } }
    {
        if let Some(address) = self.path.ahead() {
            let node = node_at(self.draft, &address);
            self.path.down(node, 0);
        }
    }
}
