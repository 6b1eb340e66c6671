//! Paths through trees: what is left is looked at item by item, skipped, or opened.

ghost use Rattle.std.specs.Prelude.{◌≡◌, ◌<◌, ◌≤◌, ◌∷◌, ◌++◌, [], ℕ, List, MatchOption, length, drop};
ghost use Rattle.tuple_codec.specs.Nodes.{Item, Node, Rise};
ghost use Rattle.chunk_store.specs.Chunks.{Chunks};
ghost use Rattle.chunk_store.specs.Drafts.{chunks_of};
ghost use Rattle.prolly_tree.specs.Standing.{IsStored, Leads, rows_below};
ghost use Rattle.prolly_tree.specs.Lists.{from_key};
ghost use Rattle.prolly_tree.specs.Walks.{CanWalk, IsAtNode, IsAtRow, IsEmptyAbove, Left, left_in, rows_above, rows_left};
ghost use Rattle.prolly_tree.specs.Fronts.{front_of};
ghost use Rattle.prolly_tree.specs.Heads.{item_of, level_of};

use crate::nodes::{node_at, place_of};
use crate::steps::{Step, WalkHead};
use chunk_store::Draft;
use node_format::NodeRef;
use smallvec::SmallVec;
use std::marker::Model;
use std::mem;
use tuple_codec::{Address, Digester};

/// A path through a tree: the node where a walk is, and those above it. A contract sees what each of these has left.
#[derive(Drop)]
pub(crate) struct Path<'a> {
    here: Step<'a>,
    above: SmallVec<Step<'a>, 4>,
}

impl<'a> Model for Path<'a> {
    ghost use Rattle.prolly_tree.specs.Walks.{Left};

    ghost Value = { Left };

    ghost view = { λ w. record { here = w.here; above = w.above.items; room = w.above.capacity } };
}

impl<'a> Path<'a> {
    /// A walk from this step on, with places for steps above those to come.
    pub(crate) fn new(here: Step<'a>, above: SmallVec<Step<'a>, 4>) -> Path<'a>
        ensures { result ≡ record { here = here.entry; above = above.entry.items; room = above.entry.capacity } }
    {
        Path { here, above }
    }

    /// The first item that is left in the node where the walk is.
    pub(crate) fn head(&self) -> Option<WalkHead<'a>>
        ensures { MatchOption result (self.now.here.items ≡ [])
            (λ head. (self.now.here.items ≡ item_of head ∷ drop 1 self.now.here.items) × (self.now.here.level ≡ level_of head)) }
    {
        self.here.head()
    }

    /// Leaves the first item, with all that is below it.
    pub(crate) fn skip(&mut self)
        ensures { self.new ≡ record self.old { here = left_in self.old.here 1 } }
    {
        self.here.skip();
    }

    /// Goes down into a node, which stands for the first item, from this item of it on.
    pub(crate) fn down(&mut self, node: NodeRef<'a>, at: u16)
        requires { length self.old.above < self.old.room }
        ensures { self.new ≡ record { here = left_in node.entry at; above = self.old.above ++ left_in self.old.here 1 ∷ []; room = self.old.room } }
    {
        self.here.skip();
        let above = mem::replace(&mut self.here, Step::from(node, at));
        self.above.push_reserved(above);
    }

    /// Goes up from nodes that have nothing left.
    pub(crate) fn settle(&mut self)
        ensures kept { (chunks : Chunks) → rows_left chunks self.new ≡ rows_left chunks self.old }
        ensures can { (chunks : Chunks) → CanWalk chunks self.old → CanWalk chunks self.new }
        ensures front { front_of self.new ≡ front_of self.old }
        ensures settled { IsEmptyAbove self.new }
    {
        'ended: while self.head().is_none() {
            match self.above.pop() {
                Some(step) => self.here = step,
                None => return,
            }
        }
    }

    /// The address of the node that is first, where it isn't a row.
    pub(crate) fn ahead(&self) -> Option<Address>
        ensures { MatchOption result (IsAtRow self.now) (λ address. IsAtNode self.now address.0) }
    {
        match self.head() {
            None => None,
            Some(WalkHead::Row { .. }) => None,
            Some(WalkHead::Below { address, .. }) => Some(address),
        }
    }

    /// Goes to the next row, if one is left.
    pub(crate) fn to_row<D: Digester>(&mut self, draft: &'a Draft<D>)
        requires { CanWalk (chunks_of draft.now.chunks) self.old }
        ensures can { CanWalk (chunks_of draft.now.chunks) self.new }
        ensures kept { rows_left (chunks_of draft.now.chunks) self.new ≡ rows_left (chunks_of draft.now.chunks) self.old }
        ensures settled { IsEmptyAbove self.new }
        ensures at_row { IsAtRow self.new }
    {
        self.settle();
        'levels: while let Some(address) = self.ahead() {
            self.down(node_at(draft, &address), 0);
        }
    }

    /// Goes down to the first row whose key isn't below this one, where the items that are left begin with such.
    pub(crate) fn seek<D: Digester>(&mut self, draft: &'a Draft<D>, key: &[u8])
        requires can { CanWalk (chunks_of draft.now.chunks) self.old }
        requires rise { Rise (rows_below (chunks_of draft.now.chunks) self.old.here) }
        requires begun { from_key key.now self.old.here.items ≡ self.old.here.items }
        ensures can { CanWalk (chunks_of draft.now.chunks) self.new }
        ensures rest { rows_left (chunks_of draft.now.chunks) self.new
            ≡ from_key key.now (rows_below (chunks_of draft.now.chunks) self.old.here) ++ rows_above (chunks_of draft.now.chunks) self.old.above }
    {
        'levels: while let Some(address) = self.ahead() {
            let node = node_at(draft, &address);
            let at = place_of(&node, key);
            self.down(node, at);
        }
    }
}
