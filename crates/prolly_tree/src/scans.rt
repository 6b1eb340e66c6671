//! The rows of a tree, one after another.

ghost use Rattle.std.specs.Prelude.{◌≡◌, List, IfOk, map};
ghost use Rattle.std.specs.Iterator.{YieldsFirstBy};
ghost use Rattle.tuple_codec.specs.Nodes.{Item};
ghost use Rattle.chunk_store.specs.Drafts.{chunks_of};
ghost use Rattle.chunk_store.specs.Standing.{IsTree};
ghost use Rattle.prolly_tree.specs.Lists.{StandsForRows, from_key, pair_of};
ghost use Rattle.prolly_tree.specs.Walks.{scan_rest};

use crate::nodes::{node_at, place_of};
use crate::paths::Path;
use crate::steps::{Step, WalkHead};
use chunk_store::Draft;
use smallvec::SmallVec;
use std::alloc::{AllocError, Global};
use std::marker::Model;
use tuple_codec::{Address, Digester};

/// The rows of a tree from some key on, as keys and values. Each leaf is read once, and `next` takes no memory.
#[derive(Drop)]
pub struct Scan<'a, D: Digester> {
    draft: &'a Draft<D>,
    walk: Path<'a>,
}

impl<'a, D: Digester> Model for Scan<'a, D> {
    ghost use Rattle.chunk_store.specs.Drafts.{chunks_of};
    ghost use Rattle.prolly_tree.specs.Walks.{CanWalk, Scanning};

    ghost Value = { Scanning };

    ghost view = { λ s. record { parts = s.draft.now.chunks; left = s.walk } };

    ghost invariant = { λ s. CanWalk (chunks_of s.draft.now.chunks) s.walk };
}

/// The rows whose key isn't below this one, by rising key.
pub fn scan_from<'a, D: Digester>(
    alloc: Global,
    draft: &'a Draft<D>,
    root: &Address,
    key: &[u8],
) -> Result<Scan<'a, D>, AllocError>
    requires tree { StandsForRows D.address (chunks_of draft.now.chunks) root.now.0 }
    ensures { (rows : List Item) → IsTree D.address (chunks_of draft.now.chunks) root.now.0 rows
        → IfOk result (λ scan. scan_rest scan ≡ map pair_of (from_key key.now rows)) }
{
    let node = node_at(draft, root);
    let at = place_of(&node, key);
    let above = SmallVec::with_capacity(alloc, usize::from(node.level()))?;
    let mut walk = Path::new(Step::from(node, at), above);
    walk.seek(draft, key);
    Ok(Scan { draft, walk })
}

impl<'a, D: Digester> Scan<'a, D> {
    /// The next row, as its key and its value; none at the end, and from then on. It takes no memory.
    pub fn next(&mut self) -> Option<(&'a [u8], &'a [u8])>
        ensures gives { YieldsFirstBy (λ pair. (pair.0.now, pair.1.now)) scan_rest self.old result self.new }
        ensures parts { self.new.parts ≡ self.old.parts }
    {
        self.walk.to_row(self.draft);
        match self.walk.head() {
            None => None,
            Some(WalkHead::Row { key, value }) => {
                self.walk.skip();
                Some((key, value))
            }
            Some(WalkHead::Below { .. }) => unreachable!(),
        }
    }
}
