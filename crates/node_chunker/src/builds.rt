//! Building a tree whole.

ghost use Rattle.std.specs.Prelude.{map, IfOk, IfErr};
ghost use Rattle.tuple_codec.specs.Trees.{AreRows};
ghost use Rattle.node_format.specs.Views.{leaf_of};
ghost use Rattle.chunk_store.specs.Drafts.{Grows, chunks_of};
ghost use Rattle.chunk_store.specs.Kinds.{is_node};
ghost use Rattle.chunk_store.specs.Standing.{IsTree};
ghost use Rattle.chunk_store.specs.Clashes.{IsReason};

use crate::towers::Tower;
use chunk_store::{Draft, PutFault};
use node_format::LeafItem;
use std::alloc::Global;
use tuple_codec::{Address, Digester};

/// Builds the tree of these rows, whose keys rise, and puts its nodes into the draft: the root's address.
///
/// It goes over the rows once, with one open node a level, and hashes each node once.
pub fn build<D: Digester>(
    alloc: Global,
    draft: &mut Draft<D>,
    rows: &[LeafItem],
) -> Result<Address, PutFault>
    requires { AreRows (map leaf_of rows.now) }
    ensures ok { IfOk result (λ root. IsTree D.address (chunks_of draft.new.chunks) root.0 (map leaf_of rows.now)) }
    ensures grows { Grows is_node draft.old draft.new }
    ensures cause { IfErr result (IsReason D.address (chunks_of draft.new.chunks)) }
{
    let mut tower = Tower::new(alloc)?;
    for row in rows {
        tower.push_row(draft, row.key.as_slice(), row.value.as_slice())?;
    }
    tower.finish(draft)
}
