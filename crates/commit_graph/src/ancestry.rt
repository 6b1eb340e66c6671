//! A commit's ancestors.

ghost use Rattle.std.specs.Prelude.{◌≡◌, true, map, IfOk};
ghost use Rattle.schema_model.specs.PlainCommits.{Commits, ancestors, is_known};
ghost use Rattle.chunk_store.specs.Drafts.{chunks_of};
ghost use Rattle.commit_graph.specs.Standing.{CommitsStand};

use crate::walks::AncestorWalk;
use chunk_store::Draft;
use std::alloc::{AllocError, Global};
use tuple_codec::{Address, Digester};

/// The commit and all its ancestors, each once: height falling, and then by address. The commit stands in the draft.
pub fn ancestors<D: Digester>(
    alloc: Global,
    draft: &Draft<D>,
    address: &Address,
) -> Result<Vec<Address>, AllocError>
    requires { (commits : Commits) × CommitsStand D.address (chunks_of draft.now.chunks) commits × (is_known commits address.now.0 ≡ true) }
    ensures { (commits : Commits) → CommitsStand D.address (chunks_of draft.now.chunks) commits → is_known commits address.now.0 ≡ true
        → IfOk result (λ list. map (λ ancestor. ancestor.0) list.items ≡ ancestors commits address.now.0) }
{
    let mut ancestors = Vec::new(alloc);
    let mut walk = AncestorWalk::new(alloc, draft, address)?;
    'walk: while let Some(ancestor) = walk.next(alloc, draft)? {
        ancestors.push(ancestor)?;
    }
    Ok(ancestors)
}
