//! The common ancestor of greatest height.

ghost use Rattle.std.specs.Prelude.{◌≡◌, Some, IfOk};
ghost use Rattle.schema_model.specs.PlainCommits.{Commits, base};
ghost use Rattle.chunk_store.specs.Drafts.{chunks_of};
ghost use Rattle.commit_graph.specs.Standing.{CommitsStand};
ghost use Rattle.merge_base.specs.Common.{HasCommon};

use chunk_store::Draft;
use commit_graph::AncestorWalk;
use schema_model::law_of_ancestors;
use std::alloc::{AllocError, Global};
use std::cmp::Ordering;
use tuple_codec::{Address, Digester};

/// The common ancestor of greatest height of two commits that stand in the draft, and of those of one height the one with the least
/// address. No list of all ancestors is made.
pub fn merge_base<D: Digester>(
    alloc: Global,
    draft: &Draft<D>,
    a: &Address,
    b: &Address,
) -> Result<Address, AllocError>
    requires { (commits : Commits) × CommitsStand D.address (chunks_of draft.now.chunks) commits × HasCommon commits a.now.0 b.now.0 }
    ensures { (commits : Commits) → CommitsStand D.address (chunks_of draft.now.chunks) commits → HasCommon commits a.now.0 b.now.0
        → IfOk result (λ k. base commits a.now.0 b.now.0 ≡ Some k.0) }
{
    law_of_ancestors();
    let mut ours = AncestorWalk::new(alloc, draft, a)?;
    let mut theirs = AncestorWalk::new(alloc, draft, b)?;
    'walks: while let Some(our) = ours.first() {
        let Some(their) = theirs.first() else {
            unreachable!()
        };
        match our.cmp(&their) {
            Ordering::Less => ours.next(alloc, draft)?,
            Ordering::Equal => return Ok(Address(our.address)),
            Ordering::Greater => theirs.next(alloc, draft)?,
        };
    }
    unreachable!()
}
