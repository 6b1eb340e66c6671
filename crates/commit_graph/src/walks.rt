//! Walks from commits to their ancestors, height falling, and then by address.

ghost use Rattle.std.specs.Prelude.{◌≡◌, true, [], ◌∷◌, map, IfOk, OnOk, OnErr};
ghost use Rattle.std.specs.List.{list_all, slice_get};
ghost use Rattle.schema_model.specs.PlainCommits.{Commits, is_known};
ghost use Rattle.chunk_store.specs.Drafts.{chunks_of};
ghost use Rattle.commit_graph.specs.Standing.{CommitsStand};
ghost use Rattle.commit_graph.specs.Walks.{AreRanks, KeepsLeft, Steps, Waits, WaitsForSome, WalksAncestors};

use crate::parts::height;
use crate::reading::read_commit;
use chunk_store::Draft;
use schema_model::law_of_ancestors;
use std::alloc::{AllocError, Global};
use std::cmp::Reverse;
use std::collections::BTreeSet;
use std::marker::Model;
use tuple_codec::{Address, Digester};

/// A commit's place among ancestors: the greatest height is first, and then the least address.
#[derive(Clone, Copy, PartialEq, Eq, PartialOrd, Ord)]
pub struct Rank {
    pub height: Reverse<u64>,
    pub address: [u8; 20],
}

/// The ancestors of a commit, one by one and in order, without a list of all of them. A commit is read when the walk goes on from it.
#[derive(Drop)]
pub struct AncestorWalk {
    /// The parents of the commits that the walk has come to, less those that it has come to as well.
    waiting: BTreeSet<Rank>,
}

impl Model for AncestorWalk {
    ghost use Rattle.std.specs.Prelude.{List};
    ghost use Rattle.commit_graph.specs.declared.walks.Rank.{Rank as Place};

    ghost Value = { List Place };

    ghost view = { λ walk. walk.waiting.keys };
}

impl AncestorWalk {
    /// A walk to the commit and its ancestors.
    pub fn new<D: Digester>(
        alloc: Global,
        draft: &Draft<D>,
        address: &Address,
    ) -> Result<AncestorWalk, AllocError>
        requires { (commits : Commits) × CommitsStand D.address (chunks_of draft.now.chunks) commits × (is_known commits address.now.0 ≡ true) }
        ensures { (commits : Commits) → CommitsStand D.address (chunks_of draft.now.chunks) commits → is_known commits address.now.0 ≡ true
            → IfOk result (WalksAncestors commits address.now.0) }
    {
        law_of_ancestors();
        let mut walk = AncestorWalk {
            waiting: BTreeSet::new(alloc),
        };
        walk.put(draft, address)?;
        Ok(walk)
    }

    /// The place of the next commit, where there is one.
    pub fn first(&self) -> Option<Rank>
        ensures { result ≡ slice_get self.now 0 }
    {
        self.waiting.first().copied()
    }

    /// The next commit, where there is one. After an error the walk still comes to the same commits, though some may wait already that
    /// would have come to wait later.
    pub fn next<D: Digester>(
        &mut self,
        alloc: Global,
        draft: &Draft<D>,
    ) -> Result<Option<Address>, AllocError>
        requires { (commits : Commits) × CommitsStand D.address (chunks_of draft.now.chunks) commits × AreRanks commits self.old }
        ensures ok { (commits : Commits) → CommitsStand D.address (chunks_of draft.now.chunks) commits → AreRanks commits self.old
            → IfOk result (Steps commits self.old self.new) }
        ensures err { (commits : Commits) → CommitsStand D.address (chunks_of draft.now.chunks) commits → AreRanks commits self.old
            → OnErr result (KeepsLeft commits self.old self.new) }
    {
        law_of_ancestors();
        let Some(rank) = self.first() else {
            return Ok(None);
        };
        let address = Address(rank.address);
        let commit = read_commit(alloc, draft, &address)?;
        self.put_all(draft, commit.parents.as_slice())?;
        // its parents come after it, so it is still the first
        let _ = self.waiting.pop_first();
        Ok(Some(address))
    }

    /// Puts commits among those that wait, each once.
    fn put_all<D: Digester>(
        &mut self,
        draft: &Draft<D>,
        addresses: &[Address],
    ) -> Result<(), AllocError>
        requires { (commits : Commits) × CommitsStand D.address (chunks_of draft.now.chunks) commits × (list_all (is_known commits) (map (λ k. k.0) addresses.now) ≡ true) }
        ensures ok { (commits : Commits) → CommitsStand D.address (chunks_of draft.now.chunks) commits → AreRanks commits self.old
            → list_all (is_known commits) (map (λ k. k.0) addresses.now) ≡ true → OnOk result (Waits commits (map (λ k. k.0) addresses.now) self.old self.new) }
        ensures err { (commits : Commits) → CommitsStand D.address (chunks_of draft.now.chunks) commits → AreRanks commits self.old
            → list_all (is_known commits) (map (λ k. k.0) addresses.now) ≡ true → OnErr result (WaitsForSome commits (map (λ k. k.0) addresses.now) self.old self.new) }
    {
        for address in addresses {
            self.put(draft, address)?;
        }
        Ok(())
    }

    /// Puts a commit among those that wait, where it isn't there.
    fn put<D: Digester>(&mut self, draft: &Draft<D>, address: &Address) -> Result<(), AllocError>
        requires { (commits : Commits) × CommitsStand D.address (chunks_of draft.now.chunks) commits × (is_known commits address.now.0 ≡ true) }
        ensures ok { (commits : Commits) → CommitsStand D.address (chunks_of draft.now.chunks) commits → AreRanks commits self.old
            → is_known commits address.now.0 ≡ true → OnOk result (Waits commits (address.now.0 ∷ []) self.old self.new) }
        ensures err { OnErr result (self.new ≡ self.old) }
    {
        let height = Reverse(height(draft, address));
        let address = address.0;
        self.waiting.insert(Rank { height, address })?;
        Ok(())
    }
}
