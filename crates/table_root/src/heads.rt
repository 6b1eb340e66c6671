//! What a session sees of the shared state at one moment.

ghost use Rattle.std.specs.Prelude.{◌≡◌, true};
ghost use Rattle.table_root.specs.Heads.{heads_rise};

use crate::names::{BranchName, shortest_name};
use chunk_store::Store;
use smallvec::SmallVec;
use std::alloc::Global;
use std::default::MadeWith;
use std::marker::Model;
use tuple_codec::{Address, BranchRecord};

/// A branch's name and its newest commit.
#[derive(Clone, Copy)]
pub struct BranchHead {
    pub branch: BranchName,
    pub head: Address,
}

/// A head for the places of a list that aren't taken yet.
impl MadeWith<Global> for BranchHead {
    fn made_with(_: Global) -> BranchHead {
        BranchHead {
            branch: shortest_name(),
            head: Address([0; 20]),
        }
    }
}

/// Heads, of which the first two take no memory: most databases have few branches, and each statement looks at their heads.
pub type HeadList = SmallVec<BranchHead, 2>;

/// The heads of branches, by rising name.
#[derive(Drop)]
pub struct Heads {
    heads: HeadList,
}

impl Model for Heads {
    ghost use Rattle.std.specs.Prelude.{List, ◌≡◌, true};
    ghost use Rattle.table_root.specs.Heads.{heads_rise};
    ghost use Rattle.table_root.specs.declared.heads.BranchHead.{BranchHead};

    ghost Value = { List BranchHead };

    ghost view = { λ heads. heads.heads.items };

    ghost invariant = { λ heads. heads_rise heads.heads.items ≡ true };
}

impl Heads {
    /// These heads, without a copy of what the list took memory for.
    pub fn from_list(heads: HeadList) -> Heads
        requires { heads_rise heads.items ≡ true }
        ensures { result ≡ heads.items }
    {
        Heads { heads }
    }

    /// The heads by rising name.
    pub fn as_slice(&self) -> &[BranchHead]
        ensures heads { result.now ≡ self.now }
        ensures rise { heads_rise self.now ≡ true }
    {
        self.heads.as_slice()
    }
}

/// What a session sees of the shared state at one moment: a branch and its record, the heads of all branches, and a store
/// in which what these name stands.
#[derive(Drop)]
pub struct Look {
    pub branch: BranchName,
    pub rec: BranchRecord,
    pub heads: Heads,
    pub store: Store,
}
