//! What a branch holds, as the addresses of its commits and databases.

use crate::addresses::Address;

/// What a branch holds: its newest commit, its working and its staged database, and the commit of a merge in progress.
#[derive(Clone, Copy, PartialEq, Eq)]
pub struct BranchRecord {
    pub head: Address,
    pub working: Address,
    pub staged: Address,
    pub merging: Option<Address>,
}
