//! A commit as its chunk keeps it.

use tuple_codec::{Address, Sequence, Text};

/// A commit: a database with the commits that it came from.
#[derive(Clone, Drop, PartialEq, Eq)]
pub struct CommitRecord {
    pub root: Address,
    /// None, one or two.
    pub parents: Sequence<Address>,
    /// One more than the greatest height of the parents.
    pub height: u64,
    /// Seconds since 1970, not below 0.
    pub date: i64,
    pub committer: Text,
    pub message: Text,
}
