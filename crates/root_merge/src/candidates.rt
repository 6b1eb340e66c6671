//! What the commit rule comes to.

use tuple_codec::BranchRecord;

/// What becomes of a branch: a record, or the number of the first refusal.
#[derive(Clone, Copy, PartialEq, Eq)]
pub enum Candidate {
    Record(BranchRecord),
    Refused(u16),
}
