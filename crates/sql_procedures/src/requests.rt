//! What calls of procedures ask for, once their arguments are read.

use tuple_codec::{Sequence, Text};

/// What a call of a procedure asks for.
#[derive(Drop)]
pub enum Request {
    Add(Tables),
    Reset(Reset),
    Commit(CommitRequest),
    Branch(BranchRequest),
    Checkout(CheckoutRequest),
    Merge(MergeRequest),
    ConflictsResolve(Resolution),
    VerifyConstraints(Verification),
}

/// The tables that are meant.
#[derive(Drop)]
pub enum Tables {
    All,
    /// At least one, in lower case, none twice.
    Named(Sequence<Text>),
}

/// What is set back to the head.
#[derive(Drop)]
pub enum Reset {
    /// Both roots.
    Hard,
    /// These tables of the staged root.
    Tables(Tables),
}

/// What a commit stages first.
#[derive(Clone, Copy, PartialEq, Eq)]
pub enum Staging {
    AsIs,
    /// The tables that the staged root or the head's root has.
    Known,
    All,
}

/// `DOLT_COMMIT`.
#[derive(Drop)]
pub struct CommitRequest {
    pub message: Text,
    pub staging: Staging,
    pub allow_empty: bool,
}

/// A branch that is to be made, at a point or where the session is.
#[derive(Drop)]
pub struct NewBranch {
    pub name: Text,
    pub point: Option<Text>,
}

/// `DOLT_BRANCH`.
#[derive(Drop)]
pub enum BranchRequest {
    Create(NewBranch),
    Delete(Text),
}

/// `DOLT_CHECKOUT`.
#[derive(Drop)]
pub enum CheckoutRequest {
    Existing(Text),
    New(NewBranch),
}

/// `DOLT_MERGE`.
#[derive(Drop)]
pub enum MergeRequest {
    Abort,
    Merge(MergeOf),
}

/// What is merged, and how.
#[derive(Drop)]
pub struct MergeOf {
    /// A branch or a commit.
    pub name: Text,
    pub no_ff: bool,
    pub message: Option<Text>,
}

/// A side of a merge.
#[derive(Clone, Copy, PartialEq, Eq)]
pub enum Side {
    Ours,
    Theirs,
}

/// `DOLT_CONFLICTS_RESOLVE`.
#[derive(Drop)]
pub struct Resolution {
    pub side: Side,
    pub tables: Tables,
}

/// `DOLT_VERIFY_CONSTRAINTS`; in either form all rows are looked at.
#[derive(Clone, Copy, PartialEq, Eq)]
pub enum Verification {
    /// What is found is recorded.
    Recorded,
    OutputOnly,
}
