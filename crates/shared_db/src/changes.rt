//! What decisions and steps on the list of branches are, and how they ended.

use chunk_store::{Clash, Segment};
use script_text::Reply;
use std::sync::Arc;
use table_root::BranchName;
use tuple_codec::BranchRecord;

/// What a decision makes of a branch's record.
#[derive(Clone, Copy, PartialEq, Eq)]
pub enum RecordChange {
    Nothing,
    Record(BranchRecord),
}

/// How a decision was settled.
#[derive(Drop)]
pub enum Settled {
    Done,
    /// The branch's record isn't the one looked at: this one is newer. Nothing has changed.
    Moved(BranchRecord),
    /// Two byte strings of one address: the one held, and the one brought. Nothing has changed.
    Collision(Clash),
    /// A collision was found and couldn't be held.
    Memory,
}

/// A decision as planned: what becomes of the branch's record, what the statement then answers, and the chunks that the record needs.
#[derive(Drop)]
pub struct DecisionPlan {
    pub change: RecordChange,
    pub reply: Reply,
    pub sealed: Option<Arc<Segment>>,
}

/// A step on the list of branches.
#[derive(Clone, Copy)]
pub enum BranchStep {
    Create(BranchName, Point),
    Delete(BranchName),
    Checkout(BranchName),
    CheckoutNew(BranchName, Point),
}

/// The commit at which a branch is made: the head of the session's own branch, or the one named, a branch first and then an address.
#[derive(Clone, Copy)]
pub enum Point {
    Own,
    Named(BranchName),
}

/// How a step on the list of branches ended. All but `Done` leave the branches as they were.
#[derive(Clone, Copy, PartialEq, Eq)]
pub enum BranchReply {
    Done,
    /// 9004.
    NoSuch,
    /// 9005.
    Exists,
    /// 9010.
    Full,
    /// 9014: a session has it checked out.
    CheckedOut,
}
