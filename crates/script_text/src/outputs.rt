//! What a run shows.

use crate::replies::Reply;
use crate::scripts::Moment;
use tuple_codec::{BranchRecord, Sequence, Text};

/// A branch at the end of a run: its name, and the addresses that its record has.
#[derive(Drop)]
pub struct BranchLine {
    pub name: Text,
    pub rec: BranchRecord,
}

/// What a run shows: the sessions' names, each session's replies, the moments in their order, and the branches at the
/// end, by the bytes of their names.
#[derive(Drop)]
pub struct RunText {
    pub names: Sequence<Text>,
    pub replies: Sequence<Sequence<Reply>>,
    pub order: Sequence<Moment>,
    pub branches: Sequence<BranchLine>,
}

/// Where a given order can't be followed: the item, counted from 1, or one past the last where a moment is left; and what each session answered
/// before it.
#[derive(Drop)]
pub struct StopText {
    pub item: u64,
    pub names: Sequence<Text>,
    pub replies: Sequence<Sequence<Reply>>,
}
