//! A script: its sessions, their lines, and the order that it may give.

use tuple_codec::{Sequence, Text};

/// A statement, and the session whose it is, by its place among the script's names.
#[derive(Drop)]
pub struct Line {
    pub session: u32,
    pub statement: Text,
}

/// A moment at which a session meets the shared state: the session, counted from 0, and the number of its statement,
/// counted from 1.
#[derive(Clone, Copy, PartialEq, Eq)]
pub struct Moment {
    pub session: u32,
    pub statement: u32,
}

/// A moment as an order line names it: by the session's name.
#[derive(Drop)]
pub struct OrderItem {
    pub name: Text,
    pub statement: u32,
}

/// What a script says: its sessions by first appearance, its statements in the text's order, and the order of moments
/// where one is given.
#[derive(Drop)]
pub struct Script {
    pub names: Sequence<Text>,
    pub lines: Sequence<Line>,
    pub order: Option<Sequence<OrderItem>>,
}
