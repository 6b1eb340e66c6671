//! What a SELECT reads from: a database's address, and answers under names.

use tuple_codec::{Address, Answer, Sequence, Text};

/// What a system table shows, by the system table's name.
#[derive(Drop)]
pub struct NamedAnswer {
    pub name: Text,
    pub answer: Answer,
}

/// What a SELECT may read: the database at an address, and system tables. A table's name never is a system table's.
#[derive(Drop)]
pub struct Sources {
    pub database: Address,
    pub system: Sequence<NamedAnswer>,
}
