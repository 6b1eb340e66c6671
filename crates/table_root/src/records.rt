//! A table: its schema, and the roots of its trees.

use schema_model::Schema;
use tuple_codec::{Address, Sequence, Text};

/// A table: its schema, and the roots of the trees that keep its rows.
#[derive(Clone, Drop, PartialEq, Eq)]
pub struct StoredTable {
    pub schema: Schema,
    pub rows: Address,
    /// One root for each of the schema's indexes, in their order.
    pub indexes: Sequence<Address>,
    pub conflicts: Address,
    pub violations: Address,
}

/// The roots of the trees of what a table has recorded.
#[derive(Clone, Copy, PartialEq, Eq)]
pub struct RecordedRoots {
    pub conflicts: Address,
    pub violations: Address,
}

/// A table in a database: its name, and the address of its written form.
#[derive(Clone, Drop, PartialEq, Eq)]
pub struct TableEntry {
    pub name: Text,
    pub table: Address,
}
