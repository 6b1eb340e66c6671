//! What a schema is made of: columns, indexes, checks, foreign keys and the primary key.

use tuple_codec::{Sequence, SqlType, Text, Value};

/// A column of a table.
#[derive(Clone, Drop, PartialEq, Eq)]
pub struct Column {
    pub name: Text,
    pub kind: SqlType,
    pub not_null: bool,
    /// What a row gets that names no value; a default of NULL isn't the same as none.
    pub default: Option<Value>,
}

/// An index on columns, which are named by their positions.
#[derive(Clone, Drop, PartialEq, Eq)]
pub struct IndexDef {
    pub name: Text,
    pub unique: bool,
    pub columns: Sequence<u8>,
}

/// A condition that rows keep, as its canonical text.
#[derive(Clone, Drop, PartialEq, Eq)]
pub struct CheckDef {
    pub name: Text,
    pub text: Text,
}

/// Columns whose values stand in columns of a parent table.
#[derive(Clone, Drop, PartialEq, Eq)]
pub struct ForeignKey {
    pub name: Text,
    pub columns: Sequence<u8>,
    pub parent: Text,
    /// One for each of the columns.
    pub parent_columns: Sequence<Text>,
}

/// What a table's rows look like and what they keep.
#[derive(Clone, Drop, PartialEq, Eq)]
pub struct Schema {
    pub columns: Sequence<Column>,
    /// The positions of the primary key's columns.
    pub key: Sequence<u8>,
    pub indexes: Sequence<IndexDef>,
    pub checks: Sequence<CheckDef>,
    pub foreign: Sequence<ForeignKey>,
}
