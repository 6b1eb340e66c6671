//! The trees of CREATE TABLE and DROP TABLE, with columns, types and constraints as written.

use crate::expressions::{Expr, Literal};
use tuple_codec::{Sequence, Text};

/// `CREATE TABLE`.
#[derive(Drop)]
pub struct CreateTable {
    pub if_not_exists: bool,
    pub table: Text,
    /// At least one.
    pub elements: Sequence<Element>,
}

/// `DROP TABLE`.
#[derive(Drop)]
pub struct DropTable {
    pub if_exists: bool,
    pub table: Text,
}

/// An element of a table.
#[derive(Drop)]
pub enum Element {
    Column(ColumnElement),
    PrimaryKey(Sequence<Text>),
    /// The index's name, if there is one, and its columns.
    Unique(Option<Text>, Sequence<Text>),
    Index(Text, Sequence<Text>),
    /// The constraint's name, if there is one, and the condition.
    Check(Option<Text>, Expr),
    ForeignKey(ForeignKeyElement),
}

/// A column.
#[derive(Drop)]
pub struct ColumnElement {
    pub name: Text,
    pub kind: TypeName,
    pub attributes: Sequence<Attribute>,
}

/// A type as it is written, its numbers not yet judged.
#[derive(Clone, Copy, PartialEq, Eq)]
pub enum TypeName {
    BigInt,
    /// `INT` or `INTEGER`.
    Int,
    /// `BOOL`, `BOOLEAN` or `TINYINT(1)`.
    Bool,
    Varchar(u64),
    Varbinary(u64),
    /// The digits, and how many of them stand behind the point; 0 where that isn't given.
    Decimal(u64, u64),
}

/// What may stand behind a column's type.
#[derive(Drop)]
pub enum Attribute {
    NotNull,
    Null,
    /// Whether a minus stands there, and the literal.
    Default(bool, Literal),
    PrimaryKey,
    Unique,
}

/// A foreign key; both of its actions are RESTRICT.
#[derive(Drop)]
pub struct ForeignKeyElement {
    pub name: Option<Text>,
    pub columns: Sequence<Text>,
    pub parent: Text,
    pub parent_columns: Sequence<Text>,
}
