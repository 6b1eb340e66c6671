//! The trees of statements: writes, settings and calls, beside SELECTs and the definitions of tables.

use crate::expressions::Expr;
use crate::selects::Select;
use crate::tables::{ColumnElement, CreateTable, DropTable};
use tuple_codec::{Sequence, Text};

/// A statement.
#[derive(Drop)]
pub enum Statement {
    Write(Write),
    Select(Select),
    /// `BEGIN` or `BEGIN WORK`.
    Begin,
    /// `START TRANSACTION`, which means the same.
    Start,
    Commit,
    Rollback,
    Set(Setting),
    Call(Call),
}

/// A statement that changes a database.
#[derive(Drop)]
pub enum Write {
    Create(CreateTable),
    Drop(DropTable),
    Insert(Insert),
    Update(Update),
    Delete(Delete),
    Alter(Alter),
}

/// `INSERT`.
#[derive(Drop)]
pub struct Insert {
    pub table: Text,
    /// The columns that are named, where any are.
    pub columns: Option<Sequence<Text>>,
    /// At least one.
    pub tuples: Sequence<Tuple>,
}

/// A row of an `INSERT`: at least one entry.
pub type Tuple = Sequence<InsertCell>;

/// A cell of an `INSERT`.
#[derive(Drop)]
pub enum InsertCell {
    Value(Expr),
    Default,
}

/// `UPDATE`.
#[derive(Drop)]
pub struct Update {
    pub table: Text,
    /// At least one.
    pub assignments: Sequence<Assignment>,
    pub filter: Option<Expr>,
}

/// A column of an `UPDATE`, and what it is set to.
#[derive(Drop)]
pub struct Assignment {
    pub column: Text,
    pub value: Expr,
}

/// `DELETE`.
#[derive(Drop)]
pub struct Delete {
    pub table: Text,
    pub filter: Option<Expr>,
}

/// `ALTER TABLE`.
#[derive(Drop)]
pub struct Alter {
    pub table: Text,
    pub action: AlterAction,
}

/// What `ALTER TABLE` does to a column. Its columns are neither PRIMARY KEY nor UNIQUE.
#[derive(Drop)]
pub enum AlterAction {
    /// A new last column.
    Add(ColumnElement),
    /// The column of this name goes.
    Drop(Text),
    /// The column of this name is defined anew, in its place.
    Modify(ColumnElement),
}

/// `SET`: a variable, and whether it is switched on.
#[derive(Drop)]
pub struct Setting {
    pub variable: Text,
    pub on: bool,
}

/// `CALL`: a procedure and its arguments, strings without quotes and escapes.
#[derive(Drop)]
pub struct Call {
    pub name: Text,
    pub arguments: Sequence<Text>,
}
