//! The trees of SELECTs: items, sources, conditions, groups, order and limit.

use crate::expressions::Expr;
use tuple_codec::{Sequence, Text};

/// A SELECT, with sources or without.
#[derive(Drop)]
pub enum Select {
    From(Query),
    /// Without FROM: expressions, at least one, each perhaps with AS and a name.
    Alone(Sequence<NamedExpr>),
}

/// An expression, and the name that AS gives it.
#[derive(Drop)]
pub struct NamedExpr {
    pub expr: Expr,
    pub name: Option<Text>,
}

/// A SELECT with sources.
#[derive(Drop)]
pub struct Query {
    pub distinct: bool,
    pub items: Items,
    pub from: FromClause,
    pub clauses: Clauses,
}

/// What a SELECT shows.
#[derive(Drop)]
pub enum Items {
    /// `*`.
    All,
    /// At least one.
    Listed(Sequence<SelectItem>),
}

/// An item of a SELECT.
#[derive(Drop)]
pub enum SelectItem {
    /// All columns of the source of this name.
    AllOf(Text),
    /// An expression, perhaps with a name, before which AS may stand.
    One(NamedExpr),
}

/// The sources: a first one, and those that are joined to it.
#[derive(Drop)]
pub struct FromClause {
    pub first: TableSource,
    pub joins: Sequence<Join>,
}

/// A table, and the name that the statement gives it.
#[derive(Drop)]
pub struct TableSource {
    pub table: Text,
    pub alias: Option<Text>,
}

/// A source that is joined, with its condition.
#[derive(Drop)]
pub struct Join {
    pub source: TableSource,
    pub on: Expr,
}

/// What follows the sources.
#[derive(Drop)]
pub struct Clauses {
    /// WHERE.
    pub filter: Option<Expr>,
    /// GROUP BY; without it none.
    pub groups: Sequence<ColumnName>,
    pub sorting: Sorting,
}

/// ORDER BY and LIMIT.
#[derive(Drop)]
pub struct Sorting {
    /// Without ORDER BY none.
    pub keys: Sequence<OrderKey>,
    pub limit: Option<Limit>,
}

/// A column's name, perhaps with its source.
#[derive(Drop)]
pub enum ColumnName {
    Name(Text),
    Qualified(Text, Text),
}

/// A key of ORDER BY.
#[derive(Drop)]
pub struct OrderKey {
    pub expr: Expr,
    pub direction: Direction,
}

/// Which way a key orders; ascending where none is given.
#[derive(Clone, Copy, PartialEq, Eq)]
pub enum Direction {
    Ascending,
    Descending,
}

/// How many rows are shown at most, and how many before them are passed over.
#[derive(Clone, Copy, PartialEq, Eq)]
pub struct Limit {
    pub count: u64,
    pub offset: Option<u64>,
}
