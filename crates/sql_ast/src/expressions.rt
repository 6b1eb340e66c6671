//! The trees of expressions: literals, names, operations and calls.

use tuple_codec::{Blob, Boxed, Sequence, Text};

/// A literal.
#[derive(Drop)]
pub enum Literal {
    /// A whole number, at most 2^63 - 1, or 2^63 where it stands directly after a unary minus.
    Whole(u64),
    /// A number below 10^18, and how many of its digits stand behind the point.
    Decimal(u64, u8),
    /// A string, without its quotes and escapes.
    Text(Text),
    /// A byte string.
    Bytes(Blob),
    Bool(bool),
    Null,
}

/// The operators of comparison.
#[derive(Clone, Copy, PartialEq, Eq)]
pub enum Comparison {
    Equal,
    NotEqual,
    Less,
    AtMost,
    Greater,
    AtLeast,
}

/// What happens to an operand of a sum.
#[derive(Clone, Copy, PartialEq, Eq)]
pub enum Term {
    Plus,
    Minus,
}

/// An expression.
#[derive(Drop)]
pub enum Expr {
    /// The first operand and the others from the left, of which there is at least one. So a chain is one node, however long it is.
    Or(Boxed<Expr>, Sequence<Expr>),
    /// As `Or`.
    And(Boxed<Expr>, Sequence<Expr>),
    Not(Boxed<Expr>),
    Compare(Boxed<Expr>, Comparison, Boxed<Expr>),
    IsNull(Boxed<Expr>),
    IsNotNull(Boxed<Expr>),
    /// The value and the list's elements, of which there is at least one.
    In(Boxed<Expr>, Sequence<Expr>),
    NotIn(Boxed<Expr>, Sequence<Expr>),
    /// The value, the low end and the high end.
    Between(Boxed<Expr>, Boxed<Expr>, Boxed<Expr>),
    NotBetween(Boxed<Expr>, Boxed<Expr>, Boxed<Expr>),
    /// A sum: the first operand and what is added to it or subtracted, from the left, of which there is at least one.
    Terms(Boxed<Expr>, Sequence<(Term, Expr)>),
    /// A product: as `Or`.
    Factors(Boxed<Expr>, Sequence<Expr>),
    /// A unary minus.
    Negate(Boxed<Expr>),
    Literal(Literal),
    /// A column.
    Name(Text),
    /// A source and a column of it.
    Qualified(Text, Text),
    /// `COUNT(*)`.
    CountAll,
    Count(Boxed<Expr>),
    Sum(Boxed<Expr>),
    Min(Boxed<Expr>),
    Max(Boxed<Expr>),
    /// `active_branch()`.
    ActiveBranch,
    /// `@@` and the variable's name.
    Variable(Text),
}
