//! Expressions whose names are places in a scope, with their kinds.

use sql_ast::{Comparison, Term};
use sql_values::Kind;
use tuple_codec::{Boxed, Sequence, Value};

/// An expression whose names are places in a scope, and its kind.
#[derive(Drop)]
pub struct BoundExpr {
    pub kind: Kind,
    pub node: BoundNode,
}

/// An operation with its operands, whose kinds fit it. Columns and literals carry their kinds; every value that is made
/// of theirs knows its own.
#[derive(Drop)]
pub enum BoundNode {
    /// The first operand and the others from the left. So a chain is one node, however long it is.
    Or(Boxed<BoundNode>, Sequence<BoundNode>),
    /// As `Or`.
    And(Boxed<BoundNode>, Sequence<BoundNode>),
    Not(Boxed<BoundNode>),
    Compare(Boxed<BoundNode>, Comparison, Boxed<BoundNode>),
    IsNull(Boxed<BoundNode>),
    IsNotNull(Boxed<BoundNode>),
    /// The value and the list's elements.
    In(Boxed<BoundNode>, Sequence<BoundNode>),
    /// The value, the low end and the high end.
    Between(Boxed<BoundNode>, Boxed<BoundNode>, Boxed<BoundNode>),
    /// A sum: the first operand and what is added to it or subtracted, from the left.
    Terms(Boxed<BoundNode>, Sequence<(Term, BoundNode)>),
    /// A product: as `Or`.
    Factors(Boxed<BoundNode>, Sequence<BoundNode>),
    /// A unary minus.
    Negate(Boxed<BoundNode>),
    /// A literal.
    Constant(Kind, Value),
    /// The literal 2^63, which is in range only under a unary minus.
    MinusOnly,
    /// A literal that is out of range wherever it is evaluated.
    OutOfRange,
    /// A column, by its place in the scope.
    Column(Kind, usize),
}

/// A chain's operands so far and their kind, or a value and the elements that it is compared with.
#[derive(Drop)]
pub struct Chain {
    pub kind: Kind,
    pub first: Boxed<BoundNode>,
    pub rest: Sequence<BoundNode>,
}

/// A sum's operands so far and their kind.
#[derive(Drop)]
pub struct Sum {
    pub kind: Kind,
    pub first: Boxed<BoundNode>,
    pub rest: Sequence<(Term, BoundNode)>,
}

/// The value and the low end of a BETWEEN, and the value's kind.
#[derive(Drop)]
pub struct Ends {
    pub kind: Kind,
    pub value: Boxed<BoundNode>,
    pub low: Boxed<BoundNode>,
}
