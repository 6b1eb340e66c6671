//! Nodes, from their parts.

ghost use Rattle.std.specs.Prelude.{◌≡◌, IfOk, if◌then◌else◌};
ghost use Rattle.sql_grammar.specs.Expressions as spec;

use sql_ast::{Comparison, Expr, Term};
use std::alloc::{AllocError, Global};
use tuple_codec::{Boxed, Sequence};

/// The OR of all operands from the left; the first as it is where there is no other.
pub fn disjoined(
    alloc: Global,
    first: Boxed<Expr>,
    rest: Sequence<Expr>,
) -> Result<Boxed<Expr>, AllocError>
    ensures { IfOk result (λ x. x ≡ spec.chained Expr.Or first rest) }
{
    if rest.as_slice().is_empty() {
        return Ok(first);
    }
    Boxed::new(alloc, Expr::Or(first, rest))
}

/// The AND of all operands from the left; the first as it is where there is no other.
pub fn conjoined(
    alloc: Global,
    first: Boxed<Expr>,
    rest: Sequence<Expr>,
) -> Result<Boxed<Expr>, AllocError>
    ensures { IfOk result (λ x. x ≡ spec.chained Expr.And first rest) }
{
    if rest.as_slice().is_empty() {
        return Ok(first);
    }
    Boxed::new(alloc, Expr::And(first, rest))
}

/// The NOT of a comparison. Its operand is moved in, so memory is taken for this node alone.
pub fn not(alloc: Global, operand: Boxed<Expr>) -> Result<Boxed<Expr>, AllocError>
    ensures { IfOk result (λ x. x ≡ Expr.Not operand) }
{
    Boxed::new(alloc, Expr::Not(operand))
}

/// A comparison of two sums, never a chain: `a = b = c` isn't read.
pub fn compared(
    alloc: Global,
    left: Boxed<Expr>,
    operator: Comparison,
    right: Boxed<Expr>,
) -> Result<Boxed<Expr>, AllocError>
    ensures { IfOk result (λ x. x ≡ Expr.Compare left operator right) }
{
    Boxed::new(alloc, Expr::Compare(left, operator, right))
}

/// IS NULL, or IS NOT NULL where it is negated.
pub fn null_tested(
    alloc: Global,
    operand: Boxed<Expr>,
    negated: bool,
) -> Result<Boxed<Expr>, AllocError>
    ensures { IfOk result (λ x. x ≡ (if negated then Expr.IsNotNull operand else Expr.IsNull operand)) }
{
    let test = if negated {
        Expr::IsNotNull(operand)
    } else {
        Expr::IsNull(operand)
    };
    Boxed::new(alloc, test)
}

/// IN and its elements, of which the grammar gives at least one.
pub fn among(
    alloc: Global,
    left: Boxed<Expr>,
    items: Sequence<Expr>,
) -> Result<Boxed<Expr>, AllocError>
    ensures { IfOk result (λ x. x ≡ Expr.In left items) }
{
    Boxed::new(alloc, Expr::In(left, items))
}

/// NOT IN as a node of its own; its canonical text is that of the NOT of an IN.
pub fn not_among(
    alloc: Global,
    left: Boxed<Expr>,
    items: Sequence<Expr>,
) -> Result<Boxed<Expr>, AllocError>
    ensures { IfOk result (λ x. x ≡ Expr.NotIn left items) }
{
    Boxed::new(alloc, Expr::NotIn(left, items))
}

/// BETWEEN and its ends: the first in the text is the low one, whatever their values.
pub fn between(
    alloc: Global,
    left: Boxed<Expr>,
    limits: (Boxed<Expr>, Boxed<Expr>),
) -> Result<Boxed<Expr>, AllocError>
    ensures { IfOk result (λ x. x ≡ spec.between left limits) }
{
    let (low, high) = limits;
    Boxed::new(alloc, Expr::Between(left, low, high))
}

/// NOT BETWEEN as a node of its own; its canonical text is that of the NOT of a BETWEEN.
pub fn not_between(
    alloc: Global,
    left: Boxed<Expr>,
    limits: (Boxed<Expr>, Boxed<Expr>),
) -> Result<Boxed<Expr>, AllocError>
    ensures { IfOk result (λ x. x ≡ spec.not_between left limits) }
{
    let (low, high) = limits;
    Boxed::new(alloc, Expr::NotBetween(left, low, high))
}

/// The first operand with all that is added to it or subtracted, from the left; as it is where that is nothing.
pub fn added(
    alloc: Global,
    first: Boxed<Expr>,
    rest: Sequence<(Term, Expr)>,
) -> Result<Boxed<Expr>, AllocError>
    ensures { IfOk result (λ x. x ≡ spec.chained Expr.Terms first rest) }
{
    if rest.as_slice().is_empty() {
        return Ok(first);
    }
    Boxed::new(alloc, Expr::Terms(first, rest))
}

/// The product of all operands from the left; the first as it is where there is no other.
pub fn multiplied(
    alloc: Global,
    first: Boxed<Expr>,
    rest: Sequence<Expr>,
) -> Result<Boxed<Expr>, AllocError>
    ensures { IfOk result (λ x. x ≡ spec.chained Expr.Factors first rest) }
{
    if rest.as_slice().is_empty() {
        return Ok(first);
    }
    Boxed::new(alloc, Expr::Factors(first, rest))
}

/// The unary minus of an atom; before a literal it stays a node, since literals have no sign.
pub fn negative(alloc: Global, operand: Boxed<Expr>) -> Result<Boxed<Expr>, AllocError>
    ensures { IfOk result (λ x. x ≡ Expr.Negate operand) }
{
    Boxed::new(alloc, Expr::Negate(operand))
}

/// COUNT of an expression, which counts the values that aren't NULL; `COUNT(*)` is another node.
pub fn count_of(alloc: Global, operand: Boxed<Expr>) -> Result<Boxed<Expr>, AllocError>
    ensures { IfOk result (λ x. x ≡ Expr.Count operand) }
{
    Boxed::new(alloc, Expr::Count(operand))
}

/// SUM of an expression; that its kind is Int or Decimal is seen when it is bound, and any other is refused 9001.
pub fn sum_of(alloc: Global, operand: Boxed<Expr>) -> Result<Boxed<Expr>, AllocError>
    ensures { IfOk result (λ x. x ≡ Expr.Sum operand) }
{
    Boxed::new(alloc, Expr::Sum(operand))
}

/// MIN of an expression of any kind.
pub fn min_of(alloc: Global, operand: Boxed<Expr>) -> Result<Boxed<Expr>, AllocError>
    ensures { IfOk result (λ x. x ≡ Expr.Min operand) }
{
    Boxed::new(alloc, Expr::Min(operand))
}

/// MAX of an expression of any kind.
pub fn max_of(alloc: Global, operand: Boxed<Expr>) -> Result<Boxed<Expr>, AllocError>
    ensures { IfOk result (λ x. x ≡ Expr.Max operand) }
{
    Boxed::new(alloc, Expr::Max(operand))
}
