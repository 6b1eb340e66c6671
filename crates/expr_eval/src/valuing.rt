//! The value of a bound expression on a row, or that it is out of range.

ghost use Rattle.std.specs.Prelude.{◌≡◌, map, false, not, Some, Option};
ghost use Rattle.std.specs.Option.{option_map};
ghost use Rattle.sql_values.specs.Views.{seen};
ghost use Rattle.sql_values.specs.Worths.{of_truth};
ghost use Rattle.expr_eval.specs.Valuing.{Evaluates, added, among, chained, compared, comparison, conjunction, disjunction, holds, joined, negation, one, total, within, worth, value};

use crate::bound::{BoundExpr, BoundNode};
use crate::faults::EvalFault;
use sql_ast::{Comparison, Term};
use sql_values::{Worth, add, and, compare, multiply, negate, not, or, subtract};
use std::alloc::Global;
use std::cmp::Ordering;
use tuple_codec::{Row, Value};

/// The value of an expression on a row, which has a fitting value for each column of the scope that it was bound in.
/// Texts and byte strings are copied once, at the end.
pub fn eval(alloc: Global, expr: &BoundExpr, row: &Row) -> Result<Value, EvalFault>
    ensures { Evaluates result (value row.now expr.now.node) }
{
    eval_cells(alloc, expr, row.as_slice())
}

fn eval_cells(alloc: Global, expr: &BoundExpr, cells: &[Value]) -> Result<Value, EvalFault>
    ensures { Evaluates result (value cells.now expr.now.node) }
{
    match worth(&expr.node, cells) {
        Some(worth) => Ok(worth.to_value(alloc)?),
        None => Err(EvalFault::OutOfRange),
    }
}

/// What a node is worth on a row, or None where it is out of range.
#[cycle(worth)]
fn worth<'a>(node: &'a BoundNode, row: &'a [Value]) -> Option<Worth<'a>>
    ensures { option_map seen result ≡ worth row.now node.now }
{
    match node {
        BoundNode::Or(first, rest) => chained(Operation::Or, first.get(), rest.as_slice(), row),
        BoundNode::And(first, rest) => chained(Operation::And, first.get(), rest.as_slice(), row),
        BoundNode::Not(a) => Some(negation(worth(a.get(), row).as_ref()?)),
        BoundNode::Compare(a, comparison, b) => {
            let a = worth(a.get(), row);
            let b = worth(b.get(), row);
            Some(Worth::of_truth(compared(*comparison, a.as_ref()?, b.as_ref()?)))
        }
        BoundNode::IsNull(a) => Some(Worth::Bool(worth(a.get(), row).as_ref()?.is_null())),
        BoundNode::IsNotNull(a) => Some(Worth::Bool(!worth(a.get(), row).as_ref()?.is_null())),
        BoundNode::In(value, elements) => among(value.get(), elements.as_slice(), row),
        BoundNode::Between(a, low, high) => {
            let a = worth(a.get(), row);
            let low = worth(low.get(), row);
            let high = worth(high.get(), row);
            Some(within(a.as_ref()?, low.as_ref()?, high.as_ref()?))
        }
        BoundNode::Terms(first, rest) => total(first.get(), rest.as_slice(), row),
        BoundNode::Factors(first, rest) => {
            chained(Operation::Times, first.get(), rest.as_slice(), row)
        }
        BoundNode::Negate(a) => negate(worth(a.get(), row).as_ref()?),
        BoundNode::Constant(kind, value) => Some(Worth::of(kind, value)),
        BoundNode::MinusOnly | BoundNode::OutOfRange => None,
        BoundNode::Column(kind, place) => match row.get(*place) {
            Some(value) => Some(Worth::of(kind, value)),
            None => Some(Worth::Null),
        },
    }
}

/// A chain's worth, from the left.
#[cycle(worth)]
fn chained<'a>(
    operation: Operation,
    first: &'a BoundNode,
    rest: &'a [BoundNode],
    row: &'a [Value],
) -> Option<Worth<'a>>
    ensures { option_map seen result ≡ chained (joined operation) (worth row.now first.now) (map (worth row.now) rest.now) }
{
    let mut so_far = worth(first, row);
    for operand in rest {
        so_far = operation.on(so_far.as_ref()?, worth(operand, row).as_ref()?);
    }
    so_far
}

/// A sum's worth, from the left.
#[cycle(worth)]
fn total<'a>(
    first: &'a BoundNode,
    rest: &'a [(Term, BoundNode)],
    row: &'a [Value],
) -> Option<Worth<'a>>
    ensures { option_map seen result ≡ total (worth row.now first.now) (map (λ x. (x.0, worth row.now x.1)) rest.now) }
{
    let mut so_far = worth(first, row);
    for (term, operand) in rest {
        so_far = added(*term, so_far.as_ref()?, worth(operand, row).as_ref()?);
    }
    so_far
}

/// Whether a value equals an element.
#[cycle(worth)]
fn among<'a>(value: &'a BoundNode, elements: &'a [BoundNode], row: &'a [Value]) -> Option<Worth<'a>>
    ensures { option_map seen result ≡ one (among (map (worth row.now) elements.now)) (worth row.now value.now) }
{
    let value = worth(value, row);
    let value = value.as_ref()?;
    let mut found = Some(false);
    for element in elements {
        let element = worth(element, row);
        found = or(found, compared(Comparison::Equal, value, element.as_ref()?));
    }
    Some(Worth::of_truth(found))
}

/// What joins a chain's operands.
#[derive(Clone, Copy, PartialEq, Eq)]
enum Operation {
    Or,
    And,
    Times,
}

impl Operation {
    fn on<'a>(self, a: &Worth<'_>, b: &Worth<'_>) -> Option<Worth<'a>>
        ensures { option_map seen result ≡ joined self (seen a.now) (seen b.now) }
    {
        match self {
            Operation::Or => Some(disjunction(a, b)),
            Operation::And => Some(conjunction(a, b)),
            Operation::Times => multiply(a, b),
        }
    }
}

fn added<'a>(term: Term, a: &Worth<'_>, b: &Worth<'_>) -> Option<Worth<'a>>
    ensures { option_map seen result ≡ added term (seen a.now) (seen b.now) }
{
    match term {
        Term::Plus => add(a, b),
        Term::Minus => subtract(a, b),
    }
}

fn conjunction<'a>(a: &Worth<'_>, b: &Worth<'_>) -> Worth<'a>
    ensures { Some (seen result) ≡ conjunction (seen a.now) (seen b.now) }
{
    Worth::of_truth(and(a.truth(), b.truth()))
}

fn disjunction<'a>(a: &Worth<'_>, b: &Worth<'_>) -> Worth<'a>
    ensures { Some (seen result) ≡ disjunction (seen a.now) (seen b.now) }
{
    Worth::of_truth(or(a.truth(), b.truth()))
}

fn negation<'a>(a: &Worth<'_>) -> Worth<'a>
    ensures { Some (seen result) ≡ negation (seen a.now) }
{
    Worth::of_truth(not(a.truth()))
}

/// Whether the comparison holds, None where one side is NULL.
fn compared(comparison: Comparison, a: &Worth<'_>, b: &Worth<'_>) -> Option<bool>
    ensures { result ≡ compared comparison (seen a.now) (seen b.now) }
{
    match compare(a, b) {
        Some(order) => Some(holds(comparison, order)),
        None => None,
    }
}

/// Whether a value is at least the low end and at most the high end.
fn within<'a>(value: &Worth<'_>, low: &Worth<'_>, high: &Worth<'_>) -> Worth<'a>
    ensures { Some (seen result) ≡ within (seen low.now) (seen high.now) (seen value.now) }
{
    let above = compared(Comparison::AtLeast, value, low);
    let below = compared(Comparison::AtMost, value, high);
    Worth::of_truth(and(above, below))
}

fn holds(comparison: Comparison, order: Ordering) -> bool
    ensures { result ≡ holds comparison order }
{
    match (comparison, order) {
        (Comparison::Equal, Ordering::Equal) => true,
        (Comparison::NotEqual, Ordering::Less | Ordering::Greater) => true,
        (Comparison::Less, Ordering::Less) => true,
        (Comparison::AtMost, Ordering::Less | Ordering::Equal) => true,
        (Comparison::Greater, Ordering::Greater) => true,
        (Comparison::AtLeast, Ordering::Equal | Ordering::Greater) => true,
        _ => false,
    }
}
