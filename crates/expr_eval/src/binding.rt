//! Names turned into places in a scope, and the kinds of operations, or the first refusal.

ghost use Rattle.std.specs.Prelude.{◌≡◌, map, Ok, IfOk};
ghost use Rattle.sql_values.specs.Kinds.{product_kind};
ghost use Rattle.expr_eval.specs.declared.bound.BoundNode.{out-BoundNode};
ghost use Rattle.expr_eval.specs.Binding.{
  Gives,
  and_node,
  and_then,
  bound,
  bound_between,
  bound_chain,
  bound_column,
  bound_compare,
  bound_condition,
  bound_in,
  bound_is_not_null,
  bound_is_null,
  bound_literal,
  bound_negate,
  bound_not,
  bound_sum,
  chain_kind,
  column_at,
  decimal_node,
  decimal_typed,
  extended,
  factors_node,
  high_end,
  logic_kind,
  longer_sum,
  low_end,
  minus_of,
  opened_chain,
  opened_sum,
  or_node,
  terms_node,
  two,
  whole_node,
};

use crate::bound::{BoundExpr, BoundNode, Chain, Ends, Sum};
use crate::faults::BindFault;
use crate::scopes::{ScopeColumn, place_named, place_qualified};
use sql_ast::{Comparison, Expr, Literal, Term};
use sql_values::{Kind, are_comparable, negative_kind, product_kind, sum_kind};
use std::alloc::{AllocError, Global};
use tuple_codec::{Boxed, Sequence, Text, Value};

/// A column that no source has, or that more than one has.
const UNKNOWN: BindFault = BindFault::Refused(1054);
/// An operation on kinds that it doesn't take.
const MISMATCH: BindFault = BindFault::Refused(9001);
/// What has no value on a row.
const NOT_OF_A_ROW: BindFault = BindFault::Refused(9013);

/// How the kinds of a chain's operands meet.
#[derive(Clone, Copy, PartialEq, Eq)]
enum Meeting {
    /// AND and OR take truth values.
    Logic,
    Product,
    /// The first is compared with each of the others.
    Comparison,
}

/// An expression with its kind, its names being places in the scope; or its first refusal from left to right, where an
/// operation stands right after its last operand, and a chain's operand is judged as soon as it is bound.
///
/// Aggregate calls, variables and `active_branch()` have no value on a row: put their values in their places first.
#[cycle(bind)]
pub fn bind(alloc: Global, expr: &Expr, scope: &[ScopeColumn]) -> Result<BoundExpr, BindFault>
    ensures { Gives result (bound scope.now expr.now) }
{
    match expr {
        Expr::Or(first, rest) => disjunction(alloc, first.get(), rest.as_slice(), scope),
        Expr::And(first, rest) => conjunction(alloc, first.get(), rest.as_slice(), scope),
        Expr::Not(a) => bound_not(alloc, bind(alloc, a.get(), scope)?),
        Expr::Compare(a, comparison, b) => compared(alloc, a.get(), *comparison, b.get(), scope),
        Expr::IsNull(a) => bound_is_null(alloc, bind(alloc, a.get(), scope)?),
        Expr::IsNotNull(a) => bound_is_not_null(alloc, bind(alloc, a.get(), scope)?),
        Expr::In(value, elements) => listed(alloc, value.get(), elements.as_slice(), scope),
        Expr::NotIn(value, elements) => {
            let listed = listed(alloc, value.get(), elements.as_slice(), scope)?;
            bound_not(alloc, listed)
        }
        Expr::Between(a, low, high) => between(alloc, a.get(), low.get(), high.get(), scope),
        Expr::NotBetween(a, low, high) => {
            let between = between(alloc, a.get(), low.get(), high.get(), scope)?;
            bound_not(alloc, between)
        }
        Expr::Terms(first, rest) => total(alloc, first.get(), rest.as_slice(), scope),
        Expr::Factors(first, rest) => product(alloc, first.get(), rest.as_slice(), scope),
        Expr::Negate(a) => bound_negate(alloc, bind(alloc, a.get(), scope)?),
        Expr::Literal(literal) => bound_literal(alloc, literal),
        Expr::Name(name) => bound_column(scope, place_named(scope, name.as_slice())),
        Expr::Qualified(source, name) => {
            let place = place_qualified(scope, source.as_slice(), name.as_slice());
            bound_column(scope, place)
        }
        Expr::CountAll
        | Expr::Count(_)
        | Expr::Sum(_)
        | Expr::Min(_)
        | Expr::Max(_)
        | Expr::ActiveBranch
        | Expr::Variable(_) => Err(NOT_OF_A_ROW),
    }
}

/// A condition, as ON, WHERE and CHECK have: an expression that is a truth value. That it is another is its last refusal.
pub fn bind_condition(
    alloc: Global,
    expr: &Expr,
    scope: &[ScopeColumn],
) -> Result<BoundExpr, BindFault>
    ensures { Gives result (bound_condition scope.now expr.now) }
{
    let condition = bind(alloc, expr, scope)?;
    if condition.kind.is_bool() {
        Ok(condition)
    } else {
        Err(MISMATCH)
    }
}

/// The operands of OR, as one node.
#[cycle(bind)]
fn disjunction(
    alloc: Global,
    first: &Expr,
    rest: &[Expr],
    scope: &[ScopeColumn],
) -> Result<BoundExpr, BindFault>
    ensures { Gives result (and_then (and_then (bound scope.now first.now) (bound_chain logic_kind (map (bound scope.now) rest.now))) or_node) }
{
    let chain = chain(alloc, Meeting::Logic, first, rest, scope)?;
    Ok(BoundExpr {
        kind: chain.kind,
        node: BoundNode::Or(chain.first, chain.rest),
    })
}

/// The operands of AND, as one node.
#[cycle(bind)]
fn conjunction(
    alloc: Global,
    first: &Expr,
    rest: &[Expr],
    scope: &[ScopeColumn],
) -> Result<BoundExpr, BindFault>
    ensures { Gives result (and_then (and_then (bound scope.now first.now) (bound_chain logic_kind (map (bound scope.now) rest.now))) and_node) }
{
    let chain = chain(alloc, Meeting::Logic, first, rest, scope)?;
    Ok(BoundExpr {
        kind: chain.kind,
        node: BoundNode::And(chain.first, chain.rest),
    })
}

/// A product's factors, as one node.
#[cycle(bind)]
fn product(
    alloc: Global,
    first: &Expr,
    rest: &[Expr],
    scope: &[ScopeColumn],
) -> Result<BoundExpr, BindFault>
    ensures { Gives result (and_then (and_then (bound scope.now first.now) (bound_chain product_kind (map (bound scope.now) rest.now))) factors_node) }
{
    let chain = chain(alloc, Meeting::Product, first, rest, scope)?;
    Ok(BoundExpr {
        kind: chain.kind,
        node: BoundNode::Factors(chain.first, chain.rest),
    })
}

/// A sum's terms, as one node.
#[cycle(bind)]
fn total(
    alloc: Global,
    first: &Expr,
    rest: &[(Term, Expr)],
    scope: &[ScopeColumn],
) -> Result<BoundExpr, BindFault>
    ensures { Gives result (and_then (and_then (bound scope.now first.now) (bound_sum (map (λ x. (x.0, bound scope.now x.1)) rest.now))) terms_node) }
{
    let sum = sum(alloc, first, rest, scope)?;
    Ok(BoundExpr {
        kind: sum.kind,
        node: BoundNode::Terms(sum.first, sum.rest),
    })
}

/// A value and the elements that IN compares it with.
#[cycle(bind)]
fn listed(
    alloc: Global,
    value: &Expr,
    elements: &[Expr],
    scope: &[ScopeColumn],
) -> Result<BoundExpr, BindFault>
    ensures { Gives result (and_then (bound scope.now value.now) (bound_in (map (bound scope.now) elements.now))) }
{
    let chain = chain(alloc, Meeting::Comparison, value, elements, scope)?;
    Ok(BoundExpr {
        kind: Kind::Bool,
        node: BoundNode::In(chain.first, chain.rest),
    })
}

/// A chain's operands, from the left.
#[cycle(bind)]
fn chain(
    alloc: Global,
    meeting: Meeting,
    first: &Expr,
    rest: &[Expr],
    scope: &[ScopeColumn],
) -> Result<Chain, BindFault>
    ensures { Gives result (and_then (bound scope.now first.now) (bound_chain (chain_kind meeting) (map (bound scope.now) rest.now))) }
{
    let mut chain = opened_chain(alloc, bind(alloc, first, scope)?)?;
    for operand in rest {
        let operand = bind(alloc, operand, scope)?;
        chain = extended(meeting, chain, operand)?;
    }
    Ok(chain)
}

/// A sum's terms, from the left.
#[cycle(bind)]
fn sum(
    alloc: Global,
    first: &Expr,
    rest: &[(Term, Expr)],
    scope: &[ScopeColumn],
) -> Result<Sum, BindFault>
    ensures { Gives result (and_then (bound scope.now first.now) (bound_sum (map (λ x. (x.0, bound scope.now x.1)) rest.now))) }
{
    let mut sum = opened_sum(alloc, bind(alloc, first, scope)?)?;
    for (term, operand) in rest {
        let operand = bind(alloc, operand, scope)?;
        sum = lengthened(sum, *term, operand)?;
    }
    Ok(sum)
}

/// Two operands, the left one first.
#[cycle(bind)]
fn compared(
    alloc: Global,
    a: &Expr,
    comparison: Comparison,
    b: &Expr,
    scope: &[ScopeColumn],
) -> Result<BoundExpr, BindFault>
    ensures { Gives result (two (bound_compare comparison) (bound scope.now a.now) (bound scope.now b.now)) }
{
    let a = bind(alloc, a, scope)?;
    let b = bind(alloc, b, scope)?;
    bound_compare(alloc, comparison, a, b)
}

/// A value and its ends, the low one before the high one.
#[cycle(bind)]
fn between(
    alloc: Global,
    value: &Expr,
    low: &Expr,
    high: &Expr,
    scope: &[ScopeColumn],
) -> Result<BoundExpr, BindFault>
    ensures { Gives result (and_then (bound scope.now value.now) (bound_between (bound scope.now low.now) (bound scope.now high.now))) }
{
    let value = bind(alloc, value, scope)?;
    let ends = above(alloc, value, low, scope)?;
    within(alloc, ends, high, scope)
}

/// A value with its low end.
#[cycle(bind)]
fn above(
    alloc: Global,
    value: BoundExpr,
    low: &Expr,
    scope: &[ScopeColumn],
) -> Result<Ends, BindFault>
    ensures { Gives result (and_then (bound scope.now low.now) (low_end value)) }
{
    let low = bind(alloc, low, scope)?;
    low_end(alloc, value, low)
}

/// A value between its ends.
#[cycle(bind)]
fn within(
    alloc: Global,
    ends: Ends,
    high: &Expr,
    scope: &[ScopeColumn],
) -> Result<BoundExpr, BindFault>
    ensures { Gives result (and_then (bound scope.now high.now) (high_end ends)) }
{
    let high = bind(alloc, high, scope)?;
    high_end(alloc, ends, high)
}

/// The kind of a chain's operands so far with one more, or None where they don't go together.
fn chain_kind(meeting: Meeting, so_far: &Kind, operand: &Kind) -> Option<Kind>
    ensures { result ≡ chain_kind meeting so_far.now operand.now }
{
    match meeting {
        Meeting::Logic if so_far.is_bool() && operand.is_bool() => Some(Kind::Bool),
        Meeting::Comparison if are_comparable(so_far, operand) => Some(so_far.copied()),
        Meeting::Product => product_kind(so_far, operand),
        _ => None,
    }
}

fn opened_chain(alloc: Global, first: BoundExpr) -> Result<Chain, AllocError>
    ensures { IfOk result (λ chain. chain ≡ opened_chain first) }
{
    Ok(Chain {
        kind: first.kind,
        first: Boxed::new(alloc, first.node)?,
        rest: Sequence::new(alloc),
    })
}

/// A chain with one more operand.
fn extended(meeting: Meeting, chain: Chain, operand: BoundExpr) -> Result<Chain, BindFault>
    ensures { Gives result (extended (chain_kind meeting) chain operand) }
{
    match chain_kind(meeting, &chain.kind, &operand.kind) {
        None => Err(MISMATCH),
        Some(kind) => {
            let mut rest = chain.rest;
            rest.push(operand.node)?;
            Ok(Chain {
                kind,
                first: chain.first,
                rest,
            })
        }
    }
}

fn opened_sum(alloc: Global, first: BoundExpr) -> Result<Sum, AllocError>
    ensures { IfOk result (λ sum. sum ≡ opened_sum first) }
{
    Ok(Sum {
        kind: first.kind,
        first: Boxed::new(alloc, first.node)?,
        rest: Sequence::new(alloc),
    })
}

/// A sum with one more operand.
fn lengthened(sum: Sum, term: Term, operand: BoundExpr) -> Result<Sum, BindFault>
    ensures { Gives result (longer_sum term sum operand) }
{
    match sum_kind(&sum.kind, &operand.kind) {
        None => Err(MISMATCH),
        Some(kind) => {
            let mut rest = sum.rest;
            rest.push((term, operand.node))?;
            Ok(Sum {
                kind,
                first: sum.first,
                rest,
            })
        }
    }
}

fn bound_not(alloc: Global, a: BoundExpr) -> Result<BoundExpr, BindFault>
    ensures { Gives result (bound_not a) }
{
    if !a.kind.is_bool() {
        return Err(MISMATCH);
    }
    let a = Boxed::new(alloc, a.node)?;
    Ok(BoundExpr {
        kind: Kind::Bool,
        node: BoundNode::Not(a),
    })
}

fn bound_compare(
    alloc: Global,
    comparison: Comparison,
    a: BoundExpr,
    b: BoundExpr,
) -> Result<BoundExpr, BindFault>
    ensures { Gives result (bound_compare comparison a b) }
{
    if !are_comparable(&a.kind, &b.kind) {
        return Err(MISMATCH);
    }
    let a = Boxed::new(alloc, a.node)?;
    let b = Boxed::new(alloc, b.node)?;
    Ok(BoundExpr {
        kind: Kind::Bool,
        node: BoundNode::Compare(a, comparison, b),
    })
}

fn bound_is_null(alloc: Global, a: BoundExpr) -> Result<BoundExpr, BindFault>
    ensures { Gives result (bound_is_null a) }
{
    let a = Boxed::new(alloc, a.node)?;
    Ok(BoundExpr {
        kind: Kind::Bool,
        node: BoundNode::IsNull(a),
    })
}

fn bound_is_not_null(alloc: Global, a: BoundExpr) -> Result<BoundExpr, BindFault>
    ensures { Gives result (bound_is_not_null a) }
{
    let a = Boxed::new(alloc, a.node)?;
    Ok(BoundExpr {
        kind: Kind::Bool,
        node: BoundNode::IsNotNull(a),
    })
}

fn low_end(alloc: Global, value: BoundExpr, low: BoundExpr) -> Result<Ends, BindFault>
    ensures { Gives result (low_end value low) }
{
    if !are_comparable(&value.kind, &low.kind) {
        return Err(MISMATCH);
    }
    let kind = value.kind.copied();
    let value = Boxed::new(alloc, value.node)?;
    let low = Boxed::new(alloc, low.node)?;
    Ok(Ends { kind, value, low })
}

fn high_end(alloc: Global, ends: Ends, high: BoundExpr) -> Result<BoundExpr, BindFault>
    ensures { Gives result (high_end ends high) }
{
    if !are_comparable(&ends.kind, &high.kind) {
        return Err(MISMATCH);
    }
    let high = Boxed::new(alloc, high.node)?;
    Ok(BoundExpr {
        kind: Kind::Bool,
        node: BoundNode::Between(ends.value, ends.low, high),
    })
}

fn bound_negate(alloc: Global, a: BoundExpr) -> Result<BoundExpr, BindFault>
    ensures { Gives result (bound_negate a) }
{
    match negative_kind(&a.kind) {
        None => Err(MISMATCH),
        Some(kind) => {
            let node = minus_of(alloc, a.node)?;
            Ok(BoundExpr { kind, node })
        }
    }
}

/// A node under a minus, which brings the literal 2^63 into range.
fn minus_of(alloc: Global, operand: BoundNode) -> Result<BoundNode, AllocError>
    ensures { IfOk result (λ node. node ≡ minus_of (out-BoundNode operand) operand) }
{
    match operand {
        BoundNode::MinusOnly => Ok(BoundNode::Constant(Kind::Int, Value::Int(i64::MIN))),
        operand => Ok(BoundNode::Negate(Boxed::new(alloc, operand)?)),
    }
}

fn bound_literal(alloc: Global, literal: &Literal) -> Result<BoundExpr, BindFault>
    ensures { Gives result (bound_literal literal.now) }
{
    match literal {
        Literal::Whole(number) => Ok(BoundExpr {
            kind: Kind::Int,
            node: whole_node(*number),
        }),
        Literal::Decimal(number, scale) => bound_decimal(*number, Kind::decimal(*scale)),
        Literal::Text(text) => {
            let text = Text::from_slice(alloc, text.as_slice())?;
            Ok(constant(Kind::Text, Value::Text(text)))
        }
        Literal::Bytes(bytes) => {
            let bytes = Vec::from_slice(alloc, bytes.as_slice())?;
            Ok(constant(Kind::Bytes, Value::Bytes(Sequence::from_vec(bytes))))
        }
        Literal::Bool(bit) => Ok(constant(Kind::Bool, Value::Bool(*bit))),
        Literal::Null => Ok(constant(Kind::Null, Value::Null)),
    }
}

fn constant(kind: Kind, value: Value) -> BoundExpr
    ensures { result ≡ record { kind = kind; node = BoundNode.Constant kind value } }
{
    BoundExpr {
        kind: kind.copied(),
        node: BoundNode::Constant(kind, value),
    }
}

fn whole_node(number: u64) -> BoundNode
    ensures { result ≡ whole_node number }
{
    if number < 1 << 63 {
        BoundNode::Constant(Kind::Int, Value::Int(number as i64))
    } else if number == 1 << 63 {
        BoundNode::MinusOnly
    } else {
        BoundNode::OutOfRange
    }
}

fn bound_decimal(number: u64, kind: Option<Kind>) -> Result<BoundExpr, BindFault>
    ensures { Gives result (decimal_typed kind number) }
{
    match kind {
        None => Err(MISMATCH),
        Some(kind) => Ok(BoundExpr {
            kind: kind.copied(),
            node: decimal_node(kind, number),
        }),
    }
}

fn decimal_node(kind: Kind, number: u64) -> BoundNode
    ensures { result ≡ decimal_node kind number }
{
    if number < 1_000_000_000_000_000_000 {
        BoundNode::Constant(kind, Value::Decimal(number as i64))
    } else {
        BoundNode::OutOfRange
    }
}

fn bound_column(scope: &[ScopeColumn], place: Option<usize>) -> Result<BoundExpr, BindFault>
    ensures { Gives result (bound_column scope.now place) }
{
    match place {
        None => Err(UNKNOWN),
        Some(place) => column_at(scope, place),
    }
}

fn column_at(scope: &[ScopeColumn], place: usize) -> Result<BoundExpr, BindFault>
    ensures { Gives result (column_at scope.now place) }
{
    match scope.get(place) {
        None => Err(UNKNOWN),
        Some(column) => match Kind::of(&column.kind) {
            None => Err(MISMATCH),
            Some(kind) => Ok(BoundExpr {
                kind: kind.copied(),
                node: BoundNode::Column(kind, place),
            }),
        },
    }
}
