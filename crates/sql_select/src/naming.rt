//! What a part of a test tells of one column: a literal that it compares the column with.

ghost use Rattle.std.specs.Prelude.{◌≡◌, true, Some, IfOk};
ghost use Rattle.std.specs.List.{Contains};
ghost use Rattle.expr_eval.specs.declared.bound.BoundNode.TheVariants as node;
ghost use Rattle.tuple_codec.specs.Rows.{fits};
ghost use Rattle.tuple_codec.specs.declared.values.Value.{Value};
ghost use Rattle.tuple_codec.specs.declared.values.Value.TheVariants as cell;
ghost use Rattle.sql_select.specs.Parts.{IsColumn, IsFixed, IsLiteral, IsSaid, Tells, is_exact, turned};

use expr_eval::BoundNode;
use schema_model::Schema;
use sql_ast::Comparison;
use sql_values::{Worth, negate};
use std::alloc::{AllocError, Global};
use tuple_codec::{SqlType, Value, copy_value, value_fits};

/// The value that these parts compare the column at a position with so.
pub(crate) fn fixed_value(
    alloc: Global,
    schema: &Schema,
    place: usize,
    wanted: Comparison,
    first: &BoundNode,
    rest: &[BoundNode],
) -> Result<Option<Value>, AllocError>
    ensures { (value : Value) → IfOk result (λ found. found ≡ Some value → IsFixed schema.now first.now rest.now wanted place value) }
{
    match schema.columns.as_slice().get(place) {
        Some(column) => said_value(alloc, &column.kind, place, wanted, first, rest),
        None => Ok(None),
    }
}

fn said_value(
    alloc: Global,
    kind: &SqlType,
    place: usize,
    wanted: Comparison,
    first: &BoundNode,
    rest: &[BoundNode],
) -> Result<Option<Value>, AllocError>
    ensures { (value : Value) → IfOk result (λ found. found ≡ Some value → IsSaid kind.now place wanted value first.now rest.now) }
{
    match told_value(alloc, kind, place, wanted, first)? {
        Some(value) => Ok(Some(value)),
        None => value_among(alloc, kind, place, wanted, rest),
    }
}

fn value_among(
    alloc: Global,
    kind: &SqlType,
    place: usize,
    wanted: Comparison,
    parts: &[BoundNode],
) -> Result<Option<Value>, AllocError>
    ensures { (value : Value) → IfOk result (λ found. found ≡ Some value → (part : BoundNode) × Contains parts.now part × Tells kind.now place wanted value part) }
{
    for part in parts {
        match told_value(alloc, kind, place, wanted, part)? {
            Some(value) => return Ok(Some(value)),
            None => {}
        }
    }
    Ok(None)
}

/// The literal that a part compares the column at a place with so.
fn told_value(
    alloc: Global,
    kind: &SqlType,
    place: usize,
    wanted: Comparison,
    part: &BoundNode,
) -> Result<Option<Value>, AllocError>
    ensures { (value : Value) → IfOk result (λ found. found ≡ Some value → Tells kind.now place wanted value part.now) }
{
    match part {
        BoundNode::Compare(a, comparison, b) => {
            compared_value(alloc, kind, place, wanted, a.get(), *comparison, b.get())
        }
        BoundNode::Between(a, low, high) => {
            end_value(alloc, kind, place, wanted, a.get(), low.get(), high.get())
        }
        _ => Ok(None),
    }
}

fn compared_value(
    alloc: Global,
    kind: &SqlType,
    place: usize,
    wanted: Comparison,
    a: &BoundNode,
    comparison: Comparison,
    b: &BoundNode,
) -> Result<Option<Value>, AllocError>
    ensures { (value : Value) → IfOk result (λ found. found ≡ Some value → Tells kind.now place wanted value (node.Compare a.now comparison b.now)) }
{
    if is_column_so(place, wanted, a, comparison) {
        literal_value(alloc, kind, b)
    } else if is_column_so(place, wanted, b, turned(comparison)) {
        literal_value(alloc, kind, a)
    } else {
        Ok(None)
    }
}

/// The end of a BETWEEN that is wanted.
fn end_value(
    alloc: Global,
    kind: &SqlType,
    place: usize,
    wanted: Comparison,
    a: &BoundNode,
    low: &BoundNode,
    high: &BoundNode,
) -> Result<Option<Value>, AllocError>
    ensures { (value : Value) → IfOk result (λ found. found ≡ Some value → Tells kind.now place wanted value (node.Between a.now low.now high.now)) }
{
    if is_column_so(place, wanted, a, Comparison::AtLeast) {
        literal_value(alloc, kind, low)
    } else if is_column_so(place, wanted, a, Comparison::AtMost) {
        literal_value(alloc, kind, high)
    } else {
        Ok(None)
    }
}

/// The comparison with its sides changed.
fn turned(comparison: Comparison) -> Comparison
    ensures { result ≡ turned comparison }
{
    match comparison {
        Comparison::Equal => Comparison::Equal,
        Comparison::NotEqual => Comparison::NotEqual,
        Comparison::Less => Comparison::Greater,
        Comparison::AtMost => Comparison::AtLeast,
        Comparison::Greater => Comparison::Less,
        Comparison::AtLeast => Comparison::AtMost,
    }
}

/// Whether the part is the column at a place, and the comparison is the wanted one.
fn is_column_so(place: usize, wanted: Comparison, part: &BoundNode, comparison: Comparison) -> bool
    ensures column { result ≡ true → IsColumn place part.now }
    ensures wanted { result ≡ true → comparison ≡ wanted }
{
    is_column(place, part) && comparison == wanted
}

fn is_column(place: usize, part: &BoundNode) -> bool
    ensures { result ≡ true → IsColumn place part.now }
{
    match part {
        BoundNode::Column(_, other) => *other == place,
        _ => false,
    }
}

/// The value of a literal, or of one behind a minus, where it is of the type's own kind.
fn literal_value(
    alloc: Global,
    kind: &SqlType,
    part: &BoundNode,
) -> Result<Option<Value>, AllocError>
    ensures { (value : Value) → IfOk result (λ found. found ≡ Some value → IsLiteral kind.now value part.now) }
{
    match part {
        BoundNode::Constant(_, value) => exact_value(alloc, kind, value),
        BoundNode::Negate(a) => turned_literal(alloc, kind, a.get()),
        _ => Ok(None),
    }
}

/// The value of a whole literal behind a minus.
fn turned_literal(
    alloc: Global,
    kind: &SqlType,
    operand: &BoundNode,
) -> Result<Option<Value>, AllocError>
    ensures { (value : Value) → IfOk result (λ found. found ≡ Some value → IsLiteral kind.now value (node.Negate operand.now)) }
{
    match operand {
        BoundNode::Constant(own, value) => match negate(&Worth::of(own, value)) {
            Some(turned) => match turned {
                Worth::Int(number) => exact_value(alloc, kind, &Value::Int(number)),
                _ => Ok(None),
            },
            None => Ok(None),
        },
        _ => Ok(None),
    }
}

fn exact_value(alloc: Global, kind: &SqlType, value: &Value) -> Result<Option<Value>, AllocError>
    ensures { (copy : Value) → IfOk result (λ found. found ≡ Some copy → (copy ≡ value.now) × (fits kind.now copy ≡ true) × (is_exact copy ≡ true)) }
{
    if is_exact(value) && value_fits(kind, value) {
        Ok(Some(copy_value(alloc, value)?))
    } else {
        Ok(None)
    }
}

/// Whether it isn't NULL and no decimal.
fn is_exact(value: &Value) -> bool
    ensures { result ≡ is_exact value.now }
{
    match value {
        Value::Null | Value::Decimal(_) => false,
        _ => true,
    }
}
