//! The span of primary keys that a test names.

ghost use Rattle.std.specs.Prelude.{◌≡◌, Some, IfOk};
ghost use Rattle.sql_select.specs.Parts.{AreTold, IsHigh, IsLow, IsSpanIn};
ghost use Rattle.sql_select.specs.Seeking.{IsSpanOf, Seeks, is_sought};
ghost use Rattle.sql_select.specs.declared.spans.KeySpan as spans;

use crate::naming::fixed_value;
use crate::spans::{End, KeySpan};
use crate::steady::{are_steady, is_steady};
use expr_eval::{BoundExpr, BoundNode};
use schema_model::Schema;
use sql_ast::Comparison;
use std::alloc::{AllocError, Global};
use tuple_codec::Row;

/// The span in which a row's primary key has to lie for the row to pass the test, where literals bound it. The test is bound over
/// the schema's own columns, each at its position.
pub(crate) fn sought_keys(
    alloc: Global,
    schema: &Schema,
    test: &BoundExpr,
) -> Result<Option<KeySpan>, AllocError>
    ensures seeks { (span : spans.KeySpan) → IfOk result (λ found. found ≡ Some span → Seeks schema.now test.now (is_sought schema.now span)) }
    ensures fits { (span : spans.KeySpan) → IfOk result (λ found. found ≡ Some span → IsSpanOf schema.now span) }
{
    match &test.node {
        BoundNode::And(first, rest) => span_in(alloc, schema, first.get(), rest.as_slice()),
        _ => span_in(alloc, schema, &test.node, &[]),
    }
}

/// The span that these parts tell, where all of them are steady and it isn't that of all keys.
fn span_in(
    alloc: Global,
    schema: &Schema,
    first: &BoundNode,
    rest: &[BoundNode],
) -> Result<Option<KeySpan>, AllocError>
    ensures { (span : spans.KeySpan) → IfOk result (λ found. found ≡ Some span → IsSpanIn schema.now first.now rest.now span) }
{
    if !is_steady(first) {
        return Ok(None);
    }
    if !are_steady(rest) {
        return Ok(None);
    }
    let span = told_span(alloc, schema, first, rest)?;
    if is_bounded(&span) {
        Ok(Some(span))
    } else {
        Ok(None)
    }
}

/// Whether it leaves out any key.
fn is_bounded(span: &KeySpan) -> bool {
    !(span.fixed.as_slice().is_empty()
        && matches!(&span.low, End::Open)
        && matches!(&span.high, End::Open))
}

fn told_span(
    alloc: Global,
    schema: &Schema,
    first: &BoundNode,
    rest: &[BoundNode],
) -> Result<KeySpan, AllocError>
    ensures { IfOk result (λ span. AreTold schema.now first.now rest.now schema.now.key span.fixed span.low span.high) }
{
    let mut fixed = Row::new(alloc);
    for position in schema.key.as_slice() {
        let place = usize::from(*position);
        match fixed_value(alloc, schema, place, Comparison::Equal, first, rest)? {
            Some(value) => fixed.push(value)?,
            None => {
                let low = low_end(alloc, schema, place, first, rest)?;
                let high = high_end(alloc, schema, place, first, rest)?;
                return Ok(KeySpan { fixed, low, high });
            }
        }
    }
    Ok(KeySpan {
        fixed,
        low: End::Open,
        high: End::Open,
    })
}

fn low_end(
    alloc: Global,
    schema: &Schema,
    place: usize,
    first: &BoundNode,
    rest: &[BoundNode],
) -> Result<End, AllocError>
    ensures { IfOk result (λ low. IsLow schema.now first.now rest.now place low) }
{
    match fixed_value(alloc, schema, place, Comparison::Greater, first, rest)? {
        Some(value) => Ok(End::Without(value)),
        None => low_end_with(alloc, schema, place, first, rest),
    }
}

fn low_end_with(
    alloc: Global,
    schema: &Schema,
    place: usize,
    first: &BoundNode,
    rest: &[BoundNode],
) -> Result<End, AllocError>
    ensures { IfOk result (λ low. IsLow schema.now first.now rest.now place low) }
{
    match fixed_value(alloc, schema, place, Comparison::AtLeast, first, rest)? {
        Some(value) => Ok(End::With(value)),
        None => Ok(End::Open),
    }
}

fn high_end(
    alloc: Global,
    schema: &Schema,
    place: usize,
    first: &BoundNode,
    rest: &[BoundNode],
) -> Result<End, AllocError>
    ensures { IfOk result (λ high. IsHigh schema.now first.now rest.now place high) }
{
    match fixed_value(alloc, schema, place, Comparison::Less, first, rest)? {
        Some(value) => Ok(End::Without(value)),
        None => high_end_with(alloc, schema, place, first, rest),
    }
}

fn high_end_with(
    alloc: Global,
    schema: &Schema,
    place: usize,
    first: &BoundNode,
    rest: &[BoundNode],
) -> Result<End, AllocError>
    ensures { IfOk result (λ high. IsHigh schema.now first.now rest.now place high) }
{
    match fixed_value(alloc, schema, place, Comparison::AtMost, first, rest)? {
        Some(value) => Ok(End::With(value)),
        None => Ok(End::Open),
    }
}
