//! The column of a source that a test compares with an earlier one.

ghost use Rattle.std.specs.Prelude.{◌≡◌, IfSome, true, map};
ghost use Rattle.std.specs.List.{Contains};
ghost use Rattle.sql_values.specs.Worths.{scale_of};
ghost use Rattle.plain_sql.specs.Links.{AreCalm, AreColumns, AreEnds, NeedsLink, OneNeedsLink, PassesOver, Skips};
ghost use Rattle.plain_sql.specs.Plans.{meaning};

use crate::calm::{are_calm, is_calm};
use expr_eval::{BoundExpr, BoundNode};
use sql_ast::Comparison;
use sql_values::Kind;

/// A column of a source that a test compares by `=` with one before it.
#[derive(Drop)]
pub struct Link {
    /// The place of the column before.
    pub earlier: usize,
    /// The place in the source's own rows.
    pub place: usize,
    /// What both are.
    pub kind: Kind,
}

/// The source's columns begin at the width, and those of the sources behind it at the end.
fn ends(width: usize, end: usize, kind: Kind, a: usize, b: usize) -> Option<Link>
    ensures { IfSome result (λ link. AreEnds width link a b) }
{
    if a < width && width <= b && b < end {
        Some(Link {
            earlier: a,
            place: b - width,
            kind,
        })
    } else if b < width && width <= a && a < end {
        Some(Link {
            earlier: b,
            place: a - width,
            kind,
        })
    } else {
        None
    }
}

/// Decimals of two scales may be equal though their cells aren't.
fn scaled_ends(
    width: usize,
    end: usize,
    kind: &Kind,
    a: usize,
    other: &Kind,
    b: usize,
) -> Option<Link>
    ensures { IfSome result (λ link. (scale_of kind.now ≡ scale_of other.now) × AreEnds width link a b) }
{
    if kind.scale().get() == other.scale().get() {
        ends(width, end, kind.copied(), a, b)
    } else {
        None
    }
}

fn columns(width: usize, end: usize, a: &BoundNode, b: &BoundNode) -> Option<Link>
    ensures { IfSome result (λ link. AreColumns width link a.now b.now) }
{
    match a {
        BoundNode::Column(kind, near) => match b {
            BoundNode::Column(other, far) => scaled_ends(width, end, kind, *near, other, *far),
            _ => None,
        },
        _ => None,
    }
}

fn is_equal(comparison: Comparison) -> bool
    ensures { result ≡ true → comparison ≡ Comparison.Equal }
{
    match comparison {
        Comparison::Equal => true,
        _ => false,
    }
}

fn compared(
    width: usize,
    end: usize,
    a: &BoundNode,
    comparison: Comparison,
    b: &BoundNode,
) -> Option<Link>
    ensures { IfSome result (λ link. (comparison ≡ Comparison.Equal) × AreColumns width link a.now b.now) }
{
    if is_equal(comparison) {
        columns(width, end, a, b)
    } else {
        None
    }
}

fn link_in(width: usize, end: usize, part: &BoundNode) -> Option<Link>
    ensures { IfSome result (λ link. NeedsLink width link part.now) }
{
    match part {
        BoundNode::Compare(a, comparison, b) => compared(width, end, a.get(), *comparison, b.get()),
        _ => None,
    }
}

fn link_among(width: usize, end: usize, parts: &[BoundNode]) -> Option<Link>
    ensures { IfSome result (λ link. (part : BoundNode) × Contains parts.now part × NeedsLink width link part) }
{
    for part in parts {
        match link_in(width, end, part) {
            Some(link) => return Some(link),
            None => {}
        }
    }
    None
}

fn first_link(width: usize, end: usize, first: &BoundNode, rest: &[BoundNode]) -> Option<Link>
    ensures { IfSome result (λ link. OneNeedsLink width link first.now rest.now) }
{
    match link_in(width, end, first) {
        Some(link) => Some(link),
        None => link_among(width, end, rest),
    }
}

/// An AND evaluates all its parts, so a row is passed over unseen only where each of them is calm.
fn calm_link(width: usize, end: usize, first: &BoundNode, rest: &[BoundNode]) -> Option<Link>
    ensures { IfSome result (λ link. AreCalm first.now rest.now × OneNeedsLink width link first.now rest.now) }
{
    if !is_calm(first) {
        return None;
    }
    if !are_calm(rest) {
        return None;
    }
    first_link(width, end, first, rest)
}

fn link_of_test(width: usize, end: usize, test: &BoundExpr) -> Option<Link>
    ensures { IfSome result (λ link. PassesOver width link test.now) }
{
    match &test.node {
        BoundNode::And(first, rest) => calm_link(width, end, first.get(), rest.as_slice()),
        _ => calm_link(width, end, &test.node, &[]),
    }
}

/// A test is made only where those before it are true, so a row that it passes over gives nothing where those are calm.
pub fn link_of(width: usize, end: usize, tests: &[BoundExpr]) -> Option<Link>
    ensures { IfSome result (λ link. Skips (map meaning tests.now) width link) }
{
    for test in tests {
        match link_of_test(width, end, test) {
            Some(link) => return Some(link),
            None => {}
        }
        if !is_calm(&test.node) {
            return None;
        }
    }
    None
}
