//! Parts of a test that have a value on each row.

ghost use Rattle.std.specs.Prelude.{◌≡◌, true};
ghost use Rattle.std.specs.List.{All};
ghost use Rattle.expr_eval.specs.declared.bound.BoundNode.TheVariants as node;
ghost use Rattle.plain_sql.specs.Passing.{IsCalm};

use expr_eval::BoundNode;
use plain_sql::is_calm;
use sql_values::{Worth, negate};

/// Whether it is out of range on no row: it is calm, or its operands are calm or literals behind a minus that are in range.
pub(crate) fn is_steady(part: &BoundNode) -> bool
    ensures { result ≡ true → IsCalm part.now }
{
    match part {
        BoundNode::Compare(a, _, b) => is_settled(a.get()) && is_settled(b.get()),
        BoundNode::Between(a, low, high) => {
            is_settled(a.get()) && are_settled_ends(low.get(), high.get())
        }
        BoundNode::In(value, elements) => is_settled(value.get())
            && are_settled(elements.as_slice()),
        _ => is_calm(part),
    }
}

pub(crate) fn are_steady(parts: &[BoundNode]) -> bool
    ensures { result ≡ true → All IsCalm parts.now }
{
    for part in parts {
        if !is_steady(part) {
            return false;
        }
    }
    true
}

fn is_settled(operand: &BoundNode) -> bool
    ensures { result ≡ true → IsCalm operand.now }
{
    match operand {
        BoundNode::Negate(a) => is_turnable(a.get()),
        _ => is_calm(operand),
    }
}

fn are_settled_ends(low: &BoundNode, high: &BoundNode) -> bool
    ensures low { result ≡ true → IsCalm low.now }
    ensures high { result ≡ true → IsCalm high.now }
{
    is_settled(low) && is_settled(high)
}

fn are_settled(operands: &[BoundNode]) -> bool
    ensures { result ≡ true → All IsCalm operands.now }
{
    for operand in operands {
        if !is_settled(operand) {
            return false;
        }
    }
    true
}

/// Whether it is a literal whose minus is in range.
fn is_turnable(operand: &BoundNode) -> bool
    ensures { result ≡ true → IsCalm (node.Negate operand.now) }
{
    match operand {
        BoundNode::Constant(kind, value) => negate(&Worth::of(kind, value)).is_some(),
        _ => false,
    }
}
