//! Expressions that are out of range on no row.

ghost use Rattle.std.specs.Prelude.{◌≡◌, true};
ghost use Rattle.std.specs.List.{All};
ghost use Rattle.plain_sql.specs.Passing.{IsCalm};

use expr_eval::BoundNode;

/// Whether nothing is computed in it that may be out of range. An AND evaluates all its parts, so each of them has to be calm
/// where rows are passed over unseen.
#[cycle(is_calm)]
pub fn is_calm(part: &BoundNode) -> bool
    ensures { result ≡ true → IsCalm part.now }
{
    match part {
        BoundNode::Or(first, rest) => is_calm(first.get()) && are_calm(rest.as_slice()),
        BoundNode::And(first, rest) => is_calm(first.get()) && are_calm(rest.as_slice()),
        BoundNode::Not(a) => is_calm(a.get()),
        BoundNode::Compare(a, _, b) => is_calm(a.get()) && is_calm(b.get()),
        BoundNode::IsNull(a) => is_calm(a.get()),
        BoundNode::IsNotNull(a) => is_calm(a.get()),
        BoundNode::In(value, elements) => is_calm(value.get()) && are_calm(elements.as_slice()),
        BoundNode::Between(a, low, high) => is_calm(a.get())
            && is_calm(low.get())
            && is_calm(high.get()),
        BoundNode::Constant(_, _) => true,
        BoundNode::Column(_, _) => true,
        BoundNode::Terms(_, _) => false,
        BoundNode::Factors(_, _) => false,
        BoundNode::Negate(_) => false,
        BoundNode::MinusOnly => false,
        BoundNode::OutOfRange => false,
    }
}

/// Whether each of them is calm.
#[cycle(is_calm)]
pub fn are_calm(parts: &[BoundNode]) -> bool
    ensures { result ≡ true → All IsCalm parts.now }
{
    for part in parts {
        if !is_calm(part) {
            return false;
        }
    }
    true
}
