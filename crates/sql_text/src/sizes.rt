//! How many bytes a canonical text has, counted without writing it.

ghost use Rattle.std.specs.Prelude.{◌≡◌, ◌+◌, ◌++◌, IfOk, codes, length, map};
ghost use Rattle.sql_text.specs.Canon.{chain, comparison_word, contained, literal_text, ranged, sum_text, text};
ghost use Rattle.sql_text.specs.Sizes as spec;
ghost use Rattle.sql_text.specs.Sizes.{around_size, told};
ghost use Rattle.sql_ast.specs.declared.expressions.Expr.{out-Expr};

use crate::pieces::{back_of, front_of, operator_of, push_literal, word_of, word_of_term};
use sql_ast::{Comparison, Expr, Literal, Term};
use std::alloc::{AllocError, Global};
use tuple_codec::Text;

/// The size that stands for itself and for all above.
pub const MOST_TOLD: u64 = 1 << 32;

/// How many bytes the canonical text of an expression has, and 2^32 where it has more.
///
/// The text isn't written: one with BETWEENs inside one another may have more bytes than any memory.
#[cycle(sizes)]
pub(crate) fn text_size(alloc: Global, expr: &Expr) -> Result<u64, AllocError>
    ensures { IfOk result (λ size. size ≡ spec.text_size expr.now) }
{
    match expr {
        Expr::Or(a, list) | Expr::And(a, list) | Expr::Factors(a, list) => {
            chain_size(alloc, operator_of(expr), a.get(), list.as_slice())
        }
        Expr::Terms(a, list) => terms_size(alloc, a.get(), list.as_slice()),
        Expr::Not(a)
        | Expr::IsNull(a)
        | Expr::IsNotNull(a)
        | Expr::Negate(a)
        | Expr::Count(a)
        | Expr::Sum(a)
        | Expr::Min(a)
        | Expr::Max(a) => Ok(sum(text_size(alloc, a.get())?, around(expr))),
        Expr::Compare(a, op, b) => compare_size(alloc, a.get(), *op, b.get()),
        Expr::In(a, list) | Expr::NotIn(a, list) => {
            let inside = contained_size(alloc, a.get(), list.as_slice())?;
            Ok(sum(inside, around(expr)))
        }
        Expr::Between(a, low, high) | Expr::NotBetween(a, low, high) => {
            let inside = ranged_size(alloc, a.get(), low.get(), high.get())?;
            Ok(sum(inside, around(expr)))
        }
        Expr::Literal(literal) => literal_size(alloc, literal),
        Expr::Name(name) => Ok(sum(name.as_slice().len() as u64, 0)),
        Expr::Qualified(source, name) => Ok(qualified_size(source, name)),
        Expr::CountAll => Ok(8),
        Expr::ActiveBranch => Ok(15),
        Expr::Variable(name) => Ok(sum(name.as_slice().len() as u64, 2)),
    }
}

fn sum(a: u64, b: u64) -> u64
    ensures { result ≡ told (a + b) }
{
    a.saturating_add(b).min(MOST_TOLD)
}

fn around(expr: &Expr) -> u64
    ensures { result ≡ around_size (out-Expr expr.now) }
{
    front_of(expr).len() as u64 + back_of(expr).len() as u64
}

fn literal_size(alloc: Global, literal: &Literal) -> Result<u64, AllocError>
    ensures { IfOk result (λ size. size ≡ told (length (literal_text literal.now))) }
{
    let mut out = Vec::new(alloc);
    push_literal(alloc, &mut out, literal)?;
    Ok(sum(out.len() as u64, 0))
}

fn qualified_size(source: &Text, name: &Text) -> u64
    ensures { result ≡ told (length (source.now ++ codes "." ++ name.now)) }
{
    let source = source.as_slice().len() as u64;
    sum(sum(source, 1), name.as_slice().len() as u64)
}

/// A chain of one operator: an opening parenthesis for each operand but the first, and with each its operator and a closing one.
#[cycle(sizes)]
fn chain_size(
    alloc: Global,
    operator: &'static [u8],
    first: &Expr,
    list: &[Expr],
) -> Result<u64, AllocError>
    ensures { IfOk result (λ size. size ≡ told (length (chain operator.now (text first.now) (map text list.now)))) }
{
    let mut size = sum(list.len() as u64, text_size(alloc, first)?);
    for operand in list {
        size = sum(
            sum(size, operator.len() as u64),
            sum(text_size(alloc, operand)?, 1),
        );
    }
    Ok(size)
}

/// A chain as well, each operand behind a sign of its own.
#[cycle(sizes)]
fn terms_size(alloc: Global, first: &Expr, list: &[(Term, Expr)]) -> Result<u64, AllocError>
    ensures { IfOk result (λ size. size ≡ told (length (sum_text (text first.now) (map (λ term. (term.0, text term.1)) list.now)))) }
{
    let mut size = sum(list.len() as u64, text_size(alloc, first)?);
    for term in list {
        let word = word_of_term(term.0).len() as u64;
        size = sum(sum(size, word), sum(text_size(alloc, &term.1)?, 1));
    }
    Ok(size)
}

/// A comparison with its operands, between two parentheses.
#[cycle(sizes)]
fn compare_size(alloc: Global, a: &Expr, op: Comparison, b: &Expr) -> Result<u64, AllocError>
    ensures { IfOk result (λ size. size ≡ told (length (codes "(" ++ text a.now ++ comparison_word op ++ text b.now ++ codes ")"))) }
{
    let left = text_size(alloc, a)?;
    let right = text_size(alloc, b)?;
    Ok(sum(sum(left, right), word_of(op).len() as u64 + 2))
}

/// A value in a list: five bytes between them, and commas between the elements.
#[cycle(sizes)]
fn contained_size(alloc: Global, value: &Expr, list: &[Expr]) -> Result<u64, AllocError>
    ensures { IfOk result (λ size. size ≡ told (length (contained (text value.now) (map text list.now)))) }
{
    let mut size = sum(text_size(alloc, value)?, 5);
    let mut front: &'static [u8] = b"";
    for element in list {
        size = sum(sum(size, front.len() as u64), text_size(alloc, element)?);
        front = b", ";
    }
    Ok(size)
}

/// A value between two ends, counted before each of them: fifteen bytes stand between the four.
#[cycle(sizes)]
fn ranged_size(alloc: Global, value: &Expr, low: &Expr, high: &Expr) -> Result<u64, AllocError>
    ensures { IfOk result (λ size. size ≡ told (length (ranged (text value.now) (text low.now) (text high.now)))) }
{
    let value = text_size(alloc, value)?;
    let low = text_size(alloc, low)?;
    let high = text_size(alloc, high)?;
    Ok(sum(sum(sum(value, value), sum(low, high)), 15))
}
