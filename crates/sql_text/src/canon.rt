//! An expression written as its canonical text, whose size is asked first.

ghost use Rattle.std.specs.Prelude.{◌≡◌, ◌++◌, IfOk, OnOk, codes, map};
ghost use Rattle.sql_text.specs.Canon.{chain, comparison_word, contained, ranged, sum_text, text};

use crate::pieces::{
    back_of, front_of, operator_of, push_active_branch, push_literal, push_opening, push_qualified,
    push_variable, word_of, word_of_term, write,
};
use crate::sizes::{MOST_TOLD, text_size};
use sql_ast::{Comparison, Expr, Term};
use std::alloc::{AllocError, Global};
use tuple_codec::Text;

/// The canonical text of an expression.
///
/// Its size is asked before a byte is written: of a text that no memory holds, want of memory is told at once.
pub fn canonical_text(alloc: Global, expr: &Expr) -> Result<Text, AllocError>
    ensures { IfOk result (λ written. written ≡ text expr.now) }
{
    let size = text_size(alloc, expr)?;
    if size == MOST_TOLD {
        return Err(AllocError);
    }
    let mut out = Vec::with_capacity(alloc, size as usize)?;
    push_expr(alloc, &mut out, expr)?;
    Ok(Text::from_vec(out))
}

#[cycle(canon)]
fn push_expr(alloc: Global, out: &mut Vec<u8>, expr: &Expr) -> Result<(), AllocError>
    ensures { OnOk result (out.new.items ≡ out.old.items ++ text expr.now) }
{
    match expr {
        Expr::Or(a, list) | Expr::And(a, list) | Expr::Factors(a, list) => {
            push_chain(alloc, out, operator_of(expr), a.get(), list.as_slice())
        }
        Expr::Terms(a, list) => push_terms(alloc, out, a.get(), list.as_slice()),
        Expr::Not(a)
        | Expr::IsNull(a)
        | Expr::IsNotNull(a)
        | Expr::Negate(a)
        | Expr::Count(a)
        | Expr::Sum(a)
        | Expr::Min(a)
        | Expr::Max(a) => {
            write(out, front_of(expr))?;
            push_expr(alloc, out, a.get())?;
            write(out, back_of(expr))
        }
        Expr::Compare(a, op, b) => push_compare(alloc, out, a.get(), *op, b.get()),
        Expr::In(a, list) | Expr::NotIn(a, list) => {
            write(out, front_of(expr))?;
            push_contained(alloc, out, a.get(), list.as_slice())?;
            write(out, back_of(expr))
        }
        Expr::Between(a, low, high) | Expr::NotBetween(a, low, high) => {
            write(out, front_of(expr))?;
            push_ranged(alloc, out, a.get(), low.get(), high.get())?;
            write(out, back_of(expr))
        }
        Expr::Literal(literal) => push_literal(alloc, out, literal),
        Expr::Name(name) => write(out, name.as_slice()),
        Expr::Qualified(source, name) => push_qualified(out, source, name),
        Expr::CountAll => write(out, b"COUNT(*)"),
        Expr::ActiveBranch => push_active_branch(out),
        Expr::Variable(name) => push_variable(out, name),
    }
}

/// A chain of one operator: as many opening parentheses as operands follow the first, the first, and then each behind the operator and with
/// its closing parenthesis.
#[cycle(canon)]
fn push_chain(
    alloc: Global,
    out: &mut Vec<u8>,
    operator: &'static [u8],
    first: &Expr,
    list: &[Expr],
) -> Result<(), AllocError>
    ensures { OnOk result (out.new.items ≡ out.old.items ++ chain operator.now (text first.now) (map text list.now)) }
{
    push_opening(out, list.len())?;
    push_expr(alloc, out, first)?;
    for operand in list {
        write(out, operator)?;
        push_expr(alloc, out, operand)?;
        write(out, b")")?;
    }
    Ok(())
}

/// A chain as well, each operand behind a sign of its own.
#[cycle(canon)]
fn push_terms(
    alloc: Global,
    out: &mut Vec<u8>,
    first: &Expr,
    list: &[(Term, Expr)],
) -> Result<(), AllocError>
    ensures { OnOk result (out.new.items ≡ out.old.items ++ sum_text (text first.now) (map (λ term. (term.0, text term.1)) list.now)) }
{
    push_opening(out, list.len())?;
    push_expr(alloc, out, first)?;
    for term in list {
        write(out, word_of_term(term.0))?;
        push_expr(alloc, out, &term.1)?;
        write(out, b")")?;
    }
    Ok(())
}

/// A comparison with its operands.
#[cycle(canon)]
fn push_compare(
    alloc: Global,
    out: &mut Vec<u8>,
    a: &Expr,
    op: Comparison,
    b: &Expr,
) -> Result<(), AllocError>
    ensures { OnOk result (out.new.items ≡ out.old.items ++ (codes "(" ++ text a.now ++ comparison_word op ++ text b.now ++ codes ")")) }
{
    write(out, b"(")?;
    push_expr(alloc, out, a)?;
    write(out, word_of(op))?;
    push_expr(alloc, out, b)?;
    write(out, b")")
}

/// A value in a list, whose elements have commas between them.
#[cycle(canon)]
fn push_contained(
    alloc: Global,
    out: &mut Vec<u8>,
    value: &Expr,
    list: &[Expr],
) -> Result<(), AllocError>
    ensures { OnOk result (out.new.items ≡ out.old.items ++ contained (text value.now) (map text list.now)) }
{
    push_expr(alloc, out, value)?;
    write(out, b" IN (")?;
    let mut front: &'static [u8] = b"";
    for element in list {
        write(out, front)?;
        push_expr(alloc, out, element)?;
        front = b", ";
    }
    Ok(())
}

/// A value between two ends, said before each of them.
#[cycle(canon)]
fn push_ranged(
    alloc: Global,
    out: &mut Vec<u8>,
    value: &Expr,
    low: &Expr,
    high: &Expr,
) -> Result<(), AllocError>
    ensures { OnOk result (out.new.items ≡ out.old.items ++ ranged (text value.now) (text low.now) (text high.now)) }
{
    push_expr(alloc, out, value)?;
    write(out, b" >= ")?;
    push_expr(alloc, out, low)?;
    write(out, b") AND (")?;
    push_expr(alloc, out, value)?;
    write(out, b" <= ")?;
    push_expr(alloc, out, high)
}
