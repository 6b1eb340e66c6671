//! The words, signs and literals of which canonical texts are put together.

ghost use Rattle.std.specs.Prelude.{◌≡◌, ◌++◌, OnOk, codes};
ghost use Rattle.sql_ast.specs.declared.expressions.Expr.{out-Expr};
ghost use Rattle.sql_text.specs.Canon.{back, comparison_word, front, literal_text, opened, operator, term_word, truth_word};

use crate::printed_values::{push_byte_string, push_number, push_quoted, push_scaled};
use sql_ast::{Comparison, Expr, Literal, Term};
use std::alloc::{AllocError, Global};
use tuple_codec::Text;

/// Writes the bytes as they are, without quotes or escapes.
pub fn write(out: &mut Vec<u8>, piece: &[u8]) -> Result<(), AllocError>
    ensures { OnOk result (out.new.items ≡ out.old.items ++ piece.now) }
{
    out.extend_from_slice(piece)
}

/// The operator, with a space before it and behind it.
pub fn word_of(op: Comparison) -> &'static [u8]
    ensures { result.now ≡ comparison_word op }
{
    match op {
        Comparison::Equal => b" = ",
        Comparison::NotEqual => b" <> ",
        Comparison::Less => b" < ",
        Comparison::AtMost => b" <= ",
        Comparison::Greater => b" > ",
        Comparison::AtLeast => b" >= ",
    }
}

/// The sign of an operand of a sum, with a space before it and behind it.
pub fn word_of_term(term: Term) -> &'static [u8]
    ensures { result.now ≡ term_word term }
{
    match term {
        Term::Plus => b" + ",
        Term::Minus => b" - ",
    }
}

/// The operator of a chain of one operator, with a space before it and behind it.
pub fn operator_of(expr: &Expr) -> &'static [u8]
    ensures { result.now ≡ operator (out-Expr expr.now) }
{
    match expr {
        Expr::Or(_, _) => b" OR ",
        Expr::And(_, _) => b" AND ",
        Expr::Factors(_, _) => b" * ",
        _ => b"",
    }
}

/// What stands before the parts of an operation that is no chain.
pub fn front_of(expr: &Expr) -> &'static [u8]
    ensures { result.now ≡ front (out-Expr expr.now) }
{
    match expr {
        Expr::Not(_) => b"(NOT ",
        Expr::NotIn(_, _) => b"(NOT (",
        Expr::Between(_, _, _) => b"((",
        Expr::NotBetween(_, _, _) => b"(NOT ((",
        Expr::Negate(_) => b"(- ",
        Expr::Count(_) => b"COUNT(",
        Expr::Sum(_) => b"SUM(",
        Expr::Min(_) => b"MIN(",
        Expr::Max(_) => b"MAX(",
        _ => b"(",
    }
}

/// What stands behind the parts of an operation that is no chain.
pub fn back_of(expr: &Expr) -> &'static [u8]
    ensures { result.now ≡ back (out-Expr expr.now) }
{
    match expr {
        Expr::IsNull(_) => b" IS NULL)",
        Expr::IsNotNull(_) => b" IS NOT NULL)",
        Expr::In(_, _) | Expr::Between(_, _, _) => b"))",
        Expr::NotIn(_, _) | Expr::NotBetween(_, _, _) => b")))",
        _ => b")",
    }
}

/// Writes as many opening parentheses.
pub fn push_opening(out: &mut Vec<u8>, count: usize) -> Result<(), AllocError>
    ensures { OnOk result (out.new.items ≡ out.old.items ++ opened count) }
{
    for _turn in 0..count {
        write(out, b"(")?;
    }
    Ok(())
}

/// Writes a literal such that it is read back as the same one: a text in quotes, a byte string in hex, a decimal with all digits of its scale.
pub fn push_literal(alloc: Global, out: &mut Vec<u8>, literal: &Literal) -> Result<(), AllocError>
    ensures { OnOk result (out.new.items ≡ out.old.items ++ literal_text literal.now) }
{
    match literal {
        Literal::Whole(number) => push_number(out, *number),
        Literal::Decimal(number, scale) => push_scaled(out, *scale, *number),
        Literal::Text(text) => push_quoted(out, text.as_slice()),
        Literal::Bytes(bytes) => push_byte_string(alloc, out, bytes.as_slice()),
        Literal::Bool(bit) => push_truth(out, *bit),
        Literal::Null => write(out, b"NULL"),
    }
}

fn push_truth(out: &mut Vec<u8>, bit: bool) -> Result<(), AllocError>
    ensures { OnOk result (out.new.items ≡ out.old.items ++ truth_word bit) }
{
    if bit {
        write(out, b"TRUE")
    } else {
        write(out, b"FALSE")
    }
}

/// Writes a source, a point and a column, bare also where they are reserved words, which a canonical text has in capitals.
pub fn push_qualified(out: &mut Vec<u8>, source: &Text, name: &Text) -> Result<(), AllocError>
    ensures { OnOk result (out.new.items ≡ out.old.items ++ (source.now ++ codes "." ++ name.now)) }
{
    write(out, source.as_slice())?;
    write(out, b".")?;
    write(out, name.as_slice())
}

/// Writes `@@` and a variable's name, with nothing between them however they were written.
pub fn push_variable(out: &mut Vec<u8>, name: &Text) -> Result<(), AllocError>
    ensures { OnOk result (out.new.items ≡ out.old.items ++ (codes "@@" ++ name.now)) }
{
    write(out, b"@@")?;
    write(out, name.as_slice())
}

/// Writes `active_branch()`, in lower case though aggregates stand in capitals.
pub fn push_active_branch(out: &mut Vec<u8>) -> Result<(), AllocError>
    ensures { OnOk result (out.new.items ≡ out.old.items ++ (codes "active_" ++ codes "branch()")) }
{
    write(out, b"active_")?;
    write(out, b"branch()")
}
