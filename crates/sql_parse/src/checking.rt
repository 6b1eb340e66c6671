//! The expression of a text in the canonical form in which a CHECK is stored, if it is one.

ghost use Rattle.std.specs.Prelude.{◌≡◌, ◌<◌, ◌^◌, length, is_some, true, Some, IfOk};
ghost use Rattle.sql_grammar.specs.Expressions.{any};
ghost use Rattle.sql_grammar.specs.Checking as spec;

use sql_ast::{Expr, Piece, ReadFault, Token, canonical_pieces_of, lex};
use sql_grammar::{Cursor, Stop, read_any};
use std::alloc::{AllocError, Global};

/// The expression whose canonical text this is, as a CHECK is stored. It needn't be the tree that the text was made of:
/// a chain comes back as pairs in parentheses, BETWEEN as its two comparisons.
pub fn parse_check(alloc: Global, text: &[u8]) -> Result<Expr, AllocError>
    requires size { length text.now < 2 ^ 32 }
    requires canonical { is_some (spec.canonical_expression text.now) ≡ true }
    ensures { IfOk result (λ expr. spec.canonical_expression text.now ≡ Some expr) }
{
    match read_check(alloc, text)? {
        Some(expr) => Ok(expr),
        None => unreachable!(),
    }
}

/// The same of any text: nothing where its tokens, read as a canonical text's, are no expression.
pub fn read_check(alloc: Global, text: &[u8]) -> Result<Option<Expr>, AllocError>
    requires { length text.now < 2 ^ 32 }
    ensures { IfOk result (λ expr. expr ≡ spec.canonical_expression text.now) }
{
    match lex(alloc, text) {
        Ok(tokens) => expression_in(alloc, text, tokens.as_slice()),
        Err(ReadFault::Memory) => Err(AllocError),
        Err(ReadFault::Refused(_)) => Ok(None),
    }
}

fn expression_in(alloc: Global, text: &[u8], tokens: &[Token]) -> Result<Option<Expr>, AllocError>
    ensures { IfOk result (λ expr. expr ≡ spec.expression_in text.now tokens.now) }
{
    let mut pieces = canonical_pieces_of(alloc, text, tokens)?;
    expression_of(alloc, pieces.as_mut_slice())
}

fn expression_of(alloc: Global, pieces: &mut [Piece]) -> Result<Option<Expr>, AllocError>
    ensures { IfOk result (λ expr. expr ≡ spec.all_of (any pieces.old)) }
{
    let mut cursor = Cursor::new(pieces);
    match read_any(alloc, &mut cursor) {
        Ok(expr) => Ok(alone(expr, cursor.rest())),
        Err(Stop::Memory) => Err(AllocError),
        Err(Stop::At(_)) => Ok(None),
    }
}

/// What was read, where nothing is left behind it.
fn alone<T: Drop>(read: T, rest: &[Piece]) -> Option<T>
    ensures { result ≡ spec.alone read rest.now }
{
    match rest {
        [] => Some(read),
        _ => None,
    }
}
