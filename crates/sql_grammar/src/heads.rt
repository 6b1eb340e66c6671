//! What a piece is taken for.

ghost use Rattle.std.specs.Prelude.{◌≡◌, is_some};
ghost use Rattle.sql_grammar.specs.Pieces as spec;

use sql_ast::{Comparison, Keyword, Literal, Piece, Sign, Term};
use std::alloc::Global;
use std::mem::replace;
use tuple_codec::{Sequence, Text};

/// How a comparison goes on behind its first sum.
#[derive(Clone, Copy)]
pub enum Test {
    Compare(Comparison),
    Is,
    Not,
    In,
    Between,
    Absent,
}

/// The functions, whose names aren't reserved.
#[derive(Clone, Copy)]
pub enum Function {
    Count,
    Sum,
    Min,
    Max,
    ActiveBranch,
}

#[tactic(auto, unfolding(crate::specs::Pieces::same_sign))]
fn same_sign(a: Sign, b: Sign) -> bool
    ensures { result ≡ spec.same_sign a b }
{
    a == b
}

#[tactic(auto, unfolding(crate::specs::Pieces::same_keyword))]
fn same_keyword(a: Keyword, b: Keyword) -> bool
    ensures { result ≡ spec.same_keyword a b }
{
    a == b
}

/// Whether a piece is this sign.
pub fn is_sign(wanted: Sign, piece: &Piece) -> bool
    ensures { result ≡ spec.is_sign wanted piece.now }
{
    match piece {
        Piece::Sign(found) => same_sign(*found, wanted),
        _ => false,
    }
}

/// Whether a piece is this reserved word; a word in backquotes is none.
pub fn is_keyword(wanted: Keyword, piece: &Piece) -> bool
    ensures { result ≡ spec.is_keyword wanted piece.now }
{
    match piece {
        Piece::Keyword(found) => same_keyword(*found, wanted),
        _ => false,
    }
}

/// Whether a piece is this word, which isn't reserved.
pub fn is_word(wanted: &[u8], piece: &Piece) -> bool
    ensures { result ≡ spec.is_word wanted.now piece.now }
{
    match piece {
        Piece::Word(found) => found.is(wanted),
        _ => false,
    }
}

/// Whether a piece can be a name.
pub fn is_named(piece: &Piece) -> bool
    ensures { result ≡ spec.is_named piece.now }
{
    match piece {
        Piece::Word(_) | Piece::Quoted(_) => true,
        _ => false,
    }
}

/// Moves the name out that a piece is, bare or from backquotes; None for all else, reserved words too.
pub fn name_of(alloc: Global, piece: &mut Piece) -> Option<Text>
    ensures { result ≡ spec.name_of piece.old }
{
    match piece {
        Piece::Word(found) => Some(replace(found, Text::new(alloc))),
        Piece::Quoted(found) => Some(replace(found, Text::new(alloc))),
        _ => None,
    }
}

/// The value of a whole literal; None for all else, decimals too.
pub fn whole_of(piece: &Piece) -> Option<u64>
    ensures { result ≡ spec.whole_of piece.now }
{
    match piece {
        Piece::Whole(value) => Some(*value),
        _ => None,
    }
}

/// Moves a string's bytes out; None for all else, byte strings too.
pub fn string_of(alloc: Global, piece: &mut Piece) -> Option<Text>
    ensures { result ≡ spec.string_of piece.old }
{
    match piece {
        Piece::Text(value) => Some(replace(value, Text::new(alloc))),
        _ => None,
    }
}

fn keyword_literal(word: Keyword) -> Option<Literal>
    ensures { result ≡ spec.keyword_literal word }
{
    match word {
        Keyword::True => Some(Literal::Bool(true)),
        Keyword::False => Some(Literal::Bool(false)),
        Keyword::Null => Some(Literal::Null),
        _ => None,
    }
}

/// Moves the literal out that a piece is, TRUE, FALSE and NULL included; None where it is none.
pub fn literal_of(alloc: Global, piece: &mut Piece) -> Option<Literal>
    ensures { result ≡ spec.literal_of piece.old }
{
    match piece {
        Piece::Whole(value) => Some(Literal::Whole(*value)),
        Piece::Decimal(value, places) => Some(Literal::Decimal(*value, *places)),
        Piece::Text(value) => Some(Literal::Text(replace(value, Text::new(alloc)))),
        Piece::Bytes(value) => Some(Literal::Bytes(replace(value, Sequence::new(alloc)))),
        Piece::Keyword(word) => keyword_literal(*word),
        _ => None,
    }
}

/// Whether a piece is a literal, TRUE, FALSE and NULL included.
pub fn is_literal(piece: &Piece) -> bool
    ensures { result ≡ is_some (spec.literal_of piece.now) }
{
    match piece {
        Piece::Whole(_) | Piece::Decimal(..) | Piece::Text(_) | Piece::Bytes(_) => true,
        Piece::Keyword(word) => keyword_literal(*word).is_some(),
        _ => false,
    }
}

fn ends_expression(piece: &Piece) -> bool
    ensures { result ≡ spec.ends_expression piece.now }
{
    match piece {
        Piece::Sign(Sign::Comma | Sign::CloseParenthesis) => true,
        _ => false,
    }
}

/// Whether the expression that the pieces begin with is a literal, as is seen from the piece behind it.
pub fn is_lone_literal(pieces: &[Piece]) -> bool
    ensures { result ≡ spec.is_lone_literal pieces.now }
{
    match pieces {
        [first, second, ..] => ends_expression(second) && is_literal(first),
        _ => false,
    }
}

fn comparison_of(sign: Sign) -> Test
    ensures { result ≡ spec.comparison_of sign }
{
    match sign {
        Sign::Equal => Test::Compare(Comparison::Equal),
        Sign::NotEqual => Test::Compare(Comparison::NotEqual),
        Sign::Less => Test::Compare(Comparison::Less),
        Sign::AtMost => Test::Compare(Comparison::AtMost),
        Sign::Greater => Test::Compare(Comparison::Greater),
        Sign::AtLeast => Test::Compare(Comparison::AtLeast),
        _ => Test::Absent,
    }
}

fn keyword_test(word: Keyword) -> Test
    ensures { result ≡ spec.keyword_test word }
{
    match word {
        Keyword::Is => Test::Is,
        Keyword::Not => Test::Not,
        Keyword::In => Test::In,
        Keyword::Between => Test::Between,
        _ => Test::Absent,
    }
}

/// How a comparison goes on with this piece; `Absent` where its first sum is all of it.
pub fn test_of(piece: &Piece) -> Test
    ensures { result ≡ spec.test_of piece.now }
{
    match piece {
        Piece::Sign(sign) => comparison_of(*sign),
        Piece::Keyword(word) => keyword_test(*word),
        _ => Test::Absent,
    }
}

fn sign_term(sign: Sign) -> Option<Term>
    ensures { result ≡ spec.sign_term sign }
{
    match sign {
        Sign::Plus => Some(Term::Plus),
        Sign::Minus => Some(Term::Minus),
        _ => None,
    }
}

/// Whether the operand behind this piece is added or subtracted; None where a sum doesn't go on with it.
pub fn term_of(piece: &Piece) -> Option<Term>
    ensures { result ≡ spec.term_of piece.now }
{
    match piece {
        Piece::Sign(sign) => sign_term(*sign),
        _ => None,
    }
}

fn function_named(name: &Text) -> Option<Function>
    ensures { result ≡ spec.function_named name.now }
{
    if name.is(b"count") {
        Some(Function::Count)
    } else if name.is(b"sum") {
        Some(Function::Sum)
    } else if name.is(b"min") {
        Some(Function::Min)
    } else if name.is(b"max") {
        Some(Function::Max)
    } else if name.is(b"active_branch") {
        Some(Function::ActiveBranch)
    } else {
        None
    }
}

/// The function that a bare word names, which is called only where a `(` follows; None for all else, a name in backquotes too.
pub fn function_of(piece: &Piece) -> Option<Function>
    ensures { result ≡ spec.function_of piece.now }
{
    match piece {
        Piece::Word(name) => function_named(name),
        _ => None,
    }
}
