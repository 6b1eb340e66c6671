//! What is refused before the grammar: a first word of no statement, and too many open parentheses.

ghost use Rattle.std.specs.Prelude.{◌≡◌, ◌+◌, ◌-◌, ◌≤◌, ℕ, nat_lt};
ghost use Rattle.sql_ast.specs.Limits.{most_open};
ghost use Rattle.sql_parse.specs.Openings.{begins_nothing, counted, is_hopeless, is_other_word, opens_too_many};

use sql_ast::{MOST_OPEN, Piece, Sign};
use sql_grammar::is_sign;
use sql_statements::opening_of;

/// Whether pieces are outside the language whatever the grammar says of them.
pub fn is_beyond_grammar(pieces: &[Piece]) -> bool
    ensures { result ≡ is_hopeless pieces.now }
{
    is_no_statement(pieces) || nests_too_deep(pieces)
}

/// Whether the first word is one with which no statement begins.
fn is_no_statement(pieces: &[Piece]) -> bool
    ensures { result ≡ begins_nothing pieces.now }
{
    match pieces {
        [first, ..] => is_another_word(first),
        [] => false,
    }
}

fn is_another_word(piece: &Piece) -> bool
    ensures { result ≡ is_other_word piece.now }
{
    match piece {
        Piece::Keyword(_) => opening_of(piece).is_none(),
        Piece::Word(_) => opening_of(piece).is_none(),
        _ => false,
    }
}

/// Whether at some piece more parentheses are open than may be.
fn nests_too_deep(pieces: &[Piece]) -> bool
    ensures { result ≡ opens_too_many pieces.now }
{
    let mut opened = 0usize;
    let mut closed = 0usize;
    for piece in pieces {
        if is_too_deep(opened, closed) {
            return true;
        }
        opened += count_if(is_sign(Sign::OpenParenthesis, piece));
        closed += count_if(is_sign(Sign::CloseParenthesis, piece));
    }
    is_too_deep(opened, closed)
}

fn is_too_deep(opened: usize, closed: usize) -> bool
    ensures { result ≡ nat_lt most_open (opened - closed) }
{
    opened.saturating_sub(closed) > MOST_OPEN
}

fn count_if(test: bool) -> usize
    ensures counted { (count : ℕ) → count + result ≡ counted test count }
    ensures bound { result ≤ 1 }
{
    usize::from(test)
}
