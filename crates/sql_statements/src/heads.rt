//! The words that begin statements, and what stands in SET.

ghost use Rattle.std.specs.Prelude.{◌≡◌};
ghost use Rattle.sql_statements.specs.Heads as spec;

use sql_ast::{Keyword, Piece, Sign};
use sql_grammar::{Cursor, is_sign, is_word};
use tuple_codec::Text;

/// The words that begin statements.
#[derive(Clone, Copy)]
pub enum Opening {
    Create,
    Drop,
    Insert,
    Update,
    Delete,
    Select,
    Begin,
    Start,
    Commit,
    Rollback,
    Set,
    Call,
    Alter,
}

fn keyword_opening(word: Keyword) -> Option<Opening>
    ensures { result ≡ spec.keyword_opening word }
{
    match word {
        Keyword::Create => Some(Opening::Create),
        Keyword::Drop => Some(Opening::Drop),
        Keyword::Insert => Some(Opening::Insert),
        Keyword::Update => Some(Opening::Update),
        Keyword::Delete => Some(Opening::Delete),
        Keyword::Select => Some(Opening::Select),
        Keyword::Start => Some(Opening::Start),
        Keyword::Set => Some(Opening::Set),
        Keyword::Call => Some(Opening::Call),
        Keyword::Alter => Some(Opening::Alter),
        _ => None,
    }
}

fn word_opening(name: &Text) -> Option<Opening>
    ensures { result ≡ spec.word_opening name.now }
{
    if name.is(b"begin") {
        Some(Opening::Begin)
    } else if name.is(b"commit") {
        Some(Opening::Commit)
    } else if name.is(b"rollback") {
        Some(Opening::Rollback)
    } else {
        None
    }
}

/// The statement that a piece begins.
pub fn opening_of(piece: &Piece) -> Option<Opening>
    ensures { result ≡ spec.opening_of piece.now }
{
    match piece {
        Piece::Keyword(word) => keyword_opening(*word),
        Piece::Word(name) => word_opening(name),
        _ => None,
    }
}

fn whole_switch(value: u64) -> Option<bool>
    ensures { result ≡ spec.whole_switch value }
{
    if value == 0 {
        Some(false)
    } else if value == 1 {
        Some(true)
    } else {
        None
    }
}

fn keyword_switch(word: Keyword) -> Option<bool>
    ensures { result ≡ spec.keyword_switch word }
{
    match word {
        Keyword::On => Some(true),
        Keyword::True => Some(true),
        Keyword::False => Some(false),
        _ => None,
    }
}

fn word_switch(name: &Text) -> Option<bool>
    ensures { result ≡ spec.word_switch name.now }
{
    if name.is(b"off") { Some(false) } else { None }
}

/// What SET switches a variable to.
pub fn switch_of(piece: &Piece) -> Option<bool>
    ensures { result ≡ spec.switch_of piece.now }
{
    match piece {
        Piece::Whole(value) => whole_switch(*value),
        Piece::Keyword(word) => keyword_switch(*word),
        Piece::Word(name) => word_switch(name),
        _ => None,
    }
}

/// Whether `session .` comes next.
#[tactic(auto, unfolding(crate::specs::Heads::begins_session_point))]
pub fn begins_session_point(cursor: &Cursor<'_>) -> bool
    ensures { result ≡ spec.begins_session_point cursor.now }
{
    match cursor.rest() {
        [first, second, ..] => is_word(b"session", first) && is_sign(Sign::Point, second),
        _ => false,
    }
}

/// Whether the word `session` comes next and isn't the variable itself.
#[tactic(auto, unfolding(crate::specs::Heads::begins_session))]
pub fn begins_session(cursor: &Cursor<'_>) -> bool
    ensures { result ≡ spec.begins_session cursor.now }
{
    match cursor.rest() {
        [first, second, ..] => is_word(b"session", first) && !is_sign(Sign::Equal, second),
        _ => false,
    }
}
