//! How the reader of tokens moves on from byte to byte, and how great a whole literal may be.

ghost use Rattle.std.specs.Prelude.{◌≡◌, is_some};
ghost use Rattle.sql_ast.specs.Bytes as bytes;
ghost use Rattle.sql_ast.specs.Tokens.{after_first, after_keyword, after_minus, after_sign, first_byte, first_of_sign, first_place, in_string, most_whole, next_place, on};
ghost use Rattle.sql_ast.specs.Words.{keyword_of as keyword_in};

use crate::bytes::{begins_word, continues_word, hex_value, is_decimal_digit};
use crate::keywords::keyword_of;
use crate::places::{Last, LexerState};
use crate::signing::{sign_of_one, sign_of_two};
use crate::signs::Sign;
use crate::words::Keyword;

/// The place behind a byte that begins a token.
pub fn first_place_of(byte: u8) -> Option<LexerState>
    ensures { result ≡ first_place byte }
{
    if byte == b'x' || byte == b'X' {
        Some(LexerState::AfterX)
    } else if begins_word(byte) {
        Some(LexerState::InWord)
    } else if is_decimal_digit(byte) {
        Some(LexerState::InWhole)
    } else if byte == b'\'' || byte == b'"' {
        Some(LexerState::InString(byte))
    } else if byte == b'`' {
        Some(LexerState::NameStart)
    } else {
        first_of_sign_or_half(byte)
    }
}

fn first_of_sign_or_half(byte: u8) -> Option<LexerState>
    ensures { result ≡ first_of_sign byte }
{
    if byte == b'!' || byte == b'@' {
        return Some(LexerState::AfterHalf(byte));
    }
    sign_of_one(byte).map(LexerState::AfterSign)
}

/// The place behind a byte that the open token goes on with.
pub fn place_after(place: LexerState, byte: u8) -> Option<LexerState>
    ensures { result ≡ next_place place byte }
{
    match place {
        LexerState::Between | LexerState::AfterBytes | LexerState::AfterName => None,
        LexerState::InWord => only_if(continues_word(byte), LexerState::InWord),
        LexerState::AfterX if byte == b'\'' => Some(LexerState::HexEven),
        LexerState::AfterX => only_if(continues_word(byte), LexerState::InWord),
        LexerState::InWhole if byte == b'.' => Some(LexerState::AtPoint),
        LexerState::InWhole => only_if(is_decimal_digit(byte), LexerState::InWhole),
        LexerState::AtPoint | LexerState::InDecimal => only_if(
            is_decimal_digit(byte),
            LexerState::InDecimal,
        ),
        LexerState::InString(quote) => Some(place_in_string(quote, byte)),
        LexerState::AfterQuote(quote) => only_if(byte == quote, LexerState::InString(quote)),
        LexerState::AfterSlash(quote) => Some(LexerState::InString(quote)),
        LexerState::HexEven if byte == b'\'' => Some(LexerState::AfterBytes),
        LexerState::HexEven => only_if(is_hex_digit(byte), LexerState::HexOdd),
        LexerState::HexOdd => only_if(is_hex_digit(byte), LexerState::HexEven),
        LexerState::NameStart => only_if(begins_word(byte), LexerState::InName),
        LexerState::InName if byte == b'`' => Some(LexerState::AfterName),
        LexerState::InName => only_if(continues_word(byte), LexerState::InName),
        LexerState::AfterSign(sign) => place_after_first(first_byte_of(sign), byte),
        LexerState::AfterHalf(first) => place_after_first(first, byte),
    }
}

fn only_if(test: bool, place: LexerState) -> Option<LexerState>
    ensures { result ≡ on test place }
{
    if test { Some(place) } else { None }
}

fn is_hex_digit(byte: u8) -> bool
    ensures { result ≡ is_some (bytes.hex_value byte) }
{
    hex_value(byte).is_some()
}

fn place_in_string(quote: u8, byte: u8) -> LexerState
    ensures { result ≡ in_string quote byte }
{
    if byte == quote {
        LexerState::AfterQuote(quote)
    } else if byte == b'\\' {
        LexerState::AfterSlash(quote)
    } else {
        LexerState::InString(quote)
    }
}

fn place_after_first(first: u8, byte: u8) -> Option<LexerState>
    ensures { result ≡ after_first first byte }
{
    sign_of_two(first, byte).map(LexerState::AfterSign)
}

/// The byte with which a longer sign may begin.
fn first_byte_of(sign: Sign) -> u8
    ensures { result ≡ first_byte sign }
{
    match sign {
        Sign::Less => b'<',
        Sign::Greater => b'>',
        _ => 0,
    }
}

/// What a word is to the literal behind it; the word is given in lower case.
pub fn after_word(word: &[u8]) -> Last
    ensures { result ≡ after_keyword (keyword_in word.now) }
{
    after(keyword_of(word))
}

fn after(word: Option<Keyword>) -> Last
    ensures { result ≡ after_keyword word }
{
    match word {
        None | Some(Keyword::True | Keyword::False | Keyword::Null) => Last::Operand,
        Some(_) => Last::Other,
    }
}

/// What a sign is to the literal behind it.
pub fn after_sign_of(sign: Sign, last: Last) -> Last
    ensures { result ≡ after_sign sign last }
{
    match sign {
        Sign::CloseParenthesis => Last::Operand,
        Sign::Minus => after_minus_behind(last),
        _ => Last::Other,
    }
}

fn after_minus_behind(last: Last) -> Last
    ensures { result ≡ after_minus last }
{
    match last {
        Last::Operand => Last::Other,
        Last::UnaryMinus | Last::Other => Last::UnaryMinus,
    }
}

/// The greatest whole literal that may stand behind such a token.
pub fn most_whole_after(last: Last) -> u64
    ensures { result ≡ most_whole last }
{
    match last {
        Last::UnaryMinus => 1 << 63,
        Last::Operand | Last::Other => (1 << 63) - 1,
    }
}
