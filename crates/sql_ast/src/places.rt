//! Where the reader of tokens stands, and what it still knows of the last token.

use crate::signs::Sign;

/// Where the reader of tokens stands: in or behind which part of the token that it reads.
#[derive(Clone, Copy, PartialEq, Eq)]
pub enum LexerState {
    /// No token is open.
    Between,
    InWord,
    /// Behind an `x` that is a word or begins a byte string.
    AfterX,
    InWhole,
    /// Behind a whole literal's point, which belongs to the literal where a digit follows.
    AtPoint,
    InDecimal,
    /// In a string of this quote; behind such a quote, which ends the string unless it comes twice; behind a backslash.
    InString(u8),
    AfterQuote(u8),
    AfterSlash(u8),
    /// In a byte string, behind an even or an odd number of digits, and behind its end.
    HexEven,
    HexOdd,
    AfterBytes,
    /// Behind the backquote that opens a name, in the name, and behind its end.
    NameStart,
    InName,
    AfterName,
    /// Behind a sign, which may be a longer one's beginning.
    AfterSign(Sign),
    /// Behind a `!` or an `@`, which is a sign's first half.
    AfterHalf(u8),
}

/// What the last token was, as far as the bound of a whole literal asks.
#[derive(Clone, Copy, PartialEq, Eq)]
pub enum Last {
    /// An operand may end with it, so that a minus behind it has two.
    Operand,
    UnaryMinus,
    /// Any other token, or none.
    Other,
}
