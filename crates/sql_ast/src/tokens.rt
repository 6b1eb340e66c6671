//! Tokens: their kinds, and where they stand in the text.

/// The kinds of token.
#[derive(Clone, Copy, PartialEq, Eq)]
pub enum TokenKind {
    /// Letters, digits and `_`, not beginning with a digit.
    Word,
    /// A word in backquotes, which is a name also where it is reserved.
    Quoted,
    /// A string in quotes of either kind.
    Text,
    /// A byte string in hex.
    Bytes,
    /// Digits.
    Whole,
    /// Digits, a point and digits.
    Decimal,
    Sign,
}

/// A token and where it stands in its text, in bytes from 0: from `start` up to and without `end`.
#[derive(Clone, Copy, PartialEq, Eq)]
pub struct Token {
    pub kind: TokenKind,
    pub start: u32,
    pub end: u32,
}
