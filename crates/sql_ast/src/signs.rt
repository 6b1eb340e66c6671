//! The signs of the language, of one or two bytes.

/// The signs.
#[derive(Clone, Copy, PartialEq, Eq)]
pub enum Sign {
    /// `(`.
    OpenParenthesis,
    /// `)`.
    CloseParenthesis,
    /// `,`.
    Comma,
    /// `.`.
    Point,
    /// `;`.
    Semicolon,
    /// `*`.
    Star,
    /// `+`.
    Plus,
    /// `-`.
    Minus,
    /// `=`.
    Equal,
    /// `<>` or `!=`.
    NotEqual,
    /// `<`.
    Less,
    /// `<=`.
    AtMost,
    /// `>`.
    Greater,
    /// `>=`.
    AtLeast,
    /// `@@`.
    AtAt,
}
