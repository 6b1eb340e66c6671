//! The sign that one or two bytes spell.

ghost use Rattle.std.specs.Prelude.{◌≡◌};
ghost use Rattle.sql_ast.specs.Words as spec;
ghost use Rattle.sql_ast.specs.Words.{double_sign, single_sign};

use crate::signs::Sign;

/// The sign that these bytes spell.
pub fn sign_of(bytes: &[u8]) -> Option<Sign>
    ensures { result ≡ spec.sign_of bytes.now }
{
    match bytes {
        [byte] => sign_of_one(*byte),
        [first, second] => sign_of_two(*first, *second),
        _ => None,
    }
}

/// The sign that this byte is by itself; `<` and `>` may go on as a longer one. `!` and a single `@` are none.
pub fn sign_of_one(byte: u8) -> Option<Sign>
    ensures { result ≡ single_sign byte }
{
    match byte {
        b'(' => Some(Sign::OpenParenthesis),
        b')' => Some(Sign::CloseParenthesis),
        b',' => Some(Sign::Comma),
        b'.' => Some(Sign::Point),
        b';' => Some(Sign::Semicolon),
        b'*' => Some(Sign::Star),
        b'+' => Some(Sign::Plus),
        b'-' => Some(Sign::Minus),
        b'=' => Some(Sign::Equal),
        b'<' => Some(Sign::Less),
        b'>' => Some(Sign::Greater),
        _ => None,
    }
}

/// The sign that two bytes are as one, `!=` being the same as `<>`; None where they are two signs or none.
pub fn sign_of_two(first: u8, second: u8) -> Option<Sign>
    ensures { result ≡ double_sign first second }
{
    match (first, second) {
        (b'<', b'>') => Some(Sign::NotEqual),
        (b'!', b'=') => Some(Sign::NotEqual),
        (b'<', b'=') => Some(Sign::AtMost),
        (b'>', b'=') => Some(Sign::AtLeast),
        (b'@', b'@') => Some(Sign::AtAt),
        _ => None,
    }
}
