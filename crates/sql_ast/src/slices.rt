//! Parts of bytes: the front, what is behind it or between the ends, and a token's own.

ghost use Rattle.std.specs.Prelude.{◌≡◌, take, drop, length, ◌-◌};
ghost use Rattle.sql_ast.specs.Values as spec;
ghost use Rattle.sql_ast.specs.Values.{slice};

use crate::Token;

/// The first bytes, at most so many.
pub fn front(bytes: &[u8], count: usize) -> &[u8]
    ensures { result.now ≡ take count bytes.now }
{
    if count < bytes.len() {
        &bytes[..count]
    } else {
        bytes
    }
}

/// The bytes behind the first ones.
pub fn behind(bytes: &[u8], count: usize) -> &[u8]
    ensures { result.now ≡ drop count bytes.now }
{
    if count < bytes.len() {
        &bytes[count..]
    } else {
        &[]
    }
}

/// The bytes but for the first and the last.
pub fn between(bytes: &[u8]) -> &[u8]
    ensures { result.now ≡ spec.between bytes.now }
{
    behind(front(bytes, bytes.len().saturating_sub(1)), 1)
}

/// The bytes of a token.
pub fn slice_of<'a>(text: &'a [u8], token: &Token) -> &'a [u8]
    ensures { result.now ≡ slice text.now token.now }
{
    behind(front(text, token.end as usize), token.start as usize)
}
