//! What a string in quotes stands for, its escapes and doubled quotes read.

ghost use Rattle.std.specs.Prelude.{◌≡◌, IfOk};
ghost use Rattle.sql_ast.specs.Values as spec;
ghost use Rattle.sql_ast.specs.Values.{string_from};

use crate::bytes::push_escape;
use std::alloc::{AllocError, Global};
use tuple_codec::Text;

/// What a string in quotes stands for.
pub fn string(alloc: Global, bytes: &[u8]) -> Result<Text, AllocError>
    ensures { IfOk result (λ text. text ≡ spec.string bytes.now) }
{
    match bytes {
        [quote, rest @ ..] => unescaped(alloc, *quote, rest),
        [] => Ok(Text::new(alloc)),
    }
}

/// What the bytes behind an opening quote stand for.
fn unescaped(alloc: Global, quote: u8, bytes: &[u8]) -> Result<Text, AllocError>
    ensures { IfOk result (λ text. text ≡ string_from quote bytes.now) }
{
    let mut text = Text::from_vec(Vec::with_capacity(alloc, bytes.len())?);
    let mut left = bytes;
    'bytes: while let [first, second, rest @ ..] = left {
        if *first == b'\\' {
            push_escape(&mut text, *second)?;
            left = rest;
        } else if *first == quote {
            text.push(*second)?;
            left = rest;
        } else {
            text.push(*first)?;
            left = &left[1..];
        }
    }
    Ok(text)
}
