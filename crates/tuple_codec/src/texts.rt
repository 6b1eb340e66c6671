//! Texts as bytes: behind their length in rows, and with zero bytes escaped in keys.

ghost use Rattle.std.specs.Prelude.{◌≡◌, ◌≤◌, ◌++◌, length, take, OnOk, OnErr, false};
ghost use Rattle.tuple_codec.specs.KeyBytes.{escaped};
ghost use Rattle.tuple_codec.specs.Fronts.{Gives, length_prefixed_at, text_front, unescaped};

use crate::fields::long_at;
use crate::forms::Form;
use crate::unread::Unread;
use std::alloc::{AllocError, Global};

/// Writes a text with its zero bytes escaped.
pub fn push_escaped(out: &mut Vec<u8>, text: &[u8]) -> Result<(), AllocError>
    ensures ok { OnOk result (out.new.items ≡ out.old.items ++ escaped text.now) }
    ensures err { OnErr result (take (length out.old.items) out.new.items ≡ out.old.items) }
{
    for byte in text {
        out.push(*byte)?;
        if *byte == 0 {
            out.push(255)?;
        }
    }
    out.extend_from_slice(&[0, 0])
}

/// The text in front of bytes, and what follows it.
pub fn text_front(alloc: Global, form: Form, bytes: &[u8]) -> Result<(Vec<u8>, &[u8]), Unread>
    ensures { Gives (λ x. (x.0.items, x.1.now)) result (text_front form bytes.now) }
{
    match form {
        Form::Key => escaped_front(alloc, bytes),
        Form::Row => counted_front(alloc, bytes),
    }
}

fn counted_front(alloc: Global, bytes: &[u8]) -> Result<(Vec<u8>, &[u8]), Unread>
    ensures { Gives (λ x. (x.0.items, x.1.now)) result (length_prefixed_at bytes.now) }
{
    let (text, rest) = long_at(bytes)?;
    Ok((Vec::from_slice(alloc, text)?, rest))
}

fn escaped_front(alloc: Global, bytes: &[u8]) -> Result<(Vec<u8>, &[u8]), Unread>
    ensures { Gives (λ x. (x.0.items, x.1.now)) result (unescaped false bytes.now) }
{
    let mut text = Vec::with_capacity(alloc, room(bytes))?;
    let mut after_zero = false;
    for (at, byte) in bytes.iter().enumerate() {
        if after_zero {
            match *byte {
                0 => return Ok((text, &bytes[at + 1..])),
                255 => text.push(0)?,
                _ => return Err(Unread::Malformed),
            }
            after_zero = false;
        } else if *byte == 0 {
            after_zero = true;
        } else {
            text.push(*byte)?;
        }
    }
    Err(Unread::Malformed)
}

/// How many bytes stand before the first two zero bytes: at least as many as the text in front has.
fn room(bytes: &[u8]) -> usize
    ensures { result ≤ length bytes.now }
{
    let mut after_zero = false;
    for (at, byte) in bytes.iter().enumerate() {
        if *byte != 0 {
            after_zero = false;
        } else if after_zero {
            return at;
        } else {
            after_zero = true;
        }
    }
    0
}
