//! The bytes that a byte string's hex digits stand for.

ghost use Rattle.std.specs.Prelude.{◌≡◌, ◌≤◌, IfOk};
ghost use Rattle.sql_ast.specs.Values as spec;
ghost use Rattle.sql_ast.specs.Values.{hex_digit};

use crate::hex_value;
use std::alloc::{AllocError, Global};
use tuple_codec::Blob;

/// The bytes that pairs of hex digits stand for.
pub fn hex_bytes(alloc: Global, digits: &[u8]) -> Result<Blob, AllocError>
    ensures { IfOk result (λ bytes. bytes ≡ spec.hex_bytes digits.now) }
{
    let mut bytes = Blob::new(alloc);
    let mut left = digits;
    'pairs: while let [high, low, rest @ ..] = left {
        bytes.push(16 * digit_of(*high) + digit_of(*low))?;
        left = rest;
    }
    Ok(bytes)
}

fn digit_of(byte: u8) -> u8
    ensures value { result ≡ hex_digit byte }
    ensures bound { result ≤ 15 }
{
    hex_value(byte).unwrap_or(0)
}
