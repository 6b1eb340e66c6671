//! The bytes of a text: blanks, digits and letters, lower case, escapes and hex digits.

ghost use Rattle.std.specs.Prelude.{◌≡◌, ◌++◌, OnOk};
ghost use Rattle.sql_ast.specs.Bytes as spec;
ghost use Rattle.sql_ast.specs.Bytes.{escape, is_blank, is_digit, is_upper, is_word_byte, is_word_start, lower};

use std::alloc::AllocError;
use tuple_codec::Text;

/// Whether this byte is a space or a tab, the only ones that may stand between tokens; the end of a line is refused there.
pub fn separates(byte: u8) -> bool
    ensures { result ≡ is_blank byte }
{
    byte == b' ' || byte == b'\t'
}

/// Whether this byte is one of `0` to `9`, with which numbers begin and words only go on.
pub fn is_decimal_digit(byte: u8) -> bool
    ensures { result ≡ is_digit byte }
{
    b'0' <= byte && byte <= b'9'
}

fn is_capital(byte: u8) -> bool
    ensures { result ≡ is_upper byte }
{
    b'A' <= byte && byte <= b'Z'
}

/// Whether a word may begin with this byte.
pub fn begins_word(byte: u8) -> bool
    ensures { result ≡ is_word_start byte }
{
    is_capital(byte) || b'a' <= byte && byte <= b'z' || byte == b'_'
}

/// Whether a word may go on with this byte.
pub fn continues_word(byte: u8) -> bool
    ensures { result ≡ is_word_byte byte }
{
    begins_word(byte) || is_decimal_digit(byte)
}

/// A letter in lower case, as names have it; any other byte as it is.
pub(crate) fn lower_case(byte: u8) -> u8
    ensures { result ≡ lower byte }
{
    if is_capital(byte) { byte + 32 } else { byte }
}

/// Adds what a backslash before this byte stands for in a string.
pub(crate) fn push_escape(text: &mut Text, byte: u8) -> Result<(), AllocError>
    ensures { OnOk result (text.new ≡ text.old ++ escape byte) }
{
    match byte {
        b'n' => text.push(b'\n'),
        b'r' => text.push(b'\r'),
        b't' => text.push(b'\t'),
        b'0' => text.push(0),
        b'b' => text.push(8),
        b'Z' => text.push(26),
        b'%' => text.extend_from_slice(b"\\%"),
        b'_' => text.extend_from_slice(b"\\_"),
        _ => text.push(byte),
    }
}

/// The number that a hex digit of either case stands for.
pub fn hex_value(byte: u8) -> Option<u8>
    ensures { result ≡ spec.hex_value byte }
{
    match byte {
        b'0'..=b'9' => Some(byte - b'0'),
        b'a'..=b'f' => Some(byte - b'a' + 10),
        b'A'..=b'F' => Some(byte - b'A' + 10),
        _ => None,
    }
}
