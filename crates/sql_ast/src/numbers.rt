//! The values of whole and decimal literals.

ghost use Rattle.std.specs.Prelude.{◌≡◌, position};
ghost use Rattle.sql_ast.specs.Values as spec;
ghost use Rattle.sql_ast.specs.Values.{is_point, number_from, with_digit};

use crate::Piece;
use crate::slices::{behind, front};

/// The number that digits write.
pub fn number(digits: &[u8]) -> u64
    ensures { result ≡ number_from 0 digits.now }
{
    continued(0, digits)
}

/// The number that the digits of `value` and these write.
fn continued(value: u64, digits: &[u8]) -> u64
    ensures { result ≡ number_from value digits.now }
{
    let mut number = value;
    for digit in digits {
        number = push_digit(number, *digit);
    }
    number
}

fn push_digit(value: u64, digit: u8) -> u64
    ensures { result ≡ with_digit value digit }
{
    value
        .saturating_mul(10)
        .saturating_add(u64::from(digit.saturating_sub(b'0')))
}

/// All digits as one number, and how many of them stand behind the point. A token has at most 18, so 64 bits hold the number.
pub fn decimal(bytes: &[u8]) -> Piece
    ensures { result ≡ spec.decimal bytes.now }
{
    match point_in(bytes) {
        Some(at) => pointed(front(bytes, at), behind(behind(bytes, at), 1)),
        None => pointed(bytes, &[]),
    }
}

fn pointed(whole: &[u8], fraction: &[u8]) -> Piece
    ensures { result ≡ spec.pointed whole.now fraction.now }
{
    let value = continued(number(whole), fraction);
    Piece::Decimal(value, fraction.len().min(255) as u8)
}

/// Where the point stands.
fn point_in(bytes: &[u8]) -> Option<usize>
    ensures { result ≡ position is_point bytes.now }
{
    bytes.iter().position(|byte| *byte == b'.')
}
