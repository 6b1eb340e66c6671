//! An order line and its items.

ghost use Rattle.std.specs.Prelude.{◌≡◌, ◌≤◌, ◌<◌, ◌∷◌, ◌==◌, IfOk, IfSome, length, position, true};
ghost use Rattle.std.specs.Char.{is_ascii_digit};
ghost use Rattle.std.specs.List.{list_all, slice_split};
ghost use Rattle.std.specs.Str.Parse.{digits_value};
ghost use Rattle.script_text.specs.Input.{item_after, item_in, items_in, items_of, statement_number};
ghost use Rattle.script_text.specs.LineParts.{pieces_in};

use crate::numerals::is_number;
use crate::parts::{begins_with, is_name_long, split_name};
use crate::scripts::OrderItem;
use std::alloc::{AllocError, Global};
use tuple_codec::{Sequence, Text};

const MOST_DIGITS: usize = 5;

/// The items of an order line, if the line is one: the word `order`, and behind each space an item `name/number`.
pub fn read_items(alloc: Global, line: &[u8]) -> Result<Option<Sequence<OrderItem>>, AllocError>
    ensures { IfOk result (λ items. items ≡ items_of line.now) }
{
    let (word, rest) = first_piece(line);
    if word == b"order".as_slice() {
        read_pieces(alloc, rest)
    } else {
        Ok(None)
    }
}

/// The piece before the first space, and what follows that space, where there is one.
fn first_piece(bytes: &[u8]) -> (&[u8], Option<&[u8]>)
    ensures pieces { slice_split (λ byte. byte == 32) bytes.now ≡ result.0.now ∷ pieces_in result.1 }
    ensures shorter { IfSome result.1 (λ rest. length rest.now < length bytes.now) }
{
    match find_space(bytes) {
        Some(end) => (&bytes[..end], Some(&bytes[end + 1..])),
        None => (bytes, None),
    }
}

fn find_space(bytes: &[u8]) -> Option<usize>
    ensures space { result ≡ position (λ byte. byte == 32) bytes.now }
    ensures within { IfSome result (λ end. end < length bytes.now) }
{
    bytes.iter().position(|byte| *byte == b' ')
}

/// The items that the pieces of these bytes are, where there are any bytes and each piece is one.
fn read_pieces(
    alloc: Global,
    pieces: Option<&[u8]>,
) -> Result<Option<Sequence<OrderItem>>, AllocError>
    ensures { IfOk result (λ items. items ≡ items_in (pieces_in pieces.entry)) }
{
    let mut items = Sequence::new(alloc);
    let mut rest = pieces;
    'pieces: while let Some(bytes) = rest {
        let (piece, more) = first_piece(bytes);
        match read_item(alloc, piece)? {
            Some(item) => items.push(item)?,
            None => return Ok(None),
        }
        rest = more;
    }
    Ok(Some(items))
}

fn read_item(alloc: Global, piece: &[u8]) -> Result<Option<OrderItem>, AllocError>
    ensures { IfOk result (λ item. item ≡ item_in piece.now) }
{
    let (name, rest) = split_name(piece);
    item_behind(alloc, name, rest)
}

fn item_behind(alloc: Global, name: &[u8], rest: &[u8]) -> Result<Option<OrderItem>, AllocError>
    ensures { IfOk result (λ item. item ≡ item_after name.now rest.now) }
{
    if !(is_name_long(name) && begins_with(rest, b"/")) {
        return Ok(None);
    }
    match statement_in(&rest[1..]) {
        Some(statement) => Ok(Some(OrderItem {
            name: Text::from_slice(alloc, name)?,
            statement,
        })),
        None => Ok(None),
    }
}

fn statement_in(digits: &[u8]) -> Option<u32>
    ensures { result ≡ statement_number digits.now }
{
    if is_number(digits) && digits.len() <= MOST_DIGITS {
        Some(value_of(digits))
    } else {
        None
    }
}

/// The number that so few digits write.
fn value_of(digits: &[u8]) -> u32
    requires digits { list_all is_ascii_digit digits.now ≡ true }
    requires few { length digits.now ≤ 5 }
    ensures { result ≡ digits_value 10 digits.now }
{
    let mut value: u32 = 0;
    for digit in digits {
        value = value * 10 + u32::from(*digit - b'0');
    }
    value
}
