//! The columns that a CHECK's text names.

ghost use Rattle.std.specs.Prelude.{◌≡◌, [], IfOk};
ghost use Rattle.std.specs.List.{list_all};
ghost use Rattle.schema_merge.specs.Names.{is_kept, is_lower, is_named, is_word_byte, names_from, names_in, next_place, unquoted};
ghost use Rattle.schema_merge.specs.Parts.{keeps};

use crate::finding::keeps;
use schema_model::{Column, Schema};
use std::alloc::{AllocError, Global};
use tuple_codec::{Sequence, Text};

/// Whether each column that a text names is among the merged ones with the definition that it has on a side.
pub(crate) fn keeps_names(
    alloc: Global,
    columns: &[Column],
    side: &Schema,
    text: &[u8],
) -> Result<bool, AllocError>
    ensures { IfOk result (λ all. all ≡ list_all (keeps columns.now side.now) (names_in text.now)) }
{
    let names = names_in(alloc, text)?;
    Ok(
        names
            .as_slice()
            .iter()
            .all(|name| keeps(columns, side, name.as_slice())),
    )
}

#[tactic(auto, unfolding(crate::specs::Names::names_in))]
fn names_in(alloc: Global, text: &[u8]) -> Result<Sequence<Text>, AllocError>
    ensures { IfOk result (λ names. names ≡ names_in text.now) }
{
    let bytes = unquoted(alloc, text)?;
    names_from(alloc, &bytes)
}

/// Where a byte of a text stands: outside of strings, inside of one, or in one behind a backslash.
#[derive(Clone, Copy)]
pub(crate) enum QuoteState {
    Outside,
    Inside,
    Escaped,
}

/// A text without its strings.
fn unquoted(alloc: Global, text: &[u8]) -> Result<Vec<u8>, AllocError>
    ensures { IfOk result (λ bytes. bytes.items ≡ unquoted QuoteState.Outside text.now) }
{
    let mut bytes = Vec::new(alloc);
    let mut place = QuoteState::Outside;
    for byte in text {
        if is_kept(place, *byte) {
            bytes.push(*byte)?;
        }
        place = next_place(place, *byte);
    }
    Ok(bytes)
}

fn next_place(place: QuoteState, byte: u8) -> QuoteState
    ensures { result ≡ next_place place byte }
{
    match place {
        QuoteState::Outside if byte == b'\'' => QuoteState::Inside,
        QuoteState::Outside => QuoteState::Outside,
        QuoteState::Inside if byte == b'\\' => QuoteState::Escaped,
        QuoteState::Inside if byte == b'\'' => QuoteState::Outside,
        QuoteState::Inside => QuoteState::Inside,
        QuoteState::Escaped => QuoteState::Inside,
    }
}

/// Whether a byte stands outside of strings and begins none.
fn is_kept(place: QuoteState, byte: u8) -> bool
    ensures { result ≡ is_kept place byte }
{
    match place {
        QuoteState::Outside => byte != b'\'',
        QuoteState::Inside | QuoteState::Escaped => false,
    }
}

/// The columns named in a text without strings.
fn names_from(alloc: Global, text: &[u8]) -> Result<Sequence<Text>, AllocError>
    ensures { IfOk result (λ names. names ≡ names_from [] text.now) }
{
    let mut names = Sequence::new(alloc);
    let mut word = Text::new(alloc);
    for byte in text {
        if is_word_byte(*byte) {
            word.push(*byte)?;
        } else {
            let ended = std::mem::replace(&mut word, Text::new(alloc));
            if *byte != b'.' && is_named(ended.as_slice()) {
                names.push(ended)?;
            }
        }
    }
    if is_named(word.as_slice()) {
        names.push(word)?;
    }
    Ok(names)
}

fn is_word_byte(byte: u8) -> bool
    ensures { result ≡ is_word_byte byte }
{
    is_lower(byte) || 65 <= byte && byte <= 90 || 48 <= byte && byte <= 57 || byte == 95
}

fn is_lower(byte: u8) -> bool
    ensures { result ≡ is_lower byte }
{
    97 <= byte && byte <= 122
}

fn is_named(word: &[u8]) -> bool
    ensures { result ≡ is_named word.now }
{
    match word {
        [byte, ..] => is_lower(*byte) || *byte == 95,
        [] => false,
    }
}
