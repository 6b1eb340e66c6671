//! Tokens with their values, those of a statement and those of a canonical text.

ghost use Rattle.std.specs.Prelude.{◌≡◌, IfOk};
ghost use Rattle.sql_ast.specs.Values as spec;
ghost use Rattle.sql_ast.specs.Values.{canonical_piece_of, canonical_value, piece_of, value};

use crate::byte_strings::hex_bytes;
use crate::lower_words::{canonical_word, quoted, word};
use crate::numbers::{decimal, number};
use crate::slices::{behind, slice_of};
use crate::strings::string;
use crate::{Piece, Sign, Token, TokenKind, sign_of};
use smallvec::SmallVec;
use std::alloc::{AllocError, Global};

/// Tokens with their values. Those of a short statement take no list.
pub type Pieces = SmallVec<Piece, 12>;

/// The tokens of a text with their values.
pub fn pieces_of(alloc: Global, text: &[u8], tokens: &[Token]) -> Result<Pieces, AllocError>
    ensures { IfOk result (λ pieces. pieces.items ≡ spec.pieces_of text.now tokens.now) }
{
    let mut pieces = SmallVec::with_capacity(alloc, tokens.len())?;
    for token in tokens {
        pieces.push(read_piece(alloc, text, token)?)?;
    }
    Ok(pieces)
}

/// As `pieces_of`, for a canonical text: its names stand bare and in lower case, also those that are reserved words.
pub fn canonical_pieces_of(
    alloc: Global,
    text: &[u8],
    tokens: &[Token],
) -> Result<Pieces, AllocError>
    ensures { IfOk result (λ pieces. pieces.items ≡ spec.canonical_pieces_of text.now tokens.now) }
{
    let mut pieces = SmallVec::with_capacity(alloc, tokens.len())?;
    for token in tokens {
        pieces.push(read_canonical_piece(alloc, text, token)?)?;
    }
    Ok(pieces)
}

fn read_canonical_piece(alloc: Global, text: &[u8], token: &Token) -> Result<Piece, AllocError>
    ensures { IfOk result (λ piece. piece ≡ canonical_piece_of text.now token.now) }
{
    read_canonical_value(alloc, token.kind, slice_of(text, token))
}

fn read_canonical_value(alloc: Global, kind: TokenKind, bytes: &[u8]) -> Result<Piece, AllocError>
    ensures { IfOk result (λ piece. piece ≡ canonical_value kind bytes.now) }
{
    match kind {
        TokenKind::Word => canonical_word(alloc, bytes),
        other => read_value(alloc, other, bytes),
    }
}

fn read_piece(alloc: Global, text: &[u8], token: &Token) -> Result<Piece, AllocError>
    ensures { IfOk result (λ piece. piece ≡ piece_of text.now token.now) }
{
    read_value(alloc, token.kind, slice_of(text, token))
}

fn read_value(alloc: Global, kind: TokenKind, bytes: &[u8]) -> Result<Piece, AllocError>
    ensures { IfOk result (λ piece. piece ≡ value kind bytes.now) }
{
    match kind {
        TokenKind::Word => word(alloc, bytes),
        TokenKind::Quoted => quoted(alloc, bytes),
        TokenKind::Text => Ok(Piece::Text(string(alloc, bytes)?)),
        TokenKind::Bytes => Ok(Piece::Bytes(hex_bytes(alloc, behind(bytes, 2))?)),
        TokenKind::Whole => Ok(Piece::Whole(number(bytes))),
        TokenKind::Decimal => Ok(decimal(bytes)),
        TokenKind::Sign => Ok(Piece::Sign(sign_of(bytes).unwrap_or(Sign::Semicolon))),
    }
}
