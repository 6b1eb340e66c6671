//! Words as reserved words and names, in a statement and in a canonical text.

ghost use Rattle.std.specs.Prelude.{◌≡◌, IfOk};
ghost use Rattle.sql_ast.specs.Words.{keyword_of};
ghost use Rattle.sql_ast.specs.Values as spec;
ghost use Rattle.sql_ast.specs.Values.{lowered};

use crate::bytes::lower_case;
use crate::slices::between;
use crate::{Piece, keyword_of};
use smallvec::SmallVec;
use std::alloc::{AllocError, Global};
use tuple_codec::Text;

/// A word of a statement, where case doesn't count: a reserved word, or else a name in lower case.
pub fn word(alloc: Global, bytes: &[u8]) -> Result<Piece, AllocError>
    ensures { IfOk result (λ piece. piece ≡ spec.word bytes.now) }
{
    let name = lower_case_of(alloc, bytes)?;
    reserved_or_name(alloc, name.as_slice())
}

/// A word of a canonical text: there a reserved word stands in capitals, and a name in lower case.
pub fn canonical_word(alloc: Global, bytes: &[u8]) -> Result<Piece, AllocError>
    ensures { IfOk result (λ piece. piece ≡ spec.canonical_word bytes.now) }
{
    let name = lower_case_of(alloc, bytes)?;
    if name.as_slice() == bytes {
        return Ok(Piece::Word(Text::from_slice(alloc, name.as_slice())?));
    }
    reserved_or_name(alloc, name.as_slice())
}

/// A word that is already in lower case.
fn reserved_or_name(alloc: Global, name: &[u8]) -> Result<Piece, AllocError>
    ensures { IfOk result (λ piece. piece ≡ spec.word_by (keyword_of name.now) name.now) }
{
    match keyword_of(name) {
        Some(word) => Ok(Piece::Keyword(word)),
        None => Ok(Piece::Word(Text::from_slice(alloc, name)?)),
    }
}

/// A word in backquotes.
pub fn quoted(alloc: Global, bytes: &[u8]) -> Result<Piece, AllocError>
    ensures { IfOk result (λ piece. piece ≡ spec.quoted bytes.now) }
{
    let name = lower_case_of(alloc, between(bytes))?;
    Ok(Piece::Quoted(Text::from_slice(alloc, name.as_slice())?))
}

/// A word in lower case. A reserved word takes no memory: none has more than 16 bytes.
fn lower_case_of(alloc: Global, bytes: &[u8]) -> Result<SmallVec<u8, 16>, AllocError>
    ensures { IfOk result (λ word. word.items ≡ lowered bytes.now) }
{
    let mut word = SmallVec::new(alloc);
    for byte in bytes {
        word.push(lower_case(*byte))?;
    }
    Ok(word)
}
