//! The reader of CHECKs that judging needs: a CHECK's text is canonical, and is read as such.

use plain_writes::Reads;
use sql_ast::Expr;
use sql_parse::read_check;
use std::alloc::{AllocError, Global};

/// Reads a CHECK's text as the canonical text that it is. A text of 2^32 bytes or more, which no table within the limits has, is too much
/// for memory.
pub struct CanonicalChecks;

impl Reads for CanonicalChecks {
    ghost use Rattle.sql_grammar.specs.Checking.{canonical_expression};

    ghost reading = { canonical_expression };

    fn read(alloc: Global, text: &[u8]) -> Result<Option<Expr>, AllocError> {
        if text.len() > u32::MAX as usize {
            return Err(AllocError);
        }
        read_check(alloc, text)
    }
}
