//! What the grammar reads: tokens with their values.

use crate::{Keyword, Sign};
use std::alloc::Global;
use std::default::MadeWith;
use tuple_codec::{Blob, Text};

/// A token with its value.
#[derive(Drop)]
pub enum Piece {
    /// A reserved word.
    Keyword(Keyword),
    /// A word that isn't reserved, in lower case.
    Word(Text),
    /// A word in backquotes, in lower case.
    Quoted(Text),
    /// A string, without its quotes and escapes.
    Text(Text),
    Bytes(Blob),
    Whole(u64),
    /// A number below 10^18, and how many of its digits stand behind the point.
    Decimal(u64, u8),
    Sign(Sign),
}

/// What stands in a place of a list that no piece has taken.
impl MadeWith<Global> for Piece {
    fn made_with(_: Global) -> Piece {
        Piece::Whole(0)
    }
}
