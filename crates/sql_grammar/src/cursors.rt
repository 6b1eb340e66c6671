//! A place in a list of pieces, from which pieces are looked at and taken one by one.

ghost use Rattle.std.specs.Prelude.{◌≡◌, Ok, is_some, length, drop};
ghost use Rattle.sql_grammar.specs.Reading as spec;
ghost use Rattle.sql_grammar.specs.Reading.{Reads};
ghost use Rattle.sql_grammar.specs.Pieces.{literal_of};

use crate::heads::{
    is_keyword, is_literal, is_named, is_sign, is_word, literal_of, name_of, string_of, whole_of,
};
use crate::stops::Stop;
use sql_ast::{Keyword, Literal, Piece, Sign};
use std::alloc::Global;
use std::marker::Model;
use std::mem::take;
use tuple_codec::Text;

/// A place in a list of pieces, seen by contracts as the pieces from there on. Names and literals are moved out of the pieces.
#[derive(Drop)]
pub struct Cursor<'a> {
    rest: &'a mut [Piece],
}

impl<'a> Model for Cursor<'a> {
    ghost use Rattle.std.specs.Prelude.{List};
    ghost use Rattle.sql_ast.specs.declared.pieces.Piece.{Piece};

    ghost Value = { List Piece };

    ghost view = { λ c. c.rest.now };
}

impl<'a> Cursor<'a> {
    /// A place before the first of these pieces, which are borrowed. Nothing is said of what is left of them.
    pub fn new(pieces: &'a mut [Piece]) -> Cursor<'a>
        ensures { result ≡ pieces.old }
    {
        Cursor { rest: pieces }
    }

    /// The pieces from here on.
    pub fn rest(&self) -> &[Piece]
        ensures { result.now ≡ self.now }
    {
        self.rest
    }

    /// How many pieces there are from here on.
    pub fn left(&self) -> usize
        ensures { result ≡ length self.now }
    {
        self.rest.len()
    }

    /// Moves past the next piece, if there is one.
    pub fn skip(&mut self)
        ensures { self.new ≡ drop 1 self.old }
    {
        if let [_, rest @ ..] = take(&mut self.rest) {
            self.rest = rest;
        }
    }

    /// Whether this sign comes next; at the end of the pieces none does.
    #[tactic(auto, unfolding(crate::specs::Reading::sees))]
    pub fn sees(&self, sign: Sign) -> bool
        ensures { result ≡ spec.sees sign self.now }
    {
        match self.rest() {
            [first, ..] => is_sign(sign, first),
            [] => false,
        }
    }

    /// Whether this reserved word comes next; in backquotes it would be a name.
    #[tactic(auto, unfolding(crate::specs::Reading::sees_keyword))]
    pub fn sees_keyword(&self, word: Keyword) -> bool
        ensures { result ≡ spec.sees_keyword word self.now }
    {
        match self.rest() {
            [first, ..] => is_keyword(word, first),
            [] => false,
        }
    }

    /// Whether this word, which isn't reserved, comes next.
    #[tactic(auto, unfolding(crate::specs::Reading::sees_word))]
    pub fn sees_word(&self, word: &[u8]) -> bool
        ensures { result ≡ spec.sees_word word.now self.now }
    {
        match self.rest() {
            [first, ..] => is_word(word, first),
            [] => false,
        }
    }

    /// Whether a name comes next: a word that isn't reserved, or any word in backquotes.
    #[tactic(auto, unfolding(crate::specs::Reading::sees_name))]
    pub fn sees_name(&self) -> bool
        ensures { result ≡ spec.sees_name self.now }
    {
        match self.rest() {
            [first, ..] => is_named(first),
            [] => false,
        }
    }

    /// Whether a literal comes next, also TRUE, FALSE or NULL.
    pub fn sees_literal(&self) -> bool
        ensures { result ≡ is_some (spec.seen literal_of self.now) }
    {
        match self.rest() {
            [first, ..] => is_literal(first),
            [] => false,
        }
    }

    /// Takes the sign, if it comes next.
    pub fn eat(&mut self, sign: Sign) -> bool
        ensures { spec.eat sign self.old ≡ Ok (result, self.new) }
    {
        let found = self.sees(sign);
        if found {
            self.skip();
        }
        found
    }

    /// Takes the keyword, if it comes next.
    pub fn eat_keyword(&mut self, word: Keyword) -> bool
        ensures { spec.eat_keyword word self.old ≡ Ok (result, self.new) }
    {
        let found = self.sees_keyword(word);
        if found {
            self.skip();
        }
        found
    }

    /// Takes the word, which isn't reserved, if it comes next.
    pub fn eat_word(&mut self, word: &[u8]) -> bool
        ensures { spec.eat_word word.now self.old ≡ Ok (result, self.new) }
    {
        let found = self.sees_word(word);
        if found {
            self.skip();
        }
        found
    }

    /// Takes the sign, or stops where it doesn't come next, told by how many pieces are left from there.
    pub fn expect(&mut self, sign: Sign) -> Result<(), Stop>
        ensures { Reads (spec.expect sign self.old) result self.new }
    {
        if !self.sees(sign) {
            return Err(Stop::At(self.left()));
        }
        self.skip();
        Ok(())
    }

    /// Takes the reserved word, or stops where it doesn't come next.
    pub fn expect_keyword(&mut self, word: Keyword) -> Result<(), Stop>
        ensures { Reads (spec.expect_keyword word self.old) result self.new }
    {
        if !self.sees_keyword(word) {
            return Err(Stop::At(self.left()));
        }
        self.skip();
        Ok(())
    }

    /// Takes the word, which isn't reserved, or stops where it doesn't come next.
    pub fn expect_word(&mut self, word: &[u8]) -> Result<(), Stop>
        ensures { Reads (spec.expect_word word.now self.old) result self.new }
    {
        if !self.sees_word(word) {
            return Err(Stop::At(self.left()));
        }
        self.skip();
        Ok(())
    }

    /// Takes a name, bare or from backquotes, or stops where none comes next.
    #[tactic(auto, unfolding(crate::specs::Reading::name))]
    pub fn name(&mut self, alloc: Global) -> Result<Text, Stop>
        ensures { Reads (spec.name self.old) result self.new }
    {
        let name = match self.rest {
            [first, ..] => name_of(alloc, first),
            [] => None,
        };
        self.take(name)
    }

    /// Takes a name, if one comes next.
    #[tactic(auto, unfolding(crate::specs::Reading::optional_name))]
    pub fn optional_name(&mut self, alloc: Global) -> Result<Option<Text>, Stop>
        ensures { Reads (spec.optional_name self.old) result self.new }
    {
        if self.sees_name() {
            Ok(Some(self.name(alloc)?))
        } else {
            Ok(None)
        }
    }

    /// Takes a whole literal's value, or stops where none comes next; a decimal is none.
    #[tactic(auto, unfolding(crate::specs::Reading::whole))]
    pub fn whole(&mut self) -> Result<u64, Stop>
        ensures { Reads (spec.whole self.old) result self.new }
    {
        let whole = match self.rest() {
            [first, ..] => whole_of(first),
            [] => None,
        };
        self.take(whole)
    }

    /// Takes a string's bytes, without quotes and escapes, or stops where none comes next; a byte string is none.
    #[tactic(auto, unfolding(crate::specs::Reading::string))]
    pub fn string(&mut self, alloc: Global) -> Result<Text, Stop>
        ensures { Reads (spec.string self.old) result self.new }
    {
        let string = match self.rest {
            [first, ..] => string_of(alloc, first),
            [] => None,
        };
        self.take(string)
    }

    /// Takes a literal, also of TRUE, FALSE or NULL, or stops where none comes next; a minus belongs to no literal.
    #[tactic(auto, unfolding(crate::specs::Reading::literal))]
    pub fn literal(&mut self, alloc: Global) -> Result<Literal, Stop>
        ensures { Reads (spec.literal self.old) result self.new }
    {
        let literal = match self.rest {
            [first, ..] => literal_of(alloc, first),
            [] => None,
        };
        self.take(literal)
    }

    /// Gives what the next piece was taken for and moves past it, or stops where it was taken for nothing.
    pub fn take<T: Drop>(&mut self, found: Option<T>) -> Result<T, Stop>
        ensures { Reads (spec.taken found self.old) result self.new }
    {
        match found {
            Some(found) => {
                self.skip();
                Ok(found)
            }
            None => Err(Stop::At(self.left())),
        }
    }
}
