//! The tokens of a text.

ghost use Rattle.std.specs.Prelude.{◌≡◌, ◌++◌, [], ◌∷◌, OnOk};

use crate::tokens::{Token, TokenKind};
use smallvec::SmallVec;
use std::alloc::{AllocError, Global};
use std::default::MadeWith;
use std::marker::Model;

/// The tokens of a text. The first sixteen take no memory: most statements that write a row have no more.
#[derive(Drop)]
pub struct TokenList {
    tokens: SmallVec<Token, 16>,
}

impl Model for TokenList {
    ghost use Rattle.std.specs.Prelude.{List};
    ghost use Rattle.sql_ast.specs.declared.tokens.Token.{Token};

    ghost Value = { List Token };

    ghost view = { λ l. l.tokens.items };
}

/// What stands in a place that no token has taken.
impl MadeWith<Global> for Token {
    fn made_with(_: Global) -> Token {
        Token {
            kind: TokenKind::Sign,
            start: 0,
            end: 0,
        }
    }
}

impl TokenList {
    /// No token yet.
    pub fn new(alloc: Global) -> TokenList
        ensures { result ≡ [] }
    {
        TokenList {
            tokens: SmallVec::new(alloc),
        }
    }

    /// The tokens, borrowed where they lie.
    pub fn as_slice(&self) -> &[Token]
        ensures { result.now ≡ self.now }
    {
        self.tokens.as_slice()
    }

    /// Puts a token behind the others.
    pub fn push(&mut self, token: Token) -> Result<(), AllocError>
        ensures { OnOk result (self.new ≡ self.old ++ token ∷ []) }
    {
        self.tokens.push(token)?;
        Ok(())
    }
}
