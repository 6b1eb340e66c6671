//! The place in the text of the token at which the grammar stopped.

ghost use Rattle.std.specs.Prelude.{◌≡◌, ◌<◌, ◌^◌, length};
ghost use Rattle.sql_parse.specs.Parsing.{place_of};

use sql_ast::Token;

/// Where the token begins from which, itself included, so many tokens are left; where none is left, the text's end.
pub fn place(text: &[u8], tokens: &[Token], left: usize) -> u32
    requires { length text.now < 2 ^ 32 }
    ensures { result ≡ place_of text.now tokens.now left }
{
    match tokens.get(tokens.len().saturating_sub(left)) {
        Some(token) => token.start,
        None => text.len() as u32,
    }
}
