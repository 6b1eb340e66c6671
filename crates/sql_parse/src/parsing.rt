//! A text read as a statement: its tokens, their values, the grammar and the rules on the tree.

ghost use Rattle.std.specs.Prelude.{◌≡◌, ◌<◌, ◌^◌, length};
ghost use Rattle.sql_ast.specs.Lexing.{LexingGives};
ghost use Rattle.sql_parse.specs.Parsing.{parsed, placed, statement_by, statement_in};
ghost use Rattle.sql_statements.specs.Statements.{statement_of};

use crate::faults::{misplaced, refused};
use crate::judging::judge;
use crate::openings::is_beyond_grammar;
use crate::places::place;
use sql_ast::{Piece, ReadFault, Statement, Token, lex, pieces_of};
use sql_grammar::Stop;
use sql_statements::read_statement;
use std::alloc::Global;

/// The statement that a text is, or why it is refused by its text alone.
pub fn parse(alloc: Global, text: &[u8]) -> Result<Statement, ReadFault>
    requires { length text.now < 2 ^ 32 }
    ensures { LexingGives (parsed text.now) result }
{
    let tokens = lex(alloc, text)?;
    read_tokens(alloc, text, tokens.as_slice())
}

fn read_tokens(alloc: Global, text: &[u8], tokens: &[Token]) -> Result<Statement, ReadFault>
    requires { length text.now < 2 ^ 32 }
    ensures { LexingGives (statement_in text.now tokens.now) result }
{
    let mut pieces = pieces_of(alloc, text, tokens)?;
    read_pieces(alloc, text, tokens, pieces.as_mut_slice())
}

fn read_pieces(
    alloc: Global,
    text: &[u8],
    tokens: &[Token],
    pieces: &mut [Piece],
) -> Result<Statement, ReadFault>
    requires { length text.now < 2 ^ 32 }
    ensures { LexingGives (statement_by text.now tokens.now pieces.old) result }
{
    if is_beyond_grammar(pieces) {
        return Err(refused(9013));
    }
    let statement = read_placed(alloc, text, tokens, pieces)?;
    judge(alloc, statement)
}

/// The statement that the pieces of these tokens are, or the place of the first token that fits none.
fn read_placed(
    alloc: Global,
    text: &[u8],
    tokens: &[Token],
    pieces: &mut [Piece],
) -> Result<Statement, ReadFault>
    requires { length text.now < 2 ^ 32 }
    ensures { LexingGives (placed text.now tokens.now (statement_of pieces.old)) result }
{
    match read_statement(alloc, pieces) {
        Ok(statement) => Ok(statement),
        Err(Stop::Memory) => Err(ReadFault::Memory),
        Err(Stop::At(left)) => Err(misplaced(place(text, tokens, left))),
    }
}
