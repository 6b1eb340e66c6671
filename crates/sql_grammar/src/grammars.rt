//! The rules that hold expressions take the reader of those as a parameter, so that each is proved by itself.

ghost use Rattle.std.specs.Prelude.{◌≡◌, true};
ghost use Rattle.sql_grammar.specs.Reading.{Reads};
ghost use Rattle.sql_grammar.specs.Expressions as spec;
ghost use Rattle.sql_grammar.specs.Nests.{Nests};
ghost use Rattle.sql_grammar.specs.Pieces.{is_lone_literal};

use crate::cursors::Cursor;
use crate::heads::is_lone_literal;
use crate::stops::Stop;
use sql_ast::{Expr, MOST_OPEN};
use std::alloc::Global;
use tuple_codec::Boxed;

const MOST_DEPTH: usize = MOST_OPEN + 1;

/// What the rules of an expression take along: the memory they use, and how an expression inside it is read.
#[derive(Clone, Copy)]
pub struct Grammar<F> {
    pub alloc: Global,
    /// How deep expressions may still stand in one another.
    pub depth: usize,
    pub expression: F,
}

impl<F: Fn(Global, &mut Cursor<'_>, usize) -> Result<Boxed<Expr>, Stop>> Grammar<F> {
    /// Reads an expression that stands inside this one, behind a parenthesis or a comma; where no more may be open, it stops at once.
    pub fn inner(&self, cursor: &mut Cursor<'_>) -> Result<Boxed<Expr>, Stop>
        requires { Nests self.now.depth (F.pre self.now.expression) (F.post self.now.expression) }
        ensures { Reads (spec.expression self.now.depth cursor.old) result cursor.new }
    {
        (self.expression)(self.alloc, cursor, self.depth)
    }
}

/// The expression in a box, as the rules hand it on: a dozen of their frames stand on the stack for each open parenthesis.
fn boxed_expression(
    alloc: Global,
    cursor: &mut Cursor<'_>,
    depth: usize,
) -> Result<Boxed<Expr>, Stop>
    ensures { Reads (spec.expression depth cursor.old) result cursor.new }
{
    if depth == 0 {
        return Err(Stop::At(cursor.left()));
    }
    Grammar {
        alloc,
        depth: depth - 1,
        expression: boxed_expression,
    }
    .disjunction(cursor)
}

/// The expression that the pieces begin with, in which fewer than `depth` parentheses are open at any place.
fn read_expression(alloc: Global, cursor: &mut Cursor<'_>, depth: usize) -> Result<Expr, Stop>
    ensures { Reads (spec.expression depth cursor.old) result cursor.new }
{
    Ok(boxed_expression(alloc, cursor, depth)?.into_inner())
}

/// The literal that the pieces begin with, where it is a whole expression. By the rules it would be put into a box and taken out again.
#[tactic(auto, using(crate::proofs::LoneLiterals::lone_read, crate::proofs::LoneLiterals::lone_stop))]
fn lone_literal(alloc: Global, cursor: &mut Cursor<'_>) -> Result<Expr, Stop>
    requires { is_lone_literal cursor.old ≡ true }
    ensures { Reads (spec.any cursor.old) result cursor.new }
{
    match cursor.literal(alloc) {
        Ok(literal) => Ok(Expr::Literal(literal)),
        Err(stop) => Err(stop),
    }
}

/// The expression that the pieces begin with, with no more open parentheses than a statement may have.
#[tactic(auto, unfolding(crate::specs::Expressions::any))]
pub fn read_any(alloc: Global, cursor: &mut Cursor<'_>) -> Result<Expr, Stop>
    ensures { Reads (spec.any cursor.old) result cursor.new }
{
    if is_lone_literal(cursor.rest()) {
        return lone_literal(alloc, cursor);
    }
    read_expression(alloc, cursor, MOST_DEPTH)
}
