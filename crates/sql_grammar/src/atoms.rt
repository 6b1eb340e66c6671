//! Atoms: what operations stand between.

ghost use Rattle.std.specs.Prelude.{◌≡◌, IfOk};
ghost use Rattle.sql_grammar.specs.Reading.{Reads};
ghost use Rattle.sql_grammar.specs.Expressions as spec;
ghost use Rattle.sql_grammar.specs.Nests.{Nests};

use crate::cursors::Cursor;
use crate::grammars::Grammar;
use crate::heads::{Function, function_of, is_sign};
use crate::nodes::{count_of, max_of, min_of, sum_of};
use crate::stops::Stop;
use sql_ast::{Expr, Piece, Sign};
use std::alloc::Global;
use tuple_codec::Boxed;

/// The function that the pieces call, if they begin with a call.
#[tactic(auto, unfolding(crate::specs::Expressions::called))]
fn called(cursor: &Cursor<'_>) -> Option<Function>
    ensures { result ≡ spec.called cursor.now }
{
    match cursor.rest() {
        [first, rest @ ..] => called_by(first, rest),
        [] => None,
    }
}

fn called_by(first: &Piece, rest: &[Piece]) -> Option<Function>
    ensures { result ≡ spec.called_by first.now rest.now }
{
    match rest {
        [second, ..] => {
            if is_sign(Sign::OpenParenthesis, second) {
                function_of(first)
            } else {
                None
            }
        }
        [] => None,
    }
}

/// A column's name, perhaps with its source.
#[tactic(auto, unfolding(crate::specs::Expressions::column))]
fn column(alloc: Global, cursor: &mut Cursor<'_>) -> Result<Boxed<Expr>, Stop>
    ensures { Reads (spec.column cursor.old) result cursor.new }
{
    let first = cursor.name(alloc)?;
    if cursor.eat(Sign::Point) {
        Ok(Boxed::new(alloc, Expr::Qualified(first, cursor.name(alloc)?))?)
    } else {
        Ok(Boxed::new(alloc, Expr::Name(first))?)
    }
}

#[tactic(auto, unfolding(crate::specs::Expressions::branch))]
fn branch(alloc: Global, cursor: &mut Cursor<'_>) -> Result<Boxed<Expr>, Stop>
    ensures { Reads (spec.branch cursor.old) result cursor.new }
{
    cursor.expect(Sign::CloseParenthesis)?;
    Ok(Boxed::new(alloc, Expr::ActiveBranch)?)
}

impl<F: Fn(Global, &mut Cursor<'_>, usize) -> Result<Boxed<Expr>, Stop>> Grammar<F> {
    #[tactic(auto, unfolding(crate::specs::Expressions::enclosed))]
    fn enclosed(&self, cursor: &mut Cursor<'_>) -> Result<Boxed<Expr>, Stop>
        requires { Nests self.now.depth (F.pre self.now.expression) (F.post self.now.expression) }
        ensures { Reads (spec.enclosed (spec.expression self.now.depth) cursor.old) result cursor.new }
    {
        let inner = self.inner(cursor)?;
        cursor.expect(Sign::CloseParenthesis)?;
        Ok(inner)
    }

    #[tactic(auto, unfolding(crate::specs::Expressions::count))]
    fn count(&self, cursor: &mut Cursor<'_>) -> Result<Boxed<Expr>, Stop>
        requires { Nests self.now.depth (F.pre self.now.expression) (F.post self.now.expression) }
        ensures { Reads (spec.count (spec.expression self.now.depth) cursor.old) result cursor.new }
    {
        if cursor.eat(Sign::Star) {
            cursor.expect(Sign::CloseParenthesis)?;
            return Ok(Boxed::new(self.alloc, Expr::CountAll)?);
        }
        Ok(count_of(self.alloc, self.enclosed(cursor)?)?)
    }

    #[tactic(auto, unfolding(crate::specs::Expressions::call))]
    fn call(&self, cursor: &mut Cursor<'_>, function: Function) -> Result<Boxed<Expr>, Stop>
        requires { Nests self.now.depth (F.pre self.now.expression) (F.post self.now.expression) }
        ensures { Reads (spec.call (spec.expression self.now.depth) function cursor.old) result cursor.new }
    {
        cursor.skip();
        cursor.skip();
        match function {
            Function::Count => self.count(cursor),
            Function::Sum => Ok(sum_of(self.alloc, self.enclosed(cursor)?)?),
            Function::Min => Ok(min_of(self.alloc, self.enclosed(cursor)?)?),
            Function::Max => Ok(max_of(self.alloc, self.enclosed(cursor)?)?),
            Function::ActiveBranch => branch(self.alloc, cursor),
        }
    }

    #[tactic(auto, unfolding(crate::specs::Expressions::other_atom))]
    fn other_atom(&self, cursor: &mut Cursor<'_>) -> Result<Boxed<Expr>, Stop>
        requires { Nests self.now.depth (F.pre self.now.expression) (F.post self.now.expression) }
        ensures { Reads (spec.other_atom (spec.expression self.now.depth) cursor.old) result cursor.new }
    {
        if cursor.eat(Sign::OpenParenthesis) {
            return self.enclosed(cursor);
        }
        if cursor.eat(Sign::AtAt) {
            return Ok(Boxed::new(self.alloc, Expr::Variable(cursor.name(self.alloc)?))?);
        }
        column(self.alloc, cursor)
    }

    #[tactic(auto, unfolding(crate::specs::Expressions::plain_atom, crate::specs::Expressions::literal_ahead, crate::specs::Reading::literal))]
    fn plain_atom(&self, cursor: &mut Cursor<'_>) -> Result<Boxed<Expr>, Stop>
        requires { Nests self.now.depth (F.pre self.now.expression) (F.post self.now.expression) }
        ensures { Reads (spec.plain_atom (spec.expression self.now.depth) cursor.old) result cursor.new }
    {
        if cursor.sees_literal() {
            let literal = cursor.literal(self.alloc)?;
            return Ok(Boxed::new(self.alloc, Expr::Literal(literal))?);
        }
        self.other_atom(cursor)
    }

    /// Reads a literal, a column, a variable, a call, or an expression in parentheses. A function's word that no `(` follows is a column.
    #[tactic(auto, unfolding(crate::specs::Expressions::atom))]
    pub fn atom(&self, cursor: &mut Cursor<'_>) -> Result<Boxed<Expr>, Stop>
        requires { Nests self.now.depth (F.pre self.now.expression) (F.post self.now.expression) }
        ensures { Reads (spec.atom (spec.expression self.now.depth) cursor.old) result cursor.new }
    {
        match called(cursor) {
            Some(function) => self.call(cursor, function),
            None => self.plain_atom(cursor),
        }
    }
}
