//! Operations, from the tightest to the loosest.

ghost use Rattle.std.specs.Prelude.{◌≡◌};
ghost use Rattle.sql_grammar.specs.Reading as reading;
ghost use Rattle.sql_grammar.specs.Reading.{Reads};
ghost use Rattle.sql_grammar.specs.Expressions as spec;
ghost use Rattle.sql_grammar.specs.Nests.{Nests};

use crate::cursors::Cursor;
use crate::grammars::Grammar;
use crate::heads::{Test, term_of, test_of};
use crate::nodes::{
    added, among, between, compared, conjoined, disjoined, multiplied, negative, not, not_among,
    not_between, null_tested,
};
use crate::stops::Stop;
use sql_ast::{Expr, Keyword, Sign, Term};
use std::alloc::Global;
use tuple_codec::{Boxed, Sequence};

#[tactic(auto, unfolding(crate::specs::Expressions::test_ahead))]
fn test_ahead(cursor: &Cursor<'_>) -> Test
    ensures { result ≡ spec.test_ahead cursor.now }
{
    match cursor.rest() {
        [first, ..] => test_of(first),
        [] => Test::Absent,
    }
}

#[tactic(auto, unfolding(crate::specs::Expressions::term_ahead))]
fn term_ahead(cursor: &Cursor<'_>) -> Option<Term>
    ensures { result ≡ spec.term_ahead cursor.now }
{
    match cursor.rest() {
        [first, ..] => term_of(first),
        [] => None,
    }
}

#[tactic(auto, unfolding(crate::specs::Expressions::null_test))]
fn null_test(alloc: Global, cursor: &mut Cursor<'_>, left: Boxed<Expr>) -> Result<Boxed<Expr>, Stop>
    ensures { Reads (spec.null_test left cursor.old) result cursor.new }
{
    let negated = cursor.eat_keyword(Keyword::Not);
    cursor.expect_keyword(Keyword::Null)?;
    Ok(null_tested(alloc, left, negated)?)
}

impl<F: Fn(Global, &mut Cursor<'_>, usize) -> Result<Boxed<Expr>, Stop>> Grammar<F> {
    #[tactic(auto, unfolding(crate::specs::Expressions::unary))]
    fn unary(&self, cursor: &mut Cursor<'_>) -> Result<Boxed<Expr>, Stop>
        requires { Nests self.now.depth (F.pre self.now.expression) (F.post self.now.expression) }
        ensures { Reads (spec.unary (spec.expression self.now.depth) cursor.old) result cursor.new }
    {
        if cursor.eat(Sign::Minus) {
            return Ok(negative(self.alloc, self.atom(cursor)?)?);
        }
        self.atom(cursor)
    }

    #[tactic(auto, unfolding(crate::specs::Reading::chain, crate::specs::Reading::chain_from))]
    fn factors(&self, cursor: &mut Cursor<'_>) -> Result<Sequence<Expr>, Stop>
        requires { Nests self.now.depth (F.pre self.now.expression) (F.post self.now.expression) }
        ensures { Reads (reading.chain (spec.factor (spec.expression self.now.depth)) cursor.old) result cursor.new }
    {
        let mut found = Sequence::new(self.alloc);
        for _turn in 0..cursor.left() {
            if !cursor.eat(Sign::Star) {
                return Ok(found);
            }
            found.push(self.unary(cursor)?.into_inner())?;
        }
        Ok(found)
    }

    #[tactic(auto, unfolding(crate::specs::Expressions::product))]
    fn product(&self, cursor: &mut Cursor<'_>) -> Result<Boxed<Expr>, Stop>
        requires { Nests self.now.depth (F.pre self.now.expression) (F.post self.now.expression) }
        ensures { Reads (spec.product (spec.expression self.now.depth) cursor.old) result cursor.new }
    {
        let first = self.unary(cursor)?;
        let rest = self.factors(cursor)?;
        Ok(multiplied(self.alloc, first, rest)?)
    }

    #[tactic(auto, unfolding(crate::specs::Expressions::term))]
    fn term(&self, cursor: &mut Cursor<'_>) -> Result<Option<(Term, Expr)>, Stop>
        requires { Nests self.now.depth (F.pre self.now.expression) (F.post self.now.expression) }
        ensures { Reads (spec.term (spec.expression self.now.depth) cursor.old) result cursor.new }
    {
        match term_ahead(cursor) {
            Some(term) => {
                cursor.skip();
                Ok(Some((term, self.product(cursor)?.into_inner())))
            }
            None => Ok(None),
        }
    }

    #[tactic(auto, unfolding(crate::specs::Reading::chain, crate::specs::Reading::chain_from))]
    fn terms(&self, cursor: &mut Cursor<'_>) -> Result<Sequence<(Term, Expr)>, Stop>
        requires { Nests self.now.depth (F.pre self.now.expression) (F.post self.now.expression) }
        ensures { Reads (reading.chain (spec.term (spec.expression self.now.depth)) cursor.old) result cursor.new }
    {
        let mut found = Sequence::new(self.alloc);
        for _turn in 0..cursor.left() {
            match self.term(cursor)? {
                Some(term) => found.push(term)?,
                None => return Ok(found),
            }
        }
        Ok(found)
    }

    #[tactic(auto, unfolding(crate::specs::Expressions::sum))]
    fn sum(&self, cursor: &mut Cursor<'_>) -> Result<Boxed<Expr>, Stop>
        requires { Nests self.now.depth (F.pre self.now.expression) (F.post self.now.expression) }
        ensures { Reads (spec.sum (spec.expression self.now.depth) cursor.old) result cursor.new }
    {
        let first = self.product(cursor)?;
        let rest = self.terms(cursor)?;
        Ok(added(self.alloc, first, rest)?)
    }

    #[tactic(auto, unfolding(crate::specs::Reading::list, crate::specs::Reading::chain_from))]
    fn list(&self, cursor: &mut Cursor<'_>) -> Result<Sequence<Expr>, Stop>
        requires { Nests self.now.depth (F.pre self.now.expression) (F.post self.now.expression) }
        ensures { Reads (reading.list (spec.expression self.now.depth) cursor.old) result cursor.new }
    {
        let mut found = Sequence::new(self.alloc);
        found.push(self.inner(cursor)?.into_inner())?;
        for _turn in 0..cursor.left() {
            if !cursor.eat(Sign::Comma) {
                return Ok(found);
            }
            found.push(self.inner(cursor)?.into_inner())?;
        }
        Ok(found)
    }

    #[tactic(auto, unfolding(crate::specs::Expressions::listed))]
    fn listed(&self, cursor: &mut Cursor<'_>) -> Result<Sequence<Expr>, Stop>
        requires { Nests self.now.depth (F.pre self.now.expression) (F.post self.now.expression) }
        ensures { Reads (spec.listed (spec.expression self.now.depth) cursor.old) result cursor.new }
    {
        cursor.expect(Sign::OpenParenthesis)?;
        let items = self.list(cursor)?;
        cursor.expect(Sign::CloseParenthesis)?;
        Ok(items)
    }

    #[tactic(auto, unfolding(crate::specs::Expressions::limits))]
    fn limits(&self, cursor: &mut Cursor<'_>) -> Result<(Boxed<Expr>, Boxed<Expr>), Stop>
        requires { Nests self.now.depth (F.pre self.now.expression) (F.post self.now.expression) }
        ensures { Reads (spec.limits (spec.expression self.now.depth) cursor.old) result cursor.new }
    {
        let low = self.sum(cursor)?;
        cursor.expect_keyword(Keyword::And)?;
        let high = self.sum(cursor)?;
        Ok((low, high))
    }

    #[tactic(auto, unfolding(crate::specs::Expressions::negated))]
    fn negated(&self, cursor: &mut Cursor<'_>, left: Boxed<Expr>) -> Result<Boxed<Expr>, Stop>
        requires { Nests self.now.depth (F.pre self.now.expression) (F.post self.now.expression) }
        ensures { Reads (spec.negated (spec.expression self.now.depth) left cursor.old) result cursor.new }
    {
        match test_ahead(cursor) {
            Test::In => {
                cursor.skip();
                Ok(not_among(self.alloc, left, self.listed(cursor)?)?)
            }
            Test::Between => {
                cursor.skip();
                Ok(not_between(self.alloc, left, self.limits(cursor)?)?)
            }
            _ => Err(Stop::At(cursor.left())),
        }
    }

    #[tactic(auto, unfolding(crate::specs::Expressions::tested))]
    fn tested(&self, cursor: &mut Cursor<'_>, left: Boxed<Expr>) -> Result<Boxed<Expr>, Stop>
        requires { Nests self.now.depth (F.pre self.now.expression) (F.post self.now.expression) }
        ensures { Reads (spec.tested (spec.expression self.now.depth) left cursor.old) result cursor.new }
    {
        match test_ahead(cursor) {
            Test::Compare(operator) => {
                cursor.skip();
                let right = self.sum(cursor)?;
                Ok(compared(self.alloc, left, operator, right)?)
            }
            Test::Is => {
                cursor.skip();
                null_test(self.alloc, cursor, left)
            }
            Test::Not => {
                cursor.skip();
                self.negated(cursor, left)
            }
            Test::In => {
                cursor.skip();
                Ok(among(self.alloc, left, self.listed(cursor)?)?)
            }
            Test::Between => {
                cursor.skip();
                Ok(between(self.alloc, left, self.limits(cursor)?)?)
            }
            Test::Absent => Ok(left),
        }
    }

    #[tactic(auto, unfolding(crate::specs::Expressions::comparison))]
    fn comparison(&self, cursor: &mut Cursor<'_>) -> Result<Boxed<Expr>, Stop>
        requires { Nests self.now.depth (F.pre self.now.expression) (F.post self.now.expression) }
        ensures { Reads (spec.comparison (spec.expression self.now.depth) cursor.old) result cursor.new }
    {
        let left = self.sum(cursor)?;
        self.tested(cursor, left)
    }

    #[tactic(auto, unfolding(crate::specs::Expressions::negation))]
    fn negation(&self, cursor: &mut Cursor<'_>) -> Result<Boxed<Expr>, Stop>
        requires { Nests self.now.depth (F.pre self.now.expression) (F.post self.now.expression) }
        ensures { Reads (spec.negation (spec.expression self.now.depth) cursor.old) result cursor.new }
    {
        if cursor.eat_keyword(Keyword::Not) {
            return Ok(not(self.alloc, self.comparison(cursor)?)?);
        }
        self.comparison(cursor)
    }

    #[tactic(auto, unfolding(crate::specs::Reading::chain, crate::specs::Reading::chain_from))]
    fn conjuncts(&self, cursor: &mut Cursor<'_>) -> Result<Sequence<Expr>, Stop>
        requires { Nests self.now.depth (F.pre self.now.expression) (F.post self.now.expression) }
        ensures { Reads (reading.chain (spec.conjunct (spec.expression self.now.depth)) cursor.old) result cursor.new }
    {
        let mut found = Sequence::new(self.alloc);
        for _turn in 0..cursor.left() {
            if !cursor.eat_keyword(Keyword::And) {
                return Ok(found);
            }
            found.push(self.negation(cursor)?.into_inner())?;
        }
        Ok(found)
    }

    #[tactic(auto, unfolding(crate::specs::Expressions::conjunction))]
    fn conjunction(&self, cursor: &mut Cursor<'_>) -> Result<Boxed<Expr>, Stop>
        requires { Nests self.now.depth (F.pre self.now.expression) (F.post self.now.expression) }
        ensures { Reads (spec.conjunction (spec.expression self.now.depth) cursor.old) result cursor.new }
    {
        let first = self.negation(cursor)?;
        let rest = self.conjuncts(cursor)?;
        Ok(conjoined(self.alloc, first, rest)?)
    }

    #[tactic(auto, unfolding(crate::specs::Reading::chain, crate::specs::Reading::chain_from))]
    fn disjuncts(&self, cursor: &mut Cursor<'_>) -> Result<Sequence<Expr>, Stop>
        requires { Nests self.now.depth (F.pre self.now.expression) (F.post self.now.expression) }
        ensures { Reads (reading.chain (spec.disjunct (spec.expression self.now.depth)) cursor.old) result cursor.new }
    {
        let mut found = Sequence::new(self.alloc);
        for _turn in 0..cursor.left() {
            if !cursor.eat_keyword(Keyword::Or) {
                return Ok(found);
            }
            found.push(self.conjunction(cursor)?.into_inner())?;
        }
        Ok(found)
    }

    /// Reads an OR of ANDs, the loosest of operations and so a whole expression; it ends before the first piece that doesn't go on with it.
    #[tactic(auto, unfolding(crate::specs::Expressions::disjunction))]
    pub fn disjunction(&self, cursor: &mut Cursor<'_>) -> Result<Boxed<Expr>, Stop>
        requires { Nests self.now.depth (F.pre self.now.expression) (F.post self.now.expression) }
        ensures { Reads (spec.disjunction (spec.expression self.now.depth) cursor.old) result cursor.new }
    {
        let first = self.conjunction(cursor)?;
        let rest = self.disjuncts(cursor)?;
        Ok(disjoined(self.alloc, first, rest)?)
    }
}
