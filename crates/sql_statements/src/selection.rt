//! Both forms of SELECT.

ghost use Rattle.sql_grammar.specs.Reading.{Reads};
ghost use Rattle.sql_statements.specs.Selects as spec;

use crate::chosen::{Choice, items, named_in};
use crate::clauses::clauses_behind;
use crate::sources::from_clause;
use sql_ast::{Items, Keyword, Query, Select};
use sql_grammar::{Cursor, Stop};
use std::alloc::Global;

#[tactic(auto, unfolding(crate::specs::Selects::query))]
fn query(
    alloc: Global,
    cursor: &mut Cursor<'_>,
    distinct: bool,
    items: Items,
) -> Result<Query, Stop>
    ensures { Reads (spec.query distinct items cursor.old) result cursor.new }
{
    let from = from_clause(alloc, cursor)?;
    let clauses = clauses_behind(alloc, cursor)?;
    Ok(Query {
        distinct,
        items,
        from,
        clauses,
    })
}

#[tactic(auto, unfolding(crate::specs::Selects::alone))]
fn alone(
    alloc: Global,
    cursor: &mut Cursor<'_>,
    distinct: bool,
    choice: Choice,
) -> Result<Select, Stop>
    ensures { Reads (spec.alone distinct choice cursor.old) result cursor.new }
{
    if distinct || choice.wants_from {
        return Err(Stop::At(cursor.left()));
    }
    match named_in(alloc, choice.items)? {
        Some(found) => Ok(Select::Alone(found)),
        None => Err(Stop::At(cursor.left())),
    }
}

/// A SELECT, behind its first word.
#[tactic(auto, unfolding(crate::specs::Selects::selection))]
pub fn read_select(alloc: Global, cursor: &mut Cursor<'_>) -> Result<Select, Stop>
    ensures { Reads (spec.selection cursor.old) result cursor.new }
{
    let distinct = cursor.eat_keyword(Keyword::Distinct);
    let choice = items(alloc, cursor)?;
    if cursor.eat_keyword(Keyword::From) {
        return Ok(Select::From(query(alloc, cursor, distinct, choice.items)?));
    }
    alone(alloc, cursor, distinct, choice)
}
