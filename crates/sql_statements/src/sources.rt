//! The sources of a SELECT.

ghost use Rattle.std.specs.Prelude.{◌≡◌, Ok};
ghost use Rattle.sql_grammar.specs.Reading as reading;
ghost use Rattle.sql_grammar.specs.Reading.{Reads};
ghost use Rattle.sql_statements.specs.Selects as spec;

use sql_ast::{FromClause, Join, Keyword, TableSource};
use sql_grammar::{Cursor, Stop, read_any};
use std::alloc::Global;
use tuple_codec::{Sequence, Text};

#[tactic(auto, unfolding(crate::specs::Selects::alias))]
fn alias(alloc: Global, cursor: &mut Cursor<'_>) -> Result<Option<Text>, Stop>
    ensures { Reads (spec.alias cursor.old) result cursor.new }
{
    if cursor.eat_keyword(Keyword::As) {
        return Ok(Some(cursor.name(alloc)?));
    }
    cursor.optional_name(alloc)
}

#[tactic(auto, unfolding(crate::specs::Selects::source))]
fn source(alloc: Global, cursor: &mut Cursor<'_>) -> Result<TableSource, Stop>
    ensures { Reads (spec.source cursor.old) result cursor.new }
{
    let table = cursor.name(alloc)?;
    let alias = alias(alloc, cursor)?;
    Ok(TableSource { table, alias })
}

#[tactic(auto, unfolding(crate::specs::Selects::join))]
fn join(alloc: Global, cursor: &mut Cursor<'_>) -> Result<Join, Stop>
    ensures { Reads (spec.join cursor.old) result cursor.new }
{
    let source = source(alloc, cursor)?;
    cursor.expect_keyword(Keyword::On)?;
    let on = read_any(alloc, cursor)?;
    Ok(Join { source, on })
}

/// Takes the words of a join, if one comes next.
#[tactic(auto, unfolding(crate::specs::Selects::begins_join))]
fn begins_join(cursor: &mut Cursor<'_>) -> Result<bool, Stop>
    ensures { Reads (spec.begins_join cursor.old) result cursor.new }
{
    if cursor.eat_keyword(Keyword::Inner) {
        cursor.expect_keyword(Keyword::Join)?;
        return Ok(true);
    }
    Ok(cursor.eat_keyword(Keyword::Join))
}

#[tactic(auto, unfolding(crate::specs::Selects::joins, crate::specs::Selects::joins_from))]
fn joins(alloc: Global, cursor: &mut Cursor<'_>) -> Result<Sequence<Join>, Stop>
    ensures { Reads (spec.joins cursor.old) result cursor.new }
{
    let mut found = Sequence::new(alloc);
    for _turn in 0..cursor.left() {
        if !begins_join(cursor)? {
            return Ok(found);
        }
        found.push(join(alloc, cursor)?)?;
    }
    Ok(found)
}

/// The sources of a SELECT, behind FROM. Every join is an inner one and has an ON.
#[tactic(auto, unfolding(crate::specs::Selects::from_clause))]
pub fn from_clause(alloc: Global, cursor: &mut Cursor<'_>) -> Result<FromClause, Stop>
    ensures { Reads (spec.from_clause cursor.old) result cursor.new }
{
    let first = source(alloc, cursor)?;
    let joins = joins(alloc, cursor)?;
    Ok(FromClause { first, joins })
}
