//! What follows the sources.

ghost use Rattle.std.specs.Prelude.{◌≡◌, Ok};
ghost use Rattle.sql_grammar.specs.Reading as reading;
ghost use Rattle.sql_grammar.specs.Reading.{Reads};
ghost use Rattle.sql_statements.specs.Selects as spec;

use sql_ast::{Clauses, ColumnName, Direction, Expr, Keyword, Limit, OrderKey, Sign, Sorting};
use sql_grammar::{Cursor, Stop, read_any};
use std::alloc::Global;
use tuple_codec::Sequence;

/// WHERE and its condition, if they come next.
#[tactic(auto, unfolding(crate::specs::Selects::filter))]
pub fn read_filter(alloc: Global, cursor: &mut Cursor<'_>) -> Result<Option<Expr>, Stop>
    ensures { Reads (spec.filter cursor.old) result cursor.new }
{
    if cursor.eat_keyword(Keyword::Where) {
        Ok(Some(read_any(alloc, cursor)?))
    } else {
        Ok(None)
    }
}

#[tactic(auto, unfolding(crate::specs::Selects::column_name))]
fn column_name(alloc: Global, cursor: &mut Cursor<'_>) -> Result<ColumnName, Stop>
    ensures { Reads (spec.column_name cursor.old) result cursor.new }
{
    let first = cursor.name(alloc)?;
    if cursor.eat(Sign::Point) {
        Ok(ColumnName::Qualified(first, cursor.name(alloc)?))
    } else {
        Ok(ColumnName::Name(first))
    }
}

#[tactic(auto, unfolding(sql_grammar::specs::Reading::list, sql_grammar::specs::Reading::chain_from))]
fn column_names(alloc: Global, cursor: &mut Cursor<'_>) -> Result<Sequence<ColumnName>, Stop>
    ensures { Reads (reading.list spec.column_name cursor.old) result cursor.new }
{
    let mut found = Sequence::new(alloc);
    found.push(column_name(alloc, cursor)?)?;
    for _turn in 0..cursor.left() {
        if !cursor.eat(Sign::Comma) {
            return Ok(found);
        }
        found.push(column_name(alloc, cursor)?)?;
    }
    Ok(found)
}

#[tactic(auto, unfolding(crate::specs::Selects::groups))]
fn groups(alloc: Global, cursor: &mut Cursor<'_>) -> Result<Sequence<ColumnName>, Stop>
    ensures { Reads (spec.groups cursor.old) result cursor.new }
{
    if !cursor.eat_keyword(Keyword::Group) {
        return Ok(Sequence::new(alloc));
    }
    cursor.expect_keyword(Keyword::By)?;
    column_names(alloc, cursor)
}

#[tactic(auto, unfolding(crate::specs::Selects::direction))]
fn direction(cursor: &mut Cursor<'_>) -> Direction
    ensures { spec.direction cursor.old ≡ Ok (result, cursor.new) }
{
    if cursor.eat_keyword(Keyword::Asc) {
        return Direction::Ascending;
    }
    if cursor.eat_keyword(Keyword::Desc) {
        Direction::Descending
    } else {
        Direction::Ascending
    }
}

#[tactic(auto, unfolding(crate::specs::Selects::key))]
fn key(alloc: Global, cursor: &mut Cursor<'_>) -> Result<OrderKey, Stop>
    ensures { Reads (spec.key cursor.old) result cursor.new }
{
    let expr = read_any(alloc, cursor)?;
    let direction = direction(cursor);
    Ok(OrderKey { expr, direction })
}

#[tactic(auto, unfolding(sql_grammar::specs::Reading::list, sql_grammar::specs::Reading::chain_from))]
fn listed_keys(alloc: Global, cursor: &mut Cursor<'_>) -> Result<Sequence<OrderKey>, Stop>
    ensures { Reads (reading.list spec.key cursor.old) result cursor.new }
{
    let mut found = Sequence::new(alloc);
    found.push(key(alloc, cursor)?)?;
    for _turn in 0..cursor.left() {
        if !cursor.eat(Sign::Comma) {
            return Ok(found);
        }
        found.push(key(alloc, cursor)?)?;
    }
    Ok(found)
}

#[tactic(auto, unfolding(crate::specs::Selects::keys))]
fn keys(alloc: Global, cursor: &mut Cursor<'_>) -> Result<Sequence<OrderKey>, Stop>
    ensures { Reads (spec.keys cursor.old) result cursor.new }
{
    if !cursor.eat_keyword(Keyword::Order) {
        return Ok(Sequence::new(alloc));
    }
    cursor.expect_keyword(Keyword::By)?;
    listed_keys(alloc, cursor)
}

#[tactic(auto, unfolding(crate::specs::Selects::offset))]
fn offset(cursor: &mut Cursor<'_>) -> Result<Option<u64>, Stop>
    ensures { Reads (spec.offset cursor.old) result cursor.new }
{
    if cursor.eat_word(b"offset") {
        Ok(Some(cursor.whole()?))
    } else {
        Ok(None)
    }
}

#[tactic(auto, unfolding(crate::specs::Selects::bounds))]
fn bounds(cursor: &mut Cursor<'_>) -> Result<Limit, Stop>
    ensures { Reads (spec.bounds cursor.old) result cursor.new }
{
    let count = cursor.whole()?;
    let offset = offset(cursor)?;
    Ok(Limit { count, offset })
}

#[tactic(auto, unfolding(crate::specs::Selects::limit))]
fn limit(cursor: &mut Cursor<'_>) -> Result<Option<Limit>, Stop>
    ensures { Reads (spec.limit cursor.old) result cursor.new }
{
    if cursor.eat_keyword(Keyword::Limit) {
        Ok(Some(bounds(cursor)?))
    } else {
        Ok(None)
    }
}

#[tactic(auto, unfolding(crate::specs::Selects::sorting))]
fn sorting(alloc: Global, cursor: &mut Cursor<'_>) -> Result<Sorting, Stop>
    ensures { Reads (spec.sorting cursor.old) result cursor.new }
{
    let keys = keys(alloc, cursor)?;
    let limit = limit(cursor)?;
    Ok(Sorting { keys, limit })
}

/// WHERE, GROUP BY, ORDER BY and LIMIT, each of which may be missing; one that is out of this order isn't taken.
#[tactic(auto, unfolding(crate::specs::Selects::clauses))]
pub fn clauses_behind(alloc: Global, cursor: &mut Cursor<'_>) -> Result<Clauses, Stop>
    ensures { Reads (spec.clauses cursor.old) result cursor.new }
{
    let filter = read_filter(alloc, cursor)?;
    let groups = groups(alloc, cursor)?;
    let sorting = sorting(alloc, cursor)?;
    Ok(Clauses {
        filter,
        groups,
        sorting,
    })
}
