//! INSERT, UPDATE and DELETE.

ghost use Rattle.sql_grammar.specs.Reading as reading;
ghost use Rattle.sql_grammar.specs.Reading.{Reads};
ghost use Rattle.sql_statements.specs.Statements as spec;

use crate::clauses::read_filter;
use crate::elements::read_names;
use sql_ast::{Assignment, Delete, Insert, InsertCell, Keyword, Sign, Tuple, Update};
use sql_grammar::{Cursor, Stop, read_any};
use std::alloc::Global;
use tuple_codec::{Sequence, Text};

#[tactic(auto, unfolding(crate::specs::Statements::any_entry))]
fn any_entry(alloc: Global, cursor: &mut Cursor<'_>) -> Result<InsertCell, Stop>
    ensures { Reads (spec.any_entry cursor.old) result cursor.new }
{
    if cursor.eat_keyword(Keyword::Default) {
        Ok(InsertCell::Default)
    } else {
        Ok(InsertCell::Value(read_any(alloc, cursor)?))
    }
}

#[tactic(auto, unfolding(sql_grammar::specs::Reading::list, sql_grammar::specs::Reading::chain_from))]
fn entries(alloc: Global, cursor: &mut Cursor<'_>) -> Result<Sequence<InsertCell>, Stop>
    ensures { Reads (reading.list spec.any_entry cursor.old) result cursor.new }
{
    let mut found = Sequence::new(alloc);
    found.push(any_entry(alloc, cursor)?)?;
    for _turn in 0..cursor.left() {
        if !cursor.eat(Sign::Comma) {
            return Ok(found);
        }
        found.push(any_entry(alloc, cursor)?)?;
    }
    Ok(found)
}

#[tactic(auto, unfolding(crate::specs::Statements::tuple))]
fn tuple(alloc: Global, cursor: &mut Cursor<'_>) -> Result<Tuple, Stop>
    ensures { Reads (spec.tuple cursor.old) result cursor.new }
{
    cursor.expect(Sign::OpenParenthesis)?;
    let found = entries(alloc, cursor)?;
    cursor.expect(Sign::CloseParenthesis)?;
    Ok(found)
}

#[tactic(auto, unfolding(sql_grammar::specs::Reading::list, sql_grammar::specs::Reading::chain_from))]
fn tuples(alloc: Global, cursor: &mut Cursor<'_>) -> Result<Sequence<Tuple>, Stop>
    ensures { Reads (reading.list spec.tuple cursor.old) result cursor.new }
{
    let mut found = Sequence::new(alloc);
    found.push(tuple(alloc, cursor)?)?;
    for _turn in 0..cursor.left() {
        if !cursor.eat(Sign::Comma) {
            return Ok(found);
        }
        found.push(tuple(alloc, cursor)?)?;
    }
    Ok(found)
}

#[tactic(auto, unfolding(crate::specs::Statements::named_columns))]
fn named_columns(alloc: Global, cursor: &mut Cursor<'_>) -> Result<Option<Sequence<Text>>, Stop>
    ensures { Reads (spec.named_columns cursor.old) result cursor.new }
{
    if cursor.sees(Sign::OpenParenthesis) {
        Ok(Some(read_names(alloc, cursor)?))
    } else {
        Ok(None)
    }
}

/// INSERT, behind its first word. Tuples may differ in length: the schema isn't known here.
#[tactic(auto, unfolding(crate::specs::Statements::insert))]
pub fn insert(alloc: Global, cursor: &mut Cursor<'_>) -> Result<Insert, Stop>
    ensures { Reads (spec.insert cursor.old) result cursor.new }
{
    cursor.expect_keyword(Keyword::Into)?;
    let table = cursor.name(alloc)?;
    let columns = named_columns(alloc, cursor)?;
    cursor.expect_keyword(Keyword::Values)?;
    let tuples = tuples(alloc, cursor)?;
    Ok(Insert {
        table,
        columns,
        tuples,
    })
}

#[tactic(auto, unfolding(crate::specs::Statements::assignment))]
fn assignment(alloc: Global, cursor: &mut Cursor<'_>) -> Result<Assignment, Stop>
    ensures { Reads (spec.assignment cursor.old) result cursor.new }
{
    let column = cursor.name(alloc)?;
    cursor.expect(Sign::Equal)?;
    let value = read_any(alloc, cursor)?;
    Ok(Assignment { column, value })
}

#[tactic(auto, unfolding(sql_grammar::specs::Reading::list, sql_grammar::specs::Reading::chain_from))]
fn assignments(alloc: Global, cursor: &mut Cursor<'_>) -> Result<Sequence<Assignment>, Stop>
    ensures { Reads (reading.list spec.assignment cursor.old) result cursor.new }
{
    let mut found = Sequence::new(alloc);
    found.push(assignment(alloc, cursor)?)?;
    for _turn in 0..cursor.left() {
        if !cursor.eat(Sign::Comma) {
            return Ok(found);
        }
        found.push(assignment(alloc, cursor)?)?;
    }
    Ok(found)
}

/// UPDATE, behind its first word. A column may be assigned twice; that is refused later, 9013.
#[tactic(auto, unfolding(crate::specs::Statements::update))]
pub fn update(alloc: Global, cursor: &mut Cursor<'_>) -> Result<Update, Stop>
    ensures { Reads (spec.update cursor.old) result cursor.new }
{
    let table = cursor.name(alloc)?;
    cursor.expect_keyword(Keyword::Set)?;
    let assignments = assignments(alloc, cursor)?;
    let filter = read_filter(alloc, cursor)?;
    Ok(Update {
        table,
        assignments,
        filter,
    })
}

/// DELETE, behind its first word; without WHERE all rows are meant.
#[tactic(auto, unfolding(crate::specs::Statements::delete))]
pub fn delete(alloc: Global, cursor: &mut Cursor<'_>) -> Result<Delete, Stop>
    ensures { Reads (spec.delete cursor.old) result cursor.new }
{
    cursor.expect_keyword(Keyword::From)?;
    let table = cursor.name(alloc)?;
    let filter = read_filter(alloc, cursor)?;
    Ok(Delete { table, filter })
}
