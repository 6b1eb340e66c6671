//! CREATE TABLE and DROP TABLE.

ghost use Rattle.sql_grammar.specs.Reading as reading;
ghost use Rattle.sql_grammar.specs.Reading.{Reads};
ghost use Rattle.sql_statements.specs.Tables as spec;

use crate::elements::any_element;
use sql_ast::{CreateTable, DropTable, Element, Keyword, Sign};
use sql_grammar::{Cursor, Stop};
use std::alloc::Global;
use tuple_codec::Sequence;

#[tactic(auto, unfolding(crate::specs::Tables::if_not_exists))]
fn if_not_exists(cursor: &mut Cursor<'_>) -> Result<bool, Stop>
    ensures { Reads (spec.if_not_exists cursor.old) result cursor.new }
{
    if !cursor.eat_keyword(Keyword::If) {
        return Ok(false);
    }
    cursor.expect_keyword(Keyword::Not)?;
    cursor.expect_keyword(Keyword::Exists)?;
    Ok(true)
}

#[tactic(auto, unfolding(crate::specs::Tables::if_exists))]
fn if_exists(cursor: &mut Cursor<'_>) -> Result<bool, Stop>
    ensures { Reads (spec.if_exists cursor.old) result cursor.new }
{
    if !cursor.eat_keyword(Keyword::If) {
        return Ok(false);
    }
    cursor.expect_keyword(Keyword::Exists)?;
    Ok(true)
}

#[tactic(auto, unfolding(sql_grammar::specs::Reading::list, sql_grammar::specs::Reading::chain_from))]
fn listed_elements(alloc: Global, cursor: &mut Cursor<'_>) -> Result<Sequence<Element>, Stop>
    ensures { Reads (reading.list spec.any_element cursor.old) result cursor.new }
{
    let mut found = Sequence::new(alloc);
    found.push(any_element(alloc, cursor)?)?;
    for _turn in 0..cursor.left() {
        if !cursor.eat(Sign::Comma) {
            return Ok(found);
        }
        found.push(any_element(alloc, cursor)?)?;
    }
    Ok(found)
}

#[tactic(auto, unfolding(crate::specs::Tables::elements))]
fn elements(alloc: Global, cursor: &mut Cursor<'_>) -> Result<Sequence<Element>, Stop>
    ensures { Reads (spec.elements cursor.old) result cursor.new }
{
    cursor.expect(Sign::OpenParenthesis)?;
    let found = listed_elements(alloc, cursor)?;
    cursor.expect(Sign::CloseParenthesis)?;
    Ok(found)
}

/// CREATE TABLE, behind its first word.
#[tactic(auto, unfolding(crate::specs::Tables::create))]
pub fn read_create(alloc: Global, cursor: &mut Cursor<'_>) -> Result<CreateTable, Stop>
    ensures { Reads (spec.create cursor.old) result cursor.new }
{
    cursor.expect_keyword(Keyword::Table)?;
    let if_not_exists = if_not_exists(cursor)?;
    let table = cursor.name(alloc)?;
    let elements = elements(alloc, cursor)?;
    Ok(CreateTable {
        if_not_exists,
        table,
        elements,
    })
}

/// DROP TABLE, behind its first word.
#[tactic(auto, unfolding(crate::specs::Tables::drop_table))]
pub fn read_drop(alloc: Global, cursor: &mut Cursor<'_>) -> Result<DropTable, Stop>
    ensures { Reads (spec.drop_table cursor.old) result cursor.new }
{
    cursor.expect_keyword(Keyword::Table)?;
    let if_exists = if_exists(cursor)?;
    let table = cursor.name(alloc)?;
    Ok(DropTable { if_exists, table })
}
