//! Elements of a table.

ghost use Rattle.std.specs.Prelude.{◌≡◌, Ok};
ghost use Rattle.sql_grammar.specs.Reading as reading;
ghost use Rattle.sql_grammar.specs.Reading.{Reads};
ghost use Rattle.sql_statements.specs.Tables as spec;

use crate::table_heads::{Definer, ElementHead, element_of};
use crate::types::{attributes, type_name};
use sql_ast::{ColumnElement, Element, ForeignKeyElement, Keyword, Sign};
use sql_grammar::{Cursor, Stop, read_any};
use std::alloc::Global;
use tuple_codec::{Sequence, Text};

/// What a foreign key refers to.
#[derive(Drop)]
pub struct Parent {
    pub table: Text,
    pub columns: Sequence<Text>,
}

#[tactic(auto, unfolding(sql_grammar::specs::Reading::list, sql_grammar::specs::Reading::chain_from))]
fn listed_names(alloc: Global, cursor: &mut Cursor<'_>) -> Result<Sequence<Text>, Stop>
    ensures { Reads (reading.list reading.name cursor.old) result cursor.new }
{
    let mut found = Sequence::new(alloc);
    found.push(cursor.name(alloc)?)?;
    for _turn in 0..cursor.left() {
        if !cursor.eat(Sign::Comma) {
            return Ok(found);
        }
        found.push(cursor.name(alloc)?)?;
    }
    Ok(found)
}

/// Names in parentheses.
#[tactic(auto, unfolding(crate::specs::Tables::names))]
pub fn read_names(alloc: Global, cursor: &mut Cursor<'_>) -> Result<Sequence<Text>, Stop>
    ensures { Reads (spec.names cursor.old) result cursor.new }
{
    cursor.expect(Sign::OpenParenthesis)?;
    let found = listed_names(alloc, cursor)?;
    cursor.expect(Sign::CloseParenthesis)?;
    Ok(found)
}

/// A column's name, type and attributes. In ALTER it ends before PRIMARY KEY and UNIQUE, which don't belong to it there.
#[tactic(auto, unfolding(crate::specs::Tables::column))]
pub fn column(
    alloc: Global,
    cursor: &mut Cursor<'_>,
    definer: Definer,
) -> Result<ColumnElement, Stop>
    ensures { Reads (spec.column definer cursor.old) result cursor.new }
{
    let name = cursor.name(alloc)?;
    let kind = type_name(cursor)?;
    let attributes = attributes(alloc, cursor, definer)?;
    Ok(ColumnElement {
        name,
        kind,
        attributes,
    })
}

#[tactic(auto, unfolding(crate::specs::Tables::primary_key))]
fn primary_key(alloc: Global, cursor: &mut Cursor<'_>) -> Result<Element, Stop>
    ensures { Reads (spec.primary_key cursor.old) result cursor.new }
{
    cursor.expect_keyword(Keyword::Key)?;
    Ok(Element::PrimaryKey(read_names(alloc, cursor)?))
}

/// Takes KEY or INDEX, if one comes next.
#[tactic(auto, unfolding(crate::specs::Tables::index_word))]
fn index_word(cursor: &mut Cursor<'_>) -> bool
    ensures { spec.index_word cursor.old ≡ Ok (result, cursor.new) }
{
    if cursor.eat_keyword(Keyword::Key) {
        return true;
    }
    cursor.eat_keyword(Keyword::Index)
}

#[tactic(auto, unfolding(crate::specs::Tables::unique))]
fn unique(alloc: Global, cursor: &mut Cursor<'_>) -> Result<Element, Stop>
    ensures { Reads (spec.unique cursor.old) result cursor.new }
{
    index_word(cursor);
    let name = cursor.optional_name(alloc)?;
    let columns = read_names(alloc, cursor)?;
    Ok(Element::Unique(name, columns))
}

#[tactic(auto, unfolding(crate::specs::Tables::index))]
fn index(alloc: Global, cursor: &mut Cursor<'_>) -> Result<Element, Stop>
    ensures { Reads (spec.index cursor.old) result cursor.new }
{
    let name = cursor.name(alloc)?;
    let columns = read_names(alloc, cursor)?;
    Ok(Element::Index(name, columns))
}

#[tactic(auto, unfolding(crate::specs::Tables::check))]
fn check(alloc: Global, cursor: &mut Cursor<'_>, name: Option<Text>) -> Result<Element, Stop>
    ensures { Reads (spec.check name cursor.old) result cursor.new }
{
    cursor.expect(Sign::OpenParenthesis)?;
    let condition = read_any(alloc, cursor)?;
    cursor.expect(Sign::CloseParenthesis)?;
    Ok(Element::Check(name, condition))
}

#[tactic(auto, unfolding(crate::specs::Tables::update_action))]
fn update_action(cursor: &mut Cursor<'_>) -> Result<(), Stop>
    ensures { Reads (spec.update_action cursor.old) result cursor.new }
{
    if !cursor.eat_keyword(Keyword::On) {
        return Ok(());
    }
    cursor.expect_keyword(Keyword::Update)?;
    cursor.expect_keyword(Keyword::Restrict)
}

#[tactic(auto, unfolding(crate::specs::Tables::first_action))]
fn first_action(cursor: &mut Cursor<'_>) -> Result<(), Stop>
    ensures { Reads (spec.first_action cursor.old) result cursor.new }
{
    if cursor.eat_keyword(Keyword::Delete) {
        cursor.expect_keyword(Keyword::Restrict)?;
        return update_action(cursor);
    }
    cursor.expect_keyword(Keyword::Update)?;
    cursor.expect_keyword(Keyword::Restrict)
}

#[tactic(auto, unfolding(crate::specs::Tables::actions))]
fn actions(cursor: &mut Cursor<'_>) -> Result<(), Stop>
    ensures { Reads (spec.actions cursor.old) result cursor.new }
{
    if cursor.eat_keyword(Keyword::On) {
        first_action(cursor)
    } else {
        Ok(())
    }
}

#[tactic(auto, unfolding(crate::specs::Tables::referenced))]
fn referenced(alloc: Global, cursor: &mut Cursor<'_>) -> Result<Parent, Stop>
    ensures { Reads (spec.referenced cursor.old) result cursor.new }
{
    cursor.expect_keyword(Keyword::References)?;
    let parent = cursor.name(alloc)?;
    let columns = read_names(alloc, cursor)?;
    actions(cursor)?;
    Ok(Parent {
        table: parent,
        columns,
    })
}

fn foreign_key_of(name: Option<Text>, columns: Sequence<Text>, other: Parent) -> Element
    ensures { result ≡ spec.foreign_key_of name columns other }
{
    Element::ForeignKey(ForeignKeyElement {
        name,
        columns,
        parent: other.table,
        parent_columns: other.columns,
    })
}

#[tactic(auto, unfolding(crate::specs::Tables::foreign_key))]
fn foreign_key(alloc: Global, cursor: &mut Cursor<'_>, name: Option<Text>) -> Result<Element, Stop>
    ensures { Reads (spec.foreign_key name cursor.old) result cursor.new }
{
    cursor.expect_keyword(Keyword::Key)?;
    let columns = read_names(alloc, cursor)?;
    let other = referenced(alloc, cursor)?;
    Ok(foreign_key_of(name, columns, other))
}

#[tactic(auto, unfolding(crate::specs::Tables::constraint))]
fn constraint(alloc: Global, cursor: &mut Cursor<'_>) -> Result<Element, Stop>
    ensures { Reads (spec.constraint cursor.old) result cursor.new }
{
    let name = cursor.name(alloc)?;
    if cursor.eat_keyword(Keyword::Check) {
        return check(alloc, cursor, Some(name));
    }
    cursor.expect_keyword(Keyword::Foreign)?;
    foreign_key(alloc, cursor, Some(name))
}

#[tactic(auto, unfolding(crate::specs::Tables::element_behind))]
fn element_behind(
    alloc: Global,
    cursor: &mut Cursor<'_>,
    head: ElementHead,
) -> Result<Element, Stop>
    ensures { Reads (spec.element_behind head cursor.old) result cursor.new }
{
    match head {
        ElementHead::Primary => primary_key(alloc, cursor),
        ElementHead::Unique => unique(alloc, cursor),
        ElementHead::Index => index(alloc, cursor),
        ElementHead::Constraint => constraint(alloc, cursor),
        ElementHead::Check => check(alloc, cursor, None),
        ElementHead::Foreign => foreign_key(alloc, cursor, None),
    }
}

#[tactic(auto, unfolding(crate::specs::Tables::element_ahead))]
fn element_ahead(cursor: &Cursor<'_>) -> Option<ElementHead>
    ensures { result ≡ spec.element_ahead cursor.now }
{
    match cursor.rest() {
        [first, ..] => element_of(first),
        [] => None,
    }
}

/// An element of CREATE TABLE; one that no word of a key or constraint begins is a column.
#[tactic(auto, unfolding(crate::specs::Tables::any_element))]
pub fn any_element(alloc: Global, cursor: &mut Cursor<'_>) -> Result<Element, Stop>
    ensures { Reads (spec.any_element cursor.old) result cursor.new }
{
    match element_ahead(cursor) {
        Some(head) => {
            cursor.skip();
            element_behind(alloc, cursor, head)
        }
        None => Ok(Element::Column(column(alloc, cursor, Definer::Create)?)),
    }
}
