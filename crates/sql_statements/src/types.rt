//! Types and attributes of columns.

ghost use Rattle.std.specs.Prelude.{◌≡◌};
ghost use Rattle.sql_grammar.specs.Reading as reading;
ghost use Rattle.sql_grammar.specs.Reading.{Reads};
ghost use Rattle.sql_statements.specs.TableHeads.{one_of, type_of};
ghost use Rattle.sql_statements.specs.Tables as spec;

use crate::table_heads::{AttributeHead, Definer, TypeHead, attribute_of, one_of, type_of};
use sql_ast::{Attribute, Keyword, Sign, TypeName};
use sql_grammar::{Cursor, Stop};
use std::alloc::Global;
use tuple_codec::Sequence;

/// The 1 of `TINYINT(1)`.
fn one(cursor: &mut Cursor<'_>) -> Result<(), Stop>
    ensures { Reads (reading.one one_of cursor.old) result cursor.new }
{
    let found = match cursor.rest() {
        [first, ..] => one_of(first),
        [] => None,
    };
    cursor.take(found)
}

#[tactic(auto, unfolding(crate::specs::Tables::tinyint))]
fn tinyint(cursor: &mut Cursor<'_>) -> Result<TypeName, Stop>
    ensures { Reads (spec.tinyint cursor.old) result cursor.new }
{
    cursor.expect(Sign::OpenParenthesis)?;
    one(cursor)?;
    cursor.expect(Sign::CloseParenthesis)?;
    Ok(TypeName::Bool)
}

#[tactic(auto, unfolding(crate::specs::Tables::size))]
fn size(cursor: &mut Cursor<'_>) -> Result<u64, Stop>
    ensures { Reads (spec.size cursor.old) result cursor.new }
{
    cursor.expect(Sign::OpenParenthesis)?;
    let size = cursor.whole()?;
    cursor.expect(Sign::CloseParenthesis)?;
    Ok(size)
}

#[tactic(auto, unfolding(crate::specs::Tables::places))]
fn places(cursor: &mut Cursor<'_>) -> Result<u64, Stop>
    ensures { Reads (spec.places cursor.old) result cursor.new }
{
    if cursor.eat(Sign::Comma) {
        cursor.whole()
    } else {
        Ok(0)
    }
}

#[tactic(auto, unfolding(crate::specs::Tables::decimal))]
fn decimal(cursor: &mut Cursor<'_>) -> Result<TypeName, Stop>
    ensures { Reads (spec.decimal cursor.old) result cursor.new }
{
    cursor.expect(Sign::OpenParenthesis)?;
    let digits = cursor.whole()?;
    let places = places(cursor)?;
    cursor.expect(Sign::CloseParenthesis)?;
    Ok(TypeName::Decimal(digits, places))
}

fn type_by(cursor: &mut Cursor<'_>, head: TypeHead) -> Result<TypeName, Stop>
    ensures { Reads (spec.type_by head cursor.old) result cursor.new }
{
    match head {
        TypeHead::BigInt => Ok(TypeName::BigInt),
        TypeHead::Int => Ok(TypeName::Int),
        TypeHead::Bool => Ok(TypeName::Bool),
        TypeHead::TinyInt => tinyint(cursor),
        TypeHead::Varchar => Ok(TypeName::Varchar(size(cursor)?)),
        TypeHead::Varbinary => Ok(TypeName::Varbinary(size(cursor)?)),
        TypeHead::Decimal => decimal(cursor),
    }
}

fn type_head(cursor: &mut Cursor<'_>) -> Result<TypeHead, Stop>
    ensures { Reads (reading.one type_of cursor.old) result cursor.new }
{
    let found = match cursor.rest() {
        [first, ..] => type_of(first),
        [] => None,
    };
    cursor.take(found)
}

/// A type with its numbers as written; whether they are in range isn't judged here.
#[tactic(auto, unfolding(crate::specs::Tables::type_name))]
pub fn type_name(cursor: &mut Cursor<'_>) -> Result<TypeName, Stop>
    ensures { Reads (spec.type_name cursor.old) result cursor.new }
{
    let head = type_head(cursor)?;
    type_by(cursor, head)
}

#[tactic(auto, unfolding(crate::specs::Tables::default))]
fn default(alloc: Global, cursor: &mut Cursor<'_>) -> Result<Attribute, Stop>
    ensures { Reads (spec.default cursor.old) result cursor.new }
{
    let minus = cursor.eat(Sign::Minus);
    let value = cursor.literal(alloc)?;
    Ok(Attribute::Default(minus, value))
}

#[tactic(auto, unfolding(crate::specs::Tables::attribute_behind))]
fn attribute_behind(
    alloc: Global,
    cursor: &mut Cursor<'_>,
    head: AttributeHead,
) -> Result<Attribute, Stop>
    ensures { Reads (spec.attribute_behind head cursor.old) result cursor.new }
{
    match head {
        AttributeHead::Not => {
            cursor.expect_keyword(Keyword::Null)?;
            Ok(Attribute::NotNull)
        }
        AttributeHead::Null => Ok(Attribute::Null),
        AttributeHead::Default => default(alloc, cursor),
        AttributeHead::Primary => {
            cursor.expect_keyword(Keyword::Key)?;
            Ok(Attribute::PrimaryKey)
        }
        AttributeHead::Unique => Ok(Attribute::Unique),
    }
}

#[tactic(auto, unfolding(crate::specs::Tables::attribute_ahead))]
fn attribute_ahead(definer: Definer, cursor: &Cursor<'_>) -> Option<AttributeHead>
    ensures { result ≡ spec.attribute_ahead definer cursor.now }
{
    match cursor.rest() {
        [first, ..] => attribute_of(definer, first),
        [] => None,
    }
}

/// A column's attributes in the text's order, up to the first piece that begins none; they may repeat or contradict one another.
#[tactic(auto, unfolding(crate::specs::Tables::attributes, crate::specs::Tables::attributes_from))]
pub fn attributes(
    alloc: Global,
    cursor: &mut Cursor<'_>,
    definer: Definer,
) -> Result<Sequence<Attribute>, Stop>
    ensures { Reads (spec.attributes definer cursor.old) result cursor.new }
{
    let mut found = Sequence::new(alloc);
    for _turn in 0..cursor.left() {
        let Some(head) = attribute_ahead(definer, cursor) else {
            return Ok(found);
        };
        cursor.skip();
        found.push(attribute_behind(alloc, cursor, head)?)?;
    }
    Ok(found)
}
