//! SET and CALL.

ghost use Rattle.std.specs.Prelude.{◌≡◌, Ok};
ghost use Rattle.sql_grammar.specs.Reading as reading;
ghost use Rattle.sql_grammar.specs.Reading.{Reads};
ghost use Rattle.sql_statements.specs.Heads.{switch_of};
ghost use Rattle.sql_statements.specs.Statements as spec;

use crate::heads::{begins_session, begins_session_point, switch_of};
use sql_ast::{Call, Setting, Sign};
use sql_grammar::{Cursor, Stop};
use std::alloc::Global;
use tuple_codec::{Sequence, Text};

#[tactic(auto, unfolding(crate::specs::Statements::scope_behind))]
fn scope_behind(cursor: &mut Cursor<'_>)
    ensures { spec.scope_behind cursor.old ≡ Ok (tt, cursor.new) }
{
    if begins_session_point(cursor) {
        cursor.skip();
        cursor.skip();
    }
}

#[tactic(auto, unfolding(crate::specs::Statements::scope_word))]
fn scope_word(cursor: &mut Cursor<'_>)
    ensures { spec.scope_word cursor.old ≡ Ok (tt, cursor.new) }
{
    if begins_session(cursor) {
        cursor.skip();
    }
}

/// Takes the words that may stand before a variable.
#[tactic(auto, unfolding(crate::specs::Statements::scope))]
fn scope(cursor: &mut Cursor<'_>)
    ensures { spec.scope cursor.old ≡ Ok (tt, cursor.new) }
{
    if cursor.eat(Sign::AtAt) {
        scope_behind(cursor);
    } else {
        scope_word(cursor);
    }
}

fn switch(cursor: &mut Cursor<'_>) -> Result<bool, Stop>
    ensures { Reads (reading.one switch_of cursor.old) result cursor.new }
{
    let found = match cursor.rest() {
        [first, ..] => switch_of(first),
        [] => None,
    };
    cursor.take(found)
}

/// SET, behind its first word. SESSION, `@@` and `@@SESSION.` leave no trace, and any variable's name is read.
#[tactic(auto, unfolding(crate::specs::Statements::setting))]
pub fn setting(alloc: Global, cursor: &mut Cursor<'_>) -> Result<Setting, Stop>
    ensures { Reads (spec.setting cursor.old) result cursor.new }
{
    scope(cursor);
    let variable = cursor.name(alloc)?;
    cursor.expect(Sign::Equal)?;
    let on = switch(cursor)?;
    Ok(Setting { variable, on })
}

#[tactic(auto, unfolding(sql_grammar::specs::Reading::list, sql_grammar::specs::Reading::chain_from))]
fn strings(alloc: Global, cursor: &mut Cursor<'_>) -> Result<Sequence<Text>, Stop>
    ensures { Reads (reading.list reading.string cursor.old) result cursor.new }
{
    let mut found = Sequence::new(alloc);
    found.push(cursor.string(alloc)?)?;
    for _turn in 0..cursor.left() {
        if !cursor.eat(Sign::Comma) {
            return Ok(found);
        }
        found.push(cursor.string(alloc)?)?;
    }
    Ok(found)
}

#[tactic(auto, unfolding(crate::specs::Statements::arguments))]
fn arguments(alloc: Global, cursor: &mut Cursor<'_>) -> Result<Sequence<Text>, Stop>
    ensures { Reads (spec.arguments cursor.old) result cursor.new }
{
    if cursor.eat(Sign::CloseParenthesis) {
        return Ok(Sequence::new(alloc));
    }
    let found = strings(alloc, cursor)?;
    cursor.expect(Sign::CloseParenthesis)?;
    Ok(found)
}

/// CALL, behind its first word; any procedure's name is read, with any number of strings.
#[tactic(auto, unfolding(crate::specs::Statements::call))]
pub fn call(alloc: Global, cursor: &mut Cursor<'_>) -> Result<Call, Stop>
    ensures { Reads (spec.call cursor.old) result cursor.new }
{
    let name = cursor.name(alloc)?;
    cursor.expect(Sign::OpenParenthesis)?;
    let arguments = arguments(alloc, cursor)?;
    Ok(Call { name, arguments })
}
