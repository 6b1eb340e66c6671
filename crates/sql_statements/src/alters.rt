//! ALTER TABLE.

ghost use Rattle.sql_grammar.specs.Reading as reading;
ghost use Rattle.sql_grammar.specs.Reading.{Reads};
ghost use Rattle.sql_statements.specs.Alters as spec;
ghost use Rattle.sql_statements.specs.TableHeads.{action_of};

use crate::elements::column;
use crate::table_heads as heads;
use crate::table_heads::{ActionHead, Definer};
use sql_ast::{Alter, AlterAction, Keyword};
use sql_grammar::{Cursor, Stop};
use std::alloc::Global;

fn action_head(cursor: &mut Cursor<'_>) -> Result<ActionHead, Stop>
    ensures { Reads (reading.one action_of cursor.old) result cursor.new }
{
    let found = match cursor.rest() {
        [first, ..] => heads::action_of(first),
        [] => None,
    };
    cursor.take(found)
}

#[tactic(auto, unfolding(crate::specs::Alters::action_behind))]
fn action_behind(
    alloc: Global,
    cursor: &mut Cursor<'_>,
    head: ActionHead,
) -> Result<AlterAction, Stop>
    ensures { Reads (spec.action_behind head cursor.old) result cursor.new }
{
    cursor.eat_keyword(Keyword::Column);
    match head {
        ActionHead::Add => Ok(AlterAction::Add(column(alloc, cursor, Definer::Alter)?)),
        ActionHead::Drop => Ok(AlterAction::Drop(cursor.name(alloc)?)),
        ActionHead::Modify => Ok(AlterAction::Modify(column(alloc, cursor, Definer::Alter)?)),
    }
}

#[tactic(auto, unfolding(crate::specs::Alters::any_action))]
fn any_action(alloc: Global, cursor: &mut Cursor<'_>) -> Result<AlterAction, Stop>
    ensures { Reads (spec.any_action cursor.old) result cursor.new }
{
    let head = action_head(cursor)?;
    action_behind(alloc, cursor, head)
}

/// ALTER TABLE, behind its first word.
#[tactic(auto, unfolding(crate::specs::Alters::alter))]
pub fn read_alter(alloc: Global, cursor: &mut Cursor<'_>) -> Result<Alter, Stop>
    ensures { Reads (spec.alter cursor.old) result cursor.new }
{
    cursor.expect_keyword(Keyword::Table)?;
    let table = cursor.name(alloc)?;
    let action = any_action(alloc, cursor)?;
    Ok(Alter { table, action })
}
