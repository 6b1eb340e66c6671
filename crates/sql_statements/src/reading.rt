//! Statements.

ghost use Rattle.sql_grammar.specs.Reading as reading;
ghost use Rattle.sql_grammar.specs.Reading.{Reads};
ghost use Rattle.sql_statements.specs.Heads.{opening_of};
ghost use Rattle.sql_statements.specs.Statements as spec;
ghost use Rattle.sql_statements.specs.Statements.{ReadsWhole};

use crate::alters::read_alter;
use crate::heads::{Opening, opening_of};
use crate::rows::{delete, insert, update};
use crate::selection::read_select;
use crate::settings::{call, setting};
use crate::tables::{read_create, read_drop};
use sql_ast::{Piece, Statement, Write};
use sql_grammar::{Cursor, Stop};
use std::alloc::Global;

fn created(alloc: Global, cursor: &mut Cursor<'_>) -> Result<Statement, Stop>
    ensures { Reads (spec.created cursor.old) result cursor.new }
{
    Ok(Statement::Write(Write::Create(read_create(alloc, cursor)?)))
}

fn dropped(alloc: Global, cursor: &mut Cursor<'_>) -> Result<Statement, Stop>
    ensures { Reads (spec.dropped cursor.old) result cursor.new }
{
    Ok(Statement::Write(Write::Drop(read_drop(alloc, cursor)?)))
}

fn inserted(alloc: Global, cursor: &mut Cursor<'_>) -> Result<Statement, Stop>
    ensures { Reads (spec.inserted cursor.old) result cursor.new }
{
    Ok(Statement::Write(Write::Insert(insert(alloc, cursor)?)))
}

fn updated(alloc: Global, cursor: &mut Cursor<'_>) -> Result<Statement, Stop>
    ensures { Reads (spec.updated cursor.old) result cursor.new }
{
    Ok(Statement::Write(Write::Update(update(alloc, cursor)?)))
}

fn deleted(alloc: Global, cursor: &mut Cursor<'_>) -> Result<Statement, Stop>
    ensures { Reads (spec.deleted cursor.old) result cursor.new }
{
    Ok(Statement::Write(Write::Delete(delete(alloc, cursor)?)))
}

fn altered(alloc: Global, cursor: &mut Cursor<'_>) -> Result<Statement, Stop>
    ensures { Reads (spec.altered cursor.old) result cursor.new }
{
    Ok(Statement::Write(Write::Alter(read_alter(alloc, cursor)?)))
}

fn selected(alloc: Global, cursor: &mut Cursor<'_>) -> Result<Statement, Stop>
    ensures { Reads (spec.selected cursor.old) result cursor.new }
{
    Ok(Statement::Select(read_select(alloc, cursor)?))
}

fn set(alloc: Global, cursor: &mut Cursor<'_>) -> Result<Statement, Stop>
    ensures { Reads (spec.set cursor.old) result cursor.new }
{
    Ok(Statement::Set(setting(alloc, cursor)?))
}

fn called(alloc: Global, cursor: &mut Cursor<'_>) -> Result<Statement, Stop>
    ensures { Reads (spec.called cursor.old) result cursor.new }
{
    Ok(Statement::Call(call(alloc, cursor)?))
}

fn started(cursor: &mut Cursor<'_>) -> Result<Statement, Stop>
    ensures { Reads (spec.started cursor.old) result cursor.new }
{
    cursor.expect_word(b"transaction")?;
    Ok(Statement::Start)
}

/// The statement, with WORK behind it or without.
fn with_work(cursor: &mut Cursor<'_>, statement: Statement) -> Result<Statement, Stop>
    ensures { Reads (spec.with_work statement cursor.old) result cursor.new }
{
    cursor.eat_word(b"work");
    Ok(statement)
}

#[tactic(auto, unfolding(crate::specs::Statements::statement_behind))]
fn statement_behind(
    alloc: Global,
    cursor: &mut Cursor<'_>,
    word: Opening,
) -> Result<Statement, Stop>
    ensures { Reads (spec.statement_behind word cursor.old) result cursor.new }
{
    match word {
        Opening::Create => created(alloc, cursor),
        Opening::Drop => dropped(alloc, cursor),
        Opening::Insert => inserted(alloc, cursor),
        Opening::Update => updated(alloc, cursor),
        Opening::Delete => deleted(alloc, cursor),
        Opening::Select => selected(alloc, cursor),
        Opening::Begin => with_work(cursor, Statement::Begin),
        Opening::Start => started(cursor),
        Opening::Commit => with_work(cursor, Statement::Commit),
        Opening::Rollback => with_work(cursor, Statement::Rollback),
        Opening::Set => set(alloc, cursor),
        Opening::Call => called(alloc, cursor),
        Opening::Alter => altered(alloc, cursor),
    }
}

fn opening(cursor: &mut Cursor<'_>) -> Result<Opening, Stop>
    ensures { Reads (reading.one opening_of cursor.old) result cursor.new }
{
    let found = match cursor.rest() {
        [first, ..] => opening_of(first),
        [] => None,
    };
    cursor.take(found)
}

#[tactic(auto, unfolding(crate::specs::Statements::any_statement))]
fn any_statement(alloc: Global, cursor: &mut Cursor<'_>) -> Result<Statement, Stop>
    ensures { Reads (spec.any_statement cursor.old) result cursor.new }
{
    let word = opening(cursor)?;
    statement_behind(alloc, cursor, word)
}

/// What was read, where nothing is left behind it. Of any type, so that its proof opens no statement.
fn finished<T: Drop>(read: T, rest: &[Piece]) -> Result<T, Stop>
    ensures { ReadsWhole (spec.finished read rest.now) result }
{
    match rest {
        [] => Ok(read),
        _ => Err(Stop::At(rest.len())),
    }
}

/// The statement that the pieces are.
///
/// Where they are none, `Stop::At` has the number of pieces from the first one that goes on with no statement.
/// The texts that are names and literals of the statement are moved into it.
#[tactic(auto, unfolding(crate::specs::Statements::statement_of))]
pub fn read_statement(alloc: Global, pieces: &mut [Piece]) -> Result<Statement, Stop>
    ensures { ReadsWhole (spec.statement_of pieces.old) result }
{
    let mut cursor = Cursor::new(pieces);
    let statement = any_statement(alloc, &mut cursor)?;
    finished(statement, cursor.rest())
}
