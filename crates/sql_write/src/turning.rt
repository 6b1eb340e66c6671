//! The rows of a table after an UPDATE or a DELETE.

ghost use Rattle.std.specs.Prelude.{◌≡◌, IfOk, count_by, map, true};
ghost use Rattle.std.specs.List.{list_all};
ghost use Rattle.tuple_codec.specs.Limits.{is_type};
ghost use Rattle.schema_model.specs.Schemas.{is_schema};
ghost use Rattle.plain_sql.specs.Gives.{Gives, GivesBy};
ghost use Rattle.plain_sql.specs.Plans.{meaning};
ghost use Rattle.plain_writes.specs.Seen.{setting_seen};
ghost use Rattle.plain_writes.specs.Violations.{own_scope};
ghost use Rattle.plain_writes.specs.Writes.{assigns, rest_of, tests_of};
ghost use Rattle.sql_write.specs.Passing.{sets_key};
ghost use Rattle.sql_write.specs.Changes.{change_of, change_seen, change_with};
ghost use Rattle.sql_write.specs.Turning.{RowsComeFirst, rows_deleted_by, rows_turned_by, turned_rows};

use expr_eval::{BoundExpr, ScopeColumn};
use plain_sql::Refused;
use plain_writes::{
    BoundAssignment, Later, all_chosen, all_turned, assignments, by_key, own_scope, tests_of,
};
use schema_model::Schema;
use sql_ast::{Delete, Expr, Update};
use std::alloc::{AllocError, Global};
use tuple_codec::{Row, Sequence, copy_row};

/// A table's rows after a statement, by rising key, and how many of them it wrote or took away.
#[derive(Drop)]
pub(crate) struct Turned {
    pub rows: Sequence<Row>,
    pub count: u64,
}

/// The rows in the order of their keys; so many were written.
fn turned_rows(
    alloc: Global,
    schema: &Schema,
    rows: Sequence<Row>,
    count: u64,
) -> Result<Turned, Refused>
    ensures { Gives result (turned_rows schema.now rows count) }
{
    let rows = by_key(alloc, schema, rows)?;
    Ok(Turned { rows, count })
}

fn count_of(later: &[Later]) -> u64
    ensures { result ≡ count_by (λ one. one.is_new) later.now }
{
    later.iter().filter(|one| one.is_new).count() as u64
}

fn rows_of(alloc: Global, later: &[Later]) -> Result<Sequence<Row>, AllocError>
    ensures { IfOk result (λ rows. rows ≡ map (λ one. one.row) later.now) }
{
    let mut rows = Sequence::new(alloc);
    for one in later {
        rows.push(copy_row(alloc, one.row.as_slice())?)?;
    }
    Ok(rows)
}

/// The rows that a DELETE leaves.
fn rest_of(alloc: Global, later: &[Later]) -> Result<Sequence<Row>, AllocError>
    ensures { IfOk result (λ rows. rows ≡ rest_of later.now) }
{
    let mut rows = Sequence::new(alloc);
    for one in later {
        if !one.is_new {
            rows.push(copy_row(alloc, one.row.as_slice())?)?;
        }
    }
    Ok(rows)
}

/// The tests of a DELETE, with names and kinds known.
pub(crate) fn delete_tests(
    alloc: Global,
    schema: &Schema,
    delete: &Delete,
) -> Result<Sequence<BoundExpr>, Refused>
    ensures { GivesBy (map meaning) result (tests_of (own_scope delete.now.table schema.now) delete.now.filter) }
{
    let scope = own_scope(alloc, delete.table.as_slice(), schema)?;
    tests_of(alloc, scope.as_slice(), &delete.filter)
}

/// These rows after a DELETE with these tests, or its first refusal up to there. It counts the rows that went.
pub(crate) fn deleted_by(
    alloc: Global,
    schema: &Schema,
    tests: &[BoundExpr],
    rows: &[Row],
) -> Result<Turned, Refused>
    ensures { Gives result (rows_deleted_by schema.now rows.now (map meaning tests.now)) }
{
    let later = all_chosen(alloc, tests, rows)?;
    let count = count_of(later.as_slice());
    turned_rows(alloc, schema, rest_of(alloc, later.as_slice())?, count)
}

/// What an UPDATE asks of a row, and what it sets, with names and kinds known.
#[derive(Drop)]
pub(crate) struct BoundUpdate {
    pub(crate) tests: Sequence<BoundExpr>,
    pub(crate) settings: Sequence<BoundAssignment>,
}

fn change_by(
    alloc: Global,
    scope: &[ScopeColumn],
    settings: Sequence<BoundAssignment>,
    filter: &Option<Expr>,
) -> Result<BoundUpdate, Refused>
    ensures settings { IfOk result (λ change. change.settings ≡ settings) }
    ensures is { GivesBy change_seen result (change_with scope.now filter.now (map setting_seen settings)) }
{
    let tests = tests_of(alloc, scope, filter)?;
    Ok(BoundUpdate { tests, settings })
}

/// What an UPDATE asks and sets, or its first refusal up to there.
pub(crate) fn change_of(
    alloc: Global,
    schema: &Schema,
    update: &Update,
) -> Result<BoundUpdate, Refused>
    requires { is_schema schema.now ≡ true }
    ensures typed { IfOk result (λ change. list_all (λ one. is_type one.column.kind) change.settings ≡ true) }
    ensures is { GivesBy change_seen result (change_of schema.now update.now) }
{
    let scope = own_scope(alloc, update.table.as_slice(), schema)?;
    let settings = assignments(
        alloc,
        schema,
        scope.as_slice(),
        update.assignments.as_slice(),
    )?;
    change_by(alloc, scope.as_slice(), settings, &update.filter)
}

/// These rows after an UPDATE, or its first refusal up to there. It counts the rows that really differ.
pub(crate) fn updated_by(
    alloc: Global,
    schema: &Schema,
    change: &BoundUpdate,
    rows: &[Row],
) -> Result<Turned, Refused>
    requires { list_all (λ one. is_type one.column.kind) change.now.settings ≡ true }
    ensures { Gives result (rows_turned_by schema.now rows.now (map setting_seen change.now.settings) (map meaning change.now.tests)) }
{
    let settings = change.settings.as_slice();
    let later = all_turned(alloc, schema, change.tests.as_slice(), settings, rows)?;
    let count = count_of(later.as_slice());
    turned_rows(alloc, schema, rows_of(alloc, later.as_slice())?, count)
}

/// Whether an UPDATE sets a column of the primary key.
pub(crate) fn sets_key(schema: &Schema, settings: &[BoundAssignment]) -> bool
    ensures { result ≡ sets_key schema.now (map setting_seen settings.now) }
{
    for position in schema.key.as_slice() {
        if assigns(settings, usize::from(*position)) {
            return true;
        }
    }
    false
}

fn assigns(settings: &[BoundAssignment], place: usize) -> bool
    ensures { result ≡ assigns (map setting_seen settings.now) place }
{
    match settings {
        [] => false,
        [one, more @ ..] => one.place == place || assigns(more, place),
    }
}

/// What an UPDATE or a DELETE makes of a database is what it makes of the rows, and then what comes of these. For proofs: call it
/// where one needs it. It does nothing.
pub(crate) fn rows_come_first()
    ensures { RowsComeFirst }
{}
