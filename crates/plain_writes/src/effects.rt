//! INSERT, UPDATE and DELETE: the database that each makes.

ghost use Rattle.std.specs.Prelude.{◌≡◌, IfOk, count_by, map, true};
ghost use Rattle.std.specs.List.{list_all};
ghost use Rattle.tuple_codec.specs.Limits.{is_type};
ghost use Rattle.plain_sql.specs.Gives.{GivesBy};
ghost use Rattle.plain_writes.specs.Seen.{effect_seen, named_seen, setting_seen, table_seen};
ghost use Rattle.plain_writes.specs.Steps.{updated_by};
ghost use Rattle.plain_writes.specs.Typed.{are_typed};
ghost use Rattle.plain_writes.specs.Violations.{checks_by};
ghost use Rattle.plain_writes.specs.Writes.{delete_effect, deleted, filled, insert_effect, inserted, replaced, replaced_in, rest_of, result_of, update_effect, updated};

use crate::binding::{assignments, tests_of};
use crate::checking::Reads;
use crate::columns::own_scope;
use crate::copies::{copy_named, copy_rows, with_rows};
use crate::inserting::{new_rows, places_named, tuples_said};
use crate::keyed::by_key;
use crate::listing::first_violation;
use crate::tables::{NamedTable, Table, table_in};
use crate::updating::{BoundAssignment, Later, all_chosen, all_turned};
use expr_eval::ScopeColumn;
use plain_sql::{Refused, append};
use schema_model::limits::MOST_ROWS;
use sql_ast::{Delete, Insert, Update};
use std::alloc::{AllocError, Global};
use tuple_codec::{Row, Sequence, Text, copy_row};

/// What a statement makes of a database.
#[derive(Drop)]
pub struct Effect {
    pub database: Sequence<NamedTable>,
    /// How many rows were written, where the reply tells.
    pub count: Option<u64>,
}

fn replaced_in(
    alloc: Global,
    name: &[u8],
    table: &Table,
    named: &NamedTable,
) -> Result<NamedTable, AllocError>
    ensures { IfOk result (λ found. named_seen found ≡ replaced_in name.now (table_seen table.now) (named_seen named.now)) }
{
    if named.name.is(name) {
        let rows = copy_rows(alloc, table.rows.as_slice())?;
        Ok(NamedTable {
            name: Text::from_slice(alloc, name)?,
            table: with_rows(alloc, table, rows)?,
        })
    } else {
        copy_named(alloc, named)
    }
}

/// The database with this table in place of that of the name.
pub fn replaced(
    alloc: Global,
    name: &[u8],
    table: &Table,
    database: &[NamedTable],
) -> Result<Sequence<NamedTable>, AllocError>
    ensures { IfOk result (λ found. map named_seen found ≡ replaced name.now (table_seen table.now) (map named_seen database.now)) }
{
    let mut found = Sequence::new(alloc);
    for named in database {
        found.push(replaced_in(alloc, name, table, named)?)?;
    }
    Ok(found)
}

fn filled<R: Reads>(
    alloc: Global,
    old: &[NamedTable],
    name: &[u8],
    table: &Table,
    count: u64,
    rows: Sequence<Row>,
) -> Result<Effect, Refused>
    ensures { GivesBy effect_seen result (filled (checks_by R.reading) (map named_seen old.now) name.now (table_seen table.now) count rows) }
{
    let too_many = rows.as_slice().len() as u64 > MOST_ROWS;
    let table = with_rows(alloc, table, rows)?;
    let database = replaced(alloc, name, &table, old)?;
    match first_violation::<R>(alloc, old, database.as_slice())? {
        Some(number) => Err(Refused::By(number)),
        None => {
            if too_many {
                Err(Refused::By(9010))
            } else {
                Ok(Effect {
                    database,
                    count: Some(count),
                })
            }
        }
    }
}

/// The table with these rows, so many of which were written.
fn result_of<R: Reads>(
    alloc: Global,
    old: &[NamedTable],
    name: &[u8],
    table: &Table,
    rows: Sequence<Row>,
    count: u64,
) -> Result<Effect, Refused>
    ensures { GivesBy effect_seen result (result_of (checks_by R.reading) (map named_seen old.now) name.now (table_seen table.now) rows count) }
{
    let rows = by_key(alloc, &table.schema, rows)?;
    filled::<R>(alloc, old, name, table, count, rows)
}

fn inserted<R: Reads>(
    alloc: Global,
    database: &[NamedTable],
    insert: &Insert,
    table: &Table,
) -> Result<Effect, Refused>
    requires { list_all (λ column. is_type column.kind) table.now.schema.columns ≡ true }
    ensures { GivesBy effect_seen result (inserted (checks_by R.reading) (map named_seen database.now) insert.now (table_seen table.now)) }
{
    let places = places_named(alloc, &table.schema, &insert.columns)?;
    let said = tuples_said(
        alloc,
        &table.schema,
        places.as_slice(),
        insert.tuples.as_slice(),
    )?;
    let rows = new_rows(alloc, &table.schema, places.as_slice(), said.as_slice())?;
    let count = rows.as_slice().len() as u64;
    let mut all = copy_rows(alloc, table.rows.as_slice())?;
    append(&mut all, rows)?;
    result_of::<R>(alloc, database, insert.table.as_slice(), table, all, count)
}

/// What an INSERT makes of a database, or its first refusal. CHECKs are read by `R`. The whole database is copied.
pub fn insert_effect<R: Reads>(
    alloc: Global,
    database: &[NamedTable],
    insert: &Insert,
) -> Result<Effect, Refused>
    requires { are_typed database.now ≡ true }
    ensures { GivesBy effect_seen result (insert_effect (checks_by R.reading) (map named_seen database.now) insert.now) }
{
    match table_in(database, insert.table.as_slice()) {
        Some(table) => inserted::<R>(alloc, database, insert, table),
        None => Err(Refused::By(1146)),
    }
}

fn rows_of(alloc: Global, later: &[Later]) -> Result<Sequence<Row>, AllocError>
    ensures { IfOk result (λ rows. rows ≡ map (λ one. one.row) later.now) }
{
    let mut rows = Sequence::new(alloc);
    for one in later {
        rows.push(copy_row(alloc, one.row.as_slice())?)?;
    }
    Ok(rows)
}

fn count_of(later: &[Later]) -> u64
    ensures { result ≡ count_by (λ one. one.is_new) later.now }
{
    later.iter().filter(|one| one.is_new).count() as u64
}

/// An UPDATE with these settings.
fn updated_by<R: Reads>(
    alloc: Global,
    database: &[NamedTable],
    update: &Update,
    table: &Table,
    scope: &[ScopeColumn],
    settings: &[BoundAssignment],
) -> Result<Effect, Refused>
    requires { list_all (λ one. is_type one.column.kind) settings.now ≡ true }
    ensures { GivesBy effect_seen result (updated_by (checks_by R.reading) (map named_seen database.now) update.now (table_seen table.now) scope.now (map setting_seen settings.now)) }
{
    let name = update.table.as_slice();
    let tests = tests_of(alloc, scope, &update.filter)?;
    let later = all_turned(
        alloc,
        &table.schema,
        tests.as_slice(),
        settings,
        table.rows.as_slice(),
    )?;
    let rows = rows_of(alloc, later.as_slice())?;
    result_of::<R>(
        alloc,
        database,
        name,
        table,
        rows,
        count_of(later.as_slice()),
    )
}

fn updated<R: Reads>(
    alloc: Global,
    database: &[NamedTable],
    update: &Update,
    table: &Table,
) -> Result<Effect, Refused>
    requires { list_all (λ column. is_type column.kind) table.now.schema.columns ≡ true }
    ensures { GivesBy effect_seen result (updated (checks_by R.reading) (map named_seen database.now) update.now (table_seen table.now)) }
{
    let scope = own_scope(alloc, update.table.as_slice(), &table.schema)?;
    let settings = assignments(
        alloc,
        &table.schema,
        scope.as_slice(),
        update.assignments.as_slice(),
    )?;
    updated_by::<R>(
        alloc,
        database,
        update,
        table,
        scope.as_slice(),
        settings.as_slice(),
    )
}

/// What an UPDATE makes of a database, or its first refusal; it counts the rows that really differ. CHECKs are read by `R`. The whole database is copied.
pub fn update_effect<R: Reads>(
    alloc: Global,
    database: &[NamedTable],
    update: &Update,
) -> Result<Effect, Refused>
    requires { are_typed database.now ≡ true }
    ensures { GivesBy effect_seen result (update_effect (checks_by R.reading) (map named_seen database.now) update.now) }
{
    match table_in(database, update.table.as_slice()) {
        Some(table) => updated::<R>(alloc, database, update, table),
        None => Err(Refused::By(1146)),
    }
}

/// The rows that a DELETE leaves.
fn rest_of(alloc: Global, later: &[Later]) -> Result<Sequence<Row>, AllocError>
    ensures { IfOk result (λ rows. rows ≡ rest_of later.now) }
{
    let mut rows = Sequence::new(alloc);
    for one in later {
        if !one.is_new {
            rows.push(copy_row(alloc, one.row.as_slice())?)?;
        }
    }
    Ok(rows)
}

fn deleted<R: Reads>(
    alloc: Global,
    database: &[NamedTable],
    delete: &Delete,
    table: &Table,
) -> Result<Effect, Refused>
    ensures { GivesBy effect_seen result (deleted (checks_by R.reading) (map named_seen database.now) delete.now (table_seen table.now)) }
{
    let name = delete.table.as_slice();
    let scope = own_scope(alloc, name, &table.schema)?;
    let tests = tests_of(alloc, scope.as_slice(), &delete.filter)?;
    let later = all_chosen(alloc, tests.as_slice(), table.rows.as_slice())?;
    let rows = rest_of(alloc, later.as_slice())?;
    result_of::<R>(
        alloc,
        database,
        name,
        table,
        rows,
        count_of(later.as_slice()),
    )
}

/// What a DELETE makes of a database, or its first refusal. CHECKs are read by `R`, since other tables may refer to the rows that go. The whole database is copied.
pub fn delete_effect<R: Reads>(
    alloc: Global,
    database: &[NamedTable],
    delete: &Delete,
) -> Result<Effect, Refused>
    ensures { GivesBy effect_seen result (delete_effect (checks_by R.reading) (map named_seen database.now) delete.now) }
{
    match table_in(database, delete.table.as_slice()) {
        Some(table) => deleted::<R>(alloc, database, delete, table),
        None => Err(Refused::By(1146)),
    }
}
