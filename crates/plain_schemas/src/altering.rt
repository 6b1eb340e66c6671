//! ALTER TABLE: which column may be changed, and into what.

ghost use Rattle.std.specs.Prelude.{◌≡◌, ◌&&◌, ◌||◌, IfOk, Ok, bytes_eq, is_some, map, not, true};
ghost use Rattle.std.specs.List.{list_any};
ghost use Rattle.tuple_codec.specs.Limits.{is_type};
ghost use Rattle.schema_model.specs.PlainTables.{is_keyed};
ghost use Rattle.sql_rules.specs.Names.{contains};
ghost use Rattle.expr_eval.specs.Binding.{and_then};
ghost use Rattle.plain_sql.specs.Gives.{Gives, GivesBy};
ghost use Rattle.plain_sql.specs.Lists.{unless};
ghost use Rattle.plain_writes.specs.Seen.{effect_seen, named_seen, table_seen};
ghost use Rattle.plain_writes.specs.Violations.{checks_by, column_place};
ghost use Rattle.plain_writes.specs.Writes.{replaced};
ghost use Rattle.plain_schemas.specs.Altered.{alter_effect, altered, change_of, check_needs, column_after, free_place, has_type, is_open, is_used, kind_at, redefined, refers_to, table_after, without_column};
ghost use Rattle.plain_schemas.specs.Effects.{changed_to};
ghost use Rattle.plain_schemas.specs.declared.changing.ColumnChange.TheVariants as change;

use crate::changing::{ColumnChange, table_after, without_column};
use crate::columns::defined;
use plain_sql::Refused;
use plain_writes::{
    Effect, NamedTable, Reads, Table, check_of, column_place, own_scope, replaced, table_in,
};
use schema_model::{CheckDef, Column, ForeignKey, IndexDef, Schema};
use sql_ast::{Alter, AlterAction, ColumnElement};
use sql_rules::altered_column;
use sql_values::{Kind, may_assign};
use std::alloc::{AllocError, Global};
use tuple_codec::Text;

fn is_keyed(places: &[u8], place: usize) -> bool
    ensures { result ≡ is_keyed places.now place }
{
    places.iter().any(|other| usize::from(*other) == place)
}

fn some_index_has(indexes: &[IndexDef], place: usize) -> bool
    ensures { result ≡ list_any (λ index. is_keyed index.columns place) indexes.now }
{
    indexes
        .iter()
        .any(|index| is_keyed(index.columns.as_slice(), place))
}

fn some_foreign_key_has(foreign: &[ForeignKey], place: usize) -> bool
    ensures { result ≡ list_any (λ key. is_keyed key.columns place) foreign.now }
{
    foreign
        .iter()
        .any(|key| is_keyed(key.columns.as_slice(), place))
}

/// Of any type, so that a caller's proof opens no expression.
fn is_nothing<T: Drop>(found: Option<T>) -> bool
    ensures { result ≡ not (is_some found) }
{
    found.is_none()
}

fn check_needs<R: Reads>(
    alloc: Global,
    name: &[u8],
    without: &Schema,
    check: &CheckDef,
) -> Result<bool, AllocError>
    ensures { IfOk result (λ needs. needs ≡ check_needs (checks_by R.reading) name.now without.now check.now) }
{
    let scope = own_scope(alloc, name, without)?;
    let found = check_of::<R>(alloc, scope.as_slice(), check.text.as_slice())?;
    Ok(is_nothing(found))
}

fn some_check_needs<R: Reads>(
    alloc: Global,
    name: &[u8],
    without: &Schema,
    checks: &[CheckDef],
) -> Result<bool, AllocError>
    ensures { IfOk result (λ needs. needs ≡ list_any (check_needs (checks_by R.reading) name.now without.now) checks.now) }
{
    for check in checks {
        if check_needs::<R>(alloc, name, without, check)? {
            return Ok(true);
        }
    }
    Ok(false)
}

fn names_column(names: &[Text], column: &[u8]) -> bool
    ensures { result ≡ contains names.now column.now }
{
    names.iter().any(|name| column == name.as_slice())
}

fn key_refers(key: &ForeignKey, table: &[u8], column: &[u8]) -> bool
    ensures { result ≡ (bytes_eq key.now.parent table.now && contains key.now.parent_columns column.now) }
{
    key.parent.is(table) && names_column(key.parent_columns.as_slice(), column)
}

fn refers_to(table: &[u8], column: &[u8], named: &NamedTable) -> bool
    ensures { result ≡ refers_to table.now column.now (named_seen named.now) }
{
    let foreign = named.table.schema.foreign.as_slice();
    foreign.iter().any(|key| key_refers(key, table, column))
}

fn some_refers_to(table: &[u8], column: &[u8], database: &[NamedTable]) -> bool
    ensures { result ≡ list_any (refers_to table.now column.now) (map named_seen database.now) }
{
    match database {
        [] => false,
        [first, rest @ ..] => refers_to(table, column, first)
            || some_refers_to(table, column, rest),
    }
}

/// Whether a check names the column at this place.
fn some_check_names<R: Reads>(
    alloc: Global,
    name: &[u8],
    schema: &Schema,
    place: usize,
) -> Result<bool, AllocError>
    ensures { IfOk result (λ named. named ≡ list_any (check_needs (checks_by R.reading) name.now (without_column schema.now place)) schema.now.checks) }
{
    let without = without_column(alloc, schema, place)?;
    some_check_needs::<R>(alloc, name, &without, schema.checks.as_slice())
}

/// Whether the place is in the primary key, an index or a foreign key of the table, or in a check, which is known.
fn is_taken(schema: &Schema, place: usize, checked: bool) -> bool
    ensures { result ≡ (is_keyed schema.now.key place || list_any (λ index. is_keyed index.columns place) schema.now.indexes || checked || list_any (λ key. is_keyed key.columns place) schema.now.foreign) }
{
    is_keyed(schema.key.as_slice(), place)
        || some_index_has(schema.indexes.as_slice(), place)
        || checked
        || some_foreign_key_has(schema.foreign.as_slice(), place)
}

/// Whether the column stands in the primary key, an index, a check or a foreign key of this table or of another.
fn is_used<R: Reads>(
    alloc: Global,
    database: &[NamedTable],
    name: &[u8],
    schema: &Schema,
    column: &[u8],
    place: usize,
) -> Result<bool, AllocError>
    ensures { IfOk result (λ used. used ≡ is_used (checks_by R.reading) (map named_seen database.now) name.now schema.now column.now place) }
{
    let checked = some_check_names::<R>(alloc, name, schema, place)?;
    Ok(is_taken(schema, place, checked) || some_refers_to(name, column, database))
}

/// Where a column stands that is there and that nothing uses.
fn free_place<R: Reads>(
    alloc: Global,
    database: &[NamedTable],
    name: &[u8],
    schema: &Schema,
    column: &[u8],
) -> Result<usize, Refused>
    ensures { Gives result (free_place (checks_by R.reading) (map named_seen database.now) name.now schema.now column.now) }
{
    match column_place(schema, column) {
        Some(place) => {
            if is_used::<R>(alloc, database, name, schema, column, place)? {
                Err(Refused::By(9013))
            } else {
                Ok(place)
            }
        }
        None => Err(Refused::By(1054)),
    }
}

#[tactic(auto, using(crate::proofs::TypeLemmas::after_typed))]
fn column_after(alloc: Global, column: &ColumnElement) -> Result<Column, Refused>
    ensures same { Gives result (column_after column.now) }
    ensures typed { IfOk result (λ after. is_type after.kind ≡ true) }
{
    let made = altered_column(alloc, column)?;
    defined(alloc, &column.name, made)
}

fn kind_at(schema: &Schema, place: usize) -> Option<Kind>
    ensures { result ≡ kind_at schema.now place }
{
    match schema.columns.as_slice().get(place) {
        Some(column) => Kind::of(&column.kind),
        None => None,
    }
}

fn redefined(schema: &Schema, place: usize, column: Column) -> Result<ColumnChange, Refused>
    requires { is_type column.kind ≡ true }
    ensures same { Gives result (redefined schema.now place column) }
    ensures typed { IfOk result (λ change. has_type change ≡ true) }
{
    match kind_at(schema, place) {
        Some(kind) => {
            if may_assign(&kind, &column.kind) {
                Ok(ColumnChange::Redefine(place, kind, column))
            } else {
                Err(Refused::By(9001))
            }
        }
        None => Err(Refused::By(9001)),
    }
}

fn added(alloc: Global, schema: &Schema, column: &ColumnElement) -> Result<ColumnChange, Refused>
    ensures same { Gives result (unless (is_some (column_place schema.now column.now.name)) 9013 (and_then (column_after column.now) (λ made. Ok (change.Add made)))) }
    ensures typed { IfOk result (λ change. has_type change ≡ true) }
{
    if column_place(schema, column.name.as_slice()).is_some() {
        return Err(Refused::By(9013));
    }
    Ok(ColumnChange::Add(column_after(alloc, column)?))
}

fn redefined_anew(
    alloc: Global,
    schema: &Schema,
    place: usize,
    column: &ColumnElement,
) -> Result<ColumnChange, Refused>
    ensures same { Gives result (and_then (column_after column.now) (redefined schema.now place)) }
    ensures typed { IfOk result (λ change. has_type change ≡ true) }
{
    let after = column_after(alloc, column)?;
    redefined(schema, place, after)
}

/// What the action does, or why it may not.
pub fn change_of<R: Reads>(
    alloc: Global,
    database: &[NamedTable],
    name: &[u8],
    schema: &Schema,
    action: &AlterAction,
) -> Result<ColumnChange, Refused>
    ensures same { Gives result (change_of (checks_by R.reading) (map named_seen database.now) name.now schema.now action.now) }
    ensures typed { IfOk result (λ change. has_type change ≡ true) }
{
    match action {
        AlterAction::Add(column) => added(alloc, schema, column),
        AlterAction::Drop(column) => {
            let place = free_place::<R>(alloc, database, name, schema, column.as_slice())?;
            Ok(ColumnChange::Remove(place))
        }
        AlterAction::Modify(column) => {
            let place = free_place::<R>(alloc, database, name, schema, column.name.as_slice())?;
            redefined_anew(alloc, schema, place, column)
        }
    }
}

fn is_open(table: &Table) -> bool
    ensures { result ≡ is_open (table_seen table.now) }
{
    !table.conflicts.as_slice().is_empty() || !table.violations.as_slice().is_empty()
}

/// What a statement does that puts a table in the place of the one of its name.
fn replacing(
    alloc: Global,
    database: &[NamedTable],
    name: &Text,
    after: &Table,
) -> Result<Effect, Refused>
    ensures { GivesBy effect_seen result (Ok (changed_to (replaced name.now (table_seen after.now) (map named_seen database.now)))) }
{
    Ok(Effect {
        database: replaced(alloc, name.as_slice(), after, database)?,
        count: None,
    })
}

/// The database with the table of this name changed.
fn with_change(
    alloc: Global,
    database: &[NamedTable],
    name: &Text,
    table: &Table,
    change: &ColumnChange,
) -> Result<Effect, Refused>
    requires { has_type change.now ≡ true }
    ensures { GivesBy effect_seen result (and_then (table_after (table_seen table.now) change.now) (λ after. Ok (changed_to (replaced name.now after (map named_seen database.now))))) }
{
    let after = table_after(alloc, table, change)?;
    replacing(alloc, database, name, &after)
}

fn altered<R: Reads>(
    alloc: Global,
    database: &[NamedTable],
    alter: &Alter,
    table: &Table,
) -> Result<Effect, Refused>
    ensures { GivesBy effect_seen result (altered (checks_by R.reading) (map named_seen database.now) alter.now (table_seen table.now)) }
{
    if is_open(table) {
        return Err(Refused::By(9011));
    }
    let name = alter.table.as_slice();
    let change = change_of::<R>(alloc, database, name, &table.schema, &alter.action)?;
    with_change(alloc, database, &alter.table, table, &change)
}

/// What ALTER TABLE makes of a database, or its first refusal. CHECKs are read by `R`. The whole database is copied.
pub fn alter_effect<R: Reads>(
    alloc: Global,
    database: &[NamedTable],
    alter: &Alter,
) -> Result<Effect, Refused>
    ensures { GivesBy effect_seen result (alter_effect (checks_by R.reading) (map named_seen database.now) alter.now) }
{
    match table_in(database, alter.table.as_slice()) {
        Some(table) => altered::<R>(alloc, database, alter, table),
        None => Err(Refused::By(1146)),
    }
}
