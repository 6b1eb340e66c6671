//! CREATE TABLE: the database that it makes, or its first refusal.

ghost use Rattle.std.specs.Prelude.{◌≡◌, map};
ghost use Rattle.expr_eval.specs.Binding.{and_then};
ghost use Rattle.plain_sql.specs.Gives.{Gives, GivesBy};
ghost use Rattle.plain_writes.specs.Seen.{effect_seen, named_seen};
ghost use Rattle.plain_writes.specs.Violations.{own_scope};
ghost use Rattle.plain_schemas.specs.Lists.{all_allowed};
ghost use Rattle.plain_schemas.specs.Made.{columns_made, schema_of};
ghost use Rattle.plain_schemas.specs.Effects.{check_allowed, create_effect, foreign_allowed, if_within, judged, key_lists};

use crate::columns::{columns_made, scope_of};
use crate::databases::{is_there, unchanged, with_table};
use crate::making::{own_key_lists, schema_of};
use crate::referring::each_foreign_key_allowed;
use crate::sizes::keeps_limits;
use expr_eval::ScopeColumn;
use plain_sql::{Refused, condition};
use plain_writes::{Effect, NamedTable};
use schema_model::limits::{MOST_COLUMNS, MOST_TABLES};
use schema_model::{Column, Schema};
use sql_ast::{CreateTable, Element};
use std::alloc::Global;
use tuple_codec::Sequence;

fn check_allowed(alloc: Global, scope: &[ScopeColumn], element: &Element) -> Result<(), Refused>
    ensures { Gives result (check_allowed scope.now element.now) }
{
    match element {
        Element::Check(_, expr) => {
            condition(alloc, scope, expr)?;
            Ok(())
        }
        _ => Ok(()),
    }
}

fn each_check_allowed(
    alloc: Global,
    scope: &[ScopeColumn],
    elements: &[Element],
) -> Result<(), Refused>
    ensures { Gives result (all_allowed (check_allowed scope.now) elements.now) }
{
    for element in elements {
        check_allowed(alloc, scope, element)?;
    }
    Ok(())
}

/// Whether each CHECK is a condition over the table's columns, or the first refusal.
fn checks_allowed(
    alloc: Global,
    create: &CreateTable,
    columns: &Sequence<Column>,
) -> Result<(), Refused>
    ensures { Gives result (all_allowed (check_allowed (own_scope create.now.table (schema_of create.now columns.now))) create.now.elements) }
{
    let scope = scope_of(alloc, create.table.as_slice(), columns.as_slice())?;
    each_check_allowed(alloc, scope.as_slice(), create.elements.as_slice())
}

/// Whether each foreign key refers to columns that are a key, or the first refusal.
fn foreign_keys_allowed(
    alloc: Global,
    database: &[NamedTable],
    create: &CreateTable,
    columns: &Sequence<Column>,
) -> Result<(), Refused>
    ensures { Gives result (all_allowed (foreign_allowed (map named_seen database.now) create.now.table columns.now (key_lists (schema_of create.now columns.now))) create.now.elements) }
{
    let keys = own_key_lists(alloc, create, columns.as_slice())?;
    each_foreign_key_allowed(
        alloc,
        database,
        create.table.as_slice(),
        columns.as_slice(),
        keys.as_slice(),
        create.elements.as_slice(),
    )
}

fn if_within(
    alloc: Global,
    database: &[NamedTable],
    name: &[u8],
    schema: Schema,
) -> Result<Effect, Refused>
    ensures { GivesBy effect_seen result (if_within (map named_seen database.now) name.now schema) }
{
    if !keeps_limits(&schema) || database.len() >= MOST_TABLES {
        return Err(Refused::By(9010));
    }
    Ok(Effect {
        database: with_table(alloc, database, name, schema)?,
        count: None,
    })
}

/// Too many columns are refused before the schema is made, whose places wouldn't fit in bytes.
#[tactic(auto, using(crate::proofs::WidthLemmas::too_wide))]
fn if_narrow(
    alloc: Global,
    database: &[NamedTable],
    create: &CreateTable,
    columns: Sequence<Column>,
) -> Result<Effect, Refused>
    ensures { GivesBy effect_seen result (if_within (map named_seen database.now) create.now.table (schema_of create.now columns)) }
{
    if columns.as_slice().len() > MOST_COLUMNS {
        return Err(Refused::By(9010));
    }
    let schema = schema_of(alloc, create, columns)?;
    if_within(alloc, database, create.table.as_slice(), schema)
}

fn judged(
    alloc: Global,
    database: &[NamedTable],
    create: &CreateTable,
    columns: Sequence<Column>,
) -> Result<Effect, Refused>
    ensures { GivesBy effect_seen result (judged (map named_seen database.now) create.now (schema_of create.now columns)) }
{
    checks_allowed(alloc, create, &columns)?;
    foreign_keys_allowed(alloc, database, create, &columns)?;
    if_narrow(alloc, database, create, columns)
}

fn created(alloc: Global, database: &[NamedTable], create: &CreateTable) -> Result<Effect, Refused>
    ensures { GivesBy effect_seen result (and_then (columns_made create.now.elements) (λ columns. judged (map named_seen database.now) create.now (schema_of create.now columns))) }
{
    let columns = columns_made(alloc, create.elements.as_slice())?;
    judged(alloc, database, create, columns)
}

/// What CREATE TABLE makes of a database, or its first refusal. The whole database is copied.
pub fn create_effect(
    alloc: Global,
    database: &[NamedTable],
    create: &CreateTable,
) -> Result<Effect, Refused>
    ensures { GivesBy effect_seen result (create_effect (map named_seen database.now) create.now) }
{
    if !is_there(database, create.table.as_slice()) {
        return created(alloc, database, create);
    }
    if create.if_not_exists {
        Ok(unchanged(alloc, database)?)
    } else {
        Err(Refused::By(1050))
    }
}
