//! The violations of a table, constraint by constraint.

ghost use Rattle.std.specs.Prelude.{◌≡◌, IfOk, map};
ghost use Rattle.std.specs.List.{enumerate_from, flat_map};
ghost use Rattle.std.specs.Option.{option_map};
ghost use Rattle.tuple_codec.specs.Rows.{key_cmp};
ghost use Rattle.plain_writes.specs.Seen.{broken_seen, named_seen};
ghost use Rattle.plain_sql.specs.Lists.{in_order};
ghost use Rattle.plain_sql.specs.Plans.{meaning};
ghost use Rattle.plain_sql.specs.Runs.{places_cmp};
ghost use Rattle.plain_writes.specs.Violations.{breaks_check, breaks_foreign, breaks_unique, broken, checks_by, of_check, of_column, of_foreign, of_index};

use crate::breaking::{Broken, breaks_foreign, breaks_not_null, breaks_unique, entry_of};
use crate::checking::{Reads, breaks_check, check_of};
use crate::columns::own_scope;
use crate::copies::copy_rows;
use crate::ordered::{sorted_at, sorted_keys};
use crate::parents::parent_keys;
use crate::tables::NamedTable;
use expr_eval::BoundExpr;
use plain_sql::append;
use schema_model::{CheckDef, Column, ForeignKey, IndexDef, Schema};
use std::alloc::{AllocError, Global};
use tuple_codec::{Row, Sequence};

/// The rows that break a foreign key, whose parent has these keys, in order.
fn of_foreign(
    alloc: Global,
    keys: &[Row],
    schema: &Schema,
    rows: &[Row],
    foreign: &ForeignKey,
) -> Result<Sequence<Broken>, AllocError>
    requires { keys.now ≡ in_order key_cmp keys.now }
    ensures { IfOk result (λ found. map broken_seen found ≡ broken schema.now rows.now 1 foreign.now.name (breaks_foreign keys.now foreign.now.columns)) }
{
    let mut found = Sequence::new(alloc);
    for row in rows {
        if breaks_foreign(alloc, keys, foreign.columns.as_slice(), row.as_slice())? {
            found.push(entry_of(alloc, schema, 1, foreign.name.as_slice(), row.as_slice())?)?;
        }
    }
    Ok(found)
}

/// The rows that break a unique index, where the same rows stand in the order of its cells.
fn of_unique(
    alloc: Global,
    schema: &Schema,
    rows: &[Row],
    sorted: &[Row],
    index: &IndexDef,
) -> Result<Sequence<Broken>, AllocError>
    requires { sorted.now ≡ in_order (places_cmp index.now.columns) sorted.now }
    ensures { IfOk result (λ found. map broken_seen found ≡ broken schema.now rows.now 2 index.now.name (breaks_unique schema.now sorted.now index.now.columns)) }
{
    let mut found = Sequence::new(alloc);
    for row in rows {
        if breaks_unique(schema, sorted, index.columns.as_slice(), row.as_slice()) {
            found.push(entry_of(alloc, schema, 2, index.name.as_slice(), row.as_slice())?)?;
        }
    }
    Ok(found)
}

/// The rows that break a unique index.
fn of_index(
    alloc: Global,
    schema: &Schema,
    rows: &[Row],
    index: &IndexDef,
) -> Result<Sequence<Broken>, AllocError>
    ensures { IfOk result (λ found. map broken_seen found ≡ of_index schema.now rows.now index.now) }
{
    if !index.unique {
        return Ok(Sequence::new(alloc));
    }
    let copy = copy_rows(alloc, rows)?;
    let sorted = sorted_at(alloc, index.columns.as_slice(), copy.into_vec())?;
    of_unique(alloc, schema, rows, sorted.as_slice(), index)
}

/// The rows that break unique indexes, index by index; where several have the same cells, each is told. Each index sorts a copy of the rows.
pub fn of_indexes(
    alloc: Global,
    schema: &Schema,
    rows: &[Row],
) -> Result<Sequence<Broken>, AllocError>
    ensures { IfOk result (λ found. map broken_seen found ≡ flat_map (of_index schema.now rows.now) schema.now.indexes) }
{
    let mut found = Sequence::new(alloc);
    let indexes = schema.indexes.as_slice();
    for index in indexes {
        let more = of_index(alloc, schema, rows, index)?;
        append(&mut found, more)?;
    }
    Ok(found)
}

/// The rows with NULL in a NOT NULL column.
fn of_column(
    alloc: Global,
    schema: &Schema,
    rows: &[Row],
    place: usize,
    column: &Column,
) -> Result<Sequence<Broken>, AllocError>
    ensures { IfOk result (λ found. map broken_seen found ≡ of_column schema.now rows.now (place, column.now)) }
{
    let mut found = Sequence::new(alloc);
    if column.not_null {
        for row in rows {
            if breaks_not_null(place, row.as_slice()) {
                found.push(entry_of(alloc, schema, 4, column.name.as_slice(), row.as_slice())?)?;
            }
        }
    }
    Ok(found)
}

/// The rows with NULL in a NOT NULL column, column by column; a row is told once for each such column.
pub fn of_columns(
    alloc: Global,
    schema: &Schema,
    rows: &[Row],
) -> Result<Sequence<Broken>, AllocError>
    ensures { IfOk result (λ found. map broken_seen found ≡ flat_map (of_column schema.now rows.now) (enumerate_from 0 schema.now.columns)) }
{
    let mut found = Sequence::new(alloc);
    let columns = schema.columns.as_slice();
    for (place, column) in columns.iter().enumerate() {
        let more = of_column(alloc, schema, rows, place, column)?;
        append(&mut found, more)?;
    }
    Ok(found)
}

/// The rows on which a CHECK is false.
fn of_check<R: Reads>(
    alloc: Global,
    name: &[u8],
    schema: &Schema,
    rows: &[Row],
    check: &CheckDef,
) -> Result<Sequence<Broken>, AllocError>
    ensures { IfOk result (λ found. map broken_seen found ≡ of_check (checks_by R.reading) name.now schema.now rows.now check.now) }
{
    let scope = own_scope(alloc, name, schema)?;
    let said = check_of::<R>(alloc, scope.as_slice(), check.text.as_slice())?;
    broken_by(alloc, &said, schema, rows, check)
}

fn broken_by(
    alloc: Global,
    said: &Option<BoundExpr>,
    schema: &Schema,
    rows: &[Row],
    check: &CheckDef,
) -> Result<Sequence<Broken>, AllocError>
    ensures { IfOk result (λ found. map broken_seen found ≡ broken schema.now rows.now 3 check.now.name (breaks_check (option_map meaning said.now))) }
{
    let mut found = Sequence::new(alloc);
    for row in rows {
        if breaks_check(alloc, said, row)? {
            found.push(entry_of(alloc, schema, 3, check.name.as_slice(), row.as_slice())?)?;
        }
    }
    Ok(found)
}

/// The rows on which CHECKs are false, CHECK by CHECK, where columns may be qualified by the table's name.
/// A CHECK whose text can't be read or bound is broken by no row.
pub fn of_checks<R: Reads>(
    alloc: Global,
    name: &[u8],
    schema: &Schema,
    rows: &[Row],
) -> Result<Sequence<Broken>, AllocError>
    ensures { IfOk result (λ found. map broken_seen found ≡ flat_map (of_check (checks_by R.reading) name.now schema.now rows.now) schema.now.checks) }
{
    let mut found = Sequence::new(alloc);
    let checks = schema.checks.as_slice();
    for check in checks {
        let more = of_check::<R>(alloc, name, schema, rows, check)?;
        append(&mut found, more)?;
    }
    Ok(found)
}

/// The rows that break a foreign key, by what the parent has in this database.
fn of_foreign_in(
    alloc: Global,
    database: &[NamedTable],
    schema: &Schema,
    rows: &[Row],
    foreign: &ForeignKey,
) -> Result<Sequence<Broken>, AllocError>
    ensures { IfOk result (λ found. map broken_seen found ≡ of_foreign (map named_seen database.now) schema.now rows.now foreign.now) }
{
    let keys = parent_keys(alloc, database, schema, foreign)?;
    let sorted = sorted_keys(alloc, keys.into_vec())?;
    of_foreign(alloc, sorted.as_slice(), schema, rows, foreign)
}

/// The rows that break foreign keys, key by key. Parents are sought in the database, also where a table is its own parent.
pub fn of_foreigns(
    alloc: Global,
    database: &[NamedTable],
    schema: &Schema,
    rows: &[Row],
) -> Result<Sequence<Broken>, AllocError>
    ensures { IfOk result (λ found. map broken_seen found ≡ flat_map (of_foreign (map named_seen database.now) schema.now rows.now) schema.now.foreign) }
{
    let mut found = Sequence::new(alloc);
    let keys = schema.foreign.as_slice();
    for foreign in keys {
        let more = of_foreign_in(alloc, database, schema, rows, foreign)?;
        append(&mut found, more)?;
    }
    Ok(found)
}
