//! What a schema keeps to.

ghost use Rattle.std.specs.Prelude.{◌≡◌, length, nat_lt, slice_get};
ghost use Rattle.std.specs.List.{list_all};
ghost use Rattle.schema_model.specs.Schemas.{are_checks, are_columns, are_foreign, are_indexes, are_positions, default_fits, is_check, is_column, is_foreign, is_index, is_key, is_name, is_not_null, is_schema};

use crate::names::{are_names_distinct, are_positions_distinct};
use crate::schemas::{CheckDef, Column, ForeignKey, IndexDef, Schema};
use crate::types::is_type;
use tuple_codec::{SqlType, Text, Value, is_text, value_fits};

/// Whether it is a schema: one that has bytes.
pub fn is_schema(schema: &Schema) -> bool
    ensures { result ≡ is_schema schema.now }
{
    let columns = schema.columns.as_slice();
    are_columns(columns)
        && is_key(columns, schema.key.as_slice())
        && are_indexes(columns.len(), schema.indexes.as_slice())
        && are_checks(schema.checks.as_slice())
        && are_foreign(columns.len(), schema.foreign.as_slice())
}

fn are_columns(columns: &[Column]) -> bool
    ensures { result ≡ are_columns columns.now }
{
    columns.len() < 256 && are_each_column(columns) && are_names_distinct(columns)
}

fn are_each_column(columns: &[Column]) -> bool
    ensures { result ≡ list_all is_column columns.now }
{
    columns.iter().all(|column| is_column(column))
}

fn is_column(column: &Column) -> bool
    ensures { result ≡ is_column column.now }
{
    is_name(column.name.as_slice())
        && is_type(&column.kind)
        && default_fits(&column.kind, &column.default)
}

fn default_fits(kind: &SqlType, default: &Option<Value>) -> bool
    ensures { result ≡ default_fits kind.now default.now }
{
    match default {
        Some(value) => value_fits(kind, value),
        None => true,
    }
}

/// Whether it is text whose length fits in a byte.
fn is_name(name: &[u8]) -> bool
    ensures { result ≡ is_name name.now }
{
    name.len() < 256 && is_text(name)
}

fn are_positions(columns: usize, positions: &[u8]) -> bool
    ensures { result ≡ are_positions columns positions.now }
{
    positions.len() < 256
        && !positions.is_empty()
        && are_each_below(columns, positions)
        && are_positions_distinct(positions)
}

fn are_each_below(columns: usize, positions: &[u8]) -> bool
    ensures { result ≡ list_all (λ position. nat_lt position columns) positions.now }
{
    positions
        .iter()
        .all(|position| usize::from(*position) < columns)
}

fn is_key(columns: &[Column], key: &[u8]) -> bool
    ensures { result ≡ is_key columns.now key.now }
{
    are_positions(columns.len(), key) && are_each_not_null(columns, key)
}

fn are_each_not_null(columns: &[Column], key: &[u8]) -> bool
    ensures { result ≡ list_all (λ position. is_not_null (slice_get columns.now position)) key.now }
{
    key.iter().all(|position| is_not_null(columns, *position))
}

fn is_not_null(columns: &[Column], position: u8) -> bool
    ensures { result ≡ is_not_null (slice_get columns.now position) }
{
    match columns.get(usize::from(position)) {
        Some(column) => column.not_null,
        None => false,
    }
}

fn are_indexes(columns: usize, indexes: &[IndexDef]) -> bool
    ensures { result ≡ are_indexes columns indexes.now }
{
    indexes.len() < 256 && are_each_index(columns, indexes) && are_names_distinct(indexes)
}

fn are_each_index(columns: usize, indexes: &[IndexDef]) -> bool
    ensures { result ≡ list_all (is_index columns) indexes.now }
{
    indexes.iter().all(|index| is_index(columns, index))
}

fn is_index(columns: usize, index: &IndexDef) -> bool
    ensures { result ≡ is_index columns index.now }
{
    is_name(index.name.as_slice()) && are_positions(columns, index.columns.as_slice())
}

fn are_checks(checks: &[CheckDef]) -> bool
    ensures { result ≡ are_checks checks.now }
{
    checks.len() < 256 && are_each_check(checks) && are_names_distinct(checks)
}

fn are_each_check(checks: &[CheckDef]) -> bool
    ensures { result ≡ list_all is_check checks.now }
{
    checks.iter().all(|check| is_check(check))
}

fn is_check(check: &CheckDef) -> bool
    ensures { result ≡ is_check check.now }
{
    let text = check.text.as_slice();
    is_name(check.name.as_slice()) && text.len() < 65536 && is_text(text)
}

fn are_foreign(columns: usize, foreign: &[ForeignKey]) -> bool
    ensures { result ≡ are_foreign columns foreign.now }
{
    foreign.len() < 256 && are_each_foreign(columns, foreign) && are_names_distinct(foreign)
}

fn are_each_foreign(columns: usize, foreign: &[ForeignKey]) -> bool
    ensures { result ≡ list_all (is_foreign columns) foreign.now }
{
    foreign.iter().all(|key| is_foreign(columns, key))
}

fn is_foreign(columns: usize, foreign: &ForeignKey) -> bool
    ensures { result ≡ is_foreign columns foreign.now }
{
    let parents = foreign.parent_columns.as_slice();
    is_name(foreign.name.as_slice())
        && are_positions(columns, foreign.columns.as_slice())
        && is_name(foreign.parent.as_slice())
        && are_each_name(parents)
        && foreign.columns.as_slice().len() == parents.len()
}

fn are_each_name(names: &[Text]) -> bool
    ensures { result ≡ list_all is_name names.now }
{
    names.iter().all(|name| is_name(name.as_slice()))
}
