//! How many bytes a schema has when it is written, counted without writing it, and the limits that it keeps. A count stays at the
//! last `u64`.

ghost use Rattle.std.specs.Prelude.{◌≡◌, ◌^◌, ◌-◌, length, min, nat_le};
ghost use Rattle.std.specs.List.{flat_map, list_all};
ghost use Rattle.tuple_codec.specs.Fields.{short};
ghost use Rattle.schema_model.specs.SchemaBytes.{check_bytes, column_bytes, default_bytes, foreign_bytes, index_bytes, schema_bytes, type_bytes};
ghost use Rattle.schema_model.specs.Limits.{has_short_names, is_short_name, is_within_limits, most_schema_bytes};

use schema_model::limits::{
    MOST_CHECKS, MOST_COLUMNS, MOST_FOREIGN_KEYS, MOST_INDEXES, MOST_NAME_BYTES, MOST_SCHEMA_BYTES,
};
use schema_model::{CheckDef, Column, ForeignKey, IndexDef, Schema};
use tuple_codec::{SqlType, Text, Value, row_cell_size};

/// The bytes of a list behind its length.
fn short_size(bytes: &[u8]) -> u64
    ensures { result ≡ min (length (short bytes.now)) (2 ^ 64 - 1) }
{
    (bytes.len() as u64).saturating_add(1)
}

fn type_size(kind: &SqlType) -> u64
    ensures { result ≡ length (type_bytes kind.now) }
{
    match kind {
        SqlType::BigInt | SqlType::Int | SqlType::Bool => 1,
        SqlType::Varchar(_) | SqlType::Varbinary(_) | SqlType::Decimal(_, _) => 3,
    }
}

fn default_size(default: &Option<Value>) -> u64
    ensures { result ≡ min (length (default_bytes default.now)) (2 ^ 64 - 1) }
{
    match default {
        Some(value) => row_cell_size(value),
        None => 0,
    }
}

fn column_size(column: &Column) -> u64
    ensures { result ≡ min (length (column_bytes column.now)) (2 ^ 64 - 1) }
{
    short_size(column.name.as_slice())
        .saturating_add(type_size(&column.kind))
        .saturating_add(1)
        .saturating_add(default_size(&column.default))
}

fn columns_size(columns: &[Column]) -> u64
    ensures { result ≡ min (length (flat_map column_bytes columns.now)) (2 ^ 64 - 1) }
{
    let mut size = 0u64;
    for column in columns {
        size = size.saturating_add(column_size(column));
    }
    size
}

fn index_size(index: &IndexDef) -> u64
    ensures { result ≡ min (length (index_bytes index.now)) (2 ^ 64 - 1) }
{
    short_size(index.name.as_slice())
        .saturating_add(1)
        .saturating_add(short_size(index.columns.as_slice()))
}

fn indexes_size(indexes: &[IndexDef]) -> u64
    ensures { result ≡ min (length (flat_map index_bytes indexes.now)) (2 ^ 64 - 1) }
{
    let mut size = 0u64;
    for index in indexes {
        size = size.saturating_add(index_size(index));
    }
    size
}

fn check_size(check: &CheckDef) -> u64
    ensures { result ≡ min (length (check_bytes check.now)) (2 ^ 64 - 1) }
{
    short_size(check.name.as_slice())
        .saturating_add(2)
        .saturating_add(check.text.as_slice().len() as u64)
}

fn checks_size(checks: &[CheckDef]) -> u64
    ensures { result ≡ min (length (flat_map check_bytes checks.now)) (2 ^ 64 - 1) }
{
    let mut size = 0u64;
    for check in checks {
        size = size.saturating_add(check_size(check));
    }
    size
}

fn names_size(names: &[Text]) -> u64
    ensures { result ≡ min (length (flat_map short names.now)) (2 ^ 64 - 1) }
{
    let mut size = 0u64;
    for name in names {
        size = size.saturating_add(short_size(name.as_slice()));
    }
    size
}

fn foreign_size(foreign: &ForeignKey) -> u64
    ensures { result ≡ min (length (foreign_bytes foreign.now)) (2 ^ 64 - 1) }
{
    short_size(foreign.name.as_slice())
        .saturating_add(short_size(foreign.columns.as_slice()))
        .saturating_add(short_size(foreign.parent.as_slice()))
        .saturating_add(names_size(foreign.parent_columns.as_slice()))
}

fn foreign_keys_size(foreign: &[ForeignKey]) -> u64
    ensures { result ≡ min (length (flat_map foreign_bytes foreign.now)) (2 ^ 64 - 1) }
{
    let mut size = 0u64;
    for key in foreign {
        size = size.saturating_add(foreign_size(key));
    }
    size
}

fn schema_size(schema: &Schema) -> u64
    ensures { result ≡ min (length (schema_bytes schema.now)) (2 ^ 64 - 1) }
{
    columns_size(schema.columns.as_slice())
        .saturating_add(short_size(schema.key.as_slice()))
        .saturating_add(indexes_size(schema.indexes.as_slice()))
        .saturating_add(checks_size(schema.checks.as_slice()))
        .saturating_add(foreign_keys_size(schema.foreign.as_slice()))
        .saturating_add(4)
}

fn has_few_bytes(schema: &Schema) -> bool
    ensures { result ≡ nat_le (length (schema_bytes schema.now)) most_schema_bytes }
{
    schema_size(schema) <= MOST_SCHEMA_BYTES
}

fn is_short(name: &Text) -> bool
    ensures { result ≡ is_short_name name.now }
{
    let count = name.as_slice().len();
    1 <= count && count <= MOST_NAME_BYTES
}

fn are_short_columns(columns: &[Column]) -> bool
    ensures { result ≡ list_all (λ column. is_short_name column.name) columns.now }
{
    columns.iter().all(|column| is_short(&column.name))
}

fn are_short_indexes(indexes: &[IndexDef]) -> bool
    ensures { result ≡ list_all (λ index. is_short_name index.name) indexes.now }
{
    indexes.iter().all(|index| is_short(&index.name))
}

fn are_short_checks(checks: &[CheckDef]) -> bool
    ensures { result ≡ list_all (λ check. is_short_name check.name) checks.now }
{
    checks.iter().all(|check| is_short(&check.name))
}

fn are_short(names: &[Text]) -> bool
    ensures { result ≡ list_all is_short_name names.now }
{
    names.iter().all(is_short)
}

fn has_short_names(foreign: &ForeignKey) -> bool
    ensures { result ≡ has_short_names foreign.now }
{
    is_short(&foreign.name)
        && is_short(&foreign.parent)
        && are_short(foreign.parent_columns.as_slice())
}

fn have_short_names(foreign: &[ForeignKey]) -> bool
    ensures { result ≡ list_all has_short_names foreign.now }
{
    foreign.iter().all(has_short_names)
}

/// Whether the schema keeps the limits on data.
pub fn keeps_limits(schema: &Schema) -> bool
    ensures { result ≡ is_within_limits schema.now }
{
    schema.columns.as_slice().len() <= MOST_COLUMNS
        && schema.indexes.as_slice().len() <= MOST_INDEXES
        && schema.checks.as_slice().len() <= MOST_CHECKS
        && schema.foreign.as_slice().len() <= MOST_FOREIGN_KEYS
        && are_short_columns(schema.columns.as_slice())
        && are_short_indexes(schema.indexes.as_slice())
        && are_short_checks(schema.checks.as_slice())
        && have_short_names(schema.foreign.as_slice())
        && has_few_bytes(schema)
}
