//! Whether a merged schema keeps the limits, which may be more than its sides' parts together.

ghost use Rattle.std.specs.Prelude.{◌≡◌, true};
ghost use Rattle.std.specs.List.{list_all};
ghost use Rattle.schema_model.specs.Limits.{has_short_names, is_short_name, is_within_limits};
ghost use Rattle.schema_model.specs.Schemas.{is_schema};
ghost use Rattle.schema_model.specs.Spellings.{SchemasAreShort};

use schema_model::limits::{
    MOST_CHECKS, MOST_COLUMNS, MOST_FOREIGN_KEYS, MOST_INDEXES, MOST_NAME_BYTES, MOST_SCHEMA_BYTES,
};
use schema_model::{CheckDef, Column, ForeignKey, IndexDef, Schema, law_of_sizes, schema_size};

pub(crate) fn is_within_limits(schema: &Schema) -> bool
    requires { is_schema schema.now ≡ true }
    ensures { result ≡ is_within_limits schema.now }
{
    law_of_sizes();
    schema.columns.as_slice().len() <= MOST_COLUMNS
        && schema.indexes.as_slice().len() <= MOST_INDEXES
        && schema.checks.as_slice().len() <= MOST_CHECKS
        && schema.foreign.as_slice().len() <= MOST_FOREIGN_KEYS
        && columns_have_short_names(schema.columns.as_slice())
        && indexes_have_short_names(schema.indexes.as_slice())
        && checks_have_short_names(schema.checks.as_slice())
        && foreign_keys_have_short_names(schema.foreign.as_slice())
        && schema_size(schema) <= MOST_SCHEMA_BYTES
}

fn columns_have_short_names(columns: &[Column]) -> bool
    ensures { result ≡ list_all (λ column. is_short_name column.name) columns.now }
{
    columns
        .iter()
        .all(|column| is_short_name(column.name.as_slice()))
}

fn indexes_have_short_names(indexes: &[IndexDef]) -> bool
    ensures { result ≡ list_all (λ index. is_short_name index.name) indexes.now }
{
    indexes
        .iter()
        .all(|index| is_short_name(index.name.as_slice()))
}

fn checks_have_short_names(checks: &[CheckDef]) -> bool
    ensures { result ≡ list_all (λ check. is_short_name check.name) checks.now }
{
    checks
        .iter()
        .all(|check| is_short_name(check.name.as_slice()))
}

fn foreign_keys_have_short_names(foreign: &[ForeignKey]) -> bool
    ensures { result ≡ list_all has_short_names foreign.now }
{
    foreign.iter().all(|key| has_short_names(key))
}

fn has_short_names(key: &ForeignKey) -> bool
    ensures { result ≡ has_short_names key.now }
{
    is_short_name(key.name.as_slice())
        && is_short_name(key.parent.as_slice())
        && parent_columns_have_short_names(key)
}

fn parent_columns_have_short_names(key: &ForeignKey) -> bool
    ensures { result ≡ list_all is_short_name key.now.parent_columns }
{
    key.parent_columns
        .as_slice()
        .iter()
        .all(|name| is_short_name(name.as_slice()))
}

fn is_short_name(name: &[u8]) -> bool
    ensures { result ≡ is_short_name name.now }
{
    1 <= name.len() && name.len() <= MOST_NAME_BYTES
}
