//! Schemas read and merged, and a row taken from one to another.

ghost use Rattle.std.specs.Prelude.{◌≡◌, [], true, IfOk};
ghost use Rattle.schema_model.specs.Limits.{is_within_limits};
ghost use Rattle.unit_tests.specs.Samples.{id_schema, id_type};

use schema_merge::{SchemaFault, merge, project};
use schema_model::{Column, Schema, read_schema};
use std::alloc::{AllocError, Global};
use std::test::*;
use tuple_codec::{Row, Sequence, SqlType, Text, Value};

/// The schema of a table (id BIGINT PRIMARY KEY, name VARCHAR(20)).
const TWO_COLUMNS: [u8; 20] = *b"\x02\x02id\x01\x01\x04name\x04\x00\x14\x00\x01\x00\x00\x00\x00";

fn id_type(wide: bool) -> SqlType
    ensures { result ≡ id_type wide }
{
    if wide { SqlType::BigInt } else { SqlType::Int }
}

/// The schema of a table (id BIGINT PRIMARY KEY), or INT where it isn't wide.
pub fn schema_of_id(alloc: Global, wide: bool) -> Result<Schema, AllocError>
    ensures is { IfOk result (λ schema. schema ≡ id_schema wide) }
    ensures limits { IfOk result (λ schema. is_within_limits schema ≡ true) }
    ensures bare { IfOk result (λ schema. schema.indexes ≡ []) }
{
    let mut columns = Sequence::new(alloc);
    columns.push(Column {
        name: Text::from_slice(alloc, b"id")?,
        kind: id_type(wide),
        not_null: true,
        default: None,
    })?;
    let mut key = Sequence::new(alloc);
    key.push(0)?;
    Ok(Schema {
        columns,
        key,
        indexes: Sequence::new(alloc),
        checks: Sequence::new(alloc),
        foreign: Sequence::new(alloc),
    })
}

/// Whether three times one schema merge to that one.
fn is_merged(alloc: Global, schema: &Schema) -> Result<bool, AllocError>
    requires { is_within_limits schema.now ≡ true }
{
    match merge(alloc, Some(schema), schema, schema) {
        Ok(merged) => Ok(merged == *schema),
        Err(SchemaFault::Memory) => Err(AllocError),
        Err(SchemaFault::Conflict { .. }) => Ok(false),
    }
}

/// Whether a column of two types, without a base, is told as the part in conflict.
fn is_conflict_told(alloc: Global, ours: &Schema, theirs: &Schema) -> Result<bool, AllocError>
    requires ours { is_within_limits ours.now ≡ true }
    requires theirs { is_within_limits theirs.now ≡ true }
{
    match merge(alloc, None, ours, theirs) {
        Ok(_) => Ok(false),
        Err(SchemaFault::Memory) => Err(AllocError),
        Err(SchemaFault::Conflict { part }) => Ok(part.is(b"id")),
    }
}

/// Whether a row that goes from a schema to the same one stays as it is.
fn is_row_kept(alloc: Global, schema: &Schema) -> Result<bool, AllocError> {
    let mut row = Row::new(alloc);
    row.push(Value::Int(7))?;
    Ok(project(alloc, &row, schema, schema)? == row)
}

#[test]
fn schemas_merge_by_their_columns(rt: HostRuntime) -> Result<(), Fail> {
    let wide = schema_of_id(rt.alloc(), true)?;
    assert!(rt; is_merged(rt.alloc(), &wide)? && is_row_kept(rt.alloc(), &wide)?);
    let narrow = schema_of_id(rt.alloc(), false)?;
    assert!(rt; is_conflict_told(rt.alloc(), &narrow, &wide)?);
    Ok(())
}

#[test]
fn a_schema_of_one_byte_less_is_none(rt: HostRuntime) -> Result<(), Fail> {
    assert!(rt; read_schema(rt.alloc(), &TWO_COLUMNS)?.is_some());
    assert!(rt; read_schema(rt.alloc(), &TWO_COLUMNS[..19])?.is_none());
    Ok(())
}
