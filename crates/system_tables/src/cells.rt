//! Columns and cells of system tables.

ghost use Rattle.std.specs.Prelude.{◌≡◌, ◌++◌, IfOk, OnOk};
ghost use Rattle.plain_sessions.specs.SystemTables.{hash, number_column, text_column, truth_column};

use plain_sql::NamedType;
use std::alloc::{AllocError, Global};
use tuple_codec::{Address, Blob, Row, SqlType, Text, Value, copy_value};

pub(crate) fn number_column(alloc: Global, name: &[u8]) -> Result<NamedType, AllocError>
    ensures { IfOk result (λ column. column ≡ number_column name.now) }
{
    Ok(NamedType {
        name: Text::from_slice(alloc, name)?,
        kind: SqlType::BigInt,
    })
}

pub(crate) fn text_column(alloc: Global, name: &[u8]) -> Result<NamedType, AllocError>
    ensures { IfOk result (λ column. column ≡ text_column name.now) }
{
    Ok(NamedType {
        name: Text::from_slice(alloc, name)?,
        kind: SqlType::Varchar(65535),
    })
}

pub(crate) fn truth_column(alloc: Global, name: &[u8]) -> Result<NamedType, AllocError>
    ensures { IfOk result (λ column. column ≡ truth_column name.now) }
{
    Ok(NamedType {
        name: Text::from_slice(alloc, name)?,
        kind: SqlType::Bool,
    })
}

/// An address as its text.
pub(crate) fn hash(alloc: Global, address: &Address) -> Result<Value, AllocError>
    ensures { IfOk result (λ cell. cell ≡ hash address.now.0) }
{
    let text = address.text();
    Ok(Value::Text(Text::from_slice(alloc, &text)?))
}

/// Adds copies of these cells.
pub(crate) fn push_cells(alloc: Global, cells: &[Value], row: &mut Row) -> Result<(), AllocError>
    ensures { OnOk result (row.new ≡ row.old ++ cells.now) }
{
    for value in cells {
        row.push(copy_value(alloc, value)?)?;
    }
    Ok(())
}

pub(crate) fn copy_bytes(alloc: Global, bytes: &[u8]) -> Result<Blob, AllocError>
    ensures { IfOk result (λ copy. copy ≡ bytes.now) }
{
    Ok(Blob::from_vec(Vec::from_slice(alloc, bytes)?))
}
