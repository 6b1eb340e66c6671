//! Columns by name, and the scope that a table's own columns make.

ghost use Rattle.std.specs.Prelude.{◌≡◌, IfOk, map};
ghost use Rattle.plain_writes.specs.Violations.{column_place, own_scope};

use expr_eval::ScopeColumn;
use schema_model::Schema;
use std::alloc::{AllocError, Global};
use tuple_codec::{Sequence, Text};

/// Where a table's column of this name stands.
pub fn column_place(schema: &Schema, name: &[u8]) -> Option<usize>
    ensures { result ≡ column_place schema.now name.now }
{
    schema
        .columns
        .as_slice()
        .iter()
        .position(|column| column.name.is(name))
}

/// A table's columns as a CHECK, an UPDATE or a DELETE names them.
pub fn own_scope(
    alloc: Global,
    name: &[u8],
    schema: &Schema,
) -> Result<Sequence<ScopeColumn>, AllocError>
    ensures { IfOk result (λ scope. scope ≡ own_scope name.now schema.now) }
{
    let mut scope = Sequence::new(alloc);
    let columns = schema.columns.as_slice();
    for column in columns {
        scope.push(ScopeColumn {
            source: Text::from_slice(alloc, name)?,
            name: Text::from_slice(alloc, column.name.as_slice())?,
            kind: column.kind,
        })?;
    }
    Ok(scope)
}
