//! The types of a row's cells, as they stand in its item.

ghost use Rattle.std.specs.Prelude.{◌≡◌, true, IfOk};
ghost use Rattle.schema_model.specs.PlainTables.{body_types, is_keyed, key_types};
ghost use Rattle.schema_model.specs.Schemas.{is_schema};

use schema_model::Schema;
use std::alloc::{AllocError, Global};
use tuple_codec::SqlType;

/// The types of the cells of a schema's rows, as they stand in items: found once for a table.
#[derive(Drop)]
pub(crate) struct ItemTypes {
    pub(crate) key: Vec<SqlType>,
    pub(crate) body: Vec<SqlType>,
}

impl ItemTypes {
    pub(crate) fn new(alloc: Global, schema: &Schema) -> Result<ItemTypes, AllocError>
        requires { is_schema schema.now ≡ true }
        ensures key { IfOk result (λ types. types.key.items ≡ key_types schema.now) }
        ensures body { IfOk result (λ types. types.body.items ≡ body_types schema.now) }
    {
        let key = key_types(alloc, schema)?;
        let body = body_types(alloc, schema)?;
        Ok(ItemTypes { key, body })
    }
}

/// The types of the primary key, in its order.
pub(crate) fn key_types(alloc: Global, schema: &Schema) -> Result<Vec<SqlType>, AllocError>
    requires { is_schema schema.now ≡ true }
    ensures { IfOk result (λ types. types.items ≡ key_types schema.now) }
{
    let columns = schema.columns.as_slice();
    let mut types = Vec::new(alloc);
    for position in schema.key.as_slice() {
        types.push(columns[usize::from(*position)].kind)?;
    }
    Ok(types)
}

/// The types of the other columns, in their order.
pub(crate) fn body_types(alloc: Global, schema: &Schema) -> Result<Vec<SqlType>, AllocError>
    ensures { IfOk result (λ types. types.items ≡ body_types schema.now) }
{
    let key = schema.key.as_slice();
    let mut types = Vec::new(alloc);
    for (position, column) in schema.columns.as_slice().iter().enumerate() {
        if !is_keyed(key, position) {
            types.push(column.kind)?;
        }
    }
    Ok(types)
}

/// Whether a position stands in a key.
pub(crate) fn is_keyed(key: &[u8], position: usize) -> bool
    ensures { result ≡ is_keyed key.now position }
{
    key.iter().any(|other| usize::from(*other) == position)
}
