//! How many bytes schemas have.

ghost use Rattle.std.specs.Prelude.{◌≡◌, ◌<◌, ◌^◌, length};
ghost use Rattle.schema_model.specs.SchemaBytes.{schema_bytes};

use crate::lists::items_size;
use crate::schemas::Schema;

/// How many bytes the schema has, also where they pass the limits that its writer asks for.
pub fn schema_size(schema: &Schema) -> u64
    requires { length (schema_bytes schema.now) < 2 ^ 64 }
    ensures { result ≡ length (schema_bytes schema.now) }
{
    5 + items_size(schema.columns.as_slice())
        + schema.key.as_slice().len() as u64
        + items_size(schema.indexes.as_slice())
        + items_size(schema.checks.as_slice())
        + items_size(schema.foreign.as_slice())
}
