//! Schemas written, alone into one buffer made to its measure, or behind other bytes.

ghost use Rattle.std.specs.Prelude.{◌≡◌, ◌++◌, true, IfOk, OnOk};
ghost use Rattle.schema_model.specs.SchemaBytes.{schema_bytes};
ghost use Rattle.schema_model.specs.Schemas.{is_schema};
ghost use Rattle.schema_model.specs.Limits.{is_within_limits};

use crate::forms::{FormBytes, push_short};
use crate::lists::push_list;
use crate::schemas::Schema;
use crate::sizes::schema_size;
use smallvec::SmallVec;
use std::alloc::{AllocError, Global};
use tuple_codec::Blob;

/// The schema's bytes.
pub fn write_schema(alloc: Global, schema: &Schema) -> Result<Blob, AllocError>
    requires schema { is_schema schema.now ≡ true }
    requires limits { is_within_limits schema.now ≡ true }
    ensures { IfOk result (λ bytes. bytes ≡ schema_bytes schema.now) }
{
    let mut out = SmallVec::with_capacity(alloc, schema_size(schema) as usize)?;
    push_schema(&mut out, schema)?;
    Ok(Blob::from_vec(out.into_vec()?))
}

/// Writes the schema's bytes, as many as `schema_size` tells, behind what stands there.
pub fn push_schema(out: &mut FormBytes, schema: &Schema) -> Result<(), AllocError>
    requires schema { is_schema schema.now ≡ true }
    requires limits { is_within_limits schema.now ≡ true }
    ensures { OnOk result (out.new.items ≡ out.old.items ++ schema_bytes schema.now) }
{
    push_list(out, schema.columns.as_slice())?;
    push_short(out, schema.key.as_slice())?;
    push_list(out, schema.indexes.as_slice())?;
    push_list(out, schema.checks.as_slice())?;
    push_list(out, schema.foreign.as_slice())
}
