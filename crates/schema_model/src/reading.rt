//! Schemas read from left to right.

ghost use Rattle.std.specs.Prelude.{◌≡◌, IfOk};
ghost use Rattle.tuple_codec.specs.Fronts.{Gives};
ghost use Rattle.schema_model.specs.Reading.{schema_at, schema_of};
ghost use Rattle.schema_model.specs.Spellings.{ReadsSchema};

use crate::lists::list_at;
use crate::rules::is_schema;
use crate::schemas::Schema;
use std::alloc::{AllocError, Global};
use tuple_codec::{Sequence, Unread, short_at};

/// The schema that has these bytes, or None where no schema has them. It takes time for each byte once, and compares
/// each name, and each position of a list, with those after it.
pub fn read_schema(alloc: Global, bytes: &[u8]) -> Result<Option<Schema>, AllocError>
    ensures { IfOk result (λ schema. ReadsSchema bytes.now schema) }
{
    match schema_of(alloc, bytes) {
        Ok(schema) => Ok(Some(schema)),
        Err(Unread::Malformed) => Ok(None),
        Err(Unread::Memory) => Err(AllocError),
    }
}

/// The schema of these bytes, all of them.
fn schema_of(alloc: Global, bytes: &[u8]) -> Result<Schema, Unread>
    ensures { Gives (λ schema. schema) result (schema_of bytes.now) }
{
    let (schema, rest) = schema_at(alloc, bytes)?;
    if rest.is_empty() && is_schema(&schema) {
        Ok(schema)
    } else {
        Err(Unread::Malformed)
    }
}

/// The parts of a schema, of which not all rules are known yet.
#[tactic(auto, unfolding(crate::specs::Reading::schema_at))]
fn schema_at(alloc: Global, bytes: &[u8]) -> Result<(Schema, &[u8]), Unread>
    ensures { Gives (λ x. (x.0, x.1.now)) result (schema_at bytes.now) }
{
    let (columns, rest) = list_at(alloc, bytes)?;
    let (key, rest) = short_at(rest)?;
    let key = Sequence::from_vec(Vec::from_slice(alloc, key)?);
    let (indexes, rest) = list_at(alloc, rest)?;
    let (checks, rest) = list_at(alloc, rest)?;
    let (foreign, rest) = list_at(alloc, rest)?;
    let schema = Schema {
        columns,
        key,
        indexes,
        checks,
        foreign,
    };
    Ok((schema, rest))
}
