//! What becomes of the part of one name.

ghost use Rattle.std.specs.Prelude.{◌≡◌, ◌<◌, length, IfOk};
ghost use Rattle.std.specs.Option.{option_copied};
ghost use Rattle.tuple_codec.specs.RowRule.{same_option};
ghost use Rattle.schema_merge.specs.Parts.{sides};
ghost use Rattle.schema_merge.specs.Merging.{part3, same_pair, stands, taken};

use crate::finding::find;
use crate::parts::Part;
use schema_model::{Column, Schema};
use std::alloc::{AllocError, Global};

/// Whether a schema and another, or its absence, have the same under a name, a part or none.
fn same_in<P: Part>(schema: &Schema, other: Option<&Schema>, name: &[u8]) -> bool
    ensures { result ≡ same_option (same_pair P.kind) (stands P.called P.kind name.now (Some schema.now)) (stands P.called P.kind name.now (option_copied other.entry)) }
{
    match other {
        Some(other) => same_in_both::<P>(schema, other, name),
        None => match find::<P>(P::parts(schema), name) {
            Some(_) => false,
            None => true,
        },
    }
}

fn same_in_both<P: Part>(schema: &Schema, other: &Schema, name: &[u8]) -> bool
    ensures { result ≡ same_option (same_pair P.kind) (stands P.called P.kind name.now (Some schema.now)) (stands P.called P.kind name.now (Some other.now)) }
{
    match (
        find::<P>(P::parts(schema), name),
        find::<P>(P::parts(other), name),
    ) {
        (Some(part), Some(other_part)) => part.is_same(schema, other_part, other),
        (None, None) => true,
        _ => false,
    }
}

/// A side's part, or its absence, as it stands in the merged schema; None where it can't.
fn taken<P: Part>(
    alloc: Global,
    base: Option<&Schema>,
    ours: &Schema,
    theirs: &Schema,
    columns: &[Column],
    side: &Schema,
    name: &[u8],
) -> Result<Option<Option<P>>, AllocError>
    requires { length columns.now < 256 }
    ensures { IfOk result (λ part. part ≡ taken P.kind (sides (option_copied base.entry) ours.now theirs.now) columns.now (stands P.called P.kind name.now (Some side.now))) }
{
    match find::<P>(P::parts(side), name) {
        None => Ok(Some(None)),
        Some(part) => match part.moved(alloc, base, ours, theirs, columns, side)? {
            Some(moved) => Ok(Some(Some(moved))),
            None => Ok(None),
        },
    }
}

/// The part of a name in the merged schema, or its absence; None is a conflict.
pub(crate) fn part_of<P: Part>(
    alloc: Global,
    base: Option<&Schema>,
    ours: &Schema,
    theirs: &Schema,
    columns: &[Column],
    name: &[u8],
) -> Result<Option<Option<P>>, AllocError>
    requires { length columns.now < 256 }
    ensures { IfOk result (λ part. part ≡ part3 P.called P.kind (sides (option_copied base.entry) ours.now theirs.now) columns.now name.now) }
{
    if same_in::<P>(theirs, base, name) {
        taken(alloc, base, ours, theirs, columns, ours, name)
    } else if same_in::<P>(ours, base, name) {
        taken(alloc, base, ours, theirs, columns, theirs, name)
    } else if same_in::<P>(ours, Some(theirs), name) {
        taken(alloc, base, ours, theirs, columns, ours, name)
    } else {
        Ok(None)
    }
}
