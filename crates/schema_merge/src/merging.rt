//! The schema that two sides come to, part by part, or the first part in conflict.

ghost use Rattle.std.specs.Prelude.{◌≡◌, ◌<◌, true, length, IfOk};
ghost use Rattle.std.specs.Cmp.Lexicographic.{pointwise};
ghost use Rattle.std.specs.Option.{option_copied};
ghost use Rattle.schema_model.specs.Limits.{is_within_limits};
ghost use Rattle.schema_model.specs.Sameness.{is_same_column, is_same_option};
ghost use Rattle.schema_merge.specs.Parts.{sides};
ghost use Rattle.schema_merge.specs.Merging.{Answers, columns_at, keys_agree, names3, over_columns, parts3, same_key, schema3};

use crate::choosing::part_of;
use crate::copies::copy_text;
use crate::faults::SchemaFault;
use crate::finding::{column_at, find, moved_places};
use crate::parts::{Named, Part};
use crate::same::same_column;
use schema_model::{Column, Schema};
use std::alloc::{AllocError, Global};
use tuple_codec::{Sequence, Text};

/// The schema that two sides come to, each having taken it on from one base, or from none; or the first part in conflict. Parts are merged by
/// their names, and positions follow. What is merged needn't keep the limits on schemas.
#[tactic(auto, unfolding(crate::specs::Merging::schema3))]
pub fn merge(
    alloc: Global,
    base: Option<&Schema>,
    ours: &Schema,
    theirs: &Schema,
) -> Result<Schema, SchemaFault>
    requires ours { is_within_limits ours.now ≡ true }
    requires theirs { is_within_limits theirs.now ≡ true }
    ensures { Answers result (schema3 (option_copied base.entry) ours.now theirs.now) }
{
    match parts_of::<Column>(alloc, base, ours, theirs, &[]) {
        Ok(columns) => over_columns(alloc, base, ours, theirs, columns),
        Err(fault) => Err(fault),
    }
}

/// The names of ours, and then theirs that ours haven't.
fn names_of<P: Named>(alloc: Global, ours: &[P], theirs: &[P]) -> Result<Vec<Text>, AllocError>
    ensures { IfOk result (λ names. names.items ≡ names3 P.called ours.now theirs.now) }
{
    let mut names = Vec::new(alloc);
    for part in ours {
        names.push(Text::from_slice(alloc, part.name())?)?;
    }
    for other in theirs {
        match find(ours, other.name()) {
            Some(_) => {}
            None => names.push(Text::from_slice(alloc, other.name())?)?,
        }
    }
    Ok(names)
}

/// The merged parts of one kind.
fn parts_of<P: Part>(
    alloc: Global,
    base: Option<&Schema>,
    ours: &Schema,
    theirs: &Schema,
    columns: &[Column],
) -> Result<Sequence<P>, SchemaFault>
    requires { length columns.now < 256 }
    ensures { Answers result (parts3 P.called P.kind (sides (option_copied base.entry) ours.now theirs.now) columns.now) }
{
    let names = names_of::<P>(alloc, P::parts(ours), P::parts(theirs))?;
    let mut parts = Sequence::new(alloc);
    for name in &names {
        match part_of::<P>(alloc, base, ours, theirs, columns, name.as_slice())? {
            Some(Some(part)) => parts.push(part)?,
            Some(None) => {}
            None => {
                let part = copy_text(alloc, name)?;
                return Err(SchemaFault::Conflict { part });
            }
        }
    }
    Ok(parts)
}

fn same_columns_at(
    columns: &[Column],
    places: &[u8],
    others: &[Column],
    other_places: &[u8],
) -> bool
    ensures { result ≡ pointwise (is_same_option is_same_column) (columns_at columns.now places.now) (columns_at others.now other_places.now) }
{
    match (places, other_places) {
        ([], []) => true,
        ([place, places @ ..], [other, other_places @ ..]) => {
            same_perhaps(column_at(columns, *place), column_at(others, *other))
                && same_columns_at(columns, places, others, other_places)
        }
        _ => false,
    }
}

fn same_perhaps(a: Option<&Column>, b: Option<&Column>) -> bool
    ensures { result ≡ is_same_option is_same_column (option_copied a.entry) (option_copied b.entry) }
{
    match (a, b) {
        (None, None) => true,
        (Some(a), Some(b)) => same_column(a, b),
        _ => false,
    }
}

fn same_key(a: &Schema, b: &Schema) -> bool
    ensures { result ≡ same_key a.now b.now }
{
    same_columns_at(
        a.columns.as_slice(),
        a.key.as_slice(),
        b.columns.as_slice(),
        b.key.as_slice(),
    )
}

/// Whether all that are present have one primary key.
fn keys_agree(base: Option<&Schema>, ours: &Schema, theirs: &Schema) -> bool
    ensures { result ≡ keys_agree (sides (option_copied base.entry) ours.now theirs.now) }
{
    same_key(theirs, ours)
        && match base {
            Some(base) => same_key(base, ours),
            None => true,
        }
}

/// The schema of the merged columns.
fn over_columns(
    alloc: Global,
    base: Option<&Schema>,
    ours: &Schema,
    theirs: &Schema,
    columns: Sequence<Column>,
) -> Result<Schema, SchemaFault>
    requires { length columns < 256 }
    ensures { Answers result (over_columns (sides (option_copied base.entry) ours.now theirs.now) columns) }
{
    if !keys_agree(base, ours, theirs) {
        let part = Text::from_slice(alloc, b"primary key")?;
        return Err(SchemaFault::Conflict { part });
    }
    let key = moved_places(alloc, columns.as_slice(), ours, ours.key.as_slice())?;
    let indexes = parts_of(alloc, base, ours, theirs, columns.as_slice())?;
    let checks = parts_of(alloc, base, ours, theirs, columns.as_slice())?;
    let foreign = parts_of(alloc, base, ours, theirs, columns.as_slice())?;
    Ok(Schema {
        columns,
        key,
        indexes,
        checks,
        foreign,
    })
}
