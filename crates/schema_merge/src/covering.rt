//! Whether a column's type is at least as wide as in each of the schemas that are merged.

ghost use Rattle.std.specs.Prelude.{◌≡◌};
ghost use Rattle.std.specs.Option.{option_copied};
ghost use Rattle.schema_merge.specs.Parts.{covers_all, covers_in, sides};

use crate::finding::find;
use crate::same::covers;
use schema_model::{Column, Schema};
use tuple_codec::SqlType;

/// Whether a column's type is equal to or wider than its type in each schema that has it.
pub(crate) fn covers_all(
    column: &Column,
    base: Option<&Schema>,
    ours: &Schema,
    theirs: &Schema,
) -> bool
    ensures { result ≡ covers_all (sides (option_copied base.entry) ours.now theirs.now) column.now }
{
    let name = column.name.as_slice();
    covers_in(&column.kind, name, base)
        && covers_in(&column.kind, name, Some(ours))
        && covers_in(&column.kind, name, Some(theirs))
}

fn covers_in(kind: &SqlType, name: &[u8], schema: Option<&Schema>) -> bool
    ensures { result ≡ covers_in kind.now name.now (option_copied schema.entry) }
{
    match schema {
        Some(schema) => match find(schema.columns.as_slice(), name) {
            Some(column) => covers(kind, &column.kind),
            None => true,
        },
        None => true,
    }
}
