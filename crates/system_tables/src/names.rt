//! The names of the tables of three databases.

ghost use Rattle.std.specs.Prelude.{◌≡◌, IfOk};
ghost use Rattle.tuple_codec.specs.Edits.{order};
ghost use Rattle.schema_merge.specs.KeyByKey.{all_keys};
ghost use Rattle.system_tables.specs.Changes.{names_in};

use schema_merge::names_with;
use std::alloc::{AllocError, Global};
use table_root::TableEntry;
use tuple_codec::Text;

fn copies(alloc: Global, tables: &[TableEntry]) -> Result<Vec<Text>, AllocError>
    ensures { IfOk result (λ names. names.items ≡ names_in tables.now) }
{
    let mut names = Vec::new(alloc);
    for named in tables {
        names.push(Text::from_slice(alloc, named.name.as_slice())?)?;
    }
    Ok(names)
}

/// The names of three databases, in order and each once.
pub(crate) fn all_names(
    alloc: Global,
    base: &[TableEntry],
    ours: &[TableEntry],
    theirs: &[TableEntry],
) -> Result<Vec<Text>, AllocError>
    ensures { IfOk result (λ names. names.items ≡ all_keys order (names_in base.now) (names_in ours.now) (names_in theirs.now)) }
{
    let ours = copies(alloc, ours)?;
    let theirs = copies(alloc, theirs)?;
    let sides = names_with(alloc, ours.as_slice(), theirs.as_slice())?;
    let base = copies(alloc, base)?;
    names_with(alloc, base.as_slice(), sides.as_slice())
}
