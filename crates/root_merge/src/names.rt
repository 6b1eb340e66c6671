//! The names of three databases in order, each with what becomes of its tables.

ghost use Rattle.std.specs.Prelude.{◌≡◌, IfOk};
ghost use Rattle.tuple_codec.specs.Edits.{order};
ghost use Rattle.schema_merge.specs.KeyByKey.{all_keys};
ghost use Rattle.root_merge.specs.Names.{all_chosen, chosen_for, names_in};

use crate::choosing::{Choice, address_in, chosen};
use schema_merge::names_with;
use std::alloc::{AllocError, Global};
use table_root::TableEntry;
use tuple_codec::Text;

/// A name, and what becomes of its tables.
#[derive(Drop)]
pub(crate) struct Named {
    pub name: Text,
    pub choice: Choice,
}

fn copies(alloc: Global, tables: &[TableEntry]) -> Result<Vec<Text>, AllocError>
    ensures { IfOk result (λ names. names.items ≡ names_in tables.now) }
{
    let mut names = Vec::new(alloc);
    for named in tables {
        names.push(Text::from_slice(alloc, named.name.as_slice())?)?;
    }
    Ok(names)
}

/// The names of three databases, in order and each once.
fn all_names(
    alloc: Global,
    base: &[TableEntry],
    ours: &[TableEntry],
    theirs: &[TableEntry],
) -> Result<Vec<Text>, AllocError>
    ensures { IfOk result (λ names. names.items ≡ all_keys order (names_in base.now) (names_in ours.now) (names_in theirs.now)) }
{
    let ours = copies(alloc, ours)?;
    let theirs = copies(alloc, theirs)?;
    let sides = names_with(alloc, ours.as_slice(), theirs.as_slice())?;
    let base = copies(alloc, base)?;
    names_with(alloc, base.as_slice(), sides.as_slice())
}

fn chosen_for(name: Text, base: &[TableEntry], ours: &[TableEntry], theirs: &[TableEntry]) -> Named
    ensures { result ≡ chosen_for base.now ours.now theirs.now name }
{
    let key = name.as_slice();
    let choice = chosen(
        address_in(key, base),
        address_in(key, ours),
        address_in(key, theirs),
    );
    Named { name, choice }
}

/// What becomes of the tables of each name, by the addresses at which they stand in three databases.
pub(crate) fn all_chosen(
    alloc: Global,
    base: &[TableEntry],
    ours: &[TableEntry],
    theirs: &[TableEntry],
) -> Result<Vec<Named>, AllocError>
    ensures { IfOk result (λ names. names.items ≡ all_chosen base.now ours.now theirs.now) }
{
    let mut named = Vec::new(alloc);
    for name in all_names(alloc, base, ours, theirs)? {
        named.push(chosen_for(name, base, ours, theirs))?;
    }
    Ok(named)
}
