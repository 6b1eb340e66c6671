//! Lists of names in one, in order and each once.

ghost use Rattle.std.specs.Prelude.{◌≡◌, ◌++◌, [], ◌∷◌, IfOk, OnOk};
ghost use Rattle.tuple_codec.specs.Edits.{order};
ghost use Rattle.schema_merge.specs.KeyByKey.{keys_with};

use std::alloc::{AllocError, Global};
use std::cmp::Ordering;
use tuple_codec::Text;

fn push_copy(alloc: Global, out: &mut Vec<Text>, name: &Text) -> Result<(), AllocError>
    ensures { OnOk result (out.new.items ≡ out.old.items ++ name.now ∷ []) }
{
    out.push(Text::from_slice(alloc, name.as_slice())?)?;
    Ok(())
}

fn push_copies(alloc: Global, out: &mut Vec<Text>, names: &[Text]) -> Result<(), AllocError>
    ensures { OnOk result (out.new.items ≡ out.old.items ++ names.now) }
{
    for name in names {
        push_copy(alloc, out, name)?;
    }
    Ok(())
}

/// Adds the names of both lists, in order and each once. There are few names, so the calls don't go deep.
fn push_both(
    alloc: Global,
    out: &mut Vec<Text>,
    names: &[Text],
    others: &[Text],
) -> Result<(), AllocError>
    ensures { OnOk result (out.new.items ≡ out.old.items ++ keys_with order names.now others.now) }
{
    let [name, rest @ ..] = names else {
        return push_copies(alloc, out, others);
    };
    let [other, more @ ..] = others else {
        push_copy(alloc, out, name)?;
        return push_both(alloc, out, rest, others);
    };
    match other.as_slice().cmp(name.as_slice()) {
        Ordering::Less => {
            push_copy(alloc, out, other)?;
            push_both(alloc, out, names, more)
        }
        Ordering::Equal => {
            push_copy(alloc, out, name)?;
            push_both(alloc, out, rest, more)
        }
        Ordering::Greater => {
            push_copy(alloc, out, name)?;
            push_both(alloc, out, rest, others)
        }
    }
}

/// The names of two lists, each of which rises by bytes, in one list that rises: a name of both stands in it once. Err is want of memory.
pub fn names_with(alloc: Global, names: &[Text], others: &[Text]) -> Result<Vec<Text>, AllocError>
    ensures { IfOk result (λ all. all.items ≡ keys_with order names.now others.now) }
{
    let mut all = Vec::new(alloc);
    push_both(alloc, &mut all, names, others)?;
    Ok(all)
}
