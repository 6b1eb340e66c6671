//! Lists: read, written and measured.

ghost use Rattle.std.specs.Prelude.{◌≡◌, ◌<◌, ◌^◌, ◌++◌, true, length, OnOk};
ghost use Rattle.std.specs.List.{flat_map, list_all};
ghost use Rattle.tuple_codec.specs.Fronts.{Gives};
ghost use Rattle.schema_model.specs.SchemaBytes.{listed};
ghost use Rattle.schema_model.specs.Reading.{items_at, list_at};

use crate::forms::FormBytes;
use crate::parts::Part;
use crate::readable::Readable;
use std::alloc::{AllocError, Global};
use tuple_codec::{Sequence, Unread};

/// A count in one byte, and that many things.
pub fn list_at<P: Readable>(alloc: Global, bytes: &[u8]) -> Result<(Sequence<P>, &[u8]), Unread>
    ensures { Gives (λ x. (x.0, x.1.now)) result (list_at P.front bytes.now) }
{
    match bytes {
        [count, rest @ ..] => items_at(alloc, usize::from(*count), rest),
        [] => Err(Unread::Malformed),
    }
}

/// So many things, one after another.
pub fn items_at<P: Readable>(
    alloc: Global,
    count: usize,
    bytes: &[u8],
) -> Result<(Sequence<P>, &[u8]), Unread>
    ensures { Gives (λ x. (x.0, x.1.now)) result (items_at P.front count bytes.now) }
{
    // each has a byte at least, so a count that the bytes cannot hold takes no memory for more
    let mut items = Vec::with_capacity(alloc, count.min(bytes.len()))?;
    let mut rest = bytes;
    for _ in 0..count {
        let (item, after) = P::read(alloc, rest)?;
        items.push(item)?;
        rest = after;
    }
    Ok((Sequence::from_vec(items), rest))
}

/// Writes a count in one byte, and the parts.
pub(crate) fn push_list<P: Part>(out: &mut FormBytes, items: &[P]) -> Result<(), AllocError>
    requires few { length items.now < 256 }
    requires allowed { list_all P.allowed items.now ≡ true }
    ensures { OnOk result (out.new.items ≡ out.old.items ++ listed P.written items.now) }
{
    out.push(items.len() as u8)?;
    push_items(out, items)
}

/// Writes parts one after another.
pub(crate) fn push_items<P: Part>(out: &mut FormBytes, items: &[P]) -> Result<(), AllocError>
    requires { list_all P.allowed items.now ≡ true }
    ensures { OnOk result (out.new.items ≡ out.old.items ++ flat_map P.written items.now) }
{
    for item in items {
        item.push(out)?;
    }
    Ok(())
}

/// How many bytes parts have one after another.
pub(crate) fn items_size<P: Part>(items: &[P]) -> u64
    requires { length (flat_map P.written items.now) < 2 ^ 64 }
    ensures { result ≡ length (flat_map P.written items.now) }
{
    let mut size = 0;
    for item in items {
        size += item.size();
    }
    size
}
