//! What is read from the front of written forms.

ghost use Rattle.std.specs.Prelude.{ℕ, List, Option};
ghost use Rattle.tuple_codec.specs.Fronts.{Gives};
ghost use Rattle.tuple_codec.specs.Fields.{short_at};
ghost use Rattle.schema_model.specs.Reading.{address_at};

use crate::fields::address_at;
use std::alloc::Global;
use tuple_codec::{Address, Text, Unread, short_at};

/// What can stand at the front of bytes, one after another too: see [`crate::items_at`].
pub trait Readable: Drop {
    /// What stands at the front of bytes, and the bytes after it.
    ghost front: { List ℕ → Option (Self × List ℕ) };

    /// Reads it. Where nothing of the kind stands there the bytes are malformed; want of memory says nothing of them.
    fn read(alloc: Global, bytes: &[u8]) -> Result<(Self, &[u8]), Unread>
        ensures { Gives (λ x. (x.0, x.1.now)) result (front bytes.now) };
}

impl Readable for Text {
    ghost front = { short_at };

    fn read(alloc: Global, bytes: &[u8]) -> Result<(Text, &[u8]), Unread> {
        let (name, rest) = short_at(bytes)?;
        Ok((Text::from_slice(alloc, name)?, rest))
    }
}

impl Readable for Address {
    ghost front = { address_at };

    fn read(_alloc: Global, bytes: &[u8]) -> Result<(Address, &[u8]), Unread> {
        address_at(bytes)
    }
}
