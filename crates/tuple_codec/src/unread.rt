//! Why a written form wasn't read.

ghost use Rattle.std.specs.Prelude.{◌≡◌};
ghost use Rattle.tuple_codec.specs.declared.unread.Unread.TheVariants.{Memory};

use std::alloc::{AllocError, AllocFailed};

/// Why a written form wasn't read.
#[derive(Clone, Copy)]
pub enum Unread {
    Memory,
    /// Nothing of the kind has, or begins, the bytes.
    Malformed,
}

impl From<AllocError> for Unread {
    ghost from_gives = { λ _ e. e ≡ Memory };

    fn from(_error: AllocError) -> Unread {
        Unread::Memory
    }
}

impl<T: Drop> From<AllocFailed<T>> for Unread {
    ghost from_gives = { λ _ e. e ≡ Memory };

    fn from(_error: AllocFailed<T>) -> Unread {
        Unread::Memory
    }
}
