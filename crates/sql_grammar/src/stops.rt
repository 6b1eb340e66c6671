//! Why a reader of pieces stopped: memory was wanting, or no rule goes on there.

ghost use Rattle.std.specs.Prelude.{◌≡◌};
ghost use Rattle.sql_grammar.specs.declared.stops.Stop.TheVariants.{Memory};

use std::alloc::{AllocError, AllocFailed};

/// Why a reader stopped.
#[derive(Clone, Copy, PartialEq, Eq)]
pub enum Stop {
    Memory,
    /// No rule goes on where so many pieces are left.
    At(usize),
}

impl From<AllocError> for Stop {
    ghost from_gives = { λ _ stop. stop ≡ Memory };

    fn from(_error: AllocError) -> Stop {
        Stop::Memory
    }
}

impl<T: Drop> From<AllocFailed<T>> for Stop {
    ghost from_gives = { λ _ stop. stop ≡ Memory };

    fn from(_error: AllocFailed<T>) -> Stop {
        Stop::Memory
    }
}
