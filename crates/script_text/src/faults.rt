//! Why bytes are no script.

ghost use Rattle.std.specs.Prelude.{◌≡◌};
ghost use Rattle.script_text.specs.declared.faults.ScriptFault.TheVariants.{Memory};

use std::alloc::{AllocError, AllocFailed};
use thiserror::Error;

/// The first line that breaks a rule of scripts, counted from 1 (0 where the whole input is too long), and the least
/// rule that it breaks.
#[derive(Clone, Copy, Debug, PartialEq, Eq)]
pub struct BadScript {
    pub line: u32,
    pub rule: u8,
}

/// Why bytes gave no script.
#[derive(Debug, Drop, Error)]
pub enum ScriptFault {
    #[error("out of memory")]
    Memory,
    #[error("a line breaks a rule of scripts")]
    Bad(BadScript),
}

impl From<AllocError> for ScriptFault {
    ghost from_gives = { λ _ fault. fault ≡ Memory };

    fn from(_error: AllocError) -> ScriptFault {
        ScriptFault::Memory
    }
}

impl<T: Drop> From<AllocFailed<T>> for ScriptFault {
    ghost from_gives = { λ _ fault. fault ≡ Memory };

    fn from(_error: AllocFailed<T>) -> ScriptFault {
        ScriptFault::Memory
    }
}
