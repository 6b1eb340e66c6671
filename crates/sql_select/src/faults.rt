//! Why a SELECT has no answer.

ghost use Rattle.std.specs.Prelude.{◌≡◌};

use plain_sql::Refused;
use std::alloc::{AllocError, AllocFailed};
use thiserror::Error;

/// Why a SELECT has no answer.
#[derive(Clone, Copy, Debug, PartialEq, Eq, Error)]
pub enum AskFault {
    #[error("out of memory")]
    Memory,
    /// By the number of the first refusal.
    #[error("refused with {0}")]
    Refused(u16),
}

impl From<AllocError> for AskFault {
    ghost use Rattle.sql_select.specs.declared.faults.AskFault.TheVariants.{Memory};

    ghost from_gives = { λ _ fault. fault ≡ Memory };

    fn from(_error: AllocError) -> AskFault {
        AskFault::Memory
    }
}

impl<T: Drop> From<AllocFailed<T>> for AskFault {
    ghost use Rattle.sql_select.specs.declared.faults.AskFault.TheVariants.{Memory};

    ghost from_gives = { λ _ fault. fault ≡ Memory };

    fn from(_error: AllocFailed<T>) -> AskFault {
        AskFault::Memory
    }
}

impl From<Refused> for AskFault {
    ghost use Rattle.sql_select.specs.Gives.{as_fault};

    ghost from_gives = { λ refused fault. fault ≡ as_fault refused };

    fn from(refused: Refused) -> AskFault {
        match refused {
            Refused::Memory => AskFault::Memory,
            Refused::By(number) => AskFault::Refused(number),
        }
    }
}
