//! Why a statement wrote nothing.

ghost use Rattle.std.specs.Prelude.{◌≡◌};
ghost use Rattle.sql_write.specs.declared.faults.SqlFault.TheVariants.{Memory};
ghost use Rattle.sql_write.specs.Making.{of_put, of_refused};

use chunk_store::{Clash, PutFault};
use plain_sql::Refused;
use std::alloc::{AllocError, AllocFailed};
use thiserror::Error;

/// Why a statement wrote nothing.
#[derive(Debug, Drop, Error)]
pub enum SqlFault {
    #[error("out of memory")]
    Memory,
    /// The number of the first refusal.
    #[error("refused with {}", .0)]
    Refused(u16),
    /// Two byte strings of one address were met.
    #[error("two byte strings of one address")]
    Collision(Clash),
}

impl From<AllocError> for SqlFault {
    ghost from_gives = { λ _ fault. fault ≡ Memory };

    fn from(_error: AllocError) -> SqlFault {
        SqlFault::Memory
    }
}

impl<T: Drop> From<AllocFailed<T>> for SqlFault {
    ghost from_gives = { λ _ fault. fault ≡ Memory };

    fn from(_error: AllocFailed<T>) -> SqlFault {
        SqlFault::Memory
    }
}

impl From<PutFault> for SqlFault {
    ghost from_gives = { λ put fault. fault ≡ of_put put };

    fn from(fault: PutFault) -> SqlFault {
        match fault {
            PutFault::Memory => SqlFault::Memory,
            PutFault::Collision(clash) => SqlFault::Collision(clash),
        }
    }
}

impl From<Refused> for SqlFault {
    ghost from_gives = { λ refused fault. fault ≡ of_refused refused };

    fn from(refused: Refused) -> SqlFault {
        match refused {
            Refused::Memory => SqlFault::Memory,
            Refused::By(number) => SqlFault::Refused(number),
        }
    }
}
