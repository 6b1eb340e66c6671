//! Why tables don't merge.

use chunk_store::{Clash, PutFault};
use schema_merge::SchemaFault;
use std::alloc::{AllocError, AllocFailed};
use thiserror::Error;
use tuple_codec::Text;

/// Why tables weren't merged.
#[derive(Debug, Drop, PartialEq, Eq, Error)]
pub enum MergeFault {
    #[error("out of memory")]
    Memory,
    /// Other bytes stand under the address of a node that was brought.
    #[error("two byte strings have one address")]
    Collision(Clash),
    /// What tables come to passes a limit on data.
    #[error("a merged table passes a limit")]
    Limit,
    /// The schemas don't merge: the part in conflict, and the table's name, which is empty where one table alone is merged.
    #[error("schemas don't merge")]
    Schema { table: Text, part: Text },
}

impl From<AllocError> for MergeFault {
    ghost use Rattle.std.specs.Prelude.{◌≡◌};
    ghost use Rattle.table_merge.specs.declared.faults.MergeFault.TheVariants.{Memory};

    ghost from_gives = { λ _ fault. fault ≡ Memory };

    fn from(_: AllocError) -> MergeFault {
        MergeFault::Memory
    }
}

/// Why something wasn't made of rows.
#[derive(Drop, PartialEq, Eq)]
pub(crate) enum Stop {
    Memory,
    Limit,
}

impl From<AllocError> for Stop {
    ghost use Rattle.std.specs.Prelude.{◌≡◌};
    ghost use Rattle.table_merge.specs.declared.faults.Stop.TheVariants.{Memory};

    ghost from_gives = { λ _ stop. stop ≡ Memory };

    fn from(_: AllocError) -> Stop {
        Stop::Memory
    }
}

impl<T: Drop> From<AllocFailed<T>> for Stop {
    ghost use Rattle.std.specs.Prelude.{◌≡◌};
    ghost use Rattle.table_merge.specs.declared.faults.Stop.TheVariants.{Memory};

    ghost from_gives = { λ _ stop. stop ≡ Memory };

    fn from(_: AllocFailed<T>) -> Stop {
        Stop::Memory
    }
}

impl From<Stop> for MergeFault {
    ghost use Rattle.std.specs.Prelude.{◌≡◌};
    ghost use Rattle.table_merge.specs.Merging.{fault_of_stop};

    ghost from_gives = { λ stop fault. fault ≡ fault_of_stop stop };

    fn from(stop: Stop) -> MergeFault {
        match stop {
            Stop::Memory => MergeFault::Memory,
            Stop::Limit => MergeFault::Limit,
        }
    }
}

impl From<PutFault> for MergeFault {
    ghost use Rattle.std.specs.Prelude.{◌≡◌};
    ghost use Rattle.table_merge.specs.Merging.{fault_of_put};

    ghost from_gives = { λ put fault. fault ≡ fault_of_put put };

    fn from(fault: PutFault) -> MergeFault {
        match fault {
            PutFault::Memory => MergeFault::Memory,
            PutFault::Collision(clash) => MergeFault::Collision(clash),
        }
    }
}
