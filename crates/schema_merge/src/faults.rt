//! Why schemas don't merge.

use std::alloc::AllocError;
use tuple_codec::Text;

/// Why schemas didn't merge.
#[derive(Drop, PartialEq, Eq)]
pub enum SchemaFault {
    Memory,
    /// The first column, index, check or foreign key in conflict, or `primary key`.
    Conflict { part: Text },
}

impl From<AllocError> for SchemaFault {
    ghost use Rattle.std.specs.Prelude.{◌≡◌};
    ghost use Rattle.schema_merge.specs.declared.faults.SchemaFault.TheVariants.{Memory};

    ghost from_gives = { λ error fault. fault ≡ Memory };

    fn from(_error: AllocError) -> SchemaFault {
        SchemaFault::Memory
    }
}
