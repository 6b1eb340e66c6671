//! The gate.
ghost use Rattle.std.specs.Prelude.{◌≡◌};

use crate::kept::Kept;
use crate::place::SeatState;
use crate::plays::Order;
use atomic_table::Table;
use std::alloc::Global;
use std::snapshot::Snapshot;

/// A value that threads take turns at.
#[derive(Drop)]
pub struct Gate<T: Kept> {
    pub(crate) table: Table<Option<T>, SeatState, Snapshot<T>, Order<T>, Global>,
    ghost sized: { (table.shared.table_id.words ≡ 4) × (table.shared.table_id.slots ≡ 1) },
}
