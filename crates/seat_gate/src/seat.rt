//! A thread's place at a gate.
ghost use Rattle.std.specs.Prelude.{◌≡◌, true};
ghost use Rattle.seat_gate.specs.Places.{is_at_rest};

use crate::place::SeatState;
use atomic_table::Badge;

/// A thread's place at a gate, which has no bytes. Contracts know which gate it is of and what it has seen and made there.
#[derive(Drop)]
pub struct Seat {
    pub(crate) badge: Badge<SeatState>,
    ghost rests: { is_at_rest badge.views ≡ true },
}
