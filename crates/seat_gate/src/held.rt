//! The value, while a seat holds it.
use crate::gate::Gate;
use crate::kept::Kept;
use crate::place::SeatState;
use atomic_table::Seat;

/// The value, while a seat holds it. It has to be left: a function that lets go of it does not compile.
pub struct Held<'a, T: Kept> {
    pub(crate) gate: &'a Gate<T>,
    pub(crate) seat: Seat<Option<T>, SeatState>,
    pub(crate) value: T,
}
