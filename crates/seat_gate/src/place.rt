//! Where a seat stands.
ghost use Rattle.std.specs.Prelude.{ℕ, Bool, List};
ghost use base.Fml.{ftrue};
ghost use Rattle.seat_gate.specs.History.{Entry, View};

use std::marker::Model;

/// What a seat knows, and where it stands in the line. No value of it is made: it is there for contracts alone.
pub struct SeatState {
    pub ghost view: { View },
    /// The shorter of two beginnings of the history, from when the seat last took another in.
    pub ghost recalls: { List Entry },
    /// Whether it waits with a ticket, and which.
    pub ghost waits: { Bool },
    pub ghost ticket: { ℕ },
    /// Whether its turn has come.
    pub ghost serves: { Bool },
    /// Whether it was joined into another.
    pub ghost spent: { Bool },
}

impl Model for SeatState {
    ghost also_owns = { λ _. ftrue };
}
