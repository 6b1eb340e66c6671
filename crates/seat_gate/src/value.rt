//! The value that is held, in a file of its own: its clause names the row of `Held`.
ghost use Rattle.std.specs.Prelude.{◌≡◌, []};
ghost use types.Logic.{sem};
ghost use mir.Syntax.{named};
ghost use Rattle.std.specs.Borrow.{follows};
ghost use Rattle.seat_gate.specs.contracts.held.Held.{the_row};
ghost use Rattle.seat_gate.specs.Words.{held_value};

use crate::held::Held;
use crate::kept::Kept;

impl<'a, T: Kept> Held<'a, T> {
    /// The value, to read and to write.
    pub fn value(&mut self) -> &mut T
        ensures shows { result.now ≡ held_value self.old }
        ensures* lends { sem 𝓛 (follows (the_row (record { mir = named 1; lft = [] }) T.row T.Kept) T.row self.entry.ghost_name result.ghost_name (λ w. record self.old { value = w })) }
    {
        &mut self.value
    }
}
