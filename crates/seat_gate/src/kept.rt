//! What a gate can keep.
ghost use Rattle.std.specs.Prelude.{List};
ghost use Rattle.seat_gate.specs.History.{Spelling, Entry};

/// A value that a gate keeps for those who take turns at it. Where it is `Send` its gate is shared among threads.
pub trait Kept: Drop {
    // How the value is written down. No running code reads it.
    ghost spelled: { Self → Spelling };
    // That the value fits a history: the spelling of the value with which the gate was opened, and the entries since.
    ghost fits: { Self → Spelling → List Entry → Type 0 };
}
