//! What the program asks of the outside: sources, sinks and pacers, and that a call failed.

ghost use Rattle.std.specs.Prelude.{ℕ, ◌<◌, ◌≡◌, Bool, true, false, List, None, Option, Result};
ghost use Rattle.std.specs.Io.KnownBytes.{ReadConsumes, WriteAppends};
ghost use Rattle.std.specs.Io.{ReadsAtMost, WritesAtMost};
ghost use Rattle.wire_io.specs.Causes.{HasCause, IsCalm};
ghost use Rattle.wire_io.specs.Moves.{KeepsRoom, TakesSome};

/// A read or a write failed, and the object that it was asked of counted that.
#[derive(Debug, Clone, Copy, PartialEq, Eq)]
pub struct Failed;

/// Where bytes come from.
pub trait Source {
    // The bytes that it has left, where it tells them.
    ghost left: { Self → Option (List ℕ) } = { λ _. None };

    // How many faults it has counted. The count stands still at the last value of a u64.
    ghost faults: { Self → ℕ };

    // Whether it is known that its reads never fail.
    ghost steady: { Self → Bool } = { λ _. false };

    /// Moves the first bytes left into the front of `buf` and gives their number; 0 for a `buf` that isn't empty is the end.
    /// Of the rest of `buf` nothing is said, nor of any of it after a failure. A failure takes no byte and is counted.
    fn read(&mut self, buf: &mut [u8]) -> Result<usize, Failed>
        ensures bound { ReadsAtMost result buf.new }
        ensures bytes { ReadConsumes (left self.old) (left self.new) result buf.new }
        ensures cause { HasCause (faults self.old) (faults self.new) result }
        ensures calm { steady self.old ≡ true → IsCalm (faults self.old) (faults self.new) result }
        ensures steady { steady self.old ≡ true → steady self.new ≡ true };
}

/// Where bytes go.
pub trait Sink {
    // The bytes that it holds, where it tells them.
    ghost held: { Self → Option (List ℕ) } = { λ _. None };

    // How many faults it has counted. The count stands still at the last value of a u64.
    ghost faults: { Self → ℕ };

    // For how many more bytes it promises room. While there is some, no write fails.
    ghost room: { Self → ℕ } = { λ _. 0 };

    /// Appends the first bytes of `piece` and gives their number, which is at least 1 for a piece that isn't empty.
    /// A failure takes no byte and is counted; a device that takes nothing of a piece is one.
    fn write(&mut self, piece: &[u8]) -> Result<usize, Failed>
        ensures bound { WritesAtMost result piece.now }
        ensures some { TakesSome result piece.now }
        ensures bytes { WriteAppends (held self.old) (held self.new) result piece.now }
        ensures cause { HasCause (faults self.old) (faults self.new) result }
        ensures calm { 0 < room self.old → IsCalm (faults self.old) (faults self.new) result }
        ensures room { KeepsRoom (room self.old) (room self.new) result };
}

/// What is told before each statement, in the thread that is to run it.
pub trait Pacer: Sync {
    /// `session` counts from 0, `statement` from 1.
    fn before(&self, session: u32, statement: u32);
}

/// A pacer that does nothing.
#[derive(Clone, Copy, PartialEq, Eq)]
pub struct NoPace;

impl Pacer for NoPace {
    fn before(&self, _session: u32, _statement: u32) {}
}
