//! A count of the nodes that are read.

ghost use Rattle.std.specs.Prelude.{◌≡◌};
ghost use Rattle.pair_walk.specs.Counts.{counted};

/// How many nodes were read. At its last value, 2^64 - 1, the count stays.
#[derive(Clone, Copy, PartialEq, Eq)]
pub struct ReadCount(u64);

impl ReadCount {
    /// None yet.
    pub fn new() -> ReadCount
        ensures { result.0 ≡ 0 }
    {
        ReadCount(0)
    }

    /// How many nodes were read.
    pub fn count(&self) -> u64
        ensures { result ≡ self.now.0 }
    {
        self.0
    }

    pub(crate) fn raise(&mut self)
        ensures { self.new.0 ≡ counted self.old.0 1 }
    {
        self.0 = self.0.saturating_add(1);
    }
}
