//! The number of digits behind a decimal's point, which is never above 18.

ghost use Rattle.std.specs.Prelude.{◌≡◌, ◌≤◌, IfSome, OnSome, IsSome, ◌↔◌, SomeIff};

use std::marker::Model;

/// How many digits of a decimal stand behind its point: at most 18. Contracts see the number.
#[derive(Clone, Copy, PartialEq, Eq)]
pub struct Scale {
    digits: u8,
}

impl Model for Scale {
    ghost use Rattle.std.specs.Prelude.{ℕ, ◌≤◌};
    ghost use Rattle.std.specs.Coded.{coded_ℕ};

    ghost Value = { ℕ };

    ghost coded = { coded_ℕ };

    ghost view = { λ s. s.digits };

    ghost invariant = { λ s. s.digits ≤ 18 };

    ghost inverse = { λ n. record { digits = n } };
}

impl Scale {
    /// No digit behind the point.
    pub fn zero() -> Scale
        ensures { result ≡ 0 }
    {
        Scale { digits: 0 }
    }

    /// The scale of so many digits, or None where that is more than 18.
    pub fn new(digits: u8) -> Option<Scale>
        ensures value { IfSome result (λ scale. scale ≡ digits) }
        ensures given { IsSome result ↔ (digits ≤ 18) }
    {
        if digits <= 18 {
            Some(Scale { digits })
        } else {
            None
        }
    }

    /// The number itself; 64 bits hold 10 to the power of it.
    pub fn get(self) -> u8
        ensures value { result ≡ self }
        ensures bound { result ≤ 18 }
    {
        self.digits
    }
}
