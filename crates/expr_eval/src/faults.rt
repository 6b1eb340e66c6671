//! Why an expression has no kind, or no value on a row.

use std::alloc::{AllocError, AllocFailed};

/// Why an expression has no kind.
#[derive(Clone, Copy, PartialEq, Eq)]
pub enum BindFault {
    Memory,
    /// 1054: a column that no source has, or two have. 9001: an operation on kinds that it doesn't take.
    /// 9013: an aggregate call, a variable or `active_branch()`.
    Refused(u16),
}

/// Why an expression has no value on a row.
#[derive(Clone, Copy, PartialEq, Eq)]
pub enum EvalFault {
    Memory,
    /// A whole number outside 64 bits, or a decimal of more than 18 digits.
    OutOfRange,
}

impl From<AllocError> for BindFault {
    ghost use Rattle.std.specs.Prelude.{◌≡◌};
    ghost use Rattle.expr_eval.specs.declared.faults.BindFault.TheVariants.{Memory};

    ghost from_gives = { λ _ e. e ≡ Memory };

    fn from(_error: AllocError) -> BindFault {
        BindFault::Memory
    }
}

impl From<AllocError> for EvalFault {
    ghost use Rattle.std.specs.Prelude.{◌≡◌};
    ghost use Rattle.expr_eval.specs.declared.faults.EvalFault.TheVariants.{Memory};

    ghost from_gives = { λ _ e. e ≡ Memory };

    fn from(_error: AllocError) -> EvalFault {
        EvalFault::Memory
    }
}
