//! Laws, for proofs here. None does anything.

ghost use Rattle.constraint_scan.specs.Changed.{ChangesTell};
ghost use Rattle.constraint_scan.specs.Refusals.{ConstraintsSuffice};

/// What a refusal depends on: schemas and rows alone, and constraints that are there.
pub(crate) fn law_of_refusals()
    ensures { ConstraintsSuffice }
{}

/// Between databases with the same names and schemas a refusal is told by the rows that changed.
pub(crate) fn law_of_changes()
    ensures { ChangesTell }
{}
