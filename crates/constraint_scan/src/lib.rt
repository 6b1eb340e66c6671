//! Which refusal a statement has that brings rows which break a constraint, in a database that a draft keeps as trees.
//!
//! A database's violations, listed and recorded, are those of `violation_lists`, whose calls stand here too.
#![tactic(auto)]

mod cells;
mod changing;
mod judging;
mod laws;
mod pairing;
mod seeking;

pub use judging::{first_violation, first_violation_if, is_constrained_beside};
pub use violation_lists::{ListedViolation, record_violations, violations};
