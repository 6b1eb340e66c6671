//! DOLT_MERGE, DOLT_CONFLICTS_RESOLVE and DOLT_VERIFY_CONSTRAINTS of a session in a transaction.
//!
//! The crates above use the clauses of the calls, over the definitions of `plain_sessions`, and `specs/Closing.antt`, `specs/Courses.antt` and
//! `specs/Steps.antt`.
#![tactic(auto)]

mod closing;
mod courses;
mod databases;
mod local;
mod messages;
mod planning;
mod replying;
mod resolving;
mod settling;
mod steps;
mod takings;
mod verifying;
mod ways;

pub use closing::merge_closes;
pub use courses::{Closing, Joined, MergeCourse, merge_course};
pub use local::merge_local;
pub use planning::{plan_closing, plan_merge};
pub use steps::{Made, Step, take_step};
