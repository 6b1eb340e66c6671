//! The state that sessions share: branches with their records, the branch on which each session is, the moments so far, and the chunks in
//! which all of it stands.
#![tactic(auto)]

mod branches;
mod changes;
mod laws;
mod opening;
mod segments;
mod shared;
mod steps;

pub use changes::{BranchReply, BranchStep, DecisionPlan, Point, RecordChange, Settled};
pub use laws::{law_of_fit_records, law_of_settles, law_of_steps};
pub use shared::SharedDb;
