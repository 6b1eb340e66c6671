//! DOLT_ADD, DOLT_RESET and DOLT_COMMIT of a session in a transaction.
#![tactic(auto)]

mod closing;
mod committing;
mod listing;
mod local;
mod making;
mod opening;
mod replying;
mod staging;
mod taking;

pub use closing::commit_closes;
pub use committing::plan_dolt_commit;
pub use local::branch_local;
