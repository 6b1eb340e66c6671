//! What a session answers by itself, and what it plans for the state that sessions share.
#![tactic(auto)]

mod answering;
mod committing;
mod deleting;
mod dropping;
mod planning;
mod selecting;
mod values;
mod writing;

pub use answering::{ends_transaction, local};
pub use committing::plan_commit;
pub use planning::{finish, plan_begin};
