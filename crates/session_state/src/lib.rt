//! What a session holds: its name, its branch, its variables, and its transaction in a draft of its own.
//!
//! The crates above use `SessionStands`, the plain session for which it stands, and the laws of how records, commits, transactions and
//! the state that sessions share stand in chunks.
#![tactic(auto)]

mod laws;
mod sessions;

pub use laws::{law_of_records, law_of_standing_commits, law_of_states, law_of_transactions};
pub use sessions::{Position, Session};
