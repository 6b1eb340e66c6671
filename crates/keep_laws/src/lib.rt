//! What database statements, decisions, merges and commits keep: databases within the limits on data stay such.
//!
//! Each law stands on a function that does nothing; proofs above call it, or import its lemma.
#![tactic(auto)]

pub use schema_laws::{all_keep, schemas_keep};
pub use state_laws::{changes_keep, decisions_keep, shared_keeps, work_keeps};

mod schema_laws;
mod state_laws;
