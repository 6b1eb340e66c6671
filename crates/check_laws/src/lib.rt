//! Laws on which no contract rests. Of values and of tokens: a value has the kind that binding found, what is read back of an expression's canonical text is worth what
//! the expression is, and each token is the longest from its start. Of a run: every CHECK of a database is a canonical text with a meaning over its table's columns, and keeps it.
//!
//! Each law stands on a function that does nothing.
#![tactic(auto)]

mod kept_checks;
mod kind_laws;
mod laws;
mod tokens;

pub use kept_checks::{law_of_kept_checks, law_of_values};
pub use kind_laws::{law_of_assignment, law_of_kinds, law_of_shown_scales};
pub use laws::{
    law_of_changes, law_of_checks, law_of_merges, law_of_names, law_of_runs, law_of_shared,
    law_of_work,
};
pub use tokens::{law_of_bad_tokens, law_of_tokens};
