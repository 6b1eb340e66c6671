//! Laws of runs of many sessions, for the code that serves a script: what must hold of each statement for the whole to be the machine's run.
//!
//! Each law stands on a function that does nothing.
#![tactic(auto)]

mod laws;

pub use laws::{law_of_lines, law_of_orders, law_of_statements};
