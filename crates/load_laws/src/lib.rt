//! Laws of the workload: what its run comes to on the plain machine, whatever order its sessions' moments take.
//!
//! Each law stands on a function that does nothing.
#![tactic(auto)]

mod laws;

pub use laws::{law_of_commits, law_of_load, law_of_reading, law_of_scripts, law_of_statements};
