//! What a tree is, and reading it: an address stands for a list of rows by rising key.
//!
//! The crates that build, edit and compare trees use the laws too: how lists are cut into nodes, and that the nodes of a tree that
//! stands lead back to its rows.
#![tactic(auto)]

mod meets;
mod nodes;
mod passing;
mod paths;
mod scans;
mod steps;
mod tree_laws;
mod walks;

pub use meets::has_any;
pub use nodes::{count, get, known_at};
pub use scans::{Scan, scan_from};
pub use steps::WalkHead;
pub use tree_laws::{law_of_addresses, law_of_cutting, law_of_roots, law_of_rows};
pub use walks::Walk;
