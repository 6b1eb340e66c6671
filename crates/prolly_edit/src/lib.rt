//! Edits of trees: keys are put and removed, and what no edit touches is kept as it is.
//!
//! The crates above use the clauses of [`apply`]: it gives the tree of `edited rows edits` (`Edits` of `tuple_codec`).
#![tactic(auto)]

mod applying;
mod merging;
mod paths;
mod reading;

pub use applying::apply;
