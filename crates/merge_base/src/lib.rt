//! The base of two commits, from which a merge goes out.
//!
//! The crates above use the clause of `merge_base`, over `base` of `schema_model` and `specs/Common.antt`.
#![tactic(auto)]

mod bases;

pub use bases::merge_base;
