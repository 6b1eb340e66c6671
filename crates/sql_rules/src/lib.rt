//! What a statement is refused for by its text alone, once the grammar has read it as a tree.
//!
//! `is_outside` says whether the statement is outside the language, and `is_misused` whether a procedure of the
//! language is called with arguments that are none of its own.
#![tactic(auto)]

mod constraints;
mod defaults;
mod misuse;
mod names;
mod outside;
mod selects;
mod tables;
mod writes;

pub use constraints::{Sort, made_names};
pub use defaults::{Definition, altered_column, created_column};
pub use misuse::is_misused;
pub use outside::is_outside;
