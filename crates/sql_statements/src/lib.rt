//! The grammar of statements, over pieces.
//!
//! Each rule is a reader in `specs/` and one function on a cursor. `statement_of` of `specs/Statements.antt` is the whole:
//! the statement that a list of pieces is, or how many pieces are left where no statement goes on.
#![tactic(auto)]

mod alters;
mod chosen;
mod clauses;
mod elements;
mod heads;
mod reading;
mod rows;
mod selection;
mod settings;
mod sources;
mod table_heads;
mod tables;
mod types;

pub use heads::{Opening, opening_of};
pub use reading::read_statement;
