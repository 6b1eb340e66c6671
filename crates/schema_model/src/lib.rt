//! Schemas of tables, and what stands for a schema as bytes.
//!
//! The crates above use the types, the definitions of `specs/` (what a schema is, which bytes it has, and the written
//! forms of tables, databases, commits and branch records), the clauses that tie the calls to them, and the law that a
//! schema has one spelling.
#![tactic(auto)]

mod fields;
mod forms;
mod laws;
pub mod limits;
mod lists;
mod names;
mod parts;
mod readable;
mod reading;
mod rules;
mod sameness;
mod schemas;
mod sizes;
mod types;
mod writing;

pub use fields::address_at;
pub use forms::{FormBytes, push_short};
pub use laws::{law_of_ancestors, law_of_items, law_of_sameness, law_of_schemas, law_of_sizes};
pub use lists::{items_at, list_at};
pub use readable::Readable;
pub use reading::read_schema;
pub use rules::is_schema;
pub use sameness::is_same_schema;
pub use schemas::{CheckDef, Column, ForeignKey, IndexDef, Schema};
pub use sizes::schema_size;
pub use writing::{push_schema, write_schema};
