//! What two sides that have each gone on from one base come to: schemas merged by the names of their parts, rows of one schema as rows
//! of another, and tables and databases merged whole, as definitions.
//!
//! The crates above use the clauses of [`merge`], [`project`] and [`names_with`], the definitions `TableMerge.table3` and `RootMerge.root3`,
//! and the law of [`changes_merge`], that merging by what changed is merging over all keys.
#![tactic(auto)]

mod choosing;
mod copies;
mod covering;
mod faults;
mod finding;
mod merge_laws;
mod merged_names;
mod merging;
mod names;
mod parts;
mod projecting;
mod same;

pub use faults::SchemaFault;
pub use merge_laws::changes_merge;
pub use merged_names::names_with;
pub use merging::merge;
pub use projecting::project;
