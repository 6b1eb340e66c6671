//! Tables whose rows are edited, with the lists of their indexes kept beside them.
//!
//! The crates above use `specs/Keeping.antt`: what stands after rows are edited, and where indexes are made anew; and `specs/Laws.antt`: which
//! edits of an index edited rows make, and that they give the list of the rows that come.
#![tactic(auto)]

mod changes;
mod entries;
mod indexes;
mod laws;
mod tables;

pub use changes::RowChange;
pub use entries::sort_edits;
pub use indexes::indexes_of;
pub use laws::law_of_index_lists;
pub use tables::apply_with_indexes;
